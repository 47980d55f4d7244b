// A line of `validate` is judged.
ghost use Rattle.std.specs.Prelude.{IfOk};
ghost use Rattle.ocsf_tool.specs.Events.{IsReadEvent, IsEventJudgement};
ghost use Rattle.ocsf_tool.specs.EventOutcomes.{event_outcome};

use crate::judgement::{is_longer, line_fault_of};
use ocsf_event::{Violation, report};
use ocsf_pattern::Patterns;
use ocsf_schema::Schema;
use ocsf_tree::{Code, Fault, Row, Text, TreeError, pointer, read};
use std::alloc::{AllocError, Global};

/// The most bytes of an event's line.
pub const MOST_EVENT: usize = 1 << 20;

/// What a line comes to.
#[derive(Drop)]
pub enum Judged {
    /// What is wrong with its event.
    Report(Row<Violation>),
    /// Why it says no event.
    Unread(Fault),
}

/// Judges a line that isn't too long.
fn judge_text(
    alloc: Global,
    schema: &Schema,
    patterns: &mut Patterns,
    line: &[u8],
) -> Result<Judged, AllocError>
    ensures { IfOk result (λ judged. IsReadEvent schema.now line.now (event_outcome judged)) }
{
    match read(alloc, line) {
        Ok(event) => {
            let violations = report(alloc, schema, &event, patterns)?;
            Ok(Judged::Report(violations))
        }
        Err(TreeError::NotJson) => {
            let name = Text::of(alloc, "")?;
            let fault = line_fault_of(alloc, Code::NotJson, name)?;
            Ok(Judged::Unread(fault))
        }
        Err(TreeError::NumberNotWhole(place)) => {
            let name = pointer(alloc, &place)?;
            let fault = line_fault_of(alloc, Code::NumberNotWhole, name)?;
            Ok(Judged::Unread(fault))
        }
        Err(TreeError::Memory) => Err(AllocError),
    }
}

/// Judges a line by the schema.
pub fn judge_event(
    alloc: Global,
    schema: &Schema,
    patterns: &mut Patterns,
    line: &[u8],
) -> Result<Judged, AllocError>
    ensures { IfOk result (λ judged. IsEventJudgement schema.now line.now (event_outcome judged)) }
{
    if is_longer(line, MOST_EVENT) {
        let name = Text::of(alloc, "event")?;
        let fault = line_fault_of(alloc, Code::Limit, name)?;
        return Ok(Judged::Unread(fault));
    }
    let judged = judge_text(alloc, schema, patterns, line)?;
    Ok(judged)
}
