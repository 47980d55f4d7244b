// The command `validate`: an event a line.
ghost use Rattle.std.specs.Prelude.{◌≡◌, ◌++◌, ◌∷◌, [], map, IfOk};
ghost use Rattle.ocsf_tree.specs.CompactText.{text};
ghost use Rattle.ocsf_schema.specs.declared.parts.SchemaParts.{SchemaParts};
ghost use Rattle.ocsf_event.specs.Code.{told_violation};
ghost use Rattle.ocsf_event.specs.Answer.{report_tree};
ghost use Rattle.ocsf_tool.specs.Events.{EventStep, events_print, max_event, event_tree, is_event_flawed};
ghost use Rattle.ocsf_tool.specs.EventAnswers.{some_event_step, event_step_by_front};
ghost use Rattle.ocsf_tool.specs.EventOutcomes.{event_outcome};

use crate::event_judgement::{Judged, MOST_EVENT, judge_event};
use crate::replies::{line, unread};
use ocsf_edge::{Bytes, Failed, Sink};
use ocsf_event::{Violation, report_tree};
use ocsf_lines::{LineMachine, Reply};
use ocsf_pattern::Patterns;
use ocsf_schema::Schema;
use std::alloc::{AllocError, Global};

/// A schema by which events are judged, with the patterns that were last looked for.
pub struct Events {
    alloc: Global,
    schema: Schema,
    patterns: Patterns,
}

impl Drop for Events {
    fn drop(self) {
        let Events {
            alloc: _,
            schema: _,
            patterns: _,
        } = self;
    }
}

/// The report as a line.
fn report_line(alloc: Global, violations: &[Violation]) -> Result<Bytes, AllocError>
    ensures { IfOk result (λ reply. reply ≡ text (report_tree (map told_violation violations.now)) ++ 10 ∷ []) }
{
    let tree = report_tree(alloc, violations)?;
    line(alloc, &tree)
}

/// The reply to a line that comes to this.
fn reply_to(alloc: Global, judged: &Judged) -> Result<Reply, AllocError>
    ensures text { IfOk result (λ reply. reply.text ≡ text (event_tree (event_outcome judged.now)) ++ 10 ∷ []) }
    ensures flawed { IfOk result (λ reply. reply.flawed ≡ is_event_flawed (event_outcome judged.now)) }
{
    match judged {
        Judged::Report(violations) => {
            let text = report_line(alloc, violations.as_slice())?;
            let flawed = !violations.is_empty();
            Ok(Reply { text, flawed })
        }
        Judged::Unread(fault) => {
            let text = unread(alloc, fault)?;
            Ok(Reply { text, flawed: true })
        }
    }
}

impl Events {
    /// Judges by that schema.
    pub fn new(alloc: Global, schema: Schema) -> Result<Events, AllocError>
        ensures { IfOk result (λ events. ⟦<Events as LineMachine>⟧.state events ≡ schema) }
    {
        let patterns = Patterns::new(alloc)?;
        Ok(Events {
            alloc,
            schema,
            patterns,
        })
    }
}

impl LineMachine for Events {
    ghost State = { SchemaParts };

    ghost state = { λ events. events.schema };

    ghost Step = { EventStep };

    ghost print = { events_print };

    const MOST: usize = MOST_EVENT;

    ghost MOST = { max_event };

    fn answer(&mut self, line: &[u8]) -> Result<Reply, AllocError> {
        let judged = judge_event(self.alloc, &self.schema, &mut self.patterns, line)?;
        let reply = reply_to(self.alloc, &judged)?;
        Ok(reply)
    }

    fn write_print<K: Sink>(&self, _sink: &mut K) -> Result<(), Failed> {
        Ok(())
    }

    ghost answers = { some_event_step };

    ghost by_front = { λ old line reply flawed new within step. event_step_by_front old line reply flawed new step };
}
