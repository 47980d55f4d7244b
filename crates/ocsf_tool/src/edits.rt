// The command `edits`: an edit a line.
ghost use Rattle.std.specs.Prelude.{◌≡◌, IfOk};
ghost use Rattle.ocsf_tool.specs.Edits.{Edited, EditStep, edits_print, max_edit, no_edits};
ghost use Rattle.ocsf_tool.specs.Answered.{some_step, step_by_front};

use crate::compilation::Compilation;
use crate::judgement::{MOST_EDIT, judge};
use crate::outcome::Outcome;
use crate::replies::{accepted, refused};
use ocsf_edge::{Failed, Sink};
use ocsf_lines::{LineMachine, Reply};
use std::alloc::{AllocError, Global};

/// What was accepted so far.
pub struct Edits {
    alloc: Global,
    now: Compilation,
}

impl Drop for Edits {
    fn drop(self) {
        let Edits { alloc: _, now: _ } = self;
    }
}

impl Edits {
    /// No files, and no edit yet.
    pub fn new(alloc: Global) -> Result<Edits, AllocError>
        ensures { IfOk result (λ edits. ⟦<Edits as LineMachine>⟧.state edits ≡ no_edits) }
    {
        Ok(Edits {
            alloc,
            now: Compilation::empty(alloc)?,
        })
    }
}

impl LineMachine for Edits {
    ghost State = { Edited };

    ghost state = { λ edits. record { bundle = edits.now.bundle; revision = edits.now.revision } };

    ghost Step = { EditStep };

    ghost print = { edits_print };

    const MOST: usize = MOST_EDIT;

    ghost MOST = { max_edit };

    fn answer(&mut self, line: &[u8]) -> Result<Reply, AllocError> {
        match judge(self.alloc, &self.now, line)? {
            Outcome::Accepted(next) => {
                let text = accepted(self.alloc, next.revision)?;
                self.now = next;
                Ok(Reply {
                    text,
                    flawed: false,
                })
            }
            Outcome::Refused(fault) => {
                let text = refused(self.alloc, &fault)?;
                Ok(Reply { text, flawed: true })
            }
        }
    }

    fn write_print<K: Sink>(&self, sink: &mut K) -> Result<(), Failed> {
        self.now.schema.write_to(sink)
    }

    ghost answers = { some_step };

    ghost by_front = { λ old line reply flawed new within step. step_by_front old line reply flawed new step };
}
