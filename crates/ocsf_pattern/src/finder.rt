// The automaton of a pattern, which its searches build as they go, kept from search to search.
ghost use Rattle.std.specs.Prelude.{◌≡◌, ◌<◌, IfOk, IfSome, is_some};
ghost use Rattle.regex_dfa.specs.Search.{IsForwardFor};
ghost use Rattle.regex_meta.specs.Programs.{leftmost};
ghost use Rattle.ocsf_pattern.specs.Reads.{IsProgramOf};

use regex_dfa::{End, Forward};
use regex_meta::Program;
use regex_syntax::{Config, Parsed, parse};
use std::alloc::{AllocError, Global};

/// The bytes that a program's tables may take, as `regex` has it.
const SIZE_LIMIT: usize = 10 << 20;

pub(crate) struct Finder {
    program: Program,
    forward: Forward,
    ghost own: { IsForwardFor forward program.dfa },
}

impl Drop for Finder {
    fn drop(self) {
        let Finder {
            forward: _forward,
            program: _program,
        } = self;
    }
}

fn program(alloc: Global, text: &str) -> Result<Program, AllocError>
    ensures { IfOk result (IsProgramOf text.now) }
{
    let Ok(Parsed { hir, names }) = parse(alloc, text, &Config::default()) else {
        return Err(AllocError);
    };
    let Ok(groups) = u32::try_from(names.len()) else {
        return Err(AllocError);
    };
    match Program::new(alloc, hir, groups, SIZE_LIMIT) {
        Ok(program) => Ok(program),
        Err(_) => Err(AllocError),
    }
}

fn find_in(program: &Program, forward: &mut Forward, subject: &str) -> Option<bool>
    requires { IsForwardFor forward.old program.now.dfa }
    ensures found { IfSome result (λ found. found ≡ is_some (leftmost program.now subject.now 0)) }
    ensures own { IsForwardFor forward.new program.now.dfa }
{
    let bytes = subject.as_bytes();
    match forward.find_end(&program.dfa, bytes, 0, bytes.len(), false, true) {
        End::At(_) => Some(true),
        End::NoMatch => Some(false),
        End::Idle(_) | End::GaveUp => None,
    }
}

impl Finder {
    pub(crate) fn new(alloc: Global, text: &str) -> Result<Finder, AllocError>
        ensures { IfOk result (λ finder. IsProgramOf text.now finder.program) }
    {
        let program = program(alloc, text)?;
        let forward = Forward::new(alloc, &program.dfa, false)?;
        Ok(Finder { program, forward })
    }

    /// Whether the pattern is found; none where the automaton outgrows its room, or where an empty text may be
    /// found, since the automaton goes by bytes and would find one inside a character.
    pub(crate) fn find(&mut self, subject: &str) -> Option<bool>
        ensures found { IfSome result (λ found. found ≡ is_some (leftmost self.old.program subject.now 0)) }
        ensures filled { IfSome result (λ found. 0 < self.old.program.min_len) }
        ensures same { self.new.program ≡ self.old.program }
    {
        if self.program.min_len == 0 {
            return None;
        }
        find_in(&self.program, &mut self.forward, subject)
    }
}
