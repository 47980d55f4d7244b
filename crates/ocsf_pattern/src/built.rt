// A pattern built, with what its searches learn.
ghost use Rattle.std.specs.Prelude.{◌≡◌, ◌⊎◌, ℕ, List, IfOk, IfErr};
ghost use Rattle.ocsf_pattern.specs.Held.{IsBuiltFrom};
ghost use Rattle.ocsf_pattern.specs.Reads.{IsRegexOf};
ghost use Rattle.ocsf_pattern.specs.Matches.{is_found};
ghost use Rattle.ocsf_pattern.specs.Readings.{IsBad, NestsTooDeep};

use crate::finder::Finder;
use crate::patterns::PatternError;
use regex::{Error, Regex};
use std::alloc::{AllocError, Global};

/// A pattern as `regex` builds it, and the automaton that answers nearly every search.
pub(crate) struct Built {
    regex: Regex,
    finder: Finder,
}

impl Drop for Built {
    fn drop(self) {
        let Built {
            regex: _regex,
            finder: _finder,
        } = self;
    }
}

fn build(alloc: Global, text: &str) -> Result<Regex, PatternError>
    ensures refused { IfErr result (λ e. e ≡ PatternError.Refused → IsBad text.now ⊎ NestsTooDeep text.now) }
    ensures built { IfOk result (IsRegexOf text.now) }
{
    match Regex::new(alloc, text) {
        Ok(regex) => Ok(regex),
        Err(Error::Syntax(_)) => Err(PatternError::Refused),
        Err(_) => Err(PatternError::Memory),
    }
}

fn search(alloc: Global, regex: &Regex, subject: &str) -> Result<bool, AllocError>
    ensures { (text : List ℕ) → IsRegexOf text regex.now → IfOk result (λ found. found ≡ is_found text subject.now) }
{
    let mut matcher = regex.matcher(alloc)?;
    Ok(matcher.is_match(subject))
}

impl Built {
    pub(crate) fn new(alloc: Global, text: &str) -> Result<Built, PatternError>
        ensures refused { IfErr result (λ e. e ≡ PatternError.Refused → IsBad text.now ⊎ NestsTooDeep text.now) }
        ensures built { IfOk result (IsBuiltFrom text.now) }
    {
        let regex = build(alloc, text)?;
        match Finder::new(alloc, text) {
            Ok(finder) => Ok(Built { regex, finder }),
            Err(_) => Err(PatternError::Memory),
        }
    }

    /// Where the automaton doesn't tell, `regex` searches anew.
    pub(crate) fn search(&mut self, alloc: Global, subject: &str) -> Result<bool, AllocError>
        ensures found { (text : List ℕ) → IsBuiltFrom text self.old →
            IfOk result (λ found. found ≡ is_found text subject.now) }
        ensures same { (text : List ℕ) → IsBuiltFrom text self.old → IsBuiltFrom text self.new }
    {
        if let Some(found) = self.finder.find(subject) {
            return Ok(found);
        }
        search(alloc, &self.regex, subject)
    }
}
