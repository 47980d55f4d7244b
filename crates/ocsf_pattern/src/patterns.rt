// Patterns kept built: what is answered never depends on what is kept.
ghost use Rattle.std.specs.Prelude.{◌≡◌, ◌≤◌, ◌⊎◌, ℕ, List, [], map, All, length, IfOk, IfErr, OnOk, OnErr};
ghost use Rattle.std.specs.Prelude.{string_bytes};
ghost use Rattle.ocsf_pattern.specs.Held.{used, IsBuiltFrom};
ghost use Rattle.ocsf_pattern.specs.Matches.{is_found};
ghost use Rattle.ocsf_pattern.specs.Readings.{IsGood, IsBad, NestsTooDeep};

use crate::built::Built;
use lru::LruCache;
use std::alloc::{AllocError, Global};
use std::marker::Model;
use std::num::NonZeroUsize;

/// Why a pattern isn't admitted.
#[derive(Clone, Copy, Debug, Drop, PartialEq, Eq)]
pub enum PatternError {
    /// `regex` reads no pattern from the text, or it nests too deep.
    Refused,
    /// Memory ran out, or a ceiling on memory of `regex` was met.
    Memory,
}

/// At most eight patterns kept built, seen as their texts, the last used first.
#[derive(Drop)]
pub struct Patterns {
    cache: LruCache<String, Built>,
    alloc: Global,
}

impl Model for Patterns {
    ghost Value = { List (List ℕ) };

    ghost view = { λ p. map (λ e. string_bytes e.0) p.cache.entries };

    ghost invariant = { λ p. (p.cache.cap ≡ 8) × (length p.cache.entries ≤ 8)
        × All (λ e. IsBuiltFrom (string_bytes e.0) e.1) p.cache.entries };
}

impl Patterns {
    /// No pattern kept yet.
    pub fn new(alloc: Global) -> Result<Patterns, AllocError>
        ensures { IfOk result (λ p. p ≡ []) }
    {
        let cache = LruCache::new(alloc, NonZeroUsize::new(8).unwrap())?;
        Ok(Patterns { cache, alloc })
    }

    fn keep(&mut self, text: &str, built: Built) -> Result<(), AllocError>
        requires { IsBuiltFrom text.now built }
        ensures kept { OnOk result (self.new ≡ used text.now self.old) }
        ensures same { OnErr result (self.new ≡ self.old) }
    {
        let key = String::from_str(self.alloc, text)?;
        match self.cache.put(key, built) {
            Ok(_) => Ok(()),
            Err(_) => Err(AllocError),
        }
    }

    /// Admits the text as a pattern and keeps it built. A text that isn't admitted changes nothing.
    pub fn admit(&mut self, text: &str) -> Result<(), PatternError>
        ensures refused { IfErr result (λ e. e ≡ PatternError.Refused → IsBad text.now ⊎ NestsTooDeep text.now) }
        ensures good { OnOk result (IsGood text.now) }
        ensures kept { OnOk result (self.new ≡ used text.now self.old) }
        ensures same { OnErr result (self.new ≡ self.old) }
    {
        if self.cache.promote(text) {
            return Ok(());
        }
        let built = Built::new(self.alloc, text)?;
        match self.keep(text, built) {
            Ok(()) => Ok(()),
            Err(_) => Err(PatternError::Memory),
        }
    }

    /// Whether the pattern of that text is found in the subject. A text that is no pattern, which no
    /// compiled schema has, counts as want of memory, and so does a ceiling on memory of `regex`.
    pub fn matches(&mut self, text: &str, subject: &str) -> Result<bool, AllocError>
        ensures found { IfOk result (λ found. found ≡ is_found text.now subject.now) }
        ensures kept { OnOk result (self.new ≡ used text.now self.old) }
        ensures same { OnErr result (self.new ≡ self.old) }
    {
        let alloc = self.alloc;
        if let Some(built) = self.cache.peek_mut(text) {
            let found = built.search(alloc, subject)?;
            self.cache.promote(text);
            return Ok(found);
        }
        let Ok(mut built) = Built::new(alloc, text) else {
            return Err(AllocError);
        };
        let found = built.search(alloc, subject)?;
        self.keep(text, built)?;
        Ok(found)
    }
}
