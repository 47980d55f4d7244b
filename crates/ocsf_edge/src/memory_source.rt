// Sources in memory.
ghost use Rattle.std.specs.Prelude.{◌≡◌, ◌≤◌, ◌<◌, [], take, drop, length, Some, false};

use crate::{Bytes, Failed, Seq, Source};

/// Bytes that are read in pieces. It never fails.
#[derive(Drop)]
pub struct SureSource {
    bytes: Bytes,
    at: usize,
    sizes: Seq<u64>,
    reads: usize,
    ended: bool,
    ghost within: { at ≤ length bytes },
}

impl SureSource {
    /// The `k`-th read moves at most as many bytes as the `k`-th size says, where 0 counts as 1;
    /// after the last size only the buffer bounds a read.
    pub fn new(bytes: Bytes, sizes: Seq<u64>) -> SureSource
        ensures left { ⟦<SureSource as Source>⟧.left result ≡ Some bytes }
        ensures faults { ⟦<SureSource as Source>⟧.read_faults result ≡ 0 }
        ensures open { ⟦<SureSource as Source>⟧.has_ended result ≡ false }
    {
        SureSource {
            bytes,
            at: 0,
            sizes,
            reads: 0,
            ended: false,
        }
    }
}

// The most bytes that the read of this number, from 0, moves.
fn size_at(sizes: &[u64], read: usize) -> usize
    ensures { 0 < result }
{
    match sizes.get(read) {
        Some(size) => 1.max(*size as usize),
        None => usize::MAX,
    }
}

// Copies as many of the first bytes as there are, as fit and as may be.
fn copy_front(from: &[u8], into: &mut [u8], most: usize) -> usize
    requires { 0 < most }
    ensures there { result ≤ length from.now }
    ensures fits { result ≤ length into.new }
    ensures bytes { take result into.new ≡ take result from.now }
    ensures none { result ≡ 0 → 0 < length into.new → from.now ≡ [] }
{
    let count = from.len().min(into.len()).min(most);
    into[..count].copy_from_slice(&from[..count]);
    count
}

impl Source for SureSource {
    ghost left = { λ s. Some (drop s.at s.bytes) };

    ghost read_faults = { λ s. 0 };

    ghost has_ended = { λ s. s.ended };

    ghost SourceRest = { Unit {0} };

    ghost source_rest = { λ s. tt };

    #[tactic(auto, using(crate::proofs::Parts::drop_split))]
    fn read(&mut self, into: &mut [u8]) -> Result<usize, Failed> {
        let most = size_at(self.sizes.as_slice(), self.reads);
        let count = copy_front(&self.bytes.as_slice()[self.at..], into, most);
        self.at += count;
        self.reads = self.reads.saturating_add(1);
        self.ended = self.ended || (count == 0 && !into.is_empty());
        Ok(count)
    }
}

/// Bytes that are read in pieces, where some calls fail.
#[derive(Drop)]
pub struct MemorySource {
    inner: SureSource,
    failing: Seq<u64>,
    calls: u64,
    faults: u64,
}

impl MemorySource {
    /// The calls of the failing numbers fail, counted from 1. The others move bytes as those of a
    /// `SureSource` do.
    pub fn new(bytes: Bytes, sizes: Seq<u64>, failing: Seq<u64>) -> MemorySource
        ensures left { ⟦<MemorySource as Source>⟧.left result ≡ Some bytes }
        ensures faults { ⟦<MemorySource as Source>⟧.read_faults result ≡ 0 }
        ensures open { ⟦<MemorySource as Source>⟧.has_ended result ≡ false }
    {
        MemorySource {
            inner: SureSource::new(bytes, sizes),
            failing,
            calls: 0,
            faults: 0,
        }
    }
}

impl Source for MemorySource {
    ghost left = { λ s. ⟦<SureSource as Source>⟧.left s.inner };

    ghost read_faults = { λ s. s.faults };

    ghost has_ended = { λ s. ⟦<SureSource as Source>⟧.has_ended s.inner };

    ghost SourceRest = { Unit {0} };

    ghost source_rest = { λ s. tt };

    fn read(&mut self, into: &mut [u8]) -> Result<usize, Failed> {
        self.calls = self.calls.saturating_add(1);
        if self.failing.as_slice().contains(&self.calls) {
            self.faults = self.faults.saturating_add(1);
            return Err(Failed);
        }
        self.inner.read(into)
    }
}
