// Runs of a machine over the lines of a source, in pieces and with faults.
ghost use Rattle.std.specs.Prelude.{◌≡◌, ◌+◌, ◌%◌, ◌^◌, ◌==◌, ◌∷◌, ◌++◌, [], ℕ};
ghost use Rattle.std.specs.Prelude.{IfOk, if◌then◌else◌, codes, length, take, refl};
ghost use Rattle.std.proofs.Common.{arith, subst, sym};
ghost use Rattle.std.proofs.lemmas.List.{take-take};

use ocsf_edge::{Bytes, Failed, MemorySink, MemorySource, Seq, Sink, write_all};
use ocsf_lines::{LineMachine, LinesEnd, Reply, run_lines};
use ocsf_table::halves;
use std::alloc::{AllocError, Global};
use std::test::Fail;

// Gives the first five bytes of each line back, finds an empty line at fault, and prints at the
// end whether the number of lines is even.
#[derive(Drop)]
struct Echo {
    alloc: Global,
    count: u64,
}

fn reply_text(alloc: Global, front: &[u8]) -> Result<Vec<u8>, AllocError>
    ensures { IfOk result (λ text. text.items ≡ front.now ++ 10 ∷ []) }
{
    let mut text = Vec::from_slice(alloc, front)?;
    text.push(b'\n')?;
    Ok(text)
}

impl LineMachine for Echo {
    ghost State = { ℕ };

    ghost state = { λ e. e.count };

    ghost Step = { λ old line reply flawed new.
        (reply ≡ take 5 line ++ 10 ∷ []) × (flawed ≡ (length (take 5 line) == 0)) × (new ≡ (old + 1) % 2 ^ 64) };

    ghost print = { λ count. if count % 2 == 0 then codes "even" else codes "odd" };

    const MOST: usize = 5;

    ghost MOST = { 5 };

    fn answer(&mut self, line: &[u8]) -> Result<Reply, AllocError> {
        let front = &line[..line.len().min(5)];
        let text = Bytes::from(reply_text(self.alloc, front)?);
        self.count = self.count.wrapping_add(1);
        Ok(Reply {
            text,
            flawed: front.is_empty(),
        })
    }

    fn write_print<K: Sink>(&self, sink: &mut K) -> Result<(), Failed> {
        if self.count.is_multiple_of(2) {
            return write_all(sink, b"even");
        }
        write_all(sink, b"odd")
    }

    ghost answers = { λ old line. (
      take 5 line ++ 10 ∷ [],
      length (take 5 line) == 0,
      (old + 1) % 2 ^ 64,
      (refl, refl, refl),
    ) };

    ghost by_front = { λ old line reply flawed new within step.
        subst (λ front. (reply ≡ front ++ 10 ∷ []) × (flawed ≡ (length front == 0)) × (new ≡ (old + 1) % 2 ^ 64))
        (take-take 5 6 line (Prim.omega arith)) step };
}

fn numbers(alloc: Global, number: u64, count: usize) -> Result<Seq<u64>, AllocError> {
    Ok(Seq::from_vec(vec![in alloc; number; count]?))
}

// These bytes in pieces of this size; the call of this number fails.
fn source(
    alloc: Global,
    bytes: &[u8],
    size: u64,
    failing: u64,
) -> Result<MemorySource, AllocError> {
    let sizes = numbers(alloc, size, bytes.len())?;
    let failing = numbers(alloc, failing, 1)?;
    Ok(MemorySource::new(Bytes::of(alloc, bytes)?, sizes, failing))
}

fn ends(
    alloc: Global,
    source: &mut MemorySource,
    sink: &mut MemorySink,
    end: LinesEnd,
    written: &str,
) -> bool {
    let mut machine = Echo { alloc, count: 0 };
    run_lines(alloc, &mut machine, source, sink) == end && sink.written() == written.as_bytes()
}

// Whether a run over the source, where the write of this number fails, ends so and writes this.
fn is_echoed(
    alloc: Global,
    source: &mut MemorySource,
    failing: u64,
    end: LinesEnd,
    written: &str,
) -> Result<bool, AllocError> {
    let mut sink = MemorySink::new(alloc, numbers(alloc, failing, 1)?);
    Ok(ends(alloc, source, &mut sink, end, written))
}

fn is_answered(alloc: Global, row: &str, size: u64) -> Result<bool, AllocError> {
    let (bytes, rest) = halves(row, "|");
    let (written, word) = halves(rest, "|");
    let end = LinesEnd::Ended {
        flawed: word == "flawed",
    };
    let mut source = source(alloc, bytes.as_bytes(), size, 0)?;
    is_echoed(alloc, &mut source, 0, end, written)
}

// A row is the bytes of the source, what is written, and whether a line was at fault.
const LINES: &str =
    "|even|;\n|\nodd|flawed;ab|ab\nodd|;ab\n|ab\nodd|;ab\ncd\n\nefgh|ab\ncd\n\nefgh\neven|flawed;abcdefghi\njk\nlmnopqrs|abcde\njk\nlmnop\nodd|";

#[test]
fn lines_are_answered_however_they_are_cut(rt: HostRuntime) -> Result<(), Fail> {
    for row in LINES.split(';') {
        for size in [1, 2, 3, 7, 1000] {
            assert!(rt; is_answered(rt.alloc(), row, size)?, "{row} by {size}");
        }
    }
    Ok(())
}

fn number(word: &str) -> u64 {
    word.parse::<u64>().unwrap_or(0)
}

fn is_stopped(alloc: Global, row: &str) -> Result<bool, AllocError> {
    let (of, rest) = halves(row, " ");
    let (call, written) = halves(rest, "|");
    let call = number(call);
    let (read, write, end) = match of {
        "read" => (call, 0, LinesEnd::ReadFault),
        _ => (0, call, LinesEnd::WriteFault),
    };
    let mut source = source(alloc, b"ab\ncd\nefg", 4, read)?;
    is_echoed(alloc, &mut source, write, end, written)
}

// The number of the call that fails, a read of a piece of four bytes or the write of a reply, and what was
// written.
const FAULTS: &str =
    "read 1|;read 2|ab\n;read 4|ab\ncd\n;write 1|;write 2|ab\n;write 4|ab\ncd\nefg\n";

#[test]
fn faults_stop_a_run(rt: HostRuntime) -> Result<(), Fail> {
    for row in FAULTS.split(';') {
        assert!(rt; is_stopped(rt.alloc(), row)?, "{row}");
    }
    Ok(())
}

fn long_lines(alloc: Global) -> Result<Vec<u8>, AllocError> {
    let mut bytes = vec![in alloc; b'a'; 200_000]?;
    bytes.extend_from_slice(b"\nbc\n")?;
    Ok(bytes)
}

fn holds_long_lines(alloc: Global) -> Result<bool, AllocError> {
    let bytes = long_lines(alloc)?;
    let mut source = source(alloc, &bytes, 1_000_000, 0)?;
    let end = LinesEnd::Ended { flawed: false };
    is_echoed(alloc, &mut source, 0, end, "aaaaa\nbc\neven")
}

// A line and a source that are longer than one read.
#[test]
fn long_lines_are_held_in_part(rt: HostRuntime) -> Result<(), Fail> {
    assert!(rt; holds_long_lines(rt.alloc())?);
    Ok(())
}
