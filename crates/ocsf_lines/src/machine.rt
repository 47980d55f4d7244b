// What answers one line after another.
ghost use Rattle.std.specs.Prelude.{◌≡◌, ◌+◌, ◌≤◌, ◌^◌, ℕ, List, Bool, length, take, IfOk, OnOk, OnErr};
ghost use Rattle.std.specs.Io.KnownBytes.{Appends};
ghost use Rattle.ocsf_edge.specs.Faults.{HasCause};
ghost use Rattle.ocsf_edge.specs.Sink.{AppendsPrefix};

use ocsf_edge::{Bytes, Failed, Sink};
use std::alloc::AllocError;

/// The reply to a line, with the LF that ends it, and whether the line was at fault.
#[derive(Debug, Drop)]
pub struct Reply {
    pub text: Bytes,
    pub flawed: bool,
}

/// What answers one line after another. A line comes without the LF that ends it.
pub trait LineMachine {
    /// What the machine stands for between two lines.
    ghost State: { Type 0 };

    ghost state: { Self → State };

    /// At a state a line may have this reply, be at fault or not, and lead to another state.
    ghost Step: { State → List ℕ → List ℕ → Bool → State → Type 0 };

    /// What is written at a state where the source ends.
    ghost print: { State → List ℕ };

    /// The most bytes of a line that count: a longer line may be given by its first `MOST + 1`
    /// bytes alone. Where each line counts in full this is 2^40, the most bytes that a run takes.
    const MOST: usize;

    ghost MOST: { ℕ };

    /// Answers a line.
    fn answer(&mut self, line: &[u8]) -> Result<Reply, AllocError>
        ensures ok { IfOk result (λ reply.
            Step (state self.old) line.now reply.text reply.flawed (state self.new)) }
        ensures err { OnErr result (state self.new ≡ state self.old) };

    /// Writes what is printed at the end. After a fault a front of it was written.
    fn write_print<K: Sink>(&self, sink: &mut K) -> Result<(), Failed>
        ensures ok { OnOk result (Appends (K.written sink.old) (K.written sink.new)
            (print (state self.now))) }
        ensures err { OnErr result (AppendsPrefix (K.written sink.old) (K.written sink.new)
            (print (state self.now))) }
        ensures cause { HasCause (K.write_faults sink.old) (K.write_faults sink.new) result };

    // Each line has a reply.
    ghost answers: { (old : State) (line : List ℕ)
        → (reply : List ℕ) × (flawed : Bool) × (new : State) × Step old line reply flawed new };

    // What answers the front of a long line answers the line.
    ghost by_front: { (old : State) (line reply : List ℕ) (flawed : Bool) (new : State)
        → length line ≤ 2 ^ 40
        → Step old (take (MOST + 1) line) reply flawed new → Step old line reply flawed new };
}
