// Bytes in pieces, some of which have other owners too.
ghost use Rattle.std.specs.Prelude.{◌≡◌, ◌++◌, [], length, flat_map, OnOk, OnErr};
ghost use Rattle.std.specs.Io.KnownBytes.{Appends};
ghost use Rattle.ocsf_edge.specs.Faults.{HasCause};
ghost use Rattle.ocsf_edge.specs.Sink.{AppendsPrefix};
ghost use Rattle.ocsf_schema.specs.Count.{IsCount};

use ocsf_edge::{Failed, Sink, write_all};
use ocsf_tree::{Row, Shared};
use std::alloc::{AllocError, Global};
use std::marker::Model;

/// Bytes in pieces, some of which have other owners too. Contracts see them joined.
#[derive(Drop)]
pub struct Rope {
    pieces: Row<Shared<Row<u8>>>,
}

impl Model for Rope {
    ghost use Rattle.std.specs.Prelude.{List, ℕ, flat_map};
    ghost use Rattle.std.specs.Coded.{coded_list, coded_ℕ};

    ghost Value = { List ℕ };

    ghost coded = { coded_list coded_ℕ };

    ghost view = { λ rope. flat_map (λ piece. piece) rope.pieces };
}

/// How many bytes the pieces have.
fn len_of(pieces: &[Shared<Row<u8>>]) -> Option<usize>
    ensures { IsCount (length (flat_map (λ piece. piece) pieces.now)) result }
{
    let mut len = 0usize;
    for piece in pieces {
        len = len.checked_add(piece.get().len())?;
    }
    Some(len)
}

fn write_pieces<K: Sink>(pieces: &[Shared<Row<u8>>], sink: &mut K) -> Result<(), Failed>
    ensures ok { OnOk result
        (Appends (K.written sink.old) (K.written sink.new) (flat_map (λ piece. piece) pieces.now)) }
    ensures err { OnErr result
        (AppendsPrefix (K.written sink.old) (K.written sink.new) (flat_map (λ piece. piece) pieces.now)) }
    ensures cause { HasCause (K.write_faults sink.old) (K.write_faults sink.new) result }
{
    for piece in pieces {
        write_all(sink, piece.get().as_slice())?;
    }
    Ok(())
}

impl Rope {
    /// No bytes, which take no memory.
    pub fn new(alloc: Global) -> Rope
        ensures { result ≡ [] }
    {
        Rope {
            pieces: Row::new(alloc),
        }
    }

    /// Appends a copy of the bytes.
    pub fn push_bytes(&mut self, alloc: Global, bytes: &[u8]) -> Result<(), AllocError>
        ensures { OnOk result (self.new ≡ self.old ++ bytes.now) }
    {
        let mut piece = Row::new(alloc);
        piece.extend_from_slice(bytes)?;
        self.push(alloc, piece)
    }

    /// Appends the bytes, which aren't copied. Room behind them is given back.
    pub fn push(&mut self, alloc: Global, mut bytes: Row<u8>) -> Result<(), AllocError>
        ensures { OnOk result (self.new ≡ self.old ++ bytes) }
    {
        bytes.shrink_to_fit();
        self.push_shared(Shared::new(alloc, bytes)?)
    }

    /// Appends the bytes, which have other owners too.
    pub fn push_shared(&mut self, bytes: Shared<Row<u8>>) -> Result<(), AllocError>
        ensures { OnOk result (self.new ≡ self.old ++ bytes) }
    {
        self.pieces.push(bytes)
    }

    /// How many bytes there are, and nothing where their number has more than 64 bits: a piece may stand there
    /// many times.
    pub fn len(&self) -> Option<usize>
        ensures { IsCount (length self.now) result }
    {
        len_of(self.pieces.as_slice())
    }

    /// Writes the bytes. After a failure a front of them was written.
    pub fn write_to<K: Sink>(&self, sink: &mut K) -> Result<(), Failed>
        ensures ok { OnOk result (Appends (K.written sink.old) (K.written sink.new) self.now) }
        ensures err { OnErr result (AppendsPrefix (K.written sink.old) (K.written sink.new) self.now) }
        ensures cause { HasCause (K.write_faults sink.old) (K.write_faults sink.new) result }
    {
        write_pieces(self.pieces.as_slice(), sink)
    }
}
