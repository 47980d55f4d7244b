// Writing a whole piece.
ghost use Rattle.std.specs.Prelude.{◌≡◌, ◌++◌, OnOk, OnErr};
ghost use Rattle.std.specs.Io.KnownBytes.{Appends};
ghost use Rattle.ocsf_edge.specs.Faults.{HasCause};
ghost use Rattle.ocsf_edge.specs.Sink.{AppendsPrefix};

use crate::{Failed, Sink};

/// Writes all of the bytes. After a fault a front of them was written.
pub fn write_all<K: Sink>(sink: &mut K, bytes: &[u8]) -> Result<(), Failed>
    ensures ok { OnOk result (Appends (K.written sink.old) (K.written sink.new) bytes.now) }
    ensures err { OnErr result (AppendsPrefix (K.written sink.old) (K.written sink.new) bytes.now) }
    ensures cause { HasCause (K.write_faults sink.old) (K.write_faults sink.new) result }
    ensures rest { K.sink_rest sink.new ≡ K.sink_rest sink.old }
{
    let mut at = 0;
    while at < bytes.len() {
        at += sink.write(&bytes[at..])?;
    }
    Ok(())
}

/// Writes both pieces, as `write_all` writes them in one.
pub fn write_both<K: Sink>(sink: &mut K, first: &[u8], second: &[u8]) -> Result<(), Failed>
    ensures ok { OnOk result (Appends (K.written sink.old) (K.written sink.new) (first.now ++ second.now)) }
    ensures err { OnErr result (AppendsPrefix (K.written sink.old) (K.written sink.new)
        (first.now ++ second.now)) }
    ensures cause { HasCause (K.write_faults sink.old) (K.write_faults sink.new) result }
    ensures rest { K.sink_rest sink.new ≡ K.sink_rest sink.old }
{
    write_all(sink, first)?;
    write_all(sink, second)?;
    Ok(())
}
