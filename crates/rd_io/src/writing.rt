//! A whole text into a sink.

ghost use Rattle.std.specs.Prelude.{OnOk, OnErr};
ghost use Rattle.std.specs.Io.KnownBytes.{Appends};
ghost use Rattle.rd_io.specs.Causes.{HasCause, GainsPart};

use crate::sink::Sink;
use crate::source::Failed;

/// Writes all of the bytes. After `Failed` a prefix of them was written.
pub fn write_all<O: Sink>(sink: &mut O, bytes: &[u8]) -> Result<(), Failed>
    ensures all { OnOk result (Appends (O.written sink.old) (O.written sink.new) bytes.now) }
    ensures part { OnErr result (GainsPart (O.written sink.old) (O.written sink.new) bytes.now) }
    ensures cause { HasCause (O.faults sink.old) (O.faults sink.new) result }
{
    let mut at = 0;
    while at < bytes.len() {
        at += sink.write(&bytes[at..])?;
    }
    Ok(())
}
