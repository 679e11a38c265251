//! The line on standard error.
ghost use Rattle.rd_run.specs.Endings.{stream};
ghost use Rattle.rd_why.specs.Endings.{Tells};

use rd_io::{Sink, write_all};
use rd_run::{Status, tell};

/// Writes the line of words that are of no form.
fn tell_usage<E: Sink>(err: &mut E)
    ensures { Tells (stream (E.written err.old) (E.written err.new) (E.faults err.old) (E.faults err.new)) Status.Usage }
{
    let line = "usage: rd_why X Y [--json]\n";
    match write_all(err, line.as_bytes()) {
        Ok(()) => {}
        Err(_) => {}
    }
}

/// Writes the line of a status, with its newline; nothing where all went well. It takes no memory, and a fault of the stream
/// changes nothing else.
pub(crate) fn tell_why<E: Sink>(err: &mut E, status: Status)
    ensures { Tells (stream (E.written err.old) (E.written err.new) (E.faults err.old) (E.faults err.new)) status }
{
    match status {
        Status::Usage => tell_usage(err),
        other => tell(err, other),
    }
}
