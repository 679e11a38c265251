//! The line on standard error. It takes no memory.

ghost use Rattle.std.specs.Prelude.{◌≡◌, ◌++◌, map, OnOk, OnErr};
ghost use Rattle.std.specs.Io.KnownBytes.{Appends};
ghost use Rattle.rd_io.specs.Causes.{GainsPart};
ghost use Rattle.rd_run.specs.Endings as ends;
ghost use Rattle.rd_run.specs.Endings.{stream, HasFailed, Tells};
ghost use Rattle.rd_run.specs.Internal.Telling.{joined};

use crate::status::Status;
use itoa::Buffer;
use rd_io::{Failed, Sink, write_all};
use rd_scene::{Place, Why};

/// Which rule is broken.
fn why_text(why: Why) -> &'static str
    ensures { result.now ≡ ends.why_text why }
{
    match why {
        Why::Missing => "Missing",
        Why::Unknown => "Unknown",
        Why::Kind => "Kind",
        Why::Range => "Range",
        Why::Color => "Color",
        Why::Duplicate => "Duplicate",
        Why::Parent => "Parent",
        Why::Depth => "Depth",
        Why::Count => "Count",
        Why::Command => "Command",
    }
}

/// Where a rule is broken, in a word, and in a number that is written into the buffer where there is one.
fn place_words(place: Place, digits: &mut Buffer) -> (&'static str, &str)
    ensures { result.0.now ++ result.1.now ≡ ends.place_text place }
{
    match place {
        Place::Top => ("top", ""),
        Place::Canvas => ("canvas", ""),
        Place::Box(n) => ("box ", digits.format(n)),
        Place::Command(n) => ("command ", digits.format(n)),
    }
}

/// Writes one piece after another.
fn write_pieces<E: Sink>(err: &mut E, pieces: &[&str]) -> Result<(), Failed>
    ensures all { OnOk result (Appends (E.written err.old) (E.written err.new) (joined (map (λ s. s.now) pieces.now))) }
    ensures part { OnErr result (GainsPart (E.written err.old) (E.written err.new) (joined (map (λ s. s.now) pieces.now))) }
    ensures fault { OnErr result (HasFailed
        (stream (E.written err.old) (E.written err.new) (E.faults err.old) (E.faults err.new))) }
{
    for piece in pieces {
        write_all(err, piece.as_bytes())?;
    }
    Ok(())
}

/// Writes the line of a status that says a place.
#[tactic(auto, using(crate::proofs::Pieces::six_pieces))]
fn write_form<E: Sink>(err: &mut E, place: Place, why: Why) -> Result<(), Failed>
    ensures all { OnOk result (Appends (E.written err.old) (E.written err.new) (ends.line_of (Status.Form place why))) }
    ensures part { OnErr result (GainsPart (E.written err.old) (E.written err.new) (ends.line_of (Status.Form place why))) }
    ensures fault { OnErr result (HasFailed
        (stream (E.written err.old) (E.written err.new) (E.faults err.old) (E.faults err.new))) }
{
    let mut digits = Buffer::new();
    let (word, number) = place_words(place, &mut digits);
    let pieces = ["form: ", word, number, ": ", why_text(why), "\n"];
    write_pieces(err, pieces.as_slice())
}

/// Writes one text.
fn write_one<E: Sink>(err: &mut E, text: &str) -> Result<(), Failed>
    ensures all { OnOk result (Appends (E.written err.old) (E.written err.new) text.now) }
    ensures part { OnErr result (GainsPart (E.written err.old) (E.written err.new) text.now) }
    ensures fault { OnErr result (HasFailed
        (stream (E.written err.old) (E.written err.new) (E.faults err.old) (E.faults err.new))) }
{
    write_all(err, text.as_bytes())
}

/// Writes the line of a status.
fn write_line<E: Sink>(err: &mut E, status: Status) -> Result<(), Failed>
    ensures all { OnOk result (Appends (E.written err.old) (E.written err.new) (ends.line_of status)) }
    ensures part { OnErr result (GainsPart (E.written err.old) (E.written err.new) (ends.line_of status)) }
    ensures fault { OnErr result (HasFailed
        (stream (E.written err.old) (E.written err.new) (E.faults err.old) (E.faults err.new))) }
{
    match status {
        Status::Done => Ok(()),
        Status::Usage => write_one(
            err,
            "usage: rd_cli replay | rd_cli render | rd_cli storm --seed N --boxes N --edits N | rd_cli tiles | rd_cli wire | rd_cli compose | rd_cli check\n",
        ),
        Status::NotJson => write_one(err, "not json\n"),
        Status::Form { place, why } => write_form(err, place, why),
        Status::ReadFault => write_one(err, "read fault\n"),
        Status::WriteFault => write_one(err, "write fault\n"),
        Status::NoMemory => write_one(err, "out of memory\n"),
        Status::TooLarge => write_one(err, "input too large\n"),
        Status::BadWire => write_one(err, "bad wire\n"),
        Status::BadDump => write_one(err, "bad dump\n"),
    }
}

/// Writes the line of a status, with its newline; nothing where all went well. It takes no memory, and a fault of the stream
/// changes nothing else.
pub fn tell<E: Sink>(err: &mut E, status: Status)
    ensures { Tells (stream (E.written err.old) (E.written err.new) (E.faults err.old) (E.faults err.new)) status }
{
    match write_line(err, status) {
        Ok(()) => {}
        Err(_) => {}
    }
}
