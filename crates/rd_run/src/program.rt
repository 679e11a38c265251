//! The top call.

ghost use Rattle.std.specs.Prelude.{◌≡◌, Some, map, string_bytes};
ghost use Rattle.rd_run.specs.Endings.{counter, stream, Ends, EndsAs, Runs};
ghost use Rattle.rd_run.specs.Words.{words_form};
ghost use Rattle.rd_run.specs.Internal.Limits.{IsWithinLimits};
ghost use Rattle.rd_run.specs.declared.words.WordsForm.TheVariants.{Replay, Render, Tiles, Wire};

use crate::answers::answer;
use crate::checking::check_input;
use crate::composing::compose;
use crate::input::read_input;
use crate::performing::{render, storm, wire};
use crate::status::Status;
use crate::telling::tell;
use crate::tiling::tiles;
use crate::words::{WordsForm, read_words};
use rd_geom::Steps;
use rd_io::{Sink, Source};
use std::alloc::Global;
use std::sync::ledger::Ledger;

/// Reads a script, and answers its commands.
fn serve_replay<S: Source, O: Sink, A: Ledger, B: Ledger>(
    alloc: Global,
    source: &mut S,
    out: &mut O,
    made: &mut Steps<A>,
    looks: &mut Steps<B>,
) -> Status
    ensures { EndsAs (source.new ≡ source.old) ((out.new ≡ out.old) × (made.new ≡ made.old) × (looks.new ≡ looks.old))
        (stream (S.left source.old) (S.left source.new) (S.faults source.old) (S.faults source.new))
        (stream (O.written out.old) (O.written out.new) (O.faults out.old) (O.faults out.new))
        (counter made.old made.new) (counter looks.old looks.new) Replay result }
{
    match read_input(alloc, source) {
        Ok(script) => answer(alloc, &script, out, made, looks),
        Err(status) => status,
    }
}

/// Reads a script, does its commands, and writes the picture.
fn serve_render<S: Source, O: Sink, A: Ledger, B: Ledger>(
    alloc: Global,
    source: &mut S,
    out: &mut O,
    made: &mut Steps<A>,
    looks: &mut Steps<B>,
) -> Status
    ensures { EndsAs (source.new ≡ source.old) ((out.new ≡ out.old) × (made.new ≡ made.old) × (looks.new ≡ looks.old))
        (stream (S.left source.old) (S.left source.new) (S.faults source.old) (S.faults source.new))
        (stream (O.written out.old) (O.written out.new) (O.faults out.old) (O.faults out.new))
        (counter made.old made.new) (counter looks.old looks.new) Render result }
{
    match read_input(alloc, source) {
        Ok(script) => render(alloc, &script, out, made, looks),
        Err(status) => status,
    }
}

/// Reads a script, does its commands on tiles, and writes the lines of its paints.
fn serve_tiles<S: Source, O: Sink, A: Ledger, B: Ledger>(
    alloc: Global,
    source: &mut S,
    out: &mut O,
    made: &mut Steps<A>,
    looks: &mut Steps<B>,
) -> Status
    ensures { EndsAs (source.new ≡ source.old) ((out.new ≡ out.old) × (made.new ≡ made.old) × (looks.new ≡ looks.old))
        (stream (S.left source.old) (S.left source.new) (S.faults source.old) (S.faults source.new))
        (stream (O.written out.old) (O.written out.new) (O.faults out.old) (O.faults out.new))
        (counter made.old made.new) (counter looks.old looks.new) Tiles result }
{
    match read_input(alloc, source) {
        Ok(script) => tiles(alloc, &script, out, made, looks),
        Err(status) => status,
    }
}

/// Reads a script, does its commands, and writes the list.
fn serve_wire<S: Source, O: Sink, A: Ledger, B: Ledger>(
    alloc: Global,
    source: &mut S,
    out: &mut O,
    made: &mut Steps<A>,
    looks: &mut Steps<B>,
) -> Status
    ensures { EndsAs (source.new ≡ source.old) ((out.new ≡ out.old) × (made.new ≡ made.old) × (looks.new ≡ looks.old))
        (stream (S.left source.old) (S.left source.new) (S.faults source.old) (S.faults source.new))
        (stream (O.written out.old) (O.written out.new) (O.faults out.old) (O.faults out.new))
        (counter made.old made.new) (counter looks.old looks.new) Wire result }
{
    match read_input(alloc, source) {
        Ok(script) => wire(alloc, &script, out, made, looks),
        Err(status) => status,
    }
}

/// Does what words of a form ask for.
fn serve_form<S: Source, O: Sink, A: Ledger, B: Ledger>(
    alloc: Global,
    form: WordsForm,
    source: &mut S,
    out: &mut O,
    made: &mut Steps<A>,
    looks: &mut Steps<B>,
) -> Status
    requires { IsWithinLimits form }
    ensures { EndsAs (source.new ≡ source.old) ((out.new ≡ out.old) × (made.new ≡ made.old) × (looks.new ≡ looks.old))
        (stream (S.left source.old) (S.left source.new) (S.faults source.old) (S.faults source.new))
        (stream (O.written out.old) (O.written out.new) (O.faults out.old) (O.faults out.new))
        (counter made.old made.new) (counter looks.old looks.new) form result }
{
    match form {
        WordsForm::Replay => serve_replay(alloc, source, out, made, looks),
        WordsForm::Render => serve_render(alloc, source, out, made, looks),
        WordsForm::Tiles => serve_tiles(alloc, source, out, made, looks),
        WordsForm::Wire => serve_wire(alloc, source, out, made, looks),
        WordsForm::Compose => compose(alloc, source, out),
        WordsForm::Check => check_input(alloc, source, out, made, looks),
        WordsForm::Storm { seed, boxes, edits } => {
            storm(alloc, seed, boxes, edits, out, made, looks)
        }
    }
}

/// Does what the words ask for.
fn serve<S: Source, O: Sink, A: Ledger, B: Ledger>(
    alloc: Global,
    words: &[String],
    source: &mut S,
    out: &mut O,
    made: &mut Steps<A>,
    looks: &mut Steps<B>,
) -> Status
    ensures { Ends (source.new ≡ source.old) ((out.new ≡ out.old) × (made.new ≡ made.old) × (looks.new ≡ looks.old))
        (stream (S.left source.old) (S.left source.new) (S.faults source.old) (S.faults source.new))
        (stream (O.written out.old) (O.written out.new) (O.faults out.old) (O.faults out.new))
        (counter made.old made.new) (counter looks.old looks.new) (words_form (map string_bytes words.now)) result }
{
    match read_words(alloc, words) {
        Ok(Some(form)) => serve_form(alloc, form, source, out, made, looks),
        Ok(None) => Status::Usage,
        Err(_) => Status::NoMemory,
    }
}

/// Does all that the program does, and gives its exit status. The words are those after the program's name. Under the word
/// `replay` it reads a script from `source` and writes to `out` the lines that answer its commands; under `render` it reads
/// one, does its commands, and writes the picture of what is painted at its end (Netpbm P6); under `storm` it does the commands
/// of a generated script, and writes a summary of four lines; under `tiles` it does what it does under `render`, on tiles of 64
/// by 64 pixels, and writes a line for each paint and last the digest of the picture; under `wire` it writes the list that is
/// kept at the end of a script in the wire form; under `compose` it reads such a list, and writes its picture; under `check` it
/// reads a dump and a script behind it, does the script's edits and undos, and writes whether the dump is one of a list that
/// stands for the painting order then, and if not, why not. The line that goes with another status than 0 goes to `err`. `made`
/// counts the items that paints make, and `looks` the looks at boxes.
pub fn run<S: Source, O: Sink, E: Sink, A: Ledger, B: Ledger>(
    alloc: Global,
    words: &[String],
    source: &mut S,
    out: &mut O,
    err: &mut E,
    made: &mut Steps<A>,
    looks: &mut Steps<B>,
) -> u8
    // Of one status: that it is the result; why it comes, and what is written and counted with it, all of an answer, a front
    // of one, or nothing; that a script is answered unless memory or a stream fails; and the line on standard error.
    ensures runs { Runs (source.new ≡ source.old) ((out.new ≡ out.old) × (made.new ≡ made.old) × (looks.new ≡ looks.old))
        (stream (S.left source.old) (S.left source.new) (S.faults source.old) (S.faults source.new))
        (stream (O.written out.old) (O.written out.new) (O.faults out.old) (O.faults out.new))
        (stream (E.written err.old) (E.written err.new) (E.faults err.old) (E.faults err.new))
        (counter made.old made.new) (counter looks.old looks.new) (words_form (map string_bytes words.now)) result }
{
    let status = serve(alloc, words, source, out, made, looks);
    tell(err, status);
    status.number()
}
