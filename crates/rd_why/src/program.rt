//! All that the program does, as one call.
ghost use Rattle.std.specs.Prelude.{◌≡◌, IfOk, map, string_bytes};
ghost use Rattle.rd_run.specs.Endings.{stream};
ghost use Rattle.rd_why.specs.After.{IsAfter};
ghost use Rattle.rd_why.specs.Endings.{Answers, Ends, EndsAs};
ghost use Rattle.rd_why.specs.Json as spec;
ghost use Rattle.rd_why.specs.Lines.{why_lines};
ghost use Rattle.rd_why.specs.Questions.{question_of};
ghost use Rattle.rd_why.specs.Internal.Answering.{AnswersAs, AnswersOn, Writes};

use crate::after::after;
use crate::json::push_why_json;
use crate::lines::push_why_lines;
use crate::telling::tell_why;
use crate::words::{Question, question_of};
use rd_geom::{NoMemory, Steps};
use rd_io::{Sink, Source, write_all};
use rd_run::{Status, read_input};
use rd_scene::Script;
use rd_trace::{Traced, traced};
use rd_tree::Tree;
use std::alloc::Global;
use std::sync::ledger::Ledger;

/// The leaves over the pixel of a question, the topmost first.
fn from_top<B: Ledger>(
    alloc: Global,
    tree: &Tree<B>,
    question: Question,
    looks: &mut Steps<B>,
) -> Result<Vec<Traced>, NoMemory>
    ensures { IfOk result (λ v. v.items ≡ spec.from_top question tree.now) }
{
    let mut leaves = traced(alloc, tree, question.x, question.y, looks)?;
    leaves.reverse();
    Ok(leaves)
}

/// The answer in JSON, of leaves from the topmost on.
fn in_json<B: Ledger>(
    alloc: Global,
    tree: &Tree<B>,
    question: Question,
    leaves: &[Traced],
) -> Result<String, NoMemory>
    ensures { IfOk result (λ text. string_bytes text ≡ spec.why_json tree.now.boxes question.x question.y leaves.now) }
{
    let mut text = String::new(alloc);
    push_why_json(alloc, &mut text, tree, question.x, question.y, leaves)?;
    Ok(text)
}

/// The answer in lines, of leaves from the topmost on.
fn in_lines<B: Ledger>(
    alloc: Global,
    tree: &Tree<B>,
    question: Question,
    leaves: &[Traced],
) -> Result<String, NoMemory>
    ensures { IfOk result (λ text. string_bytes text ≡ why_lines tree.now.boxes question.x question.y leaves.now) }
{
    let mut text = String::new(alloc);
    push_why_lines(alloc, &mut text, tree, question.x, question.y, leaves)?;
    Ok(text)
}

/// The answer to a question about leaves from the topmost on.
fn told<B: Ledger>(
    alloc: Global,
    tree: &Tree<B>,
    question: Question,
    leaves: &[Traced],
) -> Result<String, NoMemory>
    ensures { IfOk result (λ text. string_bytes text ≡ spec.told question tree.now.boxes leaves.now) }
{
    if question.json {
        in_json(alloc, tree, question, leaves)
    } else {
        in_lines(alloc, tree, question, leaves)
    }
}

/// The answer to a question about a tree.
fn why_of<B: Ledger>(
    alloc: Global,
    tree: &Tree<B>,
    question: Question,
    looks: &mut Steps<B>,
) -> Result<String, NoMemory>
    ensures { IfOk result (λ text. string_bytes text ≡ spec.why_text question tree.now) }
{
    let leaves = from_top(alloc, tree, question, looks)?;
    let text = told(alloc, tree, question, &leaves)?;
    Ok(text)
}

/// Writes a text.
fn write<O: Sink>(out: &mut O, text: &str) -> Status
    ensures { Writes (stream (O.written out.old) (O.written out.new) (O.faults out.old) (O.faults out.new))
        text.now result }
{
    match write_all(out, text.as_bytes()) {
        Ok(()) => Status::Done,
        Err(_) => Status::WriteFault,
    }
}

/// Writes the answer to a question about a tree.
fn answer_on<O: Sink, B: Ledger>(
    alloc: Global,
    tree: &Tree<B>,
    question: Question,
    out: &mut O,
    looks: &mut Steps<B>,
) -> Status
    ensures { AnswersOn (out.new ≡ out.old) tree.now question
        (stream (O.written out.old) (O.written out.new) (O.faults out.old) (O.faults out.new)) result }
{
    match why_of(alloc, tree, question, looks) {
        Ok(text) => write(out, text.as_str()),
        Err(_) => Status::NoMemory,
    }
}

/// Writes the answer to a question about the tree of a script after its commands.
fn answer<O: Sink, A: Ledger, B: Ledger>(
    alloc: Global,
    question: Question,
    script: &Script,
    out: &mut O,
    made: &mut Steps<A>,
    looks: &mut Steps<B>,
) -> Status
    ensures { AnswersAs (out.new ≡ out.old) script.now question
        (stream (O.written out.old) (O.written out.new) (O.faults out.old) (O.faults out.new)) result }
{
    let last: Result<Tree<B>, NoMemory> = after(alloc, script, made, looks);
    match last {
        Ok(tree) => answer_on(alloc, &tree, question, out, looks),
        Err(_) => Status::NoMemory,
    }
}

/// Reads a script, and answers a question about it.
fn serve_question<S: Source, O: Sink, A: Ledger, B: Ledger>(
    alloc: Global,
    question: Question,
    source: &mut S,
    out: &mut O,
    made: &mut Steps<A>,
    looks: &mut Steps<B>,
) -> Status
    ensures { EndsAs (out.new ≡ out.old)
        (stream (S.left source.old) (S.left source.new) (S.faults source.old) (S.faults source.new))
        (stream (O.written out.old) (O.written out.new) (O.faults out.old) (O.faults out.new)) question result }
{
    match read_input(alloc, source) {
        Ok(script) => answer(alloc, question, &script, out, made, looks),
        Err(status) => status,
    }
}

fn serve<S: Source, O: Sink, A: Ledger, B: Ledger>(
    alloc: Global,
    words: &[String],
    source: &mut S,
    out: &mut O,
    made: &mut Steps<A>,
    looks: &mut Steps<B>,
) -> Status
    ensures { Ends (source.new ≡ source.old) (out.new ≡ out.old)
        (stream (S.left source.old) (S.left source.new) (S.faults source.old) (S.faults source.new))
        (stream (O.written out.old) (O.written out.new) (O.faults out.old) (O.faults out.new))
        (question_of (map string_bytes words.now)) result }
{
    match question_of(words) {
        Some(question) => serve_question(alloc, question, source, out, made, looks),
        None => Status::Usage,
    }
}

/// Does all that the program does, and gives its exit status. The words are those after the program's name: a column, a row,
/// and `--json` where the answer is for a program. It reads a script from `source`, does its edits and undos, and writes to `out`
/// every leaf over that pixel from top to bottom, and why it is where it is. The line that goes with another status than 0
/// goes to `err`. `looks` counts the looks at boxes; no item is made, and `made` is not raised.
pub fn run<S: Source, O: Sink, E: Sink, A: Ledger, B: Ledger>(
    alloc: Global,
    words: &[String],
    source: &mut S,
    out: &mut O,
    err: &mut E,
    made: &mut Steps<A>,
    looks: &mut Steps<B>,
) -> u8
    ensures answers { Answers (source.new ≡ source.old) (out.new ≡ out.old)
        (stream (S.left source.old) (S.left source.new) (S.faults source.old) (S.faults source.new))
        (stream (O.written out.old) (O.written out.new) (O.faults out.old) (O.faults out.new))
        (stream (E.written err.old) (E.written err.new) (E.faults err.old) (E.faults err.new))
        (question_of (map string_bytes words.now)) result }
{
    let status = serve(alloc, words, source, out, made, looks);
    tell_why(err, status);
    status.number()
}
