//! The commands of a script without their answers, and what is written at their end.

ghost use Rattle.std.specs.Prelude.{◌≡◌, ◌⊎◌, ◌≤◌, false, length, OnErr, OnOk, IfOk};
ghost use Rattle.rd_gen.specs.Figures.{max_edits};
ghost use Rattle.rd_tree.specs.Figures.{max_boxes};
ghost use Rattle.rd_report.specs.Summaries.{summary_lines};
ghost use Rattle.rd_scene.specs.Figures.{max_commands};
ghost use Rattle.rd_run.specs.Endings.{counter, stream, totals_of, IsScriptPicture, IsStormSummary, IsScriptWire};
ghost use Rattle.rd_run.specs.Internal.Answered.{AnswersAs, AreOfEnd, Begins, Performs, MayPerform, Finished, MayFinish, Writes};
ghost use Rattle.rd_run.specs.Internal.Session.{Shows, IsFew};
ghost use Rattle.rd_run.specs.Machine.{State};
ghost use Rattle.rd_run.specs.Internal.Told.{IsTold};

use crate::session::Session;
use crate::status::Status;
use rd_geom::{NoMemory, Steps};
use rd_io::{Sink, write_all};
use rd_report::{Totals, digest, push_summary};
use rd_scene::{Command, Script, plant};
use rd_tree::Tree;
use std::alloc::Global;
use std::sync::ledger::Ledger;

/// Does the commands in turn.
fn perform_all<A: Ledger, B: Ledger>(
    alloc: Global,
    session: &mut Session<A, B>,
    commands: &[Command],
    made: &mut Steps<A>,
    looks: &mut Steps<B>,
) -> Result<(), NoMemory>
    requires none { IsFew session.old 0 }
    requires few { length commands.now ≤ max_commands }
    ensures all { OnOk result ((s : State) → Shows session.old s
        → Performs (counter made.old made.new) (counter looks.old looks.new) s commands.now session.new) }
    ensures part { OnErr result ((s : State) → Shows session.old s
        → MayPerform (counter made.old made.new) (counter looks.old looks.new) s commands.now) }
    ensures count { IsFew session.new max_commands }
{
    for command in commands {
        session.perform(alloc, command, made, looks)?;
    }
    Ok(())
}

/// A session that begins with the tree of a script's boxes.
pub(crate) fn started<A: Ledger, B: Ledger>(
    alloc: Global,
    script: &Script,
) -> Result<Session<A, B>, NoMemory>
    ensures begun { IfOk result (Begins script.now) }
    ensures few { IfOk result (λ x. IsFew x 0) }
{
    let tree: Tree<B> = plant(alloc, script)?;
    let session = Session::new(alloc, script.version, tree)?;
    Ok(session)
}

/// Does the commands of a script in a session that begins with its tree, and the paint that is pending then.
fn perform_to_end<A: Ledger, B: Ledger>(
    alloc: Global,
    session: &mut Session<A, B>,
    script: &Script,
    made: &mut Steps<A>,
    looks: &mut Steps<B>,
) -> Result<(), NoMemory>
    requires begun { Begins script.now session.old }
    requires few { IsFew session.old 0 }
    ensures finished { OnOk result (Finished (counter made.old made.new) (counter looks.old looks.new) script.now session.new) }
    ensures part { OnErr result (MayFinish (counter made.old made.new) (counter looks.old looks.new) script.now) }
{
    perform_all(alloc, session, &script.commands, made, looks)?;
    session.finish(made, looks)?;
    Ok(())
}

/// What is left of a script whose commands were done: a session in which no paint is pending.
/// Without memory nothing may be counted yet.
fn performed<A: Ledger, B: Ledger>(
    alloc: Global,
    script: &Script,
    made: &mut Steps<A>,
    looks: &mut Steps<B>,
) -> Result<Session<A, B>, NoMemory>
    ensures finished { IfOk result (Finished (counter made.old made.new) (counter looks.old looks.new) script.now) }
    ensures part { OnErr result (((made.new ≡ made.old) × (looks.new ≡ looks.old))
        ⊎ MayFinish (counter made.old made.new) (counter looks.old looks.new) script.now) }
{
    let mut session = started(alloc, script)?;
    perform_to_end(alloc, &mut session, script, made, looks)?;
    Ok(session)
}

/// Writes bytes.
pub(crate) fn write<O: Sink>(out: &mut O, bytes: &[u8]) -> Status
    ensures { Writes (stream (O.written out.old) (O.written out.new) (O.faults out.old) (O.faults out.new))
        bytes.now result }
{
    match write_all(out, bytes) {
        Ok(()) => Status::Done,
        Err(_) => Status::WriteFault,
    }
}

/// The summary of a storm of these numbers.
fn summary<A: Ledger, B: Ledger>(
    alloc: Global,
    session: &Session<A, B>,
    seed: u64,
    boxes: u32,
    edits: u32,
) -> Result<Vec<u8>, NoMemory>
    requires { session.now.engine.pending ≡ false }
    ensures { IfOk result (λ bytes. (s : State) → Shows session.now s
        → bytes.items ≡ summary_lines (totals_of seed boxes edits s)) }
{
    let picture = session.picture(alloc)?;
    let totals = Totals {
        seed,
        boxes,
        edits,
        accepted: session.accepted,
        refused: session.refused,
        paints: session.engine.paints(),
        built: session.built,
        area: session.area,
        digest: digest(&picture),
    };
    let mut text = String::new(alloc);
    push_summary(alloc, &mut text, &totals)?;
    Ok(text.into_bytes())
}

/// What is told of what is painted at the end of a script: its picture, its list in the wire form, or the summary of a storm of these
/// numbers.
#[derive(Clone, Copy)]
enum Told {
    Picture,
    Wire,
    Summary { seed: u64, boxes: u32, edits: u32 },
}

/// The bytes of what is told of a session in which no paint is pending.
fn told_of<A: Ledger, B: Ledger>(
    alloc: Global,
    session: &Session<A, B>,
    told: Told,
) -> Result<Vec<u8>, NoMemory>
    requires { session.now.engine.pending ≡ false }
    ensures { IfOk result (λ bytes. IsTold told session.now bytes.items) }
{
    match told {
        Told::Picture => session.picture(alloc),
        Told::Wire => session.wire(alloc),
        Told::Summary { seed, boxes, edits } => summary(alloc, session, seed, boxes, edits),
    }
}

/// Ends a session: all that it holds goes.
pub(crate) fn close<A: Ledger, B: Ledger>(_session: Session<A, B>) {}

/// Does the commands of a script, and gives the bytes of what is told of its end.
fn end_of<A: Ledger, B: Ledger>(
    alloc: Global,
    script: &Script,
    told: Told,
    made: &mut Steps<A>,
    looks: &mut Steps<B>,
) -> Result<Vec<u8>, NoMemory>
    ensures told { IfOk result (λ bytes. AreOfEnd (counter made.old made.new) (counter looks.old looks.new) (IsTold told) script.now bytes.items) }
    ensures part { OnErr result (((made.new ≡ made.old) × (looks.new ≡ looks.old))
        ⊎ MayFinish (counter made.old made.new) (counter looks.old looks.new) script.now) }
{
    let session = performed(alloc, script, made, looks)?;
    let bytes = told_of(alloc, &session, told);
    close(session);
    match bytes {
        Ok(bytes) => Ok(bytes),
        Err(error) => Err(error),
    }
}

/// Does the commands of a script, and writes the picture of what is painted at its end.
pub(crate) fn render<O: Sink, A: Ledger, B: Ledger>(
    alloc: Global,
    script: &Script,
    out: &mut O,
    made: &mut Steps<A>,
    looks: &mut Steps<B>,
) -> Status
    ensures { AnswersAs ((out.new ≡ out.old) × (made.new ≡ made.old) × (looks.new ≡ looks.old))
        (IsScriptPicture script.now)
        (stream (O.written out.old) (O.written out.new) (O.faults out.old) (O.faults out.new))
        (counter made.old made.new) (counter looks.old looks.new) result }
{
    match end_of(alloc, script, Told::Picture, made, looks) {
        Ok(picture) => write(out, &picture),
        Err(_) => Status::NoMemory,
    }
}

/// Does the commands of a script, and writes the list of what is painted at its end, in the wire form.
pub(crate) fn wire<O: Sink, A: Ledger, B: Ledger>(
    alloc: Global,
    script: &Script,
    out: &mut O,
    made: &mut Steps<A>,
    looks: &mut Steps<B>,
) -> Status
    ensures { AnswersAs ((out.new ≡ out.old) × (made.new ≡ made.old) × (looks.new ≡ looks.old))
        (IsScriptWire script.now)
        (stream (O.written out.old) (O.written out.new) (O.faults out.old) (O.faults out.new))
        (counter made.old made.new) (counter looks.old looks.new) result }
{
    match end_of(alloc, script, Told::Wire, made, looks) {
        Ok(bytes) => write(out, &bytes),
        Err(_) => Status::NoMemory,
    }
}

/// Does the commands of the generated script of these numbers, and writes a summary.
pub(crate) fn storm<O: Sink, A: Ledger, B: Ledger>(
    alloc: Global,
    seed: u64,
    boxes: u32,
    edits: u32,
    out: &mut O,
    made: &mut Steps<A>,
    looks: &mut Steps<B>,
) -> Status
    requires some { 1 ≤ boxes }
    requires most { boxes ≤ max_boxes }
    requires edits { edits ≤ max_edits }
    ensures { AnswersAs ((out.new ≡ out.old) × (made.new ≡ made.old) × (looks.new ≡ looks.old))
        (IsStormSummary seed boxes edits)
        (stream (O.written out.old) (O.written out.new) (O.faults out.old) (O.faults out.new))
        (counter made.old made.new) (counter looks.old looks.new) result }
{
    let Ok(script) = rd_gen::script(alloc, seed, boxes, edits) else {
        return Status::NoMemory;
    };
    let told = Told::Summary { seed, boxes, edits };
    match end_of(alloc, &script, told, made, looks) {
        Ok(summary) => write(out, &summary),
        Err(_) => Status::NoMemory,
    }
}
