//! The answers to the commands of a script.

ghost use Rattle.std.specs.Prelude.{◌≡◌, ◌⊎◌, ℕ, ◌+◌, ◌≤◌, ◌^◌, ◌++◌, List, [], length, string_bytes};
ghost use Rattle.std.specs.Prelude.{IsErrOf, OnErr, OnOk};
ghost use Rattle.std.specs.Io.KnownBytes.{Appends};
ghost use Rattle.rd_io.specs.Causes.{GainsPart};
ghost use Rattle.rd_scene.specs.Figures.{max_commands};
ghost use Rattle.rd_run.specs.Endings.{counter, stream, HasFailed, IsScriptAnswer};
ghost use Rattle.rd_run.specs.Internal.Answered.{AnswersAll, AnswersPart, AnswersAs, Passes};
ghost use Rattle.rd_run.specs.Internal.Lasts.{IsWellFormed};
ghost use Rattle.rd_run.specs.Internal.Session.{Shows, IsFew, AreCounted, AreWithin};
ghost use Rattle.rd_run.specs.Machine.{State, Step};

use crate::performing::{close, started};
use crate::session::Session;
use crate::status::Status;
use rd_geom::Steps;
use rd_io::{Sink, write_all};
use rd_scene::{Command, Script};
use std::alloc::Global;
use std::sync::ledger::Ledger;

// Answers are gathered until they have so many bytes.
const PIECE: usize = 65_536;

/// Writes what was gathered.
fn send<O: Sink>(out: &mut O, gathered: &mut String) -> Result<(), Status>
    ensures all { OnOk result (Appends (O.written out.old) (O.written out.new) (string_bytes gathered.old)) }
    ensures faultless { OnOk result (O.faults out.new ≡ O.faults out.old) }
    ensures empty { OnOk result (string_bytes gathered.new ≡ []) }
    ensures only { OnErr result (IsErrOf result Status.WriteFault) }
    ensures part { OnErr result (GainsPart (O.written out.old) (O.written out.new) (string_bytes gathered.old)) }
    ensures fault { OnErr result (HasFailed
        (stream (O.written out.old) (O.written out.new) (O.faults out.old) (O.faults out.new))) }
{
    match write_all(out, gathered.as_bytes()) {
        Ok(()) => {
            gathered.clear();
            Ok(())
        }
        Err(_) => Err(Status::WriteFault),
    }
}

/// Answers one command, and writes what was gathered once it is much.
fn answer_one<O: Sink, A: Ledger, B: Ledger>(
    alloc: Global,
    session: &mut Session<A, B>,
    command: &Command,
    gathered: &mut String,
    out: &mut O,
    made: &mut Steps<A>,
    looks: &mut Steps<B>,
) -> Result<(), Status>
    requires few { IsFew session.old (2 ^ 29) }
    ensures all { OnOk result ((s : State) → Shows session.old s → (t : State) × (text : List ℕ)
        × Step command.now s text t × Shows session.new t
        × AreCounted s t (counter made.old made.new) (counter looks.old looks.new)
        × Passes (stream (O.written out.old) (O.written out.new) (O.faults out.old) (O.faults out.new))
        (string_bytes gathered.old) text (string_bytes gathered.new)) }
    ensures faultless { OnOk result (O.faults out.new ≡ O.faults out.old) }
    ensures part { IsErrOf result Status.WriteFault → (s : State) → Shows session.old s
        → (t : State) × (text : List ℕ) × Step command.now s text t × IsWellFormed t.tree
        × AreWithin s t (counter made.old made.new) (counter looks.old looks.new)
        × GainsPart (O.written out.old) (O.written out.new) (string_bytes gathered.old ++ text) }
    ensures fault { IsErrOf result Status.WriteFault → HasFailed
        (stream (O.written out.old) (O.written out.new) (O.faults out.old) (O.faults out.new)) }
    ensures none { IsErrOf result Status.NoMemory → out.new ≡ out.old }
    ensures on { IsErrOf result Status.NoMemory → (s : State) → Shows session.old s
        → (t : State) × (text : List ℕ) × Step command.now s text t × IsWellFormed t.tree
        × AreWithin s t (counter made.old made.new) (counter looks.old looks.new) }
    ensures only { OnErr result (IsErrOf result Status.WriteFault ⊎ IsErrOf result Status.NoMemory) }
    ensures count { (n : ℕ) → IsFew session.old n → IsFew session.new (n + 1) }
{
    match session.answer(alloc, command, gathered, made, looks) {
        Ok(()) => {}
        Err(_) => return Err(Status::NoMemory),
    }
    if gathered.len() < PIECE {
        Ok(())
    } else {
        send(out, gathered)
    }
}

/// Answers the commands in turn.
fn answer_all<O: Sink, A: Ledger, B: Ledger>(
    alloc: Global,
    session: &mut Session<A, B>,
    commands: &[Command],
    out: &mut O,
    made: &mut Steps<A>,
    looks: &mut Steps<B>,
) -> Result<(), Status>
    requires none { IsFew session.old 0 }
    requires few { length commands.now ≤ max_commands }
    ensures all { OnOk result ((s : State) → Shows session.old s
        → AnswersAll (counter made.old made.new) (counter looks.old looks.new) s commands.now
        (stream (O.written out.old) (O.written out.new) (O.faults out.old) (O.faults out.new))) }
    ensures part { OnErr result ((s : State) → Shows session.old s
        → AnswersPart (counter made.old made.new) (counter looks.old looks.new) s commands.now
        (stream (O.written out.old) (O.written out.new) (O.faults out.old) (O.faults out.new))) }
    ensures faultless { OnOk result (O.faults out.new ≡ O.faults out.old) }
    ensures still { IsErrOf result Status.NoMemory → O.faults out.new ≡ O.faults out.old }
    ensures fault { IsErrOf result Status.WriteFault → HasFailed
        (stream (O.written out.old) (O.written out.new) (O.faults out.old) (O.faults out.new)) }
    ensures only { OnErr result (IsErrOf result Status.WriteFault ⊎ IsErrOf result Status.NoMemory) }
{
    let mut gathered = String::new(alloc);
    for command in commands {
        answer_one(alloc, session, command, &mut gathered, out, made, looks)?;
    }
    send(out, &mut gathered)
}

/// Plants the script's tree and answers its commands.
pub(crate) fn answer<O: Sink, A: Ledger, B: Ledger>(
    alloc: Global,
    script: &Script,
    out: &mut O,
    made: &mut Steps<A>,
    looks: &mut Steps<B>,
) -> Status
    ensures { AnswersAs ((out.new ≡ out.old) × (made.new ≡ made.old) × (looks.new ≡ looks.old))
        (IsScriptAnswer script.now)
        (stream (O.written out.old) (O.written out.new) (O.faults out.old) (O.faults out.new))
        (counter made.old made.new) (counter looks.old looks.new) result }
{
    let mut session = match started(alloc, script) {
        Ok(session) => session,
        Err(_) => return Status::NoMemory,
    };
    let done = answer_all(alloc, &mut session, &script.commands, out, made, looks);
    close(session);
    match done {
        Ok(()) => Status::Done,
        Err(status) => status,
    }
}
