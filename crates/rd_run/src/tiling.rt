//! The commands of a script on tiles: how many of them each paint repaints, and last the digest of what they show.

ghost use Rattle.std.specs.Prelude.{◌≡◌, ◌⊎◌, ◌≤◌, ◌^◌, ◌+◌, ◌++◌, [], ℕ, false, length, IfOk, OnErr, OnOk, string_bytes};
ghost use Rattle.sha2.specs.Sha256.{sha256};
ghost use Rattle.rd_engine.specs.Painted.{IsBegun};
ghost use Rattle.rd_engine.specs.State.{EngineState};
ghost use Rattle.rd_geom.specs.Canvas.{IsCanvas};
ghost use Rattle.rd_paint.specs.Pictures.{Picture, size_of};
ghost use Rattle.rd_report.specs.Pictures.{p6_text};
ghost use Rattle.rd_report.specs.Summaries.{final_line};
ghost use Rattle.rd_scene.specs.Figures.{max_commands};
ghost use Rattle.rd_scene.specs.Planting.{Plants};
ghost use Rattle.rd_tree.specs.Document.{Document};
ghost use Rattle.rd_run.specs.Endings.{counter, stream};
ghost use Rattle.rd_run.specs.Internal.Answered.{AnswersAs, MayPerform, MayFinish};
ghost use Rattle.rd_run.specs.Internal.OnTiles.{IsBlankOn, AreOf, Show, IsRepaintedBy, Follow, IsCopyOf};
ghost use Rattle.rd_run.specs.Internal.OnTiles.{GoesOnTiles, PerformsOnTiles, AnswersOnTiles};
ghost use Rattle.rd_run.specs.Internal.Session.{Shows, IsFew, MayGoOn, Watched};
ghost use Rattle.rd_run.specs.Machine.{State, Step, PaintsIf, start};
ghost use Rattle.rd_run.specs.Pictures.{picture};
ghost use Rattle.rd_run.specs.Tiled.{IsScriptTiles};

use crate::performing::write;
use crate::session::Session;
use crate::status::Status;
use rd_area::Area;
use rd_engine::Engine;
use rd_geom::{NoMemory, Size, Steps};
use rd_io::Sink;
use rd_paint::{Buffers, Canvas};
use rd_report::{digest, p6, push_final, push_tiles};
use rd_scene::{Command, Script, plant};
use rd_tiles::TileCanvas;
use rd_tree::{MAX_DEPTH, Tree};
use std::alloc::Global;
use std::sync::ledger::Ledger;

/// What follows an engine: its canvas as tiles, rows for the groups that are painted on them, and the lines of its paints.
#[derive(Drop)]
pub(crate) struct Follower {
    canvas: TileCanvas,
    buffers: Buffers,
    text: String,
}

/// White tiles of a canvas of this size, and no line.
fn blank(alloc: Global, size: Size) -> Result<Follower, NoMemory>
    requires { IsCanvas size }
    ensures { IfOk result (IsBlankOn size) }
{
    let canvas = TileCanvas::new(alloc, size)?;
    let buffers = Buffers::new(alloc, size, MAX_DEPTH)?;
    Ok(Follower {
        canvas,
        buffers,
        text: String::new(alloc),
    })
}

/// Repaints the tiles in the area of the last paint, and puts the line of that at the end of the text.
fn retile<A: Ledger, B: Ledger>(
    engine: &Engine<A, B>,
    area: &Area,
    tiles: &mut Follower,
) -> Result<(), NoMemory>
    requires of { AreOf (size_of engine.now.canvas) tiles.old }
    requires area { area.now.size ≡ size_of engine.now.canvas }
    ensures { OnOk result (IsRepaintedBy engine.now area.now tiles.old tiles.new) }
{
    let list = engine.view();
    let number = engine.paints();
    let all = tiles.canvas.columns() * tiles.canvas.rows();
    tiles.buffers.make_room(list.leaves() as usize)?;
    let met = tiles
        .canvas
        .repaint_tiles(list, area, &mut tiles.buffers, number);
    push_tiles(&mut tiles.text, number, met, all)
}

/// Where an engine has painted since it had painted so often, the tiles follow.
fn follow<A: Ledger, B: Ledger>(
    engine: &Engine<A, B>,
    before: u64,
    tiles: &mut Follower,
) -> Result<(), NoMemory>
    requires { AreOf (size_of engine.now.canvas) tiles.old }
    ensures { OnOk result ((old : EngineState) → before ≡ old.paints → size_of old.canvas ≡ old.tree.canvas
        → Show tiles.old old.canvas → Watched old engine.now → Follow old engine.now tiles.old tiles.new) }
{
    let is_still = engine.paints() == before;
    if is_still {
        return Ok(());
    }
    match engine.last_area() {
        Some(area) => retile(engine, area, tiles),
        None => Ok(()),
    }
}

/// Does a command without its answer, and the tiles follow.
fn perform_one<A: Ledger, B: Ledger>(
    alloc: Global,
    session: &mut Session<A, B>,
    command: &Command,
    tiles: &mut Follower,
    made: &mut Steps<A>,
    looks: &mut Steps<B>,
) -> Result<(), NoMemory>
    requires few { IsFew session.old (2 ^ 29) }
    requires shows { Show tiles.old session.old.engine.canvas }
    ensures all { OnOk result ((s : State) → Shows session.old s
        → GoesOnTiles (Step command.now) (counter made.old made.new) (counter looks.old looks.new) s tiles.old session.new
        tiles.new) }
    ensures shows { OnOk result (Show tiles.new session.new.engine.canvas) }
    ensures part { OnErr result ((s : State) → Shows session.old s
        → MayGoOn (Step command.now) (counter made.old made.new) (counter looks.old looks.new) s) }
    ensures count { (n : ℕ) → IsFew session.old n → IsFew session.new (n + 1) }
{
    let before = session.paints();
    session.perform(alloc, command, made, looks)?;
    follow(session.engine(), before, tiles)
}

/// Paints at the end of a run, where a paint is pending, and the tiles follow.
fn finish_on<A: Ledger, B: Ledger>(
    session: &mut Session<A, B>,
    tiles: &mut Follower,
    made: &mut Steps<A>,
    looks: &mut Steps<B>,
) -> Result<(), NoMemory>
    requires few { IsFew session.old (2 ^ 29) }
    requires shows { Show tiles.old session.old.engine.canvas }
    ensures all { OnOk result ((s : State) → Shows session.old s
        → GoesOnTiles (PaintsIf session.old.engine.pending) (counter made.old made.new) (counter looks.old looks.new) s
        tiles.old session.new tiles.new) }
    ensures shows { OnOk result (Show tiles.new session.new.engine.canvas) }
    ensures done { OnOk result (session.new.engine.pending ≡ false) }
    ensures part { OnErr result ((s : State) → Shows session.old s
        → MayGoOn (PaintsIf session.old.engine.pending) (counter made.old made.new) (counter looks.old looks.new) s) }
{
    let before = session.paints();
    session.finish(made, looks)?;
    follow(session.engine(), before, tiles)
}

/// Does the commands in turn.
fn perform_all<A: Ledger, B: Ledger>(
    alloc: Global,
    session: &mut Session<A, B>,
    commands: &[Command],
    tiles: &mut Follower,
    made: &mut Steps<A>,
    looks: &mut Steps<B>,
) -> Result<(), NoMemory>
    requires none { IsFew session.old 0 }
    requires few { length commands.now ≤ max_commands }
    requires shows { Show tiles.old session.old.engine.canvas }
    requires empty { string_bytes tiles.old.text ≡ [] }
    ensures all { OnOk result ((s : State) → Shows session.old s
        → PerformsOnTiles (counter made.old made.new) (counter looks.old looks.new) s commands.now
        (string_bytes tiles.new.text) session.new) }
    ensures shows { OnOk result (Show tiles.new session.new.engine.canvas) }
    ensures part { OnErr result ((s : State) → Shows session.old s
        → MayPerform (counter made.old made.new) (counter looks.old looks.new) s commands.now) }
    ensures count { IsFew session.new max_commands }
{
    for command in commands {
        perform_one(alloc, session, command, tiles, made, looks)?;
    }
    Ok(())
}

/// The picture that tiles show.
fn picture_of(alloc: Global, tiles: &TileCanvas) -> Result<Vec<u8>, NoMemory>
    ensures { IfOk result (λ bytes. (c : Picture) × IsCopyOf tiles.now c
        × (bytes.items ≡ p6_text c.width c.height c.pixels)) }
{
    let size = tiles.size();
    let mut canvas = Canvas::new(alloc, size)?;
    tiles.copy_to(&mut canvas);
    let _pixels = canvas.pixels();
    p6(alloc, &canvas)
}

/// Puts the line of the digest of the picture that the tiles show at the end of the text. No paint is pending.
fn push_digest<A: Ledger, B: Ledger>(
    alloc: Global,
    engine: &Engine<A, B>,
    tiles: &mut Follower,
) -> Result<(), NoMemory>
    requires done { engine.now.pending ≡ false }
    requires shows { Show tiles.old engine.now.canvas }
    ensures { OnOk result (string_bytes tiles.new.text
        ≡ string_bytes tiles.old.text ++ final_line (sha256 (picture engine.now.tree))) }
{
    let _list = engine.view();
    let _root = engine.tree().root();
    let bytes = picture_of(alloc, &tiles.canvas)?;
    push_final(alloc, &mut tiles.text, &digest(&bytes))
}

/// Does the commands of a script on tiles, from the tree that it plants, and puts the lines of that at the end of their text.
fn tell<A: Ledger, B: Ledger>(
    alloc: Global,
    script: &Script,
    session: &mut Session<A, B>,
    tiles: &mut Follower,
    made: &mut Steps<A>,
    looks: &mut Steps<B>,
) -> Result<(), NoMemory>
    requires planted { (t : Document) × Plants script.now t × Shows session.old (start script.now.version t) }
    requires none { IsFew session.old 0 }
    requires shows { Show tiles.old session.old.engine.canvas }
    requires empty { string_bytes tiles.old.text ≡ [] }
    ensures all { OnOk result (AnswersOnTiles (counter made.old made.new) (counter looks.old looks.new)
        script.now (string_bytes tiles.new.text)) }
    ensures part { OnErr result (MayFinish (counter made.old made.new) (counter looks.old looks.new) script.now) }
{
    let commands = &script.commands;
    perform_all(alloc, session, commands, tiles, made, looks)?;
    finish_on(session, tiles, made, looks)?;
    push_digest(alloc, session.engine(), tiles)
}

/// White tiles on which the commands of a script are done, from the tree that it plants. Without memory nothing may be counted yet.
fn told_by<A: Ledger, B: Ledger>(
    alloc: Global,
    script: &Script,
    session: &mut Session<A, B>,
    made: &mut Steps<A>,
    looks: &mut Steps<B>,
) -> Result<Follower, NoMemory>
    requires planted { (t : Document) × Plants script.now t × Shows session.old (start script.now.version t)
        × IsBegun t session.old.engine }
    requires none { IsFew session.old 0 }
    ensures all { IfOk result (λ t. AnswersOnTiles (counter made.old made.new) (counter looks.old looks.new)
        script.now (string_bytes t.text)) }
    ensures part { OnErr result (((made.new ≡ made.old) × (looks.new ≡ looks.old))
        ⊎ MayFinish (counter made.old made.new) (counter looks.old looks.new) script.now) }
{
    let mut tiles = blank(alloc, script.canvas)?;
    tell(alloc, script, session, &mut tiles, made, looks)?;
    Ok(tiles)
}

/// Does the commands of a script on tiles, and tells of it. Without memory nothing may be counted yet.
fn told<A: Ledger, B: Ledger>(
    alloc: Global,
    script: &Script,
    made: &mut Steps<A>,
    looks: &mut Steps<B>,
) -> Result<Follower, NoMemory>
    ensures all { IfOk result (λ t. AnswersOnTiles (counter made.old made.new) (counter looks.old looks.new)
        script.now (string_bytes t.text)) }
    ensures part { OnErr result (((made.new ≡ made.old) × (looks.new ≡ looks.old))
        ⊎ MayFinish (counter made.old made.new) (counter looks.old looks.new) script.now) }
{
    let tree: Tree<B> = plant(alloc, script)?;
    let mut session = Session::new(alloc, script.version, tree)?;
    told_by(alloc, script, &mut session, made, looks)
}

/// Does the commands of a script on tiles, and writes a line for each paint, and last the digest of the picture.
pub(crate) fn tiles<O: Sink, A: Ledger, B: Ledger>(
    alloc: Global,
    script: &Script,
    out: &mut O,
    made: &mut Steps<A>,
    looks: &mut Steps<B>,
) -> Status
    ensures { AnswersAs ((out.new ≡ out.old) × (made.new ≡ made.old) × (looks.new ≡ looks.old))
        (IsScriptTiles script.now)
        (stream (O.written out.old) (O.written out.new) (O.faults out.old) (O.faults out.new))
        (counter made.old made.new) (counter looks.old looks.new) result }
{
    match told(alloc, script, made, looks) {
        Ok(told) => write(out, told.text.as_bytes()),
        Err(_) => Status::NoMemory,
    }
}
