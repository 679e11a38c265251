//! Generated scripts.

ghost use Rattle.std.specs.Prelude.{◌≡◌, ◌≤◌, IfOk};
ghost use Rattle.rd_scene.specs.Scripts.{IsScript};
ghost use Rattle.rd_gen.specs.Commands as spec;
ghost use Rattle.rd_gen.specs.Generated.{generated_script};
ghost use Rattle.rd_gen.specs.Figures.{max_edits};
ghost use Rattle.rd_tree.specs.Figures.{max_boxes};

use crate::boxes::boxes as drawn_boxes;
use crate::draw::Draw;
use crate::edits::edit;
use rd_geom::{NoMemory, Size};
use rd_scene::{Command, Script};
use std::alloc::Global;

/// The most edits of a generated script.
pub const MAX_EDITS: u32 = 100_000;

/// The limits, so that clauses can say what they are.
fn figures()
    ensures { MAX_EDITS ≡ max_edits }
{}

/// A paint, and so many edits with a paint after each tenth.
fn commands(
    alloc: Global,
    draw: &mut Draw,
    boxes: u32,
    edits: u32,
) -> Result<Vec<Command>, NoMemory>
    requires some { 1 ≤ boxes }
    requires most { edits ≤ max_edits }
    ensures { IfOk result (λ v. spec.commands boxes edits draw.old ≡ (v.items, draw.new)) }
{
    let mut commands = Vec::new(alloc);
    commands.push(Command::Paint)?;
    for j in 0..edits {
        let edit = edit(alloc, draw, boxes, j)?;
        commands.push(Command::Change(edit))?;
        if j % 10 == 9 {
            commands.push(Command::Paint)?;
        }
    }
    Ok(commands)
}

/// The script of version 1 that the draws from the seed give: a canvas of 256 by 256, so many boxes `b0`, `b1` and so on of which `b0` is
/// the root, and so many edits with paints among them.
pub fn script(alloc: Global, seed: u64, boxes: u32, edits: u32) -> Result<Script, NoMemory>
    requires some { 1 ≤ boxes }
    requires most { boxes ≤ max_boxes }
    requires edits { edits ≤ max_edits }
    ensures drawn { IfOk result (λ s. s ≡ generated_script seed boxes edits) }
    ensures rules { IfOk result (λ s. IsScript s) }
{
    let mut draw = Draw::new(seed);
    let made = drawn_boxes(alloc, &mut draw, boxes)?;
    let mut done = commands(alloc, &mut draw, boxes, edits)?;
    done.push(Command::Paint)?;
    Ok(Script {
        version: 1,
        canvas: Size { w: 256, h: 256 },
        boxes: made,
        commands: done,
    })
}
