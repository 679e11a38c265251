//! What a script holds.

ghost use Rattle.std.specs.Prelude.{◌≡◌};
ghost use Rattle.rd_scene.specs.Figures.{max_commands, max_distance};

use rd_edits::Edit;
use rd_geom::{Rect, Size};
use rd_style::Style;
use rd_tree::Id;
use std::marker::Model;

/// The most commands of a script.
pub const MAX_COMMANDS: usize = 1_000_000;

/// How far a command may shift a box each way, in canvas pixels.
pub const MAX_DISTANCE: i32 = 2_000_000;

/// The limits, so that clauses can say what they are.
fn figures()
    ensures commands { MAX_COMMANDS ≡ max_commands }
    ensures distance { MAX_DISTANCE ≡ max_distance }
{}

/// A box of a scene: its id, its parent's id (none for the root), its border box in canvas pixels and its style.
#[derive(Drop)]
pub struct SceneBox {
    pub id: Id,
    pub parent: Option<Id>,
    pub rect: Rect,
    pub style: Style,
}

/// What is done to a scene.
#[derive(Drop)]
pub enum Command {
    /// An edit of the tree.
    Change(Edit),
    /// Paints what changed.
    Paint,
    /// Asks which box is hit at a column and a row of pixels.
    Hit { x: i32, y: i32 },
    /// Asks which colour the pixel in a column and a row has.
    Pixel { x: i32, y: i32 },
    /// Writes out the display list.
    Dump,
    /// Asks for the digest of the picture.
    Shot,
    /// Takes the latest edit back that was not taken back yet.
    Undo,
}

/// A scene and what is done to it. Contracts see a script that keeps the rules of the format: version 1 or 2; a canvas of
/// 1 to 4,096 pixels each way; 1 to 20,000 boxes with ids of their own, each after its parent and at most 256 deep, within
/// the limits of rectangles and widths; at most [`MAX_COMMANDS`] commands, whose rectangles, widths, distances and pixels
/// are within the limits. In version 1 every box and every box that is put in has normal blend mode and isolation auto,
/// and no change of style names these two.
#[derive(Drop)]
pub struct Script {
    /// The version of the format that it is written in.
    pub version: u8,
    pub canvas: Size,
    pub boxes: Vec<SceneBox>,
    pub commands: Vec<Command>,
}

impl Model for Script {
    ghost use Rattle.rd_scene.specs.Scripts as spec;

    ghost Value = { spec.Script };

    ghost view = { λ s. record { version = s.version; canvas = s.canvas; boxes = s.boxes.items; commands = s.commands.items } };

    ghost invariant = { λ s. spec.IsScript (record { version = s.version; canvas = s.canvas; boxes = s.boxes.items; commands = s.commands.items }) };
}
