//! The boxes of a generated script.

ghost use Rattle.std.specs.Prelude.{◌≡◌, ◌<◌, ◌≤◌, true, List, [], IfOk, length};
ghost use Rattle.rd_scene.specs.declared.script.SceneBox.{SceneBox as Box};
ghost use Rattle.rd_scene.specs.Order.{are_in_order};
ghost use Rattle.rd_gen.specs.Boxes as spec;
ghost use Rattle.rd_gen.specs.Internal.Depths.{HasDepths};
ghost use Rattle.rd_tree.specs.Figures.{max_boxes};

use crate::draw::Draw;
use crate::names::box_id;
use crate::styles::style;
use crate::values::rectangle;
use rd_geom::{Color, NoMemory, Rect};
use rd_scene::SceneBox;
use rd_style::Style;
use std::alloc::Global;

/// The depth from which on a box gets no child.
const FULL_DEPTH: u32 = 64;

/// The root, which covers the canvas in white.
fn root(alloc: Global) -> Result<SceneBox, NoMemory>
    ensures { IfOk result (λ b. b ≡ spec.root) }
{
    let id = box_id(alloc, 0)?;
    let Some(rect) = Rect::new(0, 0, 256, 256) else {
        unreachable!()
    };
    let mut style = Style::plain();
    style.background = Color {
        r: 255,
        g: 255,
        b: 255,
        a: 255,
    };
    Ok(SceneBox {
        id,
        parent: None,
        rect,
        style,
    })
}

/// The box with this number, as a child of the box with the number `parent`.
#[tactic(auto, unfolding(crate::specs::Boxes::box_below))]
fn box_below(alloc: Global, draw: &mut Draw, number: u32, parent: u32) -> Result<SceneBox, NoMemory>
    ensures { IfOk result (λ b. spec.box_below number parent draw.old ≡ (b, draw.new)) }
{
    let id = box_id(alloc, number)?;
    let parent = box_id(alloc, parent)?;
    let rect = rectangle(draw);
    let style = style(draw);
    Ok(SceneBox {
        id,
        parent: Some(parent),
        rect,
        style,
    })
}

/// The parent where `p` was drawn, among boxes of these depths.
fn parent_by(depths: &[u32], p: u32) -> u32
    requires { p < length depths.now }
    ensures parent { (before : List Box) → HasDepths before depths.now
        → result ≡ spec.parent_by before p }
    ensures before { result < length depths.now }
{
    if depths[p as usize] >= FULL_DEPTH {
        0
    } else {
        p
    }
}

/// So many boxes, each below one before it.
pub(crate) fn boxes(alloc: Global, draw: &mut Draw, number: u32) -> Result<Vec<SceneBox>, NoMemory>
    requires some { 1 ≤ number }
    requires most { number ≤ max_boxes }
    ensures drawn { IfOk result (λ v. spec.boxes number draw.old ≡ (v.items, draw.new)) }
    ensures order { IfOk result (λ v. are_in_order [] v.items ≡ true) }
    ensures len { IfOk result (λ v. length v.items ≡ number) }
{
    let mut boxes = Vec::new(alloc);
    let mut depths = Vec::new(alloc);
    boxes.push(root(alloc)?)?;
    depths.push(1)?;
    for i in 1..number {
        let parent = parent_by(&depths, draw.below(i));
        let depth = depths[parent as usize] + 1;
        let b = box_below(alloc, draw, i, parent)?;
        boxes.push(b)?;
        depths.push(depth)?;
    }
    Ok(boxes)
}
