//! A scene that is painted once, in one call.

ghost use Rattle.std.specs.Prelude.{◌≡◌, ◌<◌, IfOk, IfErr, OnOk, OnErr};
ghost use Rattle.rd_c.specs.Asked.{AreDone, DoneBy, RefusedBy};
ghost use Rattle.rd_c.specs.Rendered.{IsBuilt, IsPlanting, IsRefusedAmong, IsRendered, IsRootOf, IsShown, IsUnbuilt};

use crate::batches::part;
use crate::copying::put_all;
use crate::edits::insertion;
use crate::making::begun;
use crate::painter::Painter;
use crate::refusal::{Refusal, status};
use crate::values::{RdNote, RdRect, RdStyle};
use rd_edits::Edit;
use std::alloc::Global;

/// A box that is inserted last among the children of its parent. Its id and its parent's are bytes of one text.
#[repr(C)]
#[derive(Clone, Copy)]
pub struct RdBox {
    pub place: RdRect,
    pub look: RdStyle,
    pub name: u32,
    pub name_end: u32,
    pub parent: u32,
    pub parent_end: u32,
}

/// The insertion of the box.
#[tactic(auto, using(crate::proofs::Rendering::planting))]
fn planting(alloc: Global, names: &[u8], child: &RdBox) -> Result<Edit, Refusal>
    ensures { IfOk result (IsPlanting names.now child.now) }
{
    let name = part(names, child.name, child.name_end)?;
    let parent = part(names, child.parent, child.parent_end)?;
    insertion(alloc, name, parent, b"", &child.place, &child.look)
}

/// An engine whose root is the box.
#[tactic(auto, using(crate::proofs::Rendering::rooted))]
fn rooted(
    alloc: Global,
    width: i32,
    height: i32,
    names: &[u8],
    root: &RdBox,
) -> Result<Painter, Refusal>
    ensures { IfOk result (IsRootOf width height names.now root.now) }
{
    let name = part(names, root.name, root.name_end)?;
    let engine = begun(alloc, width, height, name, &root.place, &root.look)?;
    Ok(Painter { engine, undo: None })
}

impl Painter {
    /// Inserts the box, and answers 0 or the number of why not.
    #[tactic(auto, using(crate::proofs::Asking::spelled))]
    fn plant(&mut self, alloc: Global, names: &[u8], child: &RdBox) -> u32
        ensures done { result ≡ 0 → DoneBy (IsPlanting names.now child.now) self.old self.new }
        ensures kept { 0 < result → self.new ≡ self.old }
        ensures refused { 0 < result → result < 9 → RefusedBy (IsPlanting names.now child.now) result self.old }
    {
        match planting(alloc, names, child) {
            Ok(edit) => self.edit(alloc, &edit),
            Err(refusal) => refusal.number(),
        }
    }

    /// Inserts the boxes in order, up to the first that is refused.
    fn plant_all(&mut self, alloc: Global, names: &[u8], boxes: &[RdBox]) -> u32
        ensures done { result ≡ 0 → AreDone (IsPlanting names.now) boxes.now self.old self.new }
        ensures refused { 0 < result → result < 9 → IsRefusedAmong names.now boxes.now result self.old }
    {
        for child in boxes {
            let number = self.plant(alloc, names, child);
            if number != 0 {
                return number;
            }
        }
        0
    }

    /// Paints once, and copies the canvas.
    fn show(&mut self, out: &mut [u8], note: &mut RdNote) -> Result<(), Refusal>
        ensures shown { OnOk result (IsShown self.old note.new out.old out.new) }
        ensures kept { OnErr result (out.new ≡ out.old) }
    {
        let _root = self.engine.tree().root();
        self.paint(note)?;
        let _state = self.engine.view();
        let pixels = self.engine.canvas().pixels();
        if out.len() / 4 < pixels.len() {
            return Err(Refusal::Short);
        }
        put_all(out, pixels, 0);
        Ok(())
    }
}

/// An engine of the boxes, of which the first is the root, or the number of why there is none.
#[tactic(auto, using(crate::proofs::Rendering::building))]
fn built(
    alloc: Global,
    width: i32,
    height: i32,
    names: &[u8],
    boxes: &[RdBox],
) -> Result<Painter, u32>
    ensures built { IfOk result (IsBuilt width height names.now boxes.now) }
    ensures some { IfErr result (λ n. 0 < n) }
    ensures refused { IfErr result (λ n. n < 9 → IsUnbuilt width height names.now boxes.now n) }
{
    let Some((root, others)) = boxes.split_first() else {
        return Err(Refusal::Value.number());
    };
    let mut painter = match rooted(alloc, width, height, names, root) {
        Ok(painter) => painter,
        Err(refusal) => return Err(refusal.number()),
    };
    let number = painter.plant_all(alloc, names, others);
    if number != 0 {
        return Err(number);
    }
    Ok(painter)
}

/// Paints the boxes, of which the first is the root, and copies the canvas: red, green, blue and 255 of each pixel, row by row.
#[unsafe(no_mangle)]
pub extern "C" fn rd_c_render(
    alloc: Global,
    width: i32,
    height: i32,
    names: &[u8],
    boxes: &[RdBox],
    out: &mut [u8],
    note: &mut RdNote,
) -> u32
    ensures shown { result ≡ 0 → IsRendered width height names.now boxes.now note.new out.old out.new }
    ensures kept { 0 < result → out.new ≡ out.old }
    ensures refused { 0 < result → result < 9 → IsUnbuilt width height names.now boxes.now result }
{
    match built(alloc, width, height, names, boxes) {
        Ok(mut painter) => status(painter.show(out, note)),
        Err(number) => number,
    }
}
