//! What an engine shows at a pixel, and the ids of boxes.

ghost use Rattle.std.specs.Prelude.{◌≡◌, ◌<◌, OnOk, OnErr, IfSome, None, Some, length as size};
ghost use Rattle.rd_engine.specs.Painted.{shown_at};
ghost use Rattle.rd_tree.specs.Document.{id_of};
ghost use Rattle.rd_c.specs.Handles.{IsSound};
ghost use Rattle.rd_c.specs.Held.{Holds};
ghost use Rattle.rd_c.specs.Memory.{IsWritten};
ghost use Rattle.rd_c.specs.Numbers.{number_of};
ghost use Rattle.rd_c.specs.Reading.{IsTextWritten, room_answer, settled_answer, status_of, text_answer, value_answer};
ghost use Rattle.rd_c.specs.Shown.{box_key, hit_id};
ghost use Rattle.rd_c.specs.Spelled.{color_of};

use crate::handle::RdEngine;
use crate::listing::told_color;
use crate::painter::Painter;
use crate::refusal::{Refusal, status};
use crate::values::RdColor;
use rd_keys::BoxKey;
use std::alloc::Global;

/// Writes a text, and its length.
#[tactic(auto, using(crate::proofs::Answering::texts))]
fn write(text: &[u8], out: &mut [u8], length: &mut usize) -> Result<(), Refusal>
    ensures written { OnOk result (IsWritten text.now out.old out.new length.new) }
    ensures kept { OnErr result (out.new ≡ out.old) }
    ensures answer { status_of result ≡ room_answer (size text.now) (size out.old) }
{
    if out.len() < text.len() {
        return Err(Refusal::Short);
    }
    *length = text.len();
    out[..text.len()].copy_from_slice(text);
    Ok(())
}

impl Painter {
    /// The colour of a pixel.
    #[tactic(auto, using(crate::proofs::Answering::values))]
    fn pixel(&self, x: i32, y: i32, out: &mut RdColor) -> Result<(), Refusal>
        ensures pixel { OnOk result (shown_at self.now.engine.tree x y ≡ Some (color_of out.new)) }
        ensures kept { OnErr result (out.new ≡ out.old) }
        ensures answer { status_of result ≡ value_answer self.now.engine.pending (shown_at self.now.engine.tree x y) }
    {
        if self.engine.pending() {
            return Err(Refusal::Pending);
        }
        let Some(color) = self.engine.pixel(x, y) else {
            return Err(Refusal::Nothing);
        };
        *out = told_color(color);
        Ok(())
    }

    /// Writes the id of the box that is hit, and its length.
    #[tactic(auto, using(crate::proofs::Answering::texts))]
    fn hit(&self, x: i32, y: i32, out: &mut [u8], length: &mut usize) -> Result<(), Refusal>
        ensures hit { OnOk result (IsTextWritten (hit_id self.now.engine.tree x y) out.old out.new length.new) }
        ensures kept { OnErr result (out.new ≡ out.old) }
        ensures answer { status_of result ≡ settled_answer self.now.engine.pending (hit_id self.now.engine.tree x y) (size out.old) }
    {
        if self.engine.pending() {
            return Err(Refusal::Pending);
        }
        let Some(key) = self.engine.hit(x, y) else {
            return Err(Refusal::Nothing);
        };
        let Some(id) = self.engine.tree().id(key) else {
            return Err(Refusal::Nothing);
        };
        write(id.text().as_bytes(), out, length)
    }

    /// Writes the id of the box with this key, and its length.
    #[tactic(auto, using(crate::proofs::Answering::texts))]
    fn id(&self, key: BoxKey, out: &mut [u8], length: &mut usize) -> Result<(), Refusal>
        ensures id { OnOk result (IsTextWritten (id_of key self.now.engine.tree.boxes) out.old out.new length.new) }
        ensures kept { OnErr result (out.new ≡ out.old) }
        ensures answer { status_of result ≡ text_answer (id_of key self.now.engine.tree.boxes) (size out.old) }
    {
        let Some(id) = self.engine.tree().id(key) else {
            return Err(Refusal::Nothing);
        };
        write(id.text().as_bytes(), out, length)
    }
}

/// The colour of a pixel.
#[unsafe(no_mangle)]
pub extern "C" fn rd_c_pixel(
    handle: &mut RdEngine,
    alloc: Global,
    x: i32,
    y: i32,
    out: &mut RdColor,
) -> u32
    requires { IsSound handle.old.held.value handle.old.full }
    ensures sound { IsSound handle.new.held.value handle.new.full }
    ensures same { handle.new.held.value ≡ handle.old.held.value }
    ensures pixel { result ≡ 0 → Holds (λ p. shown_at p.engine.tree x y ≡ Some (color_of out.new)) handle.old.held.value }
    ensures kept { 0 < result → out.new ≡ out.old }
    ensures answer { IfSome handle.old.held.value (λ p. result ≡ value_answer p.engine.pending (shown_at p.engine.tree x y)) }
    ensures none { handle.old.held.value ≡ None → result ≡ number_of Refusal.NoEngine }
{
    let Some(painter) = handle.take(alloc) else {
        return Refusal::NoEngine.number();
    };
    let done = painter.pixel(x, y, out);
    handle.put(painter);
    status(done)
}

/// The id of the topmost box that is hit.
#[unsafe(no_mangle)]
pub extern "C" fn rd_c_hit(
    handle: &mut RdEngine,
    alloc: Global,
    x: i32,
    y: i32,
    out: &mut [u8],
    length: &mut usize,
) -> u32
    requires { IsSound handle.old.held.value handle.old.full }
    ensures sound { IsSound handle.new.held.value handle.new.full }
    ensures same { handle.new.held.value ≡ handle.old.held.value }
    ensures hit { result ≡ 0 → Holds (λ p. IsTextWritten (hit_id p.engine.tree x y) out.old out.new length.new) handle.old.held.value }
    ensures kept { 0 < result → out.new ≡ out.old }
    ensures answer { IfSome handle.old.held.value (λ p. result ≡ settled_answer p.engine.pending (hit_id p.engine.tree x y) (size out.old)) }
    ensures none { handle.old.held.value ≡ None → result ≡ number_of Refusal.NoEngine }
{
    let Some(painter) = handle.take(alloc) else {
        return Refusal::NoEngine.number();
    };
    let done = painter.hit(x, y, out, length);
    handle.put(painter);
    status(done)
}

/// The id of the box with this key, as an entry of the list tells it.
#[unsafe(no_mangle)]
pub extern "C" fn rd_c_id(
    handle: &mut RdEngine,
    alloc: Global,
    slot: u32,
    generation: u32,
    out: &mut [u8],
    length: &mut usize,
) -> u32
    requires { IsSound handle.old.held.value handle.old.full }
    ensures sound { IsSound handle.new.held.value handle.new.full }
    ensures same { handle.new.held.value ≡ handle.old.held.value }
    ensures id { result ≡ 0 → Holds (λ p. IsTextWritten (id_of (box_key slot generation) p.engine.tree.boxes) out.old out.new length.new) handle.old.held.value }
    ensures kept { 0 < result → out.new ≡ out.old }
    ensures answer { IfSome handle.old.held.value (λ p. result ≡ text_answer (id_of (box_key slot generation) p.engine.tree.boxes) (size out.old)) }
    ensures none { handle.old.held.value ≡ None → result ≡ number_of Refusal.NoEngine }
{
    let Some(painter) = handle.take(alloc) else {
        return Refusal::NoEngine.number();
    };
    let done = painter.id(BoxKey::new(slot, generation), out, length);
    handle.put(painter);
    status(done)
}
