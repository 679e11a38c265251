//! The picture of a list in the wire form.

ghost use Rattle.std.specs.Prelude.{◌≡◌, ◌<◌, ◌++◌, ℕ, List, IfOk, IfErr, OnOk, pos, unsigned_abs};
ghost use Rattle.rd_geom.specs.Canvas.{IsCanvas};
ghost use Rattle.rd_list.specs.EntryNames.{new_leaves};
ghost use Rattle.rd_list.specs.Lists.{pixel as shown};
ghost use Rattle.rd_report.specs.Pictures.{rgb};
ghost use Rattle.rd_run.specs.Endings.{counter, stream, EndsAs, HasRead, IsWireText, IsWirePicture};
ghost use Rattle.rd_run.specs.Internal.Answered.{AnswersAs, RefusesWire};
ghost use Rattle.rd_run.specs.Pictures.{row_of, wire_picture};
ghost use Rattle.rd_run.specs.declared.words.WordsForm.TheVariants.{Compose};

use crate::input::read_bytes;
use crate::performing::write;
use crate::status::Status;
use rd_geom::{NoMemory, Px};
use rd_io::{Sink, Source};
use rd_report::{picture_head, push_px};
use rd_wire::{Wire, WireFault, decode, pixel};
use std::alloc::Global;

/// Reads a wire to the end of the source. The bytes are gone when it returns.
fn wire_input<S: Source>(alloc: Global, source: &mut S) -> Result<Wire, Status>
    ensures wire { IfOk result (λ w. (bytes : List ℕ) × IsWireText bytes w
        × HasRead (stream (S.left source.old) (S.left source.new) (S.faults source.old) (S.faults source.new)) bytes) }
    ensures refused { IfErr result (RefusesWire
        (stream (S.left source.old) (S.left source.new) (S.faults source.old) (S.faults source.new))) }
{
    let bytes = match read_bytes(alloc, source) {
        Ok(bytes) => bytes,
        Err(status) => return Err(status),
    };
    match decode(alloc, &bytes) {
        Ok(wire) => Ok(wire),
        Err(WireFault::Form) => Err(Status::BadWire),
        Err(WireFault::NoMemory) => Err(Status::NoMemory),
    }
}

/// The pixel in a column and a row of the canvas.
fn pixel_on(wire: &Wire, x: u32, y: u32) -> Px
    requires canvas { IsCanvas wire.now.size }
    requires column { x < unsigned_abs wire.now.size.w }
    requires row { y < unsigned_abs wire.now.size.h }
    ensures { result ≡ shown (new_leaves wire.now.list) (pos x) (pos y) }
{
    match pixel(wire, x as i32, y as i32) {
        Some(px) => px,
        None => Px::WHITE,
    }
}

/// The pixels of a row, from the left.
fn push_row(bytes: &mut Vec<u8>, wire: &Wire, y: u32) -> Result<(), NoMemory>
    requires canvas { IsCanvas wire.now.size }
    requires row { y < unsigned_abs wire.now.size.h }
    ensures { OnOk result (bytes.new.items ≡ bytes.old.items
        ++ rgb (row_of (shown (new_leaves wire.now.list)) y (unsigned_abs wire.now.size.w))) }
{
    let width = wire.size.w.unsigned_abs();
    for x in 0..width {
        push_px(bytes, &pixel_on(wire, x, y))?;
    }
    Ok(())
}

/// The picture of a wire as Netpbm P6 has it, row by row from the top.
fn picture_of(alloc: Global, wire: &Wire) -> Result<Vec<u8>, NoMemory>
    requires { IsCanvas wire.now.size }
    ensures { IfOk result (λ bytes. bytes.items ≡ wire_picture wire.now) }
{
    let width = wire.size.w.unsigned_abs();
    let height = wire.size.h.unsigned_abs();
    let head = picture_head(alloc, width, height)?;
    let mut bytes = Vec::new(alloc);
    bytes.extend_from_slice(head.as_bytes())?;
    for y in 0..height {
        push_row(&mut bytes, wire, y)?;
    }
    Ok(bytes)
}

/// Writes the picture of a wire.
fn draw<O: Sink>(alloc: Global, wire: &Wire, out: &mut O) -> Status
    requires { IsCanvas wire.now.size }
    ensures { (m l : ℕ) → AnswersAs (out.new ≡ out.old) (IsWirePicture wire.now)
        (stream (O.written out.old) (O.written out.new) (O.faults out.old) (O.faults out.new))
        (counter m m) (counter l l) result }
{
    match picture_of(alloc, wire) {
        Ok(picture) => write(out, &picture),
        Err(_) => Status::NoMemory,
    }
}

/// Reads a wire, and writes its picture. Whatever is counted, it makes no item, and looks at no box.
pub(crate) fn compose<S: Source, O: Sink>(alloc: Global, source: &mut S, out: &mut O) -> Status
    ensures { (m l : ℕ) → EndsAs (source.new ≡ source.old) ((out.new ≡ out.old) × (m ≡ m) × (l ≡ l))
        (stream (S.left source.old) (S.left source.new) (S.faults source.old) (S.faults source.new))
        (stream (O.written out.old) (O.written out.new) (O.faults out.old) (O.faults out.new))
        (counter m m) (counter l l) Compose result }
{
    match wire_input(alloc, source) {
        Ok(wire) => draw(alloc, &wire, out),
        Err(status) => status,
    }
}
