//! Engines are made and freed.

ghost use Rattle.std.specs.Prelude.{◌≡◌, ◌<◌, IfOk, IfSome, None, true};
ghost use Rattle.rd_geom.specs.Canvas.{IsCanvas};
ghost use Rattle.rd_c.specs.Handles.{IsHeld, IsSound};
ghost use Rattle.rd_c.specs.Held.{Holds};
ghost use Rattle.rd_c.specs.Made.{IsMade, IsStarted};
ghost use Rattle.rd_c.specs.Numbers.{number_of};
ghost use Rattle.rd_style.specs.Limits.{Fits, FitsRect};

use crate::handle::RdEngine;
use crate::painter::Painter;
use crate::refusal::Refusal;
use crate::values::{RdRect, RdStyle, id, rect, style};
use rd_engine::Engine;
use rd_geom::{MAX_CANVAS_SIDE, Rect, Size};
use rd_style::{Style, fits, fits_rect};
use rd_tree::{Id, Tree};
use std::alloc::Global;
use std::marker::Brand;

/// The size of a canvas, which is from 1 to 4,096 pixels wide and high.
fn canvas(w: i32, h: i32) -> Option<Size>
    ensures canvas { IfSome result (λ s. IsCanvas s) }
    ensures value { IfSome result (λ s. s ≡ record { w = w; h = h }) }
{
    if w < 1 || h < 1 || w > MAX_CANVAS_SIDE || h > MAX_CANVAS_SIDE {
        return None;
    }
    Some(Size { w, h })
}

/// An engine of a canvas with this root, which has not painted.
fn started(
    alloc: Global,
    size: Size,
    root: Id,
    place: Rect,
    style: Style,
) -> Result<Engine<Brand, Brand>, Refusal>
    requires canvas { IsCanvas size }
    requires rect { FitsRect place }
    requires style { Fits style }
    ensures { IfOk result (IsStarted size root place style) }
{
    let Ok(tree) = Tree::new(alloc, size, root, place, style) else {
        return Err(Refusal::NoMemory);
    };
    match Engine::new(alloc, tree) {
        Ok(engine) => Ok(engine),
        Err(_) => Err(Refusal::NoMemory),
    }
}

/// The same, of the numbers of C.
pub(crate) fn begun(
    alloc: Global,
    width: i32,
    height: i32,
    root: &[u8],
    place: &RdRect,
    look: &RdStyle,
) -> Result<Engine<Brand, Brand>, Refusal>
    ensures { IfOk result (IsMade width height root.now place.now look.now) }
{
    let Some(size) = canvas(width, height) else {
        return Err(Refusal::Value);
    };
    let root = id(alloc, root)?;
    let place = rect(place)?;
    let look = style(look)?;
    if !fits_rect(place) || !fits(&look) {
        return Err(Refusal::OutOfRange);
    }
    started(alloc, size, root, place, look)
}

/// The same in a box.
fn boxed(
    alloc: Global,
    width: i32,
    height: i32,
    root: &[u8],
    place: &RdRect,
    look: &RdStyle,
) -> Result<Box<Painter, Global>, Refusal>
    ensures made { IfOk result (λ b. IsMade width height root.now place.now look.now b.value.engine) }
    ensures undo { IfOk result (λ b. b.value.undo ≡ None) }
{
    let engine = begun(alloc, width, height, root, place, look)?;
    match Box::new(alloc, Painter { engine, undo: None }) {
        Ok(painter) => Ok(painter),
        Err(_) => Err(Refusal::NoMemory),
    }
}

/// Makes an engine of a canvas with a root, which the handle then holds.
#[unsafe(no_mangle)]
pub extern "C" fn rd_c_new(
    handle: &mut RdEngine,
    alloc: Global,
    width: i32,
    height: i32,
    root: &[u8],
    place: &RdRect,
    look: &RdStyle,
) -> u32
    requires { IsSound handle.old.held.value handle.old.full }
    ensures sound { IsSound handle.new.held.value handle.new.full }
    ensures made { result ≡ 0 → Holds (λ p. IsMade width height root.now place.now look.now p.engine) handle.new.held.value }
    ensures undo { result ≡ 0 → Holds (λ p. p.undo ≡ None) handle.new.held.value }
    ensures kept { 0 < result → handle.new.held.value ≡ handle.old.held.value }
    ensures in_use { handle.old.full ≡ true → result ≡ number_of Refusal.InUse }
{
    if handle.full {
        return Refusal::InUse.number();
    }
    match boxed(alloc, width, height, root, place, look) {
        Ok(painter) => {
            handle.put(painter);
            0
        }
        Err(refusal) => refusal.number(),
    }
}

/// Frees the engine, which the handle no longer holds.
#[unsafe(no_mangle)]
pub extern "C" fn rd_c_free(handle: &mut RdEngine, alloc: Global) -> u32
    requires { IsSound handle.old.held.value handle.old.full }
    ensures sound { IsSound handle.new.held.value handle.new.full }
    ensures freed { handle.new.held.value ≡ None }
    ensures none { handle.old.held.value ≡ None → result ≡ number_of Refusal.NoEngine }
    ensures done { IsHeld handle.old.held.value → result ≡ 0 }
{
    match handle.take(alloc) {
        Some(_) => 0,
        None => Refusal::NoEngine.number(),
    }
}
