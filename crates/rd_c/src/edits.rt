//! Edits, each in a call of its own.

ghost use Rattle.std.specs.Prelude.{◌≡◌, ◌<◌, IfOk, IsOkAnd, None};
ghost use Rattle.rd_edits.specs.declared.edit.Edit.TheVariants as edits;
ghost use Rattle.rd_c.specs.Asked.{DoneBy, RefusedBy, IsInsertion, IsStyling, or_none};
ghost use Rattle.rd_c.specs.Handles.{IsSound};
ghost use Rattle.rd_c.specs.Held.{OnHeld, Holds, IsChanged, IsDone, IsRefusedBy};
ghost use Rattle.rd_c.specs.Numbers.{number_of};
ghost use Rattle.rd_c.specs.Spelled.{rectangle_of};

use crate::handle::RdEngine;
use crate::painter::Painter;
use crate::refusal::{Refusal, of_edit};
use crate::values::{RdRect, RdStyle, change, id, id_or_none, rect, style};
use rd_edits::Edit;
use std::alloc::Global;

pub(crate) fn insertion(
    alloc: Global,
    name: &[u8],
    parent: &[u8],
    before: &[u8],
    place: &RdRect,
    look: &RdStyle,
) -> Result<Edit, Refusal>
    ensures { IfOk result (IsInsertion name.now parent.now before.now place.now look.now) }
{
    Ok(Edit::Insert {
        id: id(alloc, name)?,
        parent: id(alloc, parent)?,
        before: id_or_none(alloc, before)?,
        rect: rect(place)?,
        style: style(look)?,
    })
}

pub(crate) fn removal(alloc: Global, name: &[u8]) -> Result<Edit, Refusal>
    ensures { IfOk result (λ e. e ≡ edits.Remove name.now) }
{
    Ok(Edit::Remove {
        id: id(alloc, name)?,
    })
}

pub(crate) fn moving(
    alloc: Global,
    name: &[u8],
    parent: &[u8],
    before: &[u8],
) -> Result<Edit, Refusal>
    ensures { IfOk result (λ e. e ≡ edits.Move name.now parent.now (or_none before.now)) }
{
    Ok(Edit::Move {
        id: id(alloc, name)?,
        parent: id(alloc, parent)?,
        before: id_or_none(alloc, before)?,
    })
}

pub(crate) fn styling(
    alloc: Global,
    name: &[u8],
    look: &RdStyle,
    names: u32,
) -> Result<Edit, Refusal>
    ensures { IfOk result (IsStyling name.now look.now names) }
{
    Ok(Edit::SetStyle {
        id: id(alloc, name)?,
        change: change(look, names)?,
    })
}

pub(crate) fn placing(alloc: Global, name: &[u8], place: &RdRect) -> Result<Edit, Refusal>
    ensures { IfOk result (λ e. e ≡ edits.SetRect name.now (rectangle_of place.now)) }
{
    Ok(Edit::SetRect {
        id: id(alloc, name)?,
        rect: rect(place)?,
    })
}

pub(crate) fn shifting(alloc: Global, name: &[u8], dx: i32, dy: i32) -> Result<Edit, Refusal>
    ensures { IfOk result (λ e. e ≡ edits.Shift name.now dx dy) }
{
    Ok(Edit::Shift {
        id: id(alloc, name)?,
        dx,
        dy,
    })
}

pub(crate) fn scrolling(alloc: Global, name: &[u8], x: i32, y: i32) -> Result<Edit, Refusal>
    ensures { IfOk result (λ e. e ≡ edits.Scroll name.now x y) }
{
    Ok(Edit::Scroll {
        id: id(alloc, name)?,
        x,
        y,
    })
}

impl Painter {
    /// Does the edit, or answers the number of the fault that refuses it, and then nothing has changed. What undoes it is not kept.
    #[tactic(auto, using(crate::proofs::Back::refused_at))]
    pub(crate) fn change(&mut self, edit: &Edit) -> u32
        ensures done { result ≡ 0 → IsChanged edit.now self.old.engine self.new.engine }
        ensures undo { self.new.undo ≡ self.old.undo }
        ensures kept { 0 < result → self.new ≡ self.old }
        ensures refused { 0 < result → IsRefusedBy result edit.now self.old }
    {
        let _before = self.engine.tree().root();
        let done = self.engine.edit(edit);
        let _after = self.engine.tree().root();
        match done {
            Ok(()) => 0,
            Err(fault) => of_edit(fault),
        }
    }

    /// The same; what undoes it is kept, where that is kept of edits.
    pub(crate) fn edit(&mut self, alloc: Global, edit: &Edit) -> u32
        ensures done { result ≡ 0 → IsDone edit.now self.old self.new }
        ensures kept { 0 < result → self.new ≡ self.old }
        ensures refused { 0 < result → IsRefusedBy result edit.now self.old }
    {
        if self.undo.is_some() {
            return self.edit_noted(alloc, edit);
        }
        self.change(edit)
    }
}

/// Does an edit that could be read.
fn edited(handle: &mut RdEngine, alloc: Global, edit: Result<Edit, Refusal>) -> u32
    requires { IsSound handle.old.held.value handle.old.full }
    ensures sound { IsSound handle.new.held.value handle.new.full }
    ensures done { result ≡ 0 → IsOkAnd edit (λ e. OnHeld (IsDone e) handle.old.held.value handle.new.held.value) }
    ensures kept { 0 < result → handle.new.held.value ≡ handle.old.held.value }
    ensures refused { 0 < result → result < 9 → IsOkAnd edit (λ e. Holds (IsRefusedBy result e) handle.old.held.value) }
    ensures none { handle.old.held.value ≡ None → result ≡ number_of Refusal.NoEngine }
{
    let Some(mut painter) = handle.take(alloc) else {
        return Refusal::NoEngine.number();
    };
    let number = match edit {
        Ok(edit) => painter.edit(alloc, &edit),
        Err(refusal) => refusal.number(),
    };
    handle.put(painter);
    number
}

/// Inserts a box below a parent, before one of its children or last.
#[unsafe(no_mangle)]
#[tactic(auto, using(crate::proofs::Asking::done_by, crate::proofs::Asking::refused_by))]
pub extern "C" fn rd_c_insert(
    handle: &mut RdEngine,
    alloc: Global,
    name: &[u8],
    parent: &[u8],
    before: &[u8],
    place: &RdRect,
    look: &RdStyle,
) -> u32
    requires { IsSound handle.old.held.value handle.old.full }
    ensures sound { IsSound handle.new.held.value handle.new.full }
    ensures done { result ≡ 0 → OnHeld (DoneBy (IsInsertion name.now parent.now before.now place.now look.now)) handle.old.held.value handle.new.held.value }
    ensures kept { 0 < result → handle.new.held.value ≡ handle.old.held.value }
    ensures refused { 0 < result → result < 9 → Holds (RefusedBy (IsInsertion name.now parent.now before.now place.now look.now) result) handle.old.held.value }
    ensures none { handle.old.held.value ≡ None → result ≡ number_of Refusal.NoEngine }
{
    edited(
        handle,
        alloc,
        insertion(alloc, name, parent, before, place, look),
    )
}

/// Removes a box and all below it.
#[unsafe(no_mangle)]
#[tactic(auto, using(crate::proofs::Asking::done_by, crate::proofs::Asking::refused_by))]
pub extern "C" fn rd_c_remove(handle: &mut RdEngine, alloc: Global, name: &[u8]) -> u32
    requires { IsSound handle.old.held.value handle.old.full }
    ensures sound { IsSound handle.new.held.value handle.new.full }
    ensures done { result ≡ 0 → OnHeld (DoneBy (λ e. e ≡ edits.Remove name.now)) handle.old.held.value handle.new.held.value }
    ensures kept { 0 < result → handle.new.held.value ≡ handle.old.held.value }
    ensures refused { 0 < result → result < 9 → Holds (RefusedBy (λ e. e ≡ edits.Remove name.now) result) handle.old.held.value }
    ensures none { handle.old.held.value ≡ None → result ≡ number_of Refusal.NoEngine }
{
    edited(handle, alloc, removal(alloc, name))
}

/// Moves a box and all below it below a parent, before one of its children or last.
#[unsafe(no_mangle)]
#[tactic(auto, using(crate::proofs::Asking::done_by, crate::proofs::Asking::refused_by))]
pub extern "C" fn rd_c_move(
    handle: &mut RdEngine,
    alloc: Global,
    name: &[u8],
    parent: &[u8],
    before: &[u8],
) -> u32
    requires { IsSound handle.old.held.value handle.old.full }
    ensures sound { IsSound handle.new.held.value handle.new.full }
    ensures done { result ≡ 0 → OnHeld (DoneBy (λ e. e ≡ edits.Move name.now parent.now (or_none before.now))) handle.old.held.value handle.new.held.value }
    ensures kept { 0 < result → handle.new.held.value ≡ handle.old.held.value }
    ensures refused { 0 < result → result < 9 → Holds (RefusedBy (λ e. e ≡ edits.Move name.now parent.now (or_none before.now)) result) handle.old.held.value }
    ensures none { handle.old.held.value ≡ None → result ≡ number_of Refusal.NoEngine }
{
    edited(handle, alloc, moving(alloc, name, parent, before))
}

/// Gives members of a box's style other values.
#[unsafe(no_mangle)]
#[tactic(auto, using(crate::proofs::Asking::done_by, crate::proofs::Asking::refused_by))]
pub extern "C" fn rd_c_set_style(
    handle: &mut RdEngine,
    alloc: Global,
    name: &[u8],
    look: &RdStyle,
    names: u32,
) -> u32
    requires { IsSound handle.old.held.value handle.old.full }
    ensures sound { IsSound handle.new.held.value handle.new.full }
    ensures done { result ≡ 0 → OnHeld (DoneBy (IsStyling name.now look.now names)) handle.old.held.value handle.new.held.value }
    ensures kept { 0 < result → handle.new.held.value ≡ handle.old.held.value }
    ensures refused { 0 < result → result < 9 → Holds (RefusedBy (IsStyling name.now look.now names) result) handle.old.held.value }
    ensures none { handle.old.held.value ≡ None → result ≡ number_of Refusal.NoEngine }
{
    edited(handle, alloc, styling(alloc, name, look, names))
}

/// Gives a box another rectangle.
#[unsafe(no_mangle)]
#[tactic(auto, using(crate::proofs::Asking::done_by, crate::proofs::Asking::refused_by))]
pub extern "C" fn rd_c_set_rect(
    handle: &mut RdEngine,
    alloc: Global,
    name: &[u8],
    place: &RdRect,
) -> u32
    requires { IsSound handle.old.held.value handle.old.full }
    ensures sound { IsSound handle.new.held.value handle.new.full }
    ensures done { result ≡ 0 → OnHeld (DoneBy (λ e. e ≡ edits.SetRect name.now (rectangle_of place.now))) handle.old.held.value handle.new.held.value }
    ensures kept { 0 < result → handle.new.held.value ≡ handle.old.held.value }
    ensures refused { 0 < result → result < 9 → Holds (RefusedBy (λ e. e ≡ edits.SetRect name.now (rectangle_of place.now)) result) handle.old.held.value }
    ensures none { handle.old.held.value ≡ None → result ≡ number_of Refusal.NoEngine }
{
    edited(handle, alloc, placing(alloc, name, place))
}

/// Moves a box and all below it on the canvas.
#[unsafe(no_mangle)]
#[tactic(auto, using(crate::proofs::Asking::done_by, crate::proofs::Asking::refused_by))]
pub extern "C" fn rd_c_shift(
    handle: &mut RdEngine,
    alloc: Global,
    name: &[u8],
    dx: i32,
    dy: i32,
) -> u32
    requires { IsSound handle.old.held.value handle.old.full }
    ensures sound { IsSound handle.new.held.value handle.new.full }
    ensures done { result ≡ 0 → OnHeld (DoneBy (λ e. e ≡ edits.Shift name.now dx dy)) handle.old.held.value handle.new.held.value }
    ensures kept { 0 < result → handle.new.held.value ≡ handle.old.held.value }
    ensures refused { 0 < result → result < 9 → Holds (RefusedBy (λ e. e ≡ edits.Shift name.now dx dy) result) handle.old.held.value }
    ensures none { handle.old.held.value ≡ None → result ≡ number_of Refusal.NoEngine }
{
    edited(handle, alloc, shifting(alloc, name, dx, dy))
}

/// Gives a box another scroll offset, in canvas pixels.
#[unsafe(no_mangle)]
#[tactic(auto, using(crate::proofs::Asking::done_by, crate::proofs::Asking::refused_by))]
pub extern "C" fn rd_c_scroll(
    handle: &mut RdEngine,
    alloc: Global,
    name: &[u8],
    x: i32,
    y: i32,
) -> u32
    requires { IsSound handle.old.held.value handle.old.full }
    ensures sound { IsSound handle.new.held.value handle.new.full }
    ensures done { result ≡ 0 → OnHeld (DoneBy (λ e. e ≡ edits.Scroll name.now x y)) handle.old.held.value handle.new.held.value }
    ensures kept { 0 < result → handle.new.held.value ≡ handle.old.held.value }
    ensures refused { 0 < result → result < 9 → Holds (RefusedBy (λ e. e ≡ edits.Scroll name.now x y) result) handle.old.held.value }
    ensures none { handle.old.held.value ≡ None → result ≡ number_of Refusal.NoEngine }
{
    edited(handle, alloc, scrolling(alloc, name, x, y))
}
