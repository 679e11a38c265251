//! Edits are taken back.

ghost use Rattle.std.specs.Prelude.{◌≡◌, ◌<◌, ◌≤◌, true, IfSome, None, OnOk, OnErr, length, take, drop, is_some};
ghost use Rattle.rd_undo.specs.Figures.{max_steps};
ghost use Rattle.rd_c.specs.Handles.{IsHeld, IsSound};
ghost use Rattle.rd_c.specs.Held.{IsChanged, IsDone, IsRefusedBy, OnHeld, with_newest};
ghost use Rattle.rd_c.specs.Numbers.{number_of};
ghost use Rattle.rd_c.specs.Reading.{IsAnswer, status_of};
ghost use Rattle.rd_c.specs.Turns.{InTurn, IsFirst};
ghost use Rattle.rd_c.specs.Undone.{IsBack, IsKeeping, IsNeverRefused, IsStopped, IsTakenBack, keep_answer, newest_of, older_of};

use crate::handle::RdEngine;
use crate::painter::Painter;
use crate::refusal::{Refusal, of_edit, status};
use circular_buffer::HeapCircularBuffer;
use rd_edits::{Edit, EditFault, verdict};
use rd_geom::Steps;
use rd_undo::{MAX_STEPS, Step};
use std::alloc::Global;
use std::marker::Model;

/// The limit, so that clauses can say what it is.
fn figure()
    ensures { MAX_STEPS ≡ max_steps }
{}

/// What is left of the edits that undo an edit: all but the first, which were done before memory was wanting.
#[derive(Drop)]
pub(crate) struct Undoing {
    step: Step,
    done: usize,
}

impl Model for Undoing {
    ghost use Rattle.std.specs.Prelude.{◌≤◌, List, drop, length};
    ghost use Rattle.rd_edits.specs.declared.edit.Edit.{Edit};

    ghost Value = { List Edit };

    ghost view = { λ u. drop u.done u.step };

    ghost invariant = { λ u. u.done ≤ length u.step };
}

/// What undoes the latest edits.
pub(crate) type Undos = HeapCircularBuffer<Undoing>;

impl Undoing {
    fn of(step: Step) -> Undoing
        ensures { result ≡ step }
    {
        Undoing { step, done: 0 }
    }

    fn edits(&self) -> &[Edit]
        ensures { result.now ≡ self.now }
    {
        &self.step.edits()[self.done..]
    }

    /// Of what is left the first were done, so many of them.
    fn skip(&mut self, count: usize)
        requires { count ≤ length self.old }
        ensures { self.new ≡ drop count self.old }
    {
        let _steps = self.step.edits().len();
        self.done += count;
    }
}

/// Keeps what undoes one more edit, where that is kept. The oldest goes where there is no room for all.
fn keep_newest(undo: &mut Option<Undos>, newest: Undoing)
    ensures { undo.new ≡ with_newest newest undo.old }
{
    if let Some(undo) = undo {
        let _oldest = undo.push_back(newest);
    }
}

/// Takes what undoes the latest edit out.
fn take_newest(undo: &mut Option<Undos>) -> Option<Undoing>
    ensures newest { result ≡ newest_of undo.old }
    ensures older { undo.new ≡ older_of undo.old }
    ensures whole { IfSome result (λ es. with_newest es undo.new ≡ undo.old) }
{
    match undo {
        Some(undo) => {
            let _room = undo.len();
            undo.pop_back()
        }
        None => None,
    }
}

impl Painter {
    /// Does the edit, which also keeps what undoes it, or answers the number of the fault that refuses it, and then nothing has
    /// changed.
    #[tactic(auto, using(crate::proofs::Back::unkept, crate::proofs::Back::judged))]
    pub(crate) fn edit_noted(&mut self, alloc: Global, edit: &Edit) -> u32
        requires { is_some self.old.undo ≡ true }
        ensures done { result ≡ 0 → IsDone edit.now self.old self.new }
        ensures kept { 0 < result → self.new ≡ self.old }
        ensures refused { 0 < result → IsRefusedBy result edit.now self.old }
    {
        if let Some(fault) = verdict(self.engine.tree(), edit) {
            return of_edit(fault);
        }
        let Ok(step) = Step::prepare(alloc, self.engine.tree(), edit, &mut Steps::idle()) else {
            return of_edit(EditFault::NoMemory);
        };
        let number = self.change(edit);
        if number == 0 {
            keep_newest(&mut self.undo, Undoing::of(step));
        }
        number
    }

    /// Does edits in order, up to the first that is refused, whose number it answers. `done` is how many were done. What undoes them
    /// is not kept.
    fn change_all(&mut self, edits: &[Edit], done: &mut usize) -> u32
        ensures order { InTurn IsChanged (take done.new edits.now) self.old.engine self.new.engine }
        ensures undo { self.new.undo ≡ self.old.undo }
        ensures all { result ≡ 0 → done.new ≡ length edits.now }
        ensures stopped { 0 < result → done.new < length edits.now }
        ensures refused { 0 < result → IsFirst (λ e. IsRefusedBy result e self.new) (drop done.new edits.now) }
    {
        for (i, edit) in edits.iter().enumerate() {
            let number = self.change(edit);
            if number != 0 {
                *done = i;
                return number;
            }
        }
        *done = edits.len();
        0
    }

    /// Makes room for what undoes so many edits.
    fn keep(&mut self, alloc: Global, steps: u32) -> Result<(), Refusal>
        ensures keeping { OnOk result (IsKeeping steps self.old self.new) }
        ensures kept { OnErr result (self.new ≡ self.old) }
        ensures answer { IsAnswer (keep_answer steps) (status_of result) }
    {
        if steps > MAX_STEPS {
            return Err(Refusal::Value);
        }
        if steps == 0 {
            self.undo = None;
            return Ok(());
        }
        let Ok(undo) = HeapCircularBuffer::with_capacity(alloc, steps as usize) else {
            return Err(Refusal::NoMemory);
        };
        self.undo = Some(undo);
        Ok(())
    }

    /// Takes the latest edit back of which is kept what undoes it.
    #[tactic(auto, using(crate::proofs::Back::nothing))]
    fn undo(&mut self, done: &mut usize) -> u32
        ensures done { result ≡ 0 → IsTakenBack done.new self.old self.new }
        ensures back { result ≡ 0 → IsBack self.old self.new }
        ensures nothing { newest_of self.old.undo ≡ None → result ≡ number_of Refusal.Nothing }
        ensures kept { 0 < result → done.new ≡ 0 → self.new ≡ self.old }
        ensures only { 0 < result → IsNeverRefused result self.old }
        ensures stopped { 0 < result → is_some (newest_of self.old.undo) ≡ true → IsStopped done.new result self.old self.new }
    {
        let _root = self.engine.tree().root();
        *done = 0;
        let Some(mut newest) = take_newest(&mut self.undo) else {
            return Refusal::Nothing.number();
        };
        let number = self.change_all(newest.edits(), done);
        if number == 0 {
            return 0;
        }
        newest.skip(*done);
        keep_newest(&mut self.undo, newest);
        number
    }
}

/// Keeps from now on what undoes the last `steps` edits, at most 1,024 of them; where it is 0, as at first, none. What was kept
/// before is forgotten.
#[unsafe(no_mangle)]
pub extern "C" fn rd_c_keep(handle: &mut RdEngine, alloc: Global, steps: u32) -> u32
    requires { IsSound handle.old.held.value handle.old.full }
    ensures sound { IsSound handle.new.held.value handle.new.full }
    ensures keeping { result ≡ 0 → OnHeld (IsKeeping steps) handle.old.held.value handle.new.held.value }
    ensures kept { 0 < result → handle.new.held.value ≡ handle.old.held.value }
    ensures answer { IfSome handle.old.held.value (λ p. IsAnswer (keep_answer steps) result) }
    ensures none { handle.old.held.value ≡ None → result ≡ number_of Refusal.NoEngine }
{
    let Some(mut painter) = handle.take(alloc) else {
        return Refusal::NoEngine.number();
    };
    let done = painter.keep(alloc, steps);
    handle.put(painter);
    status(done)
}

/// Takes the latest edit back of which is kept what undoes it. `done` is how many edits that took. Without memory for one of them those
/// before it are done, and the next call goes on with the others.
#[unsafe(no_mangle)]
pub extern "C" fn rd_c_undo(handle: &mut RdEngine, alloc: Global, done: &mut usize) -> u32
    requires { IsSound handle.old.held.value handle.old.full }
    ensures sound { IsSound handle.new.held.value handle.new.full }
    ensures done { result ≡ 0 → OnHeld (IsTakenBack done.new) handle.old.held.value handle.new.held.value }
    ensures back { result ≡ 0 → OnHeld IsBack handle.old.held.value handle.new.held.value }
    ensures nothing { IfSome handle.old.held.value (λ p. newest_of p.undo ≡ None → result ≡ number_of Refusal.Nothing) }
    ensures kept { 0 < result → done.new ≡ 0 → handle.new.held.value ≡ handle.old.held.value }
    ensures only { 0 < result → IfSome handle.old.held.value (IsNeverRefused result) }
    ensures stopped { 0 < result → IsHeld handle.old.held.value
        → OnHeld (λ old new. is_some (newest_of old.undo) ≡ true → IsStopped done.new result old new) handle.old.held.value handle.new.held.value }
    ensures none { handle.old.held.value ≡ None → result ≡ number_of Refusal.NoEngine }
{
    *done = 0;
    let Some(mut painter) = handle.take(alloc) else {
        return Refusal::NoEngine.number();
    };
    let number = painter.undo(done);
    handle.put(painter);
    number
}
