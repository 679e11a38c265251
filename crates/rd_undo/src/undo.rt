//! The latest steps.
ghost use Rattle.std.specs.Prelude.{◌≡◌, ◌≤◌, ◌∷◌, ◌++◌, ◌-◌, [], IfOk, None as Nothing, length, take, slice_get, nat_lt, if◌then◌else◌};
ghost use Rattle.circular_buffer.specs.Buffer.{buffer, keep_last, last_item};
ghost use Rattle.rd_undo.specs.Figures.{max_steps};

use crate::step::Step;
use circular_buffer::HeapCircularBuffer;
use rd_geom::NoMemory;
use std::alloc::Global;
use std::marker::Model;

/// The most steps that an [`Undo`] keeps.
pub const MAX_STEPS: u32 = 1024;

/// The limit, so that clauses can say what it is.
fn figure()
    ensures { MAX_STEPS ≡ max_steps }
{}

/// The latest steps, from the oldest to the newest, of at most so many as it was made for.
#[derive(Drop)]
pub struct Undo {
    steps: HeapCircularBuffer<Step>,
}

impl Model for Undo {
    ghost use Rattle.std.specs.Prelude.{List};
    ghost use Rattle.rd_edits.specs.declared.edit.Edit.{Edit};
    ghost use Rattle.circular_buffer.specs.Buffer.{Buffer};

    ghost Value = { Buffer (List Edit) };

    ghost view = { λ u. u.steps };
}

impl Undo {
    /// No steps yet, with room for 1 to [`MAX_STEPS`].
    pub fn new(alloc: Global, capacity: u32) -> Result<Undo, NoMemory>
        requires least { 1 ≤ capacity }
        requires most { capacity ≤ max_steps }
        ensures { IfOk result (λ u. u ≡ buffer [] capacity) }
    {
        let steps = HeapCircularBuffer::with_capacity(alloc, capacity as usize)?;
        Ok(Undo { steps })
    }

    /// Adds the newest step. The oldest comes back exactly where there were as many as there may be.
    pub fn push(&mut self, step: Step) -> Option<Step>
        ensures steps { self.new ≡ buffer (keep_last self.old.capacity (self.old.items ++ step ∷ [])) self.old.capacity }
        ensures oldest { result ≡ (if nat_lt (length self.old.items) self.old.capacity then Nothing
            else slice_get (self.old.items ++ step ∷ []) 0) }
    {
        self.steps.push_back(step)
    }

    /// Takes the newest step out. None exactly where there is none.
    pub fn pop(&mut self) -> Option<Step>
        ensures newest { result ≡ last_item self.old.items }
        ensures others { self.new ≡ buffer (take (length self.old.items - 1) self.old.items) self.old.capacity }
    {
        self.steps.pop_back()
    }
}
