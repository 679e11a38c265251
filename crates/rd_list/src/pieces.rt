//! Lists that are put together without copying.
ghost use Rattle.std.specs.Prelude.{◌≡◌, ◌≤◌, ◌+◌, OnOk, [], vec_len, vec_capacity};
ghost use Rattle.rd_list.specs.Entries as list;
ghost use Rattle.rd_list.specs.Entries.{◌▷◌, is_empty, one_leaf, one_group};
ghost use Rattle.rd_list.specs.Wrappers.{wrapper};
ghost use Rattle.rd_list.specs.NewView.{new_entries};
ghost use Rattle.rd_list.specs.Nested.{laid_out};
ghost use Rattle.rd_list.specs.Internal.Piled.{piled, IsFilled};

use crate::fresh::{NewEntry, NewList};
use rd_geom::Blend;
use rd_item::Item;
use rd_keys::BoxKey;
use std::alloc::{AllocError, Global};
use std::marker::Model;
use std::mem::replace;
use std::sync::ledger::Ledger;

/// How many entries a run has room for at first.
const FIRST: usize = 11;

/// How many entries a run has room for at most where they are put there one by one; all of them take less than 4 kB.
const RUN: usize = 44;

/// How many entries are copied at most where a whole list is put on top.
const SHORT: usize = 22;

/// A new list, from bottom to top, that is put together of whole lists, which are moved as they are, and of a run of
/// entries on top of them. No list below is empty.
#[derive(Drop)]
#[cycle(pile)]
pub struct Pieces<A: Ledger> {
    below: Vec<Pieces<A>>,
    top: Vec<NewEntry<A>>,
}

impl<A: Ledger> Model for Pieces<A> {
    ghost use Rattle.rd_item.specs.Items.{Made};
    ghost use Rattle.rd_list.specs.Wrappers.{Wrapper, wrapper_code};
    ghost use Rattle.rd_list.specs.Nested.{Nested};
    ghost use Rattle.rd_list.specs.Internal.EntriesCode.{entries_code};
    ghost use Rattle.rd_list.specs.Internal.KeptCode.{made_code};
    ghost use Rattle.rd_list.specs.Internal.NestedCode.{nested_code};
    ghost use Rattle.rd_item.specs.contracts.leaf.Leaf as leaf;
    ghost use Rattle.rd_keys.specs.contracts.key.Key as key;
    ghost use Rattle.rd_keys.specs.contracts.entry.BoxMark as mark;

    ghost Value = { Nested Wrapper Made };

    ghost coded = { nested_code (entries_code (made_code leaf.the_row.coded) (wrapper_code (key.the_row mark.the_row).coded)) };

    ghost use Rattle.rd_list.specs.Internal.Piled.{piled, nested_size, IsFilled};

    ghost view = { λ a. piled a.below.items a.top.items };

    ghost invariant = { λ a. IsFilled (piled a.below.items a.top.items) };

    ghost size = { nested_size };

    ghost use Rattle.std.proofs.Common.{arith};
    ghost use Rattle.rd_list.specs.Internal.PileFalls.{most_le-nested_size};

    ghost size_decreases = { λ a h. Prim.omega (arith, most_le-nested_size a.below.items a.top.items) };
}

/// Ends the run on top, where it has entries, and gives back the room that it does not use; the next one begins with none.
fn end_run<A: Ledger>(
    below: &mut Vec<Pieces<A>>,
    top: &mut Vec<NewEntry<A>>,
    next: Vec<NewEntry<A>>,
) -> Result<(), AllocError>
    requires none { next.items ≡ [] }
    ensures next { top.new ≡ next }
    ensures same { OnOk result (laid_out (piled below.new.items top.new.items)
        ≡ laid_out (piled below.old.items top.old.items)) }
    ensures filled { IsFilled (piled below.old.items top.old.items) → IsFilled (piled below.new.items top.new.items) }
{
    let alloc = *top.allocator();
    let mut run = replace(top, next);
    if run.is_empty() {
        return Ok(());
    }
    run.shrink_to_fit();
    below.push(Pieces {
        below: Vec::new(alloc),
        top: run,
    })?;
    Ok(())
}

/// A short run grows, and a long one is ended, so that there is room for so many entries more on top. No entry of a long
/// one is moved.
#[inline(never)]
fn widen<A: Ledger>(
    below: &mut Vec<Pieces<A>>,
    top: &mut Vec<NewEntry<A>>,
    more: usize,
) -> Result<(), AllocError>
    requires few { more ≤ RUN }
    ensures room { OnOk result (vec_len top.new + more ≤ vec_capacity top.new) }
    ensures same { OnOk result (laid_out (piled below.new.items top.new.items)
        ≡ laid_out (piled below.old.items top.old.items)) }
    ensures filled { IsFilled (piled below.old.items top.old.items) → IsFilled (piled below.new.items top.new.items) }
{
    let len = top.len();
    let sum = len.saturating_add(more);
    if sum <= FIRST {
        top.reserve(FIRST - len)?;
        return Ok(());
    }
    if sum <= RUN {
        top.reserve(RUN - len)?;
        return Ok(());
    }
    let next = Vec::with_capacity(*top.allocator(), RUN)?;
    end_run(below, top, next)
}

/// Makes room for so many entries more on top, where there is none.
#[inline(always)]
fn make_room<A: Ledger>(
    below: &mut Vec<Pieces<A>>,
    top: &mut Vec<NewEntry<A>>,
    more: usize,
) -> Result<(), AllocError>
    requires few { more ≤ RUN }
    ensures room { OnOk result (vec_len top.new + more ≤ vec_capacity top.new) }
    ensures same { OnOk result (laid_out (piled below.new.items top.new.items)
        ≡ laid_out (piled below.old.items top.old.items)) }
    ensures filled { IsFilled (piled below.old.items top.old.items) → IsFilled (piled below.new.items top.new.items) }
{
    if more <= top.capacity() - top.len() {
        return Ok(());
    }
    widen(below, top, more)
}

/// Puts a short run on top, whose room is left.
fn put_run<A: Ledger>(
    below: &mut Vec<Pieces<A>>,
    top: &mut Vec<NewEntry<A>>,
    run: &mut Vec<NewEntry<A>>,
) -> Result<(), AllocError>
    requires few { vec_len run.old ≤ RUN }
    ensures list { OnOk result (laid_out (piled below.new.items top.new.items)
        ≡ laid_out (piled below.old.items top.old.items) ▷ new_entries run.old.items) }
    ensures none { OnOk result (run.new.items ≡ []) }
    ensures filled { IsFilled (piled below.old.items top.old.items) → IsFilled (piled below.new.items top.new.items) }
{
    make_room(below, top, run.len())?;
    top.append(run)?;
    Ok(())
}

impl<A: Ledger> Pieces<A> {
    /// The list without entries.
    pub fn empty(alloc: Global) -> Pieces<A>
        ensures { laid_out result ≡ list.nil }
    {
        Pieces {
            below: Vec::new(alloc),
            top: Vec::new(alloc),
        }
    }

    /// Is there no entry?
    pub fn is_empty(&self) -> bool
        ensures { result ≡ is_empty (laid_out self.now) }
    {
        self.top.is_empty() && self.below.is_empty()
    }

    /// Puts an item on top.
    #[inline(always)]
    pub fn push_item(&mut self, item: Item<A>) -> Result<(), AllocError>
        ensures { OnOk result (laid_out self.new ≡ laid_out self.old ▷ one_leaf item) }
    {
        make_room(&mut self.below, &mut self.top, 1)?;
        self.top.push_reserved(NewEntry::Leaf(item));
        Ok(())
    }

    /// Puts the group of a box on top, with its opacity (0 to 255), its blend mode and its own list.
    pub fn push_group(
        &mut self,
        key: BoxKey,
        opacity: u8,
        blend: Blend,
        inner: NewList<A>,
    ) -> Result<(), AllocError>
        ensures { OnOk result (laid_out self.new ≡ laid_out self.old ▷ one_group (wrapper key opacity blend) inner) }
    {
        self.top.push(NewEntry::Group {
            key,
            opacity,
            blend,
            inner,
        })?;
        Ok(())
    }

    /// Gives back the room that the run on top does not use.
    fn trim(&mut self)
        ensures { self.new ≡ self.old }
    {
        self.top.shrink_to_fit();
    }

    /// Puts a whole list on top. A list that is not short is moved as one, and no entry is copied.
    pub fn join(&mut self, from: Pieces<A>) -> Result<(), AllocError>
        ensures { OnOk result (laid_out self.new ≡ laid_out self.old ▷ laid_out from) }
    {
        if from.is_empty() {
            return Ok(());
        }
        if self.is_empty() {
            *self = from;
            return Ok(());
        }
        if from.below.is_empty() && from.top.len() <= SHORT {
            let Pieces { below: _, mut top } = from;
            return put_run(&mut self.below, &mut self.top, &mut top);
        }
        let next = Vec::new(*self.top.allocator());
        end_run(&mut self.below, &mut self.top, next)?;
        let mut from = from;
        from.trim();
        self.below.push(from)?;
        Ok(())
    }

    /// Puts a whole list on top, and leaves it empty; its room is left where it is short, so that its entries are copied.
    pub fn append(&mut self, from: &mut Pieces<A>) -> Result<(), AllocError>
        ensures list { OnOk result (laid_out self.new ≡ laid_out self.old ▷ laid_out from.old) }
        ensures none { OnOk result (laid_out from.new ≡ list.nil) }
    {
        if from.below.is_empty() && from.top.len() <= SHORT {
            return put_run(&mut self.below, &mut self.top, &mut from.top);
        }
        let none = Pieces::empty(*self.top.allocator());
        self.join(replace(from, none))
    }

    /// Puts the entries on top of a list, run by run. None of them is moved.
    pub fn lay_out(self, out: &mut NewList<A>) -> Result<(), AllocError>
        ensures { OnOk result (out.new ≡ out.old ▷ laid_out self) }
    {
        out.runs.reserve(self.runs())?;
        self.lay(out)
    }

    #[cycle(lay)]
    fn lay(self, out: &mut NewList<A>) -> Result<(), AllocError>
        ensures { OnOk result (out.new ≡ out.old ▷ laid_out self) }
    {
        let Pieces { below, top } = self;
        for list in below {
            list.lay(out)?;
        }
        out.push_run(top)
    }

    /// How many runs there are at most.
    #[cycle(count)]
    fn runs(&self) -> usize {
        let mut count: usize = 1;
        for list in &self.below {
            count = count.saturating_add(list.runs());
        }
        count
    }
}
