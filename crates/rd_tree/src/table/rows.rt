//! The table of a tree: a row for each slot, and beside each page of 64 rows into which cells of the plane they reach.
ghost use Rattle.std.specs.Prelude.{◌≡◌, ◌≢◌, ℕ, ◌+◌, ◌-◌, ◌*◌, ◌/◌, ◌%◌, ◌<◌, ◌≤◌, [], ◌∷◌, ◌++◌, false, true, length, slice_set, vec_capacity, IsTrue, OnOk};
ghost use Rattle.std.specs.Int.{bit_at};
ghost use Rattle.rd_geom.specs.Plane.{Rectangle};
ghost use Rattle.rd_tree.specs.Seeking as seeking;
ghost use Rattle.rd_tree.specs.Internal.Cells.{HasRowRoom, IsOrdered, IsReach, IsReached, KeepsRow, cells_at};
ghost use Rattle.rd_tree.specs.Internal.Summaries.{row_at};
ghost use Rattle.rd_tree.specs.Internal.Rows.{unmarked};

use crate::shared::PAGE;
use crate::table::cells::{Cells, Reach, reach_of};
use crate::table::row::Summary;
use crate::view::reaches;
use rd_geom::Rect;
use std::alloc::{AllocError, Global};
use std::marker::Model;

/// A row a slot.
#[derive(Drop)]
pub(crate) struct Table {
    rows: Vec<Summary>,
    /// Of each page of rows, into which cells they reach.
    cells: Vec<Cells>,
}

impl Model for Table {
    ghost use Rattle.std.specs.Prelude.{vec_capacity};
    ghost use Rattle.rd_tree.specs.Internal.Cells.{AreReached, TableRows};

    ghost Value = { TableRows };

    ghost view = { λ t. record {
      rows = t.rows.items;
      room = vec_capacity t.rows;
      cell_room = vec_capacity t.cells;
    } };

    ghost invariant = { λ t. AreReached t.rows.items t.cells.items };
}

/// A row of a page has another hull.
#[inline(always)]
fn move_row(cells: &mut Cells, slot: usize, was: Reach, is: Reach)
    requires was { IsOrdered was }
    requires is { IsOrdered is }
    ensures here { (h : Rectangle) → IsReach is h → IsReached cells.new slot h }
    ensures others { KeepsRow cells.old cells.new slot }
{
    cells.take(slot, was);
    cells.put(slot, is);
}

/// Do both begin and end in the same cells?
#[inline(always)]
fn is_same(a: Reach, b: Reach) -> bool
    ensures { IsTrue result → a ≡ b }
{
    a.left == b.left && a.right == b.right && a.top == b.top && a.bottom == b.bottom
}

/// The row of a slot, whose page has cells, gets another hull.
fn move_hull(cells: &mut Vec<Cells>, slot: usize, was: &Rect, is: &Rect)
    requires { slot / PAGE < length cells.old.items }
    ensures here { IsReached (cells_at cells.old.items (slot / PAGE)) slot was.now → IsReached (cells_at cells.new.items (slot / PAGE)) slot is.now }
    ensures others { (s : ℕ) (h : Rectangle) → s ≢ slot → IsReached (cells_at cells.old.items (s / PAGE)) s h
        → IsReached (cells_at cells.new.items (s / PAGE)) s h }
    ensures len { length cells.new.items ≡ length cells.old.items }
{
    let was = reach_of(was);
    let is = reach_of(is);
    if !is_same(was, is) {
        move_row(&mut cells[slot / PAGE], slot, was, is);
    }
}

/// A page comes after these, if that of a slot is not among them.
fn extend(cells: &mut Vec<Cells>, slot: usize)
    requires page { slot / PAGE ≤ length cells.old.items }
    requires room { slot / PAGE < vec_capacity cells.old }
    ensures page { slot / PAGE < length cells.new.items }
    ensures others { (s : ℕ) (h : Rectangle) → s / PAGE < length cells.old.items → IsReached (cells_at cells.old.items (s / PAGE)) s h
        → IsReached (cells_at cells.new.items (s / PAGE)) s h }
    ensures longer { length cells.old.items ≤ length cells.new.items }
{
    if slot / PAGE >= cells.len() {
        cells.push_reserved(Cells::NONE);
    }
}

/// A row comes, of a slot whose page has cells.
fn put_hull(cells: &mut Vec<Cells>, slot: usize, hull: &Rect)
    requires { slot / PAGE < length cells.old.items }
    ensures here { IsReached (cells_at cells.new.items (slot / PAGE)) slot hull.now }
    ensures others { (s : ℕ) (h : Rectangle) → s ≢ slot → IsReached (cells_at cells.old.items (s / PAGE)) s h
        → IsReached (cells_at cells.new.items (s / PAGE)) s h }
    ensures len { length cells.new.items ≡ length cells.old.items }
{
    cells[slot / PAGE].put(slot, reach_of(hull));
}

impl Table {
    /// No row.
    pub(crate) fn new(alloc: Global) -> Table
        ensures { result.rows ≡ [] }
    {
        Table {
            rows: Vec::new(alloc),
            cells: Vec::new(alloc),
        }
    }

    /// How many rows there are.
    #[inline(always)]
    pub(crate) fn len(&self) -> usize
        ensures { result ≡ length self.now.rows }
    {
        self.rows.len()
    }

    /// The row of a slot that has one.
    #[inline(always)]
    pub(crate) fn at(&self, slot: usize) -> &Summary
        requires { slot < length self.now.rows }
        ensures { result.now ≡ row_at self.now.rows slot }
    {
        &self.rows[slot]
    }

    /// Room for a row more. After a refusal nothing but room has changed.
    pub(crate) fn reserve(&mut self) -> Result<(), AllocError>
        ensures rows { self.new.rows ≡ self.old.rows }
        ensures room { OnOk result (HasRowRoom self.new) }
    {
        self.rows.reserve(1)?;
        self.cells.reserve(1)?;
        Ok(())
    }

    /// Writes the row of a slot that has one.
    pub(crate) fn write(&mut self, slot: usize, row: Summary)
        requires { slot < length self.old.rows }
        ensures { self.new.rows ≡ slice_set self.old.rows slot row }
    {
        let was = self.rows[slot].hull;
        move_hull(&mut self.cells, slot, &was, &row.hull);
        self.rows[slot] = row;
    }

    /// A row comes after these.
    pub(crate) fn push(&mut self, row: Summary)
        requires { HasRowRoom self.old }
        ensures { self.new.rows ≡ self.old.rows ++ row ∷ [] }
    {
        let slot = self.rows.len();
        extend(&mut self.cells, slot);
        put_hull(&mut self.cells, slot, &row.hull);
        self.rows.push_reserved(row);
    }

    /// No touched box is below the box of a slot any more.
    #[inline(always)]
    pub(crate) fn unmark(&mut self, slot: usize)
        requires { slot < length self.old.rows }
        ensures { self.new.rows ≡ slice_set self.old.rows slot (unmarked (row_at self.old.rows slot)) }
    {
        self.rows[slot].touched = 0;
    }

    /// The first slot from one on, and before an end, whose row has a hull that reaches into a rectangle; the end, where there is
    /// none. Each hull is compared.
    #[inline(always)]
    pub(crate) fn first_reaching(&self, from: usize, end: usize, rect: &Rect) -> usize
        requires order { from ≤ end }
        requires rows { end ≤ length self.now.rows }
        ensures from { from ≤ result }
        ensures end { result ≤ end }
        ensures apart { (s : ℕ) → from ≤ s → s < result → seeking.reaches rect.now (row_at self.now.rows s).hull ≡ false }
        ensures found { result < end → seeking.reaches rect.now (row_at self.now.rows result).hull ≡ true }
    {
        for slot in from..end {
            if reaches(rect, &self.rows[slot].hull) {
                return slot;
            }
        }
        end
    }

    /// The rows of a page that may reach into a rectangle, as a bit each.
    #[inline(always)]
    fn near(&self, page: usize, rect: &Rect, reach: &Reach) -> u64
        requires page { PAGE * page < length self.now.rows }
        requires reach { IsReach reach.now rect.now }
        requires order { IsOrdered reach.now }
        ensures { (s : ℕ) → s < length self.now.rows → s / PAGE ≡ page
            → seeking.reaches rect.now (row_at self.now.rows s).hull ≡ true → bit_at result (s % PAGE) ≡ 1 }
    {
        self.cells[page].near(reach)
    }

    /// The same as `first_reaching` in a page, where only the hulls of rows are compared that may reach into a common cell.
    #[inline(always)]
    pub(crate) fn far_reaching(&self, from: usize, end: usize, rect: &Rect, reach: &Reach) -> usize
        requires order { from < end }
        requires rows { end ≤ length self.now.rows }
        requires page { from % PAGE + (end - from) ≤ PAGE }
        requires reach { IsReach reach.now rect.now }
        requires cells { IsOrdered reach.now }
        ensures from { from ≤ result }
        ensures end { result ≤ end }
        ensures apart { (s : ℕ) → from ≤ s → s < result → seeking.reaches rect.now (row_at self.now.rows s).hull ≡ false }
        ensures found { result < end → seeking.reaches rect.now (row_at self.now.rows result).hull ≡ true }
    {
        let near = self.near(from / PAGE, rect, reach);
        let mut slot = from;
        while slot < end {
            let left = near >> (slot % PAGE);
            if left == 0 {
                return end;
            }
            let skipped = left.trailing_zeros() as usize;
            if skipped >= end - slot {
                return end;
            }
            let next = slot + skipped;
            let row = self.at(next);
            if reaches(rect, &row.hull) {
                return next;
            }
            slot = next + 1;
        }
        end
    }
}
