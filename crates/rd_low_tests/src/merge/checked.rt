//! Merges of levels that are first tested for what a merge asks.
ghost use Rattle.std.specs.Prelude.{◌≡◌, ◌≤◌, ◌<◌, if◌then◌else◌, ◌∷◌, [], ℕ, true, false, length, slice_index_or, IfOk, IfSome, OnOk, Contains, IsTrue};
ghost use Rattle.std.specs.List.{filter};
ghost use Rattle.rd_geom.specs.Plane.{has_none, meets};
ghost use Rattle.rd_graph.specs.Names.{is_in};
ghost use Rattle.rd_keys.specs.Keys.{same_key};
ghost use Rattle.rd_list.specs.Entries.{◌▷◌};
ghost use Rattle.rd_list.specs.EntryNames.{new_leaves};
ghost use Rattle.rd_list.specs.NewView.{new_entries};
ghost use Rattle.rd_low_tests.specs.DrawnLevels.{AreApart, IsCovering, IsHeld, IsSpotCovered, Spot, is_not_of, is_of, line};

use super::{INK, leaf};
use crate::drawing::Draws;
use rd_geom::{Rect, Steps, meets};
use rd_keys::{BoxKey, KeyRange, Part};
use rd_list::{Kept, NewEntry, NewList};
use rd_merge::{Touches, merge};
use std::alloc::{AllocError, Global};
use std::sync::ledger::Ledger;

/// These boxes are touched.
#[derive(Drop)]
pub(super) struct TouchedBoxes {
    pub(super) keys: Vec<BoxKey>,
}

impl Touches for TouchedBoxes {
    ghost is_touched = { λ t k. is_in same_key t.keys.items k };

    fn touches(&self, key: BoxKey) -> bool {
        is_among(&self.keys, key)
    }

    fn none_touched(&self, _keys: KeyRange) -> bool {
        false
    }
}

/// Is the box one of these?
pub(super) fn is_among(keys: &[BoxKey], key: BoxKey) -> bool
    ensures { result ≡ is_in same_key keys.now key }
{
    for other in keys {
        if other.is(key) {
            return true;
        }
    }
    false
}

/// Is none of the first spots of this box?
fn is_alone(spots: &[(BoxKey, Rect)], end: usize, key: BoxKey) -> bool
    requires { end ≤ length spots.now }
    ensures { result ≡ true
        → (j : ℕ) (d : Spot) → j < end → same_key (slice_index_or spots.now j d).0 key ≡ false }
{
    for j in 0..end {
        if spots[j].0.is(key) {
            return false;
        }
    }
    true
}

/// Is each box at one place?
fn are_apart(spots: &[(BoxKey, Rect)]) -> bool
    ensures { result ≡ true → AreApart spots.now }
{
    for i in 0..spots.len() {
        if !is_alone(spots, i, spots[i].0) {
            return false;
        }
    }
    true
}

/// Is a spot, if it meets a rectangle, of a box of the area?
fn is_lit(spot: &(BoxKey, Rect), rect: Rect, area: &[BoxKey]) -> bool
    ensures { result ≡ true → IsTrue (meets rect spot.now.1) → is_of area.now spot.now ≡ true }
{
    !meets(rect, spot.1) || is_among(area, spot.0)
}

/// Are those that meet a rectangle of the boxes of the area?
fn are_lit(spots: &[(BoxKey, Rect)], rect: Rect, area: &[BoxKey]) -> bool
    ensures { result ≡ true
        → (b : Spot) → Contains spots.now b → IsTrue (meets rect b.1) → is_of area.now b ≡ true }
{
    for b in spots {
        if !is_lit(b, rect, area) {
            return false;
        }
    }
    true
}

/// Is a spot, if its box is touched, covered by the area?
fn is_covered(
    spots: &[(BoxKey, Rect)],
    spot: &(BoxKey, Rect),
    touched: &[BoxKey],
    area: &[BoxKey],
) -> bool
    ensures { result ≡ true → IsSpotCovered touched.now area.now spots.now spot.now }
{
    if !is_among(touched, spot.0) {
        return true;
    }
    is_among(area, spot.0) && are_lit(spots, spot.1, area)
}

/// Are spots of touched boxes, and those that they meet, of the boxes of the area?
fn covers(spots: &[(BoxKey, Rect)], touched: &[BoxKey], area: &[BoxKey]) -> bool
    ensures { result ≡ true → IsCovering touched.now area.now spots.now }
{
    for a in spots {
        if !is_covered(spots, a, touched, area) {
            return false;
        }
    }
    true
}

/// The spots that are not of touched boxes.
pub(super) fn untouched(
    alloc: Global,
    spots: &[(BoxKey, Rect)],
    touched: &[BoxKey],
) -> Result<Vec<(BoxKey, Rect)>, AllocError>
    ensures { IfOk result (λ v. v.items ≡ filter (is_not_of touched.now) spots.now) }
{
    let mut all = Vec::new(alloc);
    for spot in spots {
        if !is_among(touched, spot.0) {
            all.push(*spot)?;
        }
    }
    Ok(all)
}

/// The spot of a touched box goes to the end, if it is wanted.
fn push_if(
    spots: &mut Vec<(BoxKey, Rect)>,
    is_wanted: bool,
    spot: &(BoxKey, Rect),
    touched: &[BoxKey],
) -> Result<(), AllocError>
    requires { is_of touched.now spot.now ≡ true }
    ensures { OnOk result (filter (is_not_of touched.now) spots.new.items
        ≡ filter (is_not_of touched.now) spots.old.items) }
{
    if is_wanted {
        spots.push(*spot)?;
    }
    Ok(())
}

/// With the spot of a touched box at a place, or at the end.
pub(super) fn with_spot(
    alloc: Global,
    spots: &[(BoxKey, Rect)],
    place: usize,
    spot: &(BoxKey, Rect),
    touched: &[BoxKey],
) -> Result<Vec<(BoxKey, Rect)>, AllocError>
    requires { is_of touched.now spot.now ≡ true }
    ensures { IfOk result (λ v. filter (is_not_of touched.now) v.items ≡ filter (is_not_of touched.now) spots.now) }
{
    let mut all = Vec::new(alloc);
    for (i, other) in spots.iter().enumerate() {
        push_if(&mut all, i == place, spot, touched)?;
        all.push(*other)?;
    }
    push_if(&mut all, spots.len() <= place, spot, touched)?;
    Ok(all)
}

/// With the spot of a touched box at a drawn place, or as it was.
fn with_drawn(
    alloc: Global,
    spots: Vec<(BoxKey, Rect)>,
    spot: &(BoxKey, Rect),
    touched: &[BoxKey],
    draws: &mut Draws,
) -> Result<Vec<(BoxKey, Rect)>, AllocError>
    ensures { IfOk result (λ v. filter (is_not_of touched.now) v.items ≡ filter (is_not_of touched.now) spots.items) }
{
    if !is_among(touched, spot.0) {
        return Ok(spots);
    }
    if draws.below(2) == 0 {
        return Ok(spots);
    }
    let place = usize::from(draws.below(12));
    with_spot(alloc, &spots, place, spot, touched)
}

/// The spots of untouched boxes in their order, and among them some of the spots of touched ones.
pub(super) fn edited(
    alloc: Global,
    spots: &[(BoxKey, Rect)],
    every: &[(BoxKey, Rect)],
    touched: &[BoxKey],
    draws: &mut Draws,
) -> Result<Vec<(BoxKey, Rect)>, AllocError>
    ensures { IfOk result (λ v. filter (is_not_of touched.now) spots.now ≡ filter (is_not_of touched.now) v.items) }
{
    let mut all = untouched(alloc, spots, touched)?;
    for spot in every {
        all = with_drawn(alloc, all, spot, touched, draws)?;
    }
    Ok(all)
}

/// The leaf of a spot goes to the end, if it is wanted.
fn push_leaf<A: Ledger>(
    entries: &mut Vec<NewEntry<A>>,
    is_wanted: bool,
    spot: &(BoxKey, Rect),
    at: u64,
    made: &mut Steps<A>,
) -> Result<(), AllocError>
    requires { has_none spot.now.1 ≡ false }
    ensures { OnOk result (new_leaves (new_entries entries.new.items)
        ≡ new_leaves (new_entries entries.old.items) ▷ line INK (if is_wanted then spot.now ∷ [] else [])) }
{
    if is_wanted {
        entries.push(leaf(spot.0, Part::Back, spot.1, at, made))?;
        return Ok(());
    }
    Ok(())
}

/// The leaves of the spots that are of the boxes of an area. None where a rectangle is empty.
fn new_list<A: Ledger>(
    alloc: Global,
    spots: &[(BoxKey, Rect)],
    area: &[BoxKey],
    at: u64,
    made: &mut Steps<A>,
) -> Result<Option<NewList<A>>, AllocError>
    ensures { IfOk result (λ o. IfSome o (λ l. new_leaves l ≡ line INK (filter (is_of area.now) spots.now))) }
{
    let mut entries = Vec::new(alloc);
    for spot in spots {
        if spot.1.is_empty() {
            return Ok(None);
        }
        let is_wanted = is_among(area, spot.0);
        push_leaf(&mut entries, is_wanted, spot, at, made)?;
    }
    let mut list = NewList::empty(alloc);
    list.push_run(entries)?;
    Ok(Some(list))
}

/// The merge of a kept level of these spots with those of the next ones that are of the boxes of an area.
fn merged<A: Ledger>(
    alloc: Global,
    kept: Kept<A>,
    spots: &[(BoxKey, Rect)],
    next: &[(BoxKey, Rect)],
    new: NewList<A>,
    touched: &TouchedBoxes,
    area: &[BoxKey],
) -> Result<Kept<A>, AllocError>
    requires held { IsHeld INK kept spots.now }
    requires same { filter (is_not_of touched.now.keys.items) spots.now
        ≡ filter (is_not_of touched.now.keys.items) next.now }
    requires apart { AreApart next.now }
    requires covers { IsCovering touched.now.keys.items area.now next.now }
    requires new { new_leaves new ≡ line INK (filter (is_of area.now) next.now) }
    ensures { IfOk result (λ k. IsHeld INK k next.now) }
{
    match merge(alloc, kept, new, touched) {
        Ok(kept) => Ok(kept),
        Err((_, e)) => Err(e),
    }
}

/// The same, where what a merge asks is so. None where it is not.
pub(super) fn tested<A: Ledger>(
    alloc: Global,
    kept: Kept<A>,
    spots: &[(BoxKey, Rect)],
    next: &[(BoxKey, Rect)],
    touched: &TouchedBoxes,
    area: &[BoxKey],
    at: u64,
    made: &mut Steps<A>,
) -> Result<Option<Kept<A>>, AllocError>
    requires held { IsHeld INK kept spots.now }
    requires same { filter (is_not_of touched.now.keys.items) spots.now
        ≡ filter (is_not_of touched.now.keys.items) next.now }
    ensures { IfOk result (λ o. IfSome o (λ k. IsHeld INK k next.now)) }
{
    if !are_apart(next) || !covers(next, &touched.keys, area) {
        return Ok(None);
    }
    match new_list(alloc, next, area, at, made)? {
        Some(new) => {
            let kept = merged(alloc, kept, spots, next, new, touched, area)?;
            Ok(Some(kept))
        }
        None => Ok(None),
    }
}
