//! What a dumped list has other than the painting order.
ghost use Rattle.std.specs.Prelude.{◌≡◌, ◌<◌, List, [], length, map, IfOk, IfSome, OnOk};
ghost use Rattle.rd_keys.specs.declared.entry.EntryKey.{EntryKey as EntryName};
ghost use Rattle.rd_graph.specs.Orders.{Once};
ghost use Rattle.rd_check.specs.Internal.Keyed.{shown};
ghost use Rattle.rd_check.specs.Internal.Rounds.{group_of, ways_in};
ghost use Rattle.rd_check.specs.Internal.Finding as finding;
ghost use Rattle.rd_check.specs.Internal.Finding.{IsFound, IsHit, IsTwiceIn, Tells, AfterTwice, AfterExtra, AfterDifferent, AfterWrapped, AfterAbsent, OfLines, names_in, sight_by, way_name, wrapped_from};
ghost use Rattle.rd_check.specs.declared.verdict.Verdict.TheVariants as verdicts;
ghost use Rattle.rd_check.specs.Internal.Sights.{sights_of, lines_of, found_name};

use crate::around::{Around, Found};
use crate::crossing::first_crossed;
use crate::known::{has, put};
use crate::naming::{Entry, Kind, name_of};
use crate::painted::Painted;
use crate::seen::{Seen, is_different, is_extra, is_wrapped};
use crate::verdict::Verdict;
use indexmap::IndexMap;
use rd_geom::NoMemory;
use rd_graph::Places;
use rd_item::Leaf;
use rd_keys::EntryKey;
use std::alloc::Global;

/// The names of entries.
fn entry_names(alloc: Global, entries: &[Entry]) -> Result<Vec<EntryKey>, NoMemory>
    ensures { IfOk result (λ v. v.items ≡ names_in (lines_of entries.now)) }
{
    let mut names = Vec::with_capacity(alloc, entries.len())?;
    for entry in entries {
        names.push(name_of(entry))?;
    }
    Ok(names)
}

fn leaf_name(leaf: &Leaf) -> EntryKey
    ensures { result ≡ finding.leaf_name leaf.now }
{
    EntryKey::Leaf(leaf.owner, leaf.part)
}

/// The names of the leaves of a fresh list.
fn leaf_names(alloc: Global, leaves: &[Found]) -> Result<Vec<EntryKey>, NoMemory>
    ensures { IfOk result (λ v. v.items ≡ map found_name leaves.now) }
{
    let mut names = Vec::with_capacity(alloc, leaves.len())?;
    for found in leaves {
        names.push(leaf_name(&found.leaf))?;
    }
    Ok(names)
}

/// The first name that an earlier one is.
fn first_twice(alloc: Global, names: &[EntryKey]) -> Result<Option<usize>, NoMemory>
    ensures found { IfOk result (IsFound (IsTwiceIn names.now)) }
    ensures within { IfOk result (λ o. IfSome o (λ i. i < length names.now)) }
{
    let mut known = IndexMap::with_capacity(alloc, names.len())?;
    for i in 0..names.len() {
        let name = names[i];
        if has(&known, name) {
            return Ok(Some(i));
        }
        put(&mut known, name, i)?;
    }
    Ok(None)
}

/// The entries with the places of their names.
fn seen_in(alloc: Global, entries: &[Entry], places: &Places) -> Result<Vec<Seen>, NoMemory>
    ensures { IfOk result (λ v. sights_of v.items ≡ map (sight_by places.now) (lines_of entries.now)) }
{
    let mut seen = Vec::with_capacity(alloc, entries.len())?;
    for entry in entries {
        let place = places.find(name_of(entry));
        seen.push(Seen {
            entry: *entry,
            place,
        })?;
    }
    Ok(seen)
}

/// The first leaf that the painting order has not.
fn first_extra(seen: &[Seen]) -> Option<usize>
    ensures found { IsFound (IsHit (map finding.is_extra (sights_of seen.now))) result }
    ensures within { IfSome result (λ i. i < length seen.now) }
{
    for i in 0..seen.len() {
        if is_extra(&seen[i]) {
            return Some(i);
        }
    }
    None
}

/// The first leaf that has other values there.
fn first_different(seen: &[Seen], fresh: &Painted) -> Option<usize>
    ensures found { IsFound (IsHit (map (finding.is_different (ways_in fresh.now)) (sights_of seen.now))) result }
    ensures within { IfSome result (λ i. i < length seen.now) }
{
    for i in 0..seen.len() {
        if is_different(&seen[i], fresh) {
            return Some(i);
        }
    }
    None
}

/// The groups round what comes after an entry, but for those that end before it.
fn enter(round: &mut Vec<Around>, entry: &Entry) -> Result<(), NoMemory>
    ensures { OnOk result (map group_of round.new.items ≡ finding.after (map group_of round.old.items) (shown entry.now)) }
{
    match entry.what {
        Kind::Leaf(_) => Ok(()),
        Kind::Head { group, .. } => {
            round.push(group)?;
            Ok(())
        }
    }
}

/// The first leaf that stands in other groups there.
fn first_wrapped(alloc: Global, seen: &[Seen], fresh: &Painted) -> Result<Option<usize>, NoMemory>
    ensures found { IfOk result (IsFound (IsHit (wrapped_from (ways_in fresh.now) [] (sights_of seen.now)))) }
    ensures within { IfOk result (λ o. IfSome o (λ i. i < length seen.now)) }
{
    let mut round = Vec::new(alloc);
    for i in 0..seen.len() {
        let at = &seen[i];
        round.truncate(at.entry.depth);
        if is_wrapped(at, &round, fresh) {
            return Ok(Some(i));
        }
        enter(&mut round, &at.entry)?;
    }
    Ok(None)
}

fn is_absent(names: &Places, found: &Found) -> bool
    ensures { result ≡ finding.is_none_of names.now (found_name found.now) }
{
    names.find(leaf_name(&found.leaf)).is_none()
}

/// The first leaf of the painting order that has none of these names.
fn first_absent(names: &Places, leaves: &[Found]) -> Option<usize>
    ensures found { IsFound (IsHit (map (finding.is_none_of names.now) (map found_name leaves.now))) result }
    ensures within { IfSome result (λ i. i < length leaves.now) }
{
    for i in 0..leaves.len() {
        if is_absent(names, &leaves[i]) {
            return Some(i);
        }
    }
    None
}

/// Places of the names of a painting order's leaves.
fn places_of(alloc: Global, leaves: &[Found]) -> Result<Places, NoMemory>
    requires { Once (map found_name leaves.now) }
    ensures { IfOk result (λ p. p ≡ map found_name leaves.now) }
{
    let names = leaf_names(alloc, leaves)?;
    Places::new(alloc, names)
}

/// The last verdicts: two leaves stand the other way, or nothing is wrong.
fn judge_order(alloc: Global, seen: &[Seen], fresh: &Painted) -> Result<Verdict, NoMemory>
    requires { length seen.now < 4294967296 }
    ensures { IfOk result (λ v. (names : List EntryName)
        → OfLines (AfterAbsent (ways_in fresh.now) v) names (sights_of seen.now) (ways_in fresh.now)) }
{
    let crossed = first_crossed(alloc, seen, &fresh.leaves)?;
    match crossed {
        Some((i, j)) => {
            let first = i as u32;
            let second = j as u32;
            Ok(Verdict::Order { first, second })
        }
        None => Ok(Verdict::Yes),
    }
}

/// That it has no entry.
fn missing(found: &Found) -> Verdict
    ensures { result ≡ verdicts.Missing found.now.leaf.owner found.now.leaf.part }
{
    Verdict::Missing {
        key: found.leaf.owner,
        part: found.leaf.part,
    }
}

/// From a leaf that is missing on.
fn judge_missing(
    alloc: Global,
    seen: &[Seen],
    known: &Places,
    fresh: &Painted,
) -> Result<Verdict, NoMemory>
    requires { length seen.now < 4294967296 }
    ensures { IfOk result (λ v. OfLines (AfterWrapped (ways_in fresh.now) v) known.now (sights_of seen.now) (ways_in fresh.now)) }
{
    let leaves = fresh.leaves.as_slice();
    match first_absent(known, leaves) {
        Some(i) => Ok(missing(&leaves[i])),
        None => judge_order(alloc, seen, fresh),
    }
}

/// From a leaf in other groups on.
fn judge_wrapped(
    alloc: Global,
    seen: &[Seen],
    known: &Places,
    fresh: &Painted,
) -> Result<Verdict, NoMemory>
    requires { length seen.now < 4294967296 }
    ensures { IfOk result (λ v. OfLines (AfterDifferent (ways_in fresh.now) v) known.now (sights_of seen.now) (ways_in fresh.now)) }
{
    let wrapped = first_wrapped(alloc, seen, fresh)?;
    match wrapped {
        Some(i) => Ok(Verdict::Wrapped { entry: i as u32 }),
        None => judge_missing(alloc, seen, known, fresh),
    }
}

/// From a leaf with other values on.
fn judge_different(
    alloc: Global,
    seen: &[Seen],
    known: &Places,
    fresh: &Painted,
) -> Result<Verdict, NoMemory>
    requires { length seen.now < 4294967296 }
    ensures { IfOk result (λ v. OfLines (AfterExtra (ways_in fresh.now) v) known.now (sights_of seen.now) (ways_in fresh.now)) }
{
    match first_different(seen, fresh) {
        Some(i) => Ok(Verdict::Differs { entry: i as u32 }),
        None => judge_wrapped(alloc, seen, known, fresh),
    }
}

/// From a leaf that the painting order has not on.
fn judge_extra(
    alloc: Global,
    seen: &[Seen],
    known: &Places,
    fresh: &Painted,
) -> Result<Verdict, NoMemory>
    requires { length seen.now < 4294967296 }
    ensures { IfOk result (λ v. OfLines (AfterTwice (ways_in fresh.now) v) known.now (sights_of seen.now) (ways_in fresh.now)) }
{
    match first_extra(seen) {
        Some(i) => Ok(Verdict::Extra { entry: i as u32 }),
        None => judge_different(alloc, seen, known, fresh),
    }
}

/// The verdict where no name comes twice.
fn judge_known(
    alloc: Global,
    entries: &[Entry],
    names: Vec<EntryKey>,
    fresh: &Painted,
) -> Result<Verdict, NoMemory>
    requires few { length entries.now < 4294967296 }
    requires named { names.items ≡ names_in (lines_of entries.now) }
    requires differ { Once names.items }
    requires once { Once (map way_name (ways_in fresh.now)) }
    ensures { IfOk result (λ v. AfterTwice (ways_in fresh.now) v (lines_of entries.now)) }
{
    let leaves = fresh.leaves.as_slice();
    let places = places_of(alloc, leaves)?;
    let all = seen_in(alloc, entries, &places)?;
    let known = Places::new(alloc, names)?;
    let seen = all.as_slice();
    judge_extra(alloc, seen, &known, fresh)
}

/// What a list of entries is beside a painting order: the first verdict that holds.
pub(crate) fn judge(alloc: Global, entries: &[Entry], fresh: &Painted) -> Result<Verdict, NoMemory>
    requires few { length entries.now < 4294967296 }
    requires once { Once (map way_name (ways_in fresh.now)) }
    ensures { IfOk result (Tells (lines_of entries.now) (ways_in fresh.now)) }
{
    let all = entry_names(alloc, entries)?;
    let names = all.as_slice();
    let twice = first_twice(alloc, names)?;
    match twice {
        Some(i) => Ok(Verdict::Twice { entry: i as u32 }),
        None => judge_known(alloc, entries, all, fresh),
    }
}
