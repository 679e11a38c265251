//! Leaves that meet and stand the other way in the painting order.
ghost use Rattle.std.specs.Prelude.{◌≡◌, ◌<◌, false, length, IfOk, IfSome, OnOk};
ghost use Rattle.std.specs.List.{AllByRecursion};
ghost use Rattle.rd_check.specs.Internal.Finding as finding;
ghost use Rattle.rd_check.specs.Internal.Finding.{Sight, IsFound, IsFoundPair, IsCrossedIn};
ghost use Rattle.rd_check.specs.Internal.Sights.{sights_of, sight_of};
ghost use Rattle.rd_check.specs.Internal.Near.{IsCluster};
ghost use Rattle.rd_check.specs.Internal.Crossing.{spot_in, AreEntered, IsEntered};

use crate::around::Found;
use crate::near::{Near, Spot};
use crate::seen::{Seen, is_crossed, leaf_in};
use rd_geom::NoMemory;
use std::alloc::Global;

/// Where the leaf of an entry may be seen, and its place in the painting order.
fn spot_of(seen: &Seen) -> Option<Spot>
    ensures { result ≡ spot_in (sight_of seen.now) }
{
    match leaf_in(seen) {
        Some(leaf) => match seen.place {
            Some(place) => Some(Spot {
                seen: leaf.visible,
                place,
            }),
            None => None,
        },
        None => None,
    }
}

/// Is it crossed with one of those in the clusters?
fn is_crossed_near(near: &Near, seen: &Seen) -> bool
    requires { AllByRecursion IsCluster near.now.clusters.items }
    ensures { result ≡ false → (s : Sight) → IsEntered near.now.clusters.items s
        → finding.is_crossed s (sight_of seen.now) ≡ false }
{
    match spot_of(seen) {
        Some(spot) => near.crosses(spot.seen, spot.place),
        None => false,
    }
}

/// Puts the leaf of an entry into its cluster.
fn enter(alloc: Global, near: &mut Near, seen: &Seen) -> Result<(), NoMemory>
    requires { AllByRecursion IsCluster near.old.clusters.items }
    ensures kept { OnOk result (AllByRecursion IsCluster near.new.clusters.items) }
    ensures entered { OnOk result (IsEntered near.new.clusters.items (sight_of seen.now)) }
    ensures before { OnOk result ((s : Sight) → IsEntered near.old.clusters.items s → IsEntered near.new.clusters.items s) }
{
    match spot_of(seen) {
        Some(spot) => near.add(alloc, spot),
        None => Ok(()),
    }
}

/// The first entry before place `j` that is crossed with the one there.
fn first_below(seen: &[Seen], j: usize) -> Option<usize>
    requires { j < length seen.now }
    ensures { IsFound (λ i. IsCrossedIn (sights_of seen.now) i j) result }
{
    for i in 0..j {
        if is_crossed(&seen[i], &seen[j]) {
            return Some(i);
        }
    }
    None
}

/// The same, where those before place `j` are in the clusters: they are gone through only where one of them is crossed.
fn first_near(near: &Near, seen: &[Seen], j: usize) -> Option<usize>
    requires there { j < length seen.now }
    requires entered { AreEntered near.now.clusters.items (sights_of seen.now) j }
    ensures { IsFound (λ i. IsCrossedIn (sights_of seen.now) i j) result }
{
    if is_crossed_near(near, &seen[j]) {
        first_below(seen, j)
    } else {
        None
    }
}

/// The least second, and with it the least first, of two leaves that meet and stand the other way. `fresh` has the leaves of the
/// painting order, by which they are put into clusters.
pub(crate) fn first_crossed(
    alloc: Global,
    seen: &[Seen],
    fresh: &[Found],
) -> Result<Option<(usize, usize)>, NoMemory>
    ensures found { IfOk result (IsFoundPair (IsCrossedIn (sights_of seen.now))) }
    ensures within { IfOk result (λ o. IfSome o (λ p. (p.0 < length seen.now) × (p.1 < length seen.now))) }
{
    let mut near = Near::new(alloc, fresh)?;
    for j in 0..seen.len() {
        match first_near(&near, seen, j) {
            Some(i) => return Ok(Some((i, j))),
            None => enter(alloc, &mut near, &seen[j])?,
        }
    }
    Ok(None)
}
