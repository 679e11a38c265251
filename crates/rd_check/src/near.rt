//! Leaves in clusters of leaves that lie near each other.
//!
//! A leaf is put into the cluster that its place in the painting order has. Whether one of all these leaves meets another and has a
//! greater place is asked of the clusters: only those whose hull meets it and that have a greater place are gone through. With n leaves
//! a question goes over n / 256 clusters, and into those that lie round it, so where leaves of a size lie apart, or few pixels have them
//! all, all questions together take some n * n / 256 steps. At worst, as where small leaves lie between two halves of large ones that never
//! meet them, each cluster is gone into, and it takes n * n / 2 steps.
ghost use Rattle.std.specs.Prelude.{◌≡◌, ◌≤◌, ◌++◌, ◌∷◌, [], false, IfOk, OnOk};
ghost use Rattle.std.specs.List.{AllByRecursion, list_any};
ghost use Rattle.rd_check.specs.declared.near.Spot.{Spot as NotedSpot};
ghost use Rattle.rd_check.specs.Internal.Near as near;
ghost use Rattle.rd_check.specs.Internal.Near.{IsCluster, IsNoted};

use crate::around::Found;
use rd_geom::{NoMemory, Rect, hull, meets};
use std::alloc::Global;

/// How many leaves a cluster has at most.
const BLOCK: usize = 256;

/// Where a leaf may be seen, and its place in the painting order.
#[derive(Clone, Copy)]
pub(crate) struct Spot {
    pub(crate) seen: Rect,
    pub(crate) place: usize,
}

/// Leaves, the least rectangle with all of them, and their greatest place.
#[derive(Drop)]
pub(crate) struct Cluster {
    hull: Rect,
    greatest: usize,
    spots: Vec<Spot>,
}

fn greater(a: usize, b: usize) -> usize
    ensures first { a ≤ result }
    ensures second { b ≤ result }
{
    if a < b { b } else { a }
}

impl Cluster {
    fn empty(alloc: Global) -> Cluster
        ensures { result.spots.items ≡ [] }
    {
        Cluster {
            hull: Rect::EMPTY,
            greatest: 0,
            spots: Vec::new(alloc),
        }
    }

    /// Puts a leaf into the cluster.
    fn add(&mut self, spot: Spot) -> Result<(), NoMemory>
        requires { IsCluster self.old }
        ensures kept { OnOk result (IsCluster self.new) }
        ensures added { OnOk result (self.new.spots.items ≡ self.old.spots.items ++ spot ∷ []) }
    {
        self.hull = hull(self.hull, spot.seen);
        self.greatest = greater(self.greatest, spot.place);
        self.spots.push(spot)?;
        Ok(())
    }

    /// The cluster of this leaf alone.
    fn of(alloc: Global, spot: Spot) -> Result<Cluster, NoMemory>
        ensures sound { IfOk result IsCluster }
        ensures one { IfOk result (λ b. b.spots.items ≡ spot ∷ []) }
    {
        let mut cluster = Cluster::empty(alloc);
        cluster.add(spot)?;
        Ok(cluster)
    }

    /// Lies the cluster away from what may be seen here, or has it no greater place than this?
    fn is_far(&self, seen: Rect, place: usize) -> bool
        ensures { result ≡ near.is_far seen place self.now }
    {
        self.greatest <= place || !meets(self.hull, seen)
    }

    /// Has it a leaf that meets one that may be seen here, and has a greater place than this?
    fn crosses(&self, seen: Rect, place: usize) -> bool
        requires { IsCluster self.now }
        ensures { result ≡ list_any (near.crosses seen place) self.now.spots.items }
    {
        if self.is_far(seen, place) {
            return false;
        }
        any_crosses(&self.spots, seen, place)
    }
}

/// Does it meet one that may be seen here, and has it a greater place than this?
fn spot_crosses(spot: &Spot, seen: Rect, place: usize) -> bool
    ensures { result ≡ near.crosses seen place spot.now }
{
    place < spot.place && meets(spot.seen, seen)
}

fn any_crosses(spots: &[Spot], seen: Rect, place: usize) -> bool
    ensures { result ≡ list_any (near.crosses seen place) spots.now }
{
    for spot in spots {
        if spot_crosses(spot, seen, place) {
            return true;
        }
    }
    false
}

/// The leaves so far, in clusters, and the cluster for each place.
#[derive(Drop)]
pub(crate) struct Near {
    clusters: Vec<Cluster>,
    cluster_of: Vec<usize>,
}

/// By what leaves are put near each other: how large they are, and where they lie.
#[derive(Clone, Copy, PartialEq, Eq, PartialOrd, Ord)]
struct Lie {
    size: u8,
    band: i32,
    x: i32,
    y: i32,
    place: usize,
}

fn size_of_side(side: i32) -> u8 {
    if side <= 8 {
        0
    } else if side <= 64 {
        1
    } else if side <= 512 {
        2
    } else {
        3
    }
}

fn lie_of(seen: Rect, place: usize) -> Lie {
    let size = size_of_side(seen.w()).max(size_of_side(seen.h()));
    Lie {
        size,
        band: seen.y() / 64,
        x: seen.x(),
        y: seen.y(),
        place,
    }
}

/// The cluster for each place of the painting order.
fn clusters_for(alloc: Global, fresh: &[Found]) -> Result<Vec<usize>, NoMemory> {
    let mut lies = Vec::with_capacity(alloc, fresh.len())?;
    let mut cluster_of = Vec::with_capacity(alloc, fresh.len())?;
    for i in 0..fresh.len() {
        lies.push(lie_of(fresh[i].leaf.visible, i))?;
        cluster_of.push(0)?;
    }
    lies.sort()?;
    for i in 0..lies.len() {
        let place = lies[i].place;
        if place < cluster_of.len() {
            cluster_of[place] = i / BLOCK;
        }
    }
    Ok(cluster_of)
}

fn empty_clusters(alloc: Global, count: usize) -> Result<Vec<Cluster>, NoMemory>
    ensures { IfOk result (λ v. AllByRecursion IsCluster v.items) }
{
    let mut clusters = Vec::with_capacity(alloc, count)?;
    for _ in 0..count {
        clusters.push(Cluster::empty(alloc))?;
    }
    Ok(clusters)
}

impl Near {
    /// No leaf yet, and clusters for those of a painting order.
    pub(crate) fn new(alloc: Global, fresh: &[Found]) -> Result<Near, NoMemory>
        ensures { IfOk result (λ n. AllByRecursion IsCluster n.clusters.items) }
    {
        let cluster_of = clusters_for(alloc, fresh)?;
        let clusters = empty_clusters(alloc, fresh.len() / BLOCK + 1)?;
        Ok(Near {
            clusters,
            cluster_of,
        })
    }

    /// Has it a leaf that meets one that may be seen here, and has a greater place than this?
    pub(crate) fn crosses(&self, seen: Rect, place: usize) -> bool
        requires { AllByRecursion IsCluster self.now.clusters.items }
        ensures { result ≡ false → (s : NotedSpot) → IsNoted s self.now.clusters.items → near.crosses seen place s ≡ false }
    {
        for cluster in &self.clusters {
            if cluster.crosses(seen, place) {
                return true;
            }
        }
        false
    }

    /// The number of the cluster for a place.
    fn number_of(&self, place: usize) -> usize {
        match self.cluster_of.get(place) {
            Some(number) => *number,
            None => 0,
        }
    }

    /// Puts a leaf into its cluster.
    pub(crate) fn add(&mut self, alloc: Global, spot: Spot) -> Result<(), NoMemory>
        requires { AllByRecursion IsCluster self.old.clusters.items }
        ensures kept { OnOk result (AllByRecursion IsCluster self.new.clusters.items) }
        ensures added { OnOk result (IsNoted spot self.new.clusters.items) }
        ensures before { OnOk result ((s : NotedSpot) → IsNoted s self.old.clusters.items → IsNoted s self.new.clusters.items) }
    {
        let number = self.number_of(spot.place);
        if number < self.clusters.len() {
            self.clusters[number].add(spot)?;
            return Ok(());
        }
        let cluster = Cluster::of(alloc, spot)?;
        self.clusters.push(cluster)?;
        Ok(())
    }
}
