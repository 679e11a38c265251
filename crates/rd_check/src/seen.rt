//! Entries, each with the place of its leaf in the painting order.
ghost use Rattle.std.specs.Prelude.{◌≡◌, map, option_copied, option_map};
ghost use Rattle.std.specs.Ordering.{int_eq};
ghost use Rattle.rd_check.specs.Internal.Keyed.{shown};
ghost use Rattle.rd_check.specs.Internal.Rounds.{group_of, way_in, ways_in};
ghost use Rattle.rd_check.specs.Internal.Finding as finding;
ghost use Rattle.rd_check.specs.Internal.Sights.{sight_of};

use crate::around::{Around, Found, same_groups};
use crate::naming::{Entry, Kind};
use crate::painted::Painted;
use rd_geom::{Color, Rect, meets};
use rd_item::{Leaf, Shape};

/// An entry, and the place of its leaf in the painting order.
#[derive(Clone, Copy)]
pub(crate) struct Seen {
    pub(crate) entry: Entry,
    pub(crate) place: Option<usize>,
}

/// The leaf that an entry is.
pub(crate) fn leaf_in(seen: &Seen) -> Option<Leaf>
    ensures { result ≡ finding.row_leaf (shown seen.now.entry) }
{
    match seen.entry.what {
        Kind::Leaf(leaf) => Some(leaf),
        Kind::Head { .. } => None,
    }
}

/// The leaf of the painting order that has the name of an entry.
fn counterpart<'a>(seen: &Seen, fresh: &'a Painted) -> Option<&'a Found>
    ensures { option_map (way_in fresh.now.rounds.rows.items) (option_copied result)
        ≡ finding.there (ways_in fresh.now) (sight_of seen.now) }
{
    match seen.place {
        Some(place) => fresh.leaves.get(place),
        None => None,
    }
}

/// Is it a leaf that the painting order has not?
pub(crate) fn is_extra(seen: &Seen) -> bool
    ensures { result ≡ finding.is_extra (sight_of seen.now) }
{
    leaf_in(seen).is_some() && seen.place.is_none()
}

fn same_number(a: i32, b: i32) -> bool
    ensures { result ≡ int_eq a b }
{
    a == b
}

fn same_corner(a: Rect, b: Rect) -> bool
    ensures { result ≡ finding.same_corner a b }
{
    same_number(a.x(), b.x()) && same_number(a.y(), b.y())
}

fn same_extent(a: Rect, b: Rect) -> bool
    ensures { result ≡ finding.same_extent a b }
{
    same_number(a.w(), b.w()) && same_number(a.h(), b.h())
}

fn same_rect(a: Rect, b: Rect) -> bool
    ensures { result ≡ finding.same_rect a b }
{
    same_corner(a, b) && same_extent(a, b)
}

fn same_shape(a: Shape, b: Shape) -> bool
    ensures { result ≡ finding.same_shape a b }
{
    same_rect(a.outer, b.outer) && same_rect(a.inner, b.inner)
}

fn same_color(a: Color, b: Color) -> bool
    ensures { result ≡ finding.same_color a b }
{
    a.r == b.r && a.g == b.g && a.b == b.b && a.a == b.a
}

fn same_area(a: &Leaf, b: &Leaf) -> bool
    ensures { result ≡ finding.same_area a.now b.now }
{
    same_rect(a.visible, b.visible) && same_shape(a.shape, b.shape)
}

fn same_look(a: &Leaf, b: &Leaf) -> bool
    ensures { result ≡ finding.same_look a.now b.now }
{
    same_color(a.color, b.color) && a.hits == b.hits
}

fn same_values(a: &Leaf, b: &Leaf) -> bool
    ensures { result ≡ finding.same_values a.now b.now }
{
    same_area(a, b) && same_look(a, b)
}

/// Is it a leaf that has other values there?
pub(crate) fn is_different(seen: &Seen, fresh: &Painted) -> bool
    ensures { result ≡ finding.is_different (ways_in fresh.now) (sight_of seen.now) }
{
    match leaf_in(seen) {
        Some(leaf) => match counterpart(seen, fresh) {
            Some(found) => !same_values(&leaf, &found.leaf),
            None => false,
        },
        None => false,
    }
}

/// Has the painting order its leaf below other groups than these?
fn is_astray(seen: &Seen, round: &[Around], fresh: &Painted) -> bool
    ensures { result ≡ finding.astray (map group_of round.now) (finding.there (ways_in fresh.now) (sight_of seen.now)) }
{
    match counterpart(seen, fresh) {
        Some(found) => !same_groups(round, fresh.rounds.get(found.round)),
        None => false,
    }
}

/// Is it a leaf that stands in other groups there?
pub(crate) fn is_wrapped(seen: &Seen, round: &[Around], fresh: &Painted) -> bool
    ensures { result ≡ finding.is_wrapped (ways_in fresh.now) (map group_of round.now) (sight_of seen.now) }
{
    leaf_in(seen).is_some() && is_astray(seen, round, fresh)
}

fn is_later(lower: Option<usize>, upper: Option<usize>) -> bool
    ensures { result ≡ finding.is_later lower upper }
{
    match lower {
        Some(p) => match upper {
            Some(q) => q < p,
            None => false,
        },
        None => false,
    }
}

fn do_meet(a: Option<Leaf>, b: Option<Leaf>) -> bool
    ensures { result ≡ finding.do_meet a b }
{
    match a {
        Some(a) => match b {
            Some(b) => meets(a.visible, b.visible),
            None => false,
        },
        None => false,
    }
}

/// Do two leaves meet that stand the other way in the painting order?
pub(crate) fn is_crossed(lower: &Seen, upper: &Seen) -> bool
    ensures { result ≡ finding.is_crossed (sight_of lower.now) (sight_of upper.now) }
{
    is_later(lower.place, upper.place) && do_meet(leaf_in(lower), leaf_in(upper))
}
