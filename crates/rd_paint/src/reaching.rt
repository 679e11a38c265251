//! The columns that the entries which picks name may show in.

ghost use Rattle.std.specs.Prelude.{◌≡◌, ℕ, ℤ, pos, ◌≤◌, ◌<◌, ◌+ℤ◌, ◌≤ℤ◌, ◌∷◌, [], ◌&&◌, false, nat_le, nat_lt, IfSome};
ghost use Rattle.rd_geom.specs.Areas.{in_span};
ghost use Rattle.rd_geom.specs.Colors.{Premultiplied};
ghost use Rattle.rd_list.specs.Displayed.{shown};
ghost use Rattle.rd_list.specs.Entries as list;
ghost use Rattle.rd_list.specs.EntryNames.{kept_leaves};
ghost use Rattle.rd_list.specs.Lists.{composed};
ghost use Rattle.rd_list.specs.Wrappers.{Wrapper};
ghost use Rattle.rd_paint.specs.Internal.Picks.{OffSpan, SameWhere, chosen, picked};

use crate::picks::{Pick, pick_at};
use crate::runs::{clipped, columns, has_row};
use rd_geom::Span;
use rd_item::Item;
use rd_list::{Entry, Kept};
use std::sync::ledger::Ledger;

/// A span without a column: together with another it is that other one.
fn nothing() -> Span
    ensures { (x : ℤ) → in_span result x ≡ false }
{
    Span {
        x0: i32::MAX,
        x1: i32::MIN,
    }
}

/// A span that has the columns of both, and those between them.
fn together(a: Span, b: Span) -> Span
    ensures first { (x : ℤ) → in_span result x ≡ false → in_span a x ≡ false }
    ensures second { (x : ℤ) → in_span result x ≡ false → in_span b x ≡ false }
{
    Span {
        x0: a.x0.min(b.x0),
        x1: a.x1.max(b.x1),
    }
}

/// How many groups inside one another are looked into: so an entry is looked at for that many groups round it at most.
const INTO: u32 = 1;

/// Outside which of so many places, the first in column `x0` of row `y`, nothing of a group shows that picks name.
pub(crate) fn places<A: Ledger>(
    inner: &Kept<A>,
    own: &[Pick],
    y: i32,
    x0: i32,
    count: usize,
) -> (usize, usize)
    requires { pos 0 ≤ℤ x0 }
    ensures order { result.0 ≤ result.1 }
    ensures within { result.1 ≤ count }
    ensures unseen { (k : ℕ) (d : Premultiplied) → k < count → (nat_le result.0 k && nat_lt k result.1) ≡ false
        → composed (x0 +ℤ pos k) y d (picked own.now (kept_leaves inner.now.entries)) ≡ d }
{
    match reach(inner.entries(), own, y, INTO) {
        Some(seen) => clipped(seen, x0, count),
        None => (0, count),
    }
}

/// A span outside which nothing shows in row `y` of the entries that picks name; None where it was not looked for.
#[cycle(reaching)]
fn reach<A: Ledger>(entries: &[Entry<A>], picks: &[Pick], y: i32, into: u32) -> Option<Span>
    ensures { IfSome result (λ s. SameWhere (OffSpan s y) list.nil (picked picks.now (shown entries.now))) }
{
    let mut span = nothing();
    let mut i = 0;
    while i < picks.len() {
        let (place, own) = pick_at(picks, i);
        let more = reach_at(entries, place, own, y, into)?;
        span = together(span, more);
        i = i + 1 + own.len();
    }
    Some(span)
}

/// The same of the entry at a place, if there is one.
#[cycle(reaching)]
fn reach_at<A: Ledger>(
    entries: &[Entry<A>],
    place: u32,
    own: &[Pick],
    y: i32,
    into: u32,
) -> Option<Span>
    ensures { IfSome result (λ s. SameWhere (OffSpan s y) list.nil (chosen own.now place (shown entries.now))) }
{
    let index = place as usize;
    if index < entries.len() {
        return reach_pick(&entries[index], own, y, into);
    }
    Some(nothing())
}

#[cycle(reaching)]
fn reach_pick<A: Ledger>(entry: &Entry<A>, own: &[Pick], y: i32, into: u32) -> Option<Span>
    ensures { IfSome result (λ s. SameWhere (OffSpan s y) list.nil (chosen own.now 0 (shown (entry.now ∷ [])))) }
{
    match entry {
        Entry::Leaf(item) => Some(reach_item(item, y)),
        Entry::Group(group) => reach_group(&group.inner, own, y, into),
    }
}

fn reach_item<A: Ledger>(item: &Item<A>, y: i32) -> Span
    ensures { SameWhere (OffSpan result y) list.nil (list.leaf item.now.leaf list.nil) }
{
    let seen = item.visible();
    if has_row(seen, y) {
        return columns(seen);
    }
    nothing()
}

/// The same of a group, whatever its opacity.
#[cycle(reaching)]
fn reach_group<A: Ledger>(inner: &Kept<A>, own: &[Pick], y: i32, into: u32) -> Option<Span>
    ensures { IfSome result (λ s. (w : Wrapper) → SameWhere (OffSpan s y) list.nil
        (list.group w (picked own.now (kept_leaves inner.now.entries)) list.nil)) }
{
    if into == 0 {
        return None;
    }
    reach(inner.entries(), own, y, into - 1)
}
