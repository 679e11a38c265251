//! Picks: the entries of a list that may show, those in groups too.

ghost use Rattle.std.specs.Prelude.{◌≡◌, ℕ, ◌+◌, ◌≤◌, ◌<◌, ◌^◌, ◌∷◌, length, take, drop};
ghost use Rattle.rd_item.specs.declared.leaf.Leaf as item;
ghost use Rattle.rd_list.specs.Entries.{Entries, ◌▷◌};
ghost use Rattle.rd_list.specs.Views.{levels};
ghost use Rattle.rd_list.specs.Wrappers.{Wrapper};
ghost use Rattle.rd_paint.specs.Internal.Picks.{chosen, picked};

/// The last place that a pick can name.
pub(crate) const MOST: usize = 4_294_967_295;

/// An entry of a list: its place, and how many of the picks behind this one are of its own list.
#[derive(Clone, Copy)]
pub(crate) struct Pick {
    pub(crate) place: u32,
    pub(crate) inside: u32,
}

impl Pick {
    /// A pick that fills room.
    pub(crate) const FIRST: Pick = Pick {
        place: 0,
        inside: 0,
    };
}

/// The place that the pick at `i` names, and the picks of the list of the group there.
pub(crate) fn pick_at(picks: &[Pick], i: usize) -> (u32, &[Pick])
    requires { i < length picks.now }
    ensures within { i + 1 + length result.1.now ≤ length picks.now }
    ensures parts { (es : Entries Wrapper item.Leaf) → picked (drop i picks.now) es
        ≡ chosen result.1.now result.0 es ▷ picked (drop (i + 1 + length result.1.now) picks.now) es }
{
    let pick = picks[i];
    let from = i + 1;
    let most = picks.len() - from;
    let inside = (pick.inside as usize).min(most);
    (pick.place, &picks[from..from + inside])
}

/// No fewer groups than stand round any leaf that picks name, whatever list they are of.
#[cycle(nesting)]
pub(crate) fn depth_of(picks: &[Pick]) -> usize
    ensures within { result ≤ length picks.now }
    ensures deep { (es : Entries Wrapper item.Leaf) → levels (picked picks.now es) ≤ result + 1 }
{
    let mut most: usize = 0;
    let mut i = 0;
    while i < picks.len() {
        let (_, own) = pick_at(picks, i);
        most = most.max(depth_at(own));
        i = i + 1 + own.len();
    }
    most
}

/// The same for one pick: it can name a group with leaves only where other picks are of its own list.
#[cycle(nesting)]
fn depth_at(own: &[Pick]) -> usize
    ensures within { result ≤ 1 + length own.now }
    ensures deep { (place : ℕ) (es : Entries Wrapper item.Leaf) → levels (chosen own.now place es) ≤ result + 1 }
{
    if own.is_empty() {
        return 0;
    }
    1 + depth_of(own)
}

/// Writes the pick of a place before those of its list, which stand there already; says how many there are then.
pub(crate) fn put(room: &mut [Pick], place: u32, inside: usize) -> usize
    requires few { inside < 2 ^ 32 }
    requires room { 1 + inside ≤ length room.old }
    ensures count { result ≡ 1 + inside }
    ensures written { take result room.new ≡ record { place = place; inside = inside } ∷ take inside (drop 1 room.old) }
{
    room[0] = Pick {
        place,
        inside: inside as u32,
    };
    1 + inside
}
