//! A line of a dump.
ghost use Rattle.std.specs.Prelude.{◌≡◌, option_map};
ghost use Rattle.rd_check.specs.Internal.Reading.{Gives};
ghost use Rattle.rd_check.specs.Internal.Rows as rows;
ghost use Rattle.rd_check.specs.Rows.{row_of};

use crate::fault::CheckFault;
use crate::fields::{
    byte_before, color_before, ending_at, id_before, number_before, part_before, pointer_before,
    rect_before,
};
use crate::row::{LeafLine, Row, What};
use crate::words::word_before;
use rd_geom::{Color, Rect};
use rd_item::Shape;
use rd_tree::Id;
use std::alloc::Global;

/// Below how many groups an entry is, and the id of its box.
#[tactic(auto, unfolding(crate::specs::Internal::Rows::label_at))]
fn label_at(alloc: Global, bytes: &[u8]) -> Result<(u64, Id, &[u8]), CheckFault>
    ensures { Gives (λ x. ((x.0, x.1), x.2.now)) result (rows.label_at bytes.now) }
{
    let (depth, rest) = number_before(b' ', bytes).ok_or(CheckFault::Dump)?;
    let (id, rest) = id_before(alloc, b' ', rest)?;
    Ok((depth, id, rest))
}

/// The visible rectangle, and the outer and the inner one of the shape.
#[tactic(auto, unfolding(crate::specs::Internal::Rows::forms_at))]
fn forms_at(bytes: &[u8]) -> Option<(Rect, Rect, Rect, &[u8])>
    ensures { option_map (λ x. ((x.0, (x.1, x.2)), x.3.now)) result ≡ rows.forms_at bytes.now }
{
    let Some((visible, rest)) = rect_before(b' ', bytes) else {
        return None;
    };
    let Some((outer, rest)) = rect_before(b' ', rest) else {
        return None;
    };
    let Some((inner, rest)) = rect_before(b' ', rest) else {
        return None;
    };
    Some((visible, outer, inner, rest))
}

/// The colour, whether hits are taken, and the number of the paint.
#[tactic(auto, unfolding(crate::specs::Internal::Rows::paint_at))]
fn paint_at(bytes: &[u8]) -> Option<(Color, bool, u64, &[u8])>
    ensures { option_map (λ x. ((x.0, (x.1, x.2)), x.3.now)) result ≡ rows.paint_at bytes.now }
{
    let (color, rest) = color_before(b' ', bytes)?;
    let (hits, rest) = pointer_before(b' ', rest)?;
    let (made_at, rest) = number_before(b'\n', rest)?;
    Some((color, hits, made_at, rest))
}

/// The line of a leaf, after its first word.
#[tactic(auto, unfolding(crate::specs::Internal::Rows::item_at))]
fn item_at(alloc: Global, bytes: &[u8]) -> Result<(Row, &[u8]), CheckFault>
    ensures { Gives (λ x. (row_of x.0, x.1.now)) result (rows.item_at bytes.now) }
{
    let (depth, id, rest) = label_at(alloc, bytes)?;
    let (part, rest) = part_before(b' ', rest).ok_or(CheckFault::Dump)?;
    let Some((visible, outer, inner, rest)) = forms_at(rest) else {
        return Err(CheckFault::Dump);
    };
    let (color, hits, made_at, rest) = paint_at(rest).ok_or(CheckFault::Dump)?;
    let what = What::Item(LeafLine {
        part,
        visible,
        shape: Shape { outer, inner },
        color,
        hits,
        made_at,
    });
    Ok((Row { depth, id, what }, rest))
}

/// The line of a group, after its first word.
#[tactic(auto, unfolding(crate::specs::Internal::Rows::head_at))]
fn head_at(alloc: Global, bytes: &[u8]) -> Result<(Row, &[u8]), CheckFault>
    ensures { Gives (λ x. (row_of x.0, x.1.now)) result (rows.head_at bytes.now) }
{
    let (depth, id, rest) = label_at(alloc, bytes)?;
    let (opacity, rest) = byte_before(b' ', rest).ok_or(CheckFault::Dump)?;
    let (entries, blend, rest) = ending_at(rest).ok_or(CheckFault::Dump)?;
    let what = What::Group {
        opacity,
        blend,
        entries,
    };
    Ok((Row { depth, id, what }, rest))
}

/// The first line of some bytes, and what comes after it.
pub(crate) fn row_at(alloc: Global, bytes: &[u8]) -> Result<(Row, &[u8]), CheckFault>
    ensures { Gives (λ x. (row_of x.0, x.1.now)) result (rows.row_at bytes.now) }
{
    let (word, rest) = word_before(b' ', bytes).ok_or(CheckFault::Dump)?;
    if word == b"item".as_slice() {
        item_at(alloc, rest)
    } else if word == b"group".as_slice() {
        head_at(alloc, rest)
    } else {
        Err(CheckFault::Dump)
    }
}
