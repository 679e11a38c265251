//! Pages of rows that a walk among siblings passes at once. A page of 64 rows is calm where their boxes are untouched and have no
//! children, and each but the last is followed by the box of the next slot. Where that is known, it stands beside the page.
ghost use Rattle.std.specs.Prelude.{◌≡◌, ◌*◌, ◌+◌, ◌%◌, ◌<◌, ◌≤◌, IfSome, IsTrue, [], ◌∷◌, ◌++◌, length, slice_set, vec_capacity};
ghost use Rattle.rd_tree.specs.Internal.Glances.{pages};
ghost use Rattle.rd_tree.specs.Internal.Calm.{AreCalm, IsCalmPage, IsCalmRow, IsFollowed, IsPassed, IsRun};

use crate::glance::Glance;
use crate::shared::{PAGE, PageWord};
use rd_keys::BoxKey;

/// The row of a slot changes: its page is not known to be calm any more.
#[inline(always)]
pub(crate) fn stir(rows: &[Glance], calm: &mut [bool], slot: usize)
    requires slot { slot < length rows.now }
    requires calm { AreCalm rows.now calm.old }
    ensures { (y : Glance) → AreCalm (slice_set rows.now slot y) calm.new }
{
    calm[slot / PAGE] = false;
}

/// A row comes after these: its page, which it may begin, is not known to be calm.
pub(crate) fn extend(rows: &[Glance], calm: &mut Vec<bool>)
    requires calm { AreCalm rows.now calm.old.items }
    requires room { pages (length rows.now) < vec_capacity calm.old }
    ensures { (y : Glance) → AreCalm (rows.now ++ y ∷ []) calm.new.items }
{
    let page = rows.len() / PAGE;
    if page < calm.len() {
        calm[page] = false;
    } else {
        calm.push_reserved(false);
    }
}

/// Is the box of a row untouched and without children?
#[inline(always)]
fn is_calm(row: &Glance) -> bool
    ensures { IsTrue result → IsCalmRow row.now }
{
    !row.touched && row.first.is_none()
}

/// Is the box of a slot followed by that of the next one?
#[inline(always)]
fn is_followed(rows: &[Glance], slot: usize) -> bool
    requires { slot + 1 < length rows.now }
    ensures { IsTrue result → IsFollowed rows.now slot }
{
    match rows[slot].next {
        Some(key) => {
            key.slot() as usize == slot + 1 && key.generation() == rows[slot + 1].generation
        }
        None => false,
    }
}

/// Is a page calm? One of fewer rows is not.
fn is_calm_page(rows: &[Glance], page: usize) -> bool
    requires { PAGE * page < length rows.now }
    ensures { IsTrue result → IsCalmPage rows.now page }
{
    let start = page * PAGE;
    if rows.len() - start < PAGE {
        return false;
    }
    let last = start + PAGE - 1;
    for slot in start..last {
        if !is_calm(&rows[slot]) || !is_followed(rows, slot) {
            return false;
        }
    }
    is_calm(&rows[last])
}

/// Works out anew which pages are calm, of those that are not known to be, and whose rows are not known to share a word.
pub(crate) fn renew(rows: &[Glance], shared: &[PageWord], calm: &mut [bool])
    requires calm { AreCalm rows.now calm.old }
    requires shared { length shared.now ≡ length calm.old }
    ensures { AreCalm rows.now calm.new }
{
    for page in 0..calm.len() {
        if shared[page].odd != 0 && !calm[page] {
            calm[page] = is_calm_page(rows, page);
        }
    }
}

/// How many boxes stand from a slot on, up to the end of its page, where that is known to be calm. 0 where it is not.
#[inline(always)]
pub(crate) fn run_from(rows: &[Glance], calm: &[bool], slot: usize) -> usize
    requires slot { slot < length rows.now }
    requires calm { AreCalm rows.now calm.now }
    ensures run { IsRun rows.now slot result }
    ensures page { slot % 64 + result ≤ 64 }
{
    if calm[slot / PAGE] {
        PAGE - slot % PAGE
    } else {
        0
    }
}

/// Where a slot is the first of a page that is known to be calm: which sibling comes after the last box of the page, if any.
#[inline(always)]
pub(crate) fn after_page(rows: &[Glance], calm: &[bool], slot: usize) -> Option<Option<BoxKey>>
    requires slot { slot < length rows.now }
    requires calm { AreCalm rows.now calm.now }
    ensures { IfSome result (IsPassed rows.now slot) }
{
    if slot % PAGE == 0 && calm[slot / PAGE] {
        Some(rows[slot + PAGE - 1].next)
    } else {
        None
    }
}
