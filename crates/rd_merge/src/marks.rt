//! Marks of the boxes of which something is sought in a kept level.
ghost use Rattle.std.specs.Prelude.{◌≡◌, ◌<◌, ◌%◌, length, IfOk, false, slice_index_or};
ghost use Rattle.rd_merge.specs.Internal.Marks.{AreMarked, ArePagesMarked, box_mark, box_marks, box_of};

use crate::pages::PageMarks;
use rd_keys::{BoxKey, EntryKey};
use std::alloc::{AllocError, Global};

/// Marks of boxes by their slots, of which there are more for many names and a long level, and marks by pages. Boxes may share a mark.
#[derive(Drop)]
pub(crate) struct Marks {
    pub(crate) is_wide: bool,
    pub(crate) marks: Vec<bool>,
    pub(crate) pages: PageMarks,
}

/// How many marks there are.
fn mark_count(is_wide: bool) -> usize
    ensures { result ≡ box_marks is_wide }
{
    if is_wide { 32768 } else { 2048 }
}

/// Where a box has its mark.
#[inline(always)]
fn mark_of(is_wide: bool, owner: BoxKey) -> usize
    ensures value { result ≡ box_mark is_wide owner }
    ensures within { result < box_marks is_wide }
{
    let slot = owner.slot() as usize;
    if is_wide { slot % 32768 } else { slot % 2048 }
}

/// The box of a name.
pub(crate) fn box_of(name: EntryKey) -> BoxKey
    ensures { result ≡ box_of name }
{
    match name {
        EntryKey::Leaf(owner, _) => owner,
        EntryKey::Group(owner) => owner,
    }
}

impl Marks {
    /// The marks of the boxes of these names, many or few.
    pub(crate) fn new(alloc: Global, is_wide: bool, names: &[EntryKey]) -> Result<Marks, AllocError>
        ensures boxes { IfOk result (λ m. AreMarked m.is_wide names.now m.marks.items) }
        ensures pages { IfOk result (λ m. ArePagesMarked names.now m.pages.pages.items m.pages.groups) }
    {
        let mut marks = vec![in alloc; false; mark_count(is_wide)]?;
        let mut pages = PageMarks::new(alloc)?;
        for name in names {
            let owner = box_of(*name);
            let mark = mark_of(is_wide, owner);
            marks[mark] = true;
            pages.mark(owner);
        }
        Ok(Marks {
            is_wide,
            marks,
            pages,
        })
    }

    /// Is the mark of this box set?
    #[inline(always)]
    pub(crate) fn has(&self, owner: BoxKey) -> bool
        requires { length self.now.marks.items ≡ box_marks self.now.is_wide }
        ensures { result ≡ slice_index_or self.now.marks.items (box_mark self.now.is_wide owner) false }
    {
        self.marks[mark_of(self.is_wide, owner)]
    }
}
