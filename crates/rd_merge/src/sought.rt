//! Names that are sought in a kept level.
ghost use Rattle.std.specs.Prelude.{◌≡◌, ◌<◌, IfOk, IfSome, None, [], slice_index_or};
ghost use Rattle.rd_graph.specs.Names.{place_of, same_entry};
ghost use Rattle.rd_graph.specs.Orders.{Once};
ghost use Rattle.rd_merge.specs.Internal.Marks.{AreMarked};
ghost use Rattle.rd_merge.specs.Internal.Sought.{AreChained, mark_count, mark_of};

use crate::marks::{Marks, box_of};
use rd_keys::EntryKey;
use std::alloc::{AllocError, Global};

/// Names by their marks, of which there are more where there are many names. At each mark the number of the last name
/// there, and for each name that of the one before it at its mark. Names are numbered from one, and zero is none.
#[derive(Drop)]
struct Sought {
    is_wide: bool,
    lasts: Vec<usize>,
    befores: Vec<usize>,
}

/// Where a name has its mark.
fn mark_of(is_wide: bool, key: EntryKey) -> usize
    ensures value { result ≡ mark_of is_wide key }
    ensures within { result < mark_count is_wide }
{
    let slot = match key {
        EntryKey::Leaf(name, _) => name.slot() as usize,
        EntryKey::Group(name) => name.slot() as usize,
    };
    if is_wide { slot % 2048 } else { slot % 256 }
}

/// How many marks there are.
fn mark_count(is_wide: bool) -> usize
    ensures { result ≡ mark_count is_wide }
{
    if is_wide { 2048 } else { 256 }
}

/// Are they the same name?
fn is_same(key: EntryKey, name: EntryKey) -> bool
    ensures { result ≡ same_entry key name }
{
    key == name
}

/// No names.
fn none_sought(alloc: Global) -> Sought
    ensures { AreChained result.is_wide [] result.lasts.items result.befores.items }
{
    Sought {
        is_wide: false,
        lasts: Vec::new(alloc),
        befores: Vec::new(alloc),
    }
}

impl Sought {
    /// These names by their marks.
    fn new(alloc: Global, names: &[EntryKey]) -> Result<Sought, AllocError>
        ensures { IfOk result (λ s. AreChained s.is_wide names.now s.lasts.items s.befores.items) }
    {
        if names.is_empty() {
            return Ok(none_sought(alloc));
        }
        let is_wide = names.len() > 256;
        let mut lasts = vec![in alloc; 0; mark_count(is_wide)]?;
        let mut befores = Vec::with_capacity(alloc, names.len())?;
        for name in names {
            let mark = mark_of(is_wide, *name);
            befores.push(lasts[mark])?;
            lasts[mark] = befores.len();
        }
        Ok(Sought {
            is_wide,
            lasts,
            befores,
        })
    }

    /// The number of the last name at the mark of this one.
    fn last(&self, name: EntryKey) -> usize
        ensures { result ≡ slice_index_or self.now.lasts.items (mark_of self.now.is_wide name) 0 }
    {
        match self.lasts.get(mark_of(self.is_wide, name)) {
            Some(last) => *last,
            None => 0,
        }
    }

    /// The place of a name among those that are sought. None exactly where it is not one of them.
    fn find(&self, names: &[EntryKey], name: EntryKey) -> Option<usize>
        requires chained { AreChained self.now.is_wide names.now self.now.lasts.items self.now.befores.items }
        requires once { Once names.now }
        ensures { result ≡ place_of same_entry names.now name }
    {
        let mut number = self.last(name);
        while number > 0 {
            let place = number - 1;
            if is_same(names[place], name) {
                return Some(place);
            }
            number = self.befores[place];
        }
        None
    }
}

/// Finds names. A table of them is made once, as soon as a name is sought that is perhaps one of them and does not come next.
#[derive(Drop)]
pub(crate) struct Finder {
    alloc: Global,
    table: Option<Sought>,
}

impl Finder {
    /// No table is made as yet.
    pub(crate) fn new(alloc: Global) -> Finder
        ensures { result.table ≡ None }
    {
        Finder { alloc, table: None }
    }

    /// The place of a name, by the table.
    fn find(&mut self, names: &[EntryKey], name: EntryKey) -> Result<Option<usize>, AllocError>
        requires table { IfSome self.old.table (λ s. AreChained s.is_wide names.now s.lasts.items s.befores.items) }
        requires once { Once names.now }
        ensures table { IfOk result (λ p. IfSome self.new.table (λ s. AreChained s.is_wide names.now s.lasts.items s.befores.items)) }
        ensures place { IfOk result (λ p. p ≡ place_of same_entry names.now name) }
    {
        if let Some(table) = &self.table {
            return Ok(table.find(names, name));
        }
        let table = Sought::new(self.alloc, names)?;
        let place = table.find(names, name);
        self.table = Some(table);
        Ok(place)
    }

    /// The place of a name, which is perhaps the one of this number. The box of each name is marked.
    #[inline(always)]
    pub(crate) fn find_from(
        &mut self,
        marks: &Marks,
        names: &[EntryKey],
        name: EntryKey,
        first: usize,
    ) -> Result<Option<usize>, AllocError>
        requires table { IfSome self.old.table (λ s. AreChained s.is_wide names.now s.lasts.items s.befores.items) }
        requires marks { AreMarked marks.now.is_wide names.now marks.now.marks.items }
        requires once { Once names.now }
        ensures table { IfOk result (λ p. IfSome self.new.table (λ s. AreChained s.is_wide names.now s.lasts.items s.befores.items)) }
        ensures place { IfOk result (λ p. p ≡ place_of same_entry names.now name) }
    {
        if first < names.len() && is_same(names[first], name) {
            return Ok(Some(first));
        }
        if !marks.has(box_of(name)) {
            return Ok(None);
        }
        self.find(names, name)
    }
}
