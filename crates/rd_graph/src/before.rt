//! Lists of the direct predecessors of a node. One of a single name takes no memory of its own.
ghost use Rattle.std.specs.Prelude.{◌≡◌, [], ◌∷◌, ◌++◌, IfOk, OnOk};
ghost use Rattle.rd_graph.specs.Names.{is_in, same_entry};

use rd_keys::{EntryKey, Key};
use smallvec::SmallVec;
use std::alloc::{AllocError, Global};
use std::marker::Model;

/// A name in a list of predecessors.
#[derive(Clone, Copy)]
pub(crate) struct Name {
    pub(crate) key: EntryKey,
}

impl Model for Name {
    ghost use Rattle.rd_keys.specs.declared.entry.EntryKey.{EntryKey};

    ghost Value = { EntryKey };

    ghost view = { λ n. n.key };

    ghost inverse = { λ k. record { key = k } };
}

/// An unused place of a list has a name that stands for nothing.
impl Default for Name {
    fn default() -> Name {
        Name {
            key: EntryKey::Group(Key::new(0, 0)),
        }
    }
}

/// Names of predecessors.
pub(crate) type Predecessors = SmallVec<Name, 1>;

/// No name.
pub(crate) fn nothing(alloc: Global) -> Predecessors
    ensures { result.items ≡ [] }
{
    SmallVec::new(alloc)
}

/// Puts a name at the end.
pub(crate) fn push(list: &mut Predecessors, key: EntryKey) -> Result<(), AllocError>
    ensures { OnOk result (list.new.items ≡ list.old.items ++ key ∷ []) }
{
    list.push(Name { key })?;
    Ok(())
}

/// One name.
pub(crate) fn one(alloc: Global, key: EntryKey) -> Predecessors
    ensures { result.items ≡ key ∷ [] }
{
    let mut list = nothing(alloc);
    list.push_reserved(Name { key });
    list
}

/// A list once more.
pub(crate) fn copied(alloc: Global, list: &[Name]) -> Result<Predecessors, AllocError>
    ensures { IfOk result (λ v. v.items ≡ list.now) }
{
    SmallVec::from_slice(alloc, list)
}

/// Have two entries one name?
fn is_same(key: &EntryKey, name: &EntryKey) -> bool
    ensures { result ≡ same_entry key.now name.now }
{
    key == name
}

/// Is the name one of these?
pub(crate) fn is_among(keys: &[Name], name: EntryKey) -> bool
    ensures { result ≡ is_in same_entry keys.now name }
{
    for key in keys {
        if is_same(&key.key, &name) {
            return true;
        }
    }
    false
}
