//! Laws of wires, each the contract of a function that does nothing.
ghost use Rattle.std.specs.Prelude.{◌≡◌, ℕ, List, ◌++◌};
ghost use Rattle.rd_keys.specs.declared.entry.EntryKey.{EntryKey};
ghost use Rattle.rd_item.specs.Items.{Made};
ghost use Rattle.rd_list.specs.Wrappers.{Wrapper};
ghost use Rattle.rd_list.specs.Entries.{Entries};
ghost use Rattle.rd_list.specs.EntryNames.{kept_leaves, new_leaves};
ghost use Rattle.rd_list.specs.Kept.{Ordered};
ghost use Rattle.rd_list.specs.Unordered.{unordered};
ghost use Rattle.rd_wire.specs.Laws.{Keeping};
ghost use Rattle.rd_wire.specs.Wires.{spelled, IsWire};
ghost use Rattle.rd_wire.specs.declared.wire.Wire.{Wire};

/// A wire has one spelling, no two wires have the same, and none is a proper front of another.
pub fn one_spelling()
    ensures { (v w : Wire) (x y : List ℕ) → IsWire v → IsWire w → spelled v ++ x ≡ spelled w ++ y → (v ≡ w) × (x ≡ y) }
{}

/// A kept list that stands for a painting order has a spelling, with its canvas.
pub fn keeping()
    ensures { Keeping }
{}

/// The items of a kept list show what the list shows.
pub fn same_leaves()
    ensures { (kept : Entries (Ordered EntryKey Wrapper) Made) → new_leaves (unordered kept) ≡ kept_leaves kept }
{}
