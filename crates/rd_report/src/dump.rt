//! The lines of a dump.

ghost use Rattle.std.specs.Prelude.{◌≡◌, ◌<◌, ◌+◌, ◌^◌, ◌++◌, ◌∷◌, [], length, OnOk, OnErr, string_bytes, codes, decimal};
ghost use Rattle.rd_list.specs.Entries.{flat};
ghost use Rattle.rd_list.specs.KeptView.{kept_entries};
ghost use Rattle.rd_list.specs.Unordered.{unordered};
ghost use Rattle.rd_list.specs.GroupDepth.{group_depth};
ghost use Rattle.rd_report.specs.Dumps as dumps;
ghost use Rattle.rd_report.specs.Dumps.{width, named_item, named_group, named_list};

use crate::words::{id_text, mode_text, part_text, pointer_text, push_color, push_shape};
use rd_item::Item;
use rd_list::{Entry, Group, Kept, ListView};
use rd_tree::Tree;
use std::alloc::AllocError;
use std::sync::ledger::Ledger;

fn push_item_head(out: &mut String, depth: u64, id: &str, part: &str) -> Result<(), AllocError>
    ensures { OnOk result (string_bytes out.new ≡ string_bytes out.old
        ++ (codes "item" ++ (32 ∷ (decimal depth ++ (32 ∷ (id.now ++ (32 ∷ (part.now ++ (32 ∷ []))))))))) }
{
    write!(out, "item {depth} {id} {part} ")
}

fn push_item_tail(out: &mut String, pointer: &str, made: u64) -> Result<(), AllocError>
    ensures { OnOk result (string_bytes out.new ≡ string_bytes out.old
        ++ (32 ∷ (pointer.now ++ (32 ∷ (decimal made ++ (10 ∷ [])))))) }
{
    write!(out, " {pointer} {made}\n")
}

/// The line of an item below so many groups.
#[tactic(auto, using(crate::proofs::Joining::joining))]
fn push_item_line<A: Ledger, B: Ledger>(
    out: &mut String,
    tree: &Tree<B>,
    depth: u64,
    item: &Item<A>,
) -> Result<(), AllocError>
    ensures { OnOk result (string_bytes out.new ≡ string_bytes out.old
        ++ dumps.item_line depth (named_item tree.now.boxes item.now)) }
{
    let visible = item.visible();
    let shape = item.shape();
    push_item_head(
        out,
        depth,
        id_text(tree, item.owner()),
        part_text(item.part()),
    )?;
    push_shape(out, &visible, &shape)?;
    out.push_str(" ")?;
    push_color(out, item.color())?;
    push_item_tail(out, pointer_text(item.hits()), item.made_at())
}

/// The line of a group below so many groups, with its opacity, the number of its own entries, and its blend mode where that is
/// not normal.
#[tactic(auto, using(crate::proofs::Joining::joining))]
fn push_group_line<A: Ledger, B: Ledger>(
    out: &mut String,
    tree: &Tree<B>,
    depth: u64,
    group: &Group<A>,
) -> Result<(), AllocError>
    ensures { OnOk result (string_bytes out.new ≡ string_bytes out.old
        ++ dumps.group_line depth (named_group tree.now.boxes (record { key = group.now.key; opacity = group.now.opacity; blend = group.now.blend }))
        (width (named_list tree.now.boxes (unordered group.now.inner.entries)))) }
{
    let id = id_text(tree, group.key);
    let opacity = group.opacity;
    let entries = width(&group.inner);
    let mode = mode_text(group.blend);
    write!(out, "group {depth} {id} {opacity} {entries}{mode}\n")
}

/// The number of entries directly in a list.
#[tactic(auto, using(crate::proofs::Joining::joining))]
fn width<A: Ledger>(list: &Kept<A>) -> usize
    ensures { result ≡ width (unordered list.now.entries) }
{
    list.entries().len()
}

#[cycle(lines)]
fn push_list<A: Ledger, B: Ledger>(
    out: &mut String,
    tree: &Tree<B>,
    depth: u64,
    list: &Kept<A>,
) -> Result<(), AllocError>
    requires { depth + group_depth list.now.entries < 2 ^ 64 }
    ensures { OnOk result (string_bytes out.new ≡ string_bytes out.old
        ++ dumps.lines depth (named_list tree.now.boxes (unordered list.now.entries))) }
{
    push_entries(out, tree, depth, list.entries())
}

/// A line for each entry, and the lines of a group after its own.
#[cycle(lines)]
fn push_entries<A: Ledger, B: Ledger>(
    out: &mut String,
    tree: &Tree<B>,
    depth: u64,
    entries: &[Entry<A>],
) -> Result<(), AllocError>
    requires { depth + group_depth (kept_entries entries.now) < 2 ^ 64 }
    ensures { OnOk result (string_bytes out.new ≡ string_bytes out.old
        ++ dumps.lines depth (named_list tree.now.boxes (unordered (kept_entries entries.now)))) }
{
    for entry in entries {
        push_entry(out, tree, depth, entry)?;
    }
    Ok(())
}

#[cycle(lines)]
#[tactic(auto, using(crate::proofs::Joining::joining))]
fn push_entry<A: Ledger, B: Ledger>(
    out: &mut String,
    tree: &Tree<B>,
    depth: u64,
    entry: &Entry<A>,
) -> Result<(), AllocError>
    requires { depth + group_depth (kept_entries (entry.now ∷ [])) < 2 ^ 64 }
    ensures { OnOk result (string_bytes out.new ≡ string_bytes out.old
        ++ dumps.lines depth (named_list tree.now.boxes (unordered (kept_entries (entry.now ∷ []))))) }
{
    match entry {
        Entry::Leaf(item) => push_item_line(out, tree, depth, item),
        Entry::Group(group) => {
            push_group_line(out, tree, depth, group)?;
            push_list(out, tree, depth + 1, &group.inner)
        }
    }
}

#[tactic(auto, using(crate::proofs::Dumping::dumping))]
fn push_whole<A: Ledger, B: Ledger>(
    out: &mut String,
    list: ListView<'_, A>,
    tree: &Tree<B>,
) -> Result<(), AllocError>
    requires leaves { length (flat list.list.now.entries) < 4294967296 }
    requires groups { group_depth list.list.now.entries < 4294967296 }
    ensures { OnOk result (string_bytes out.new ≡ string_bytes out.old
        ++ dumps.dump_lines (named_list tree.now.boxes (unordered list.entry.list.now.entries))) }
{
    let leaves = list.leaves();
    write!(out, "dump {leaves}\n")?;
    push_entries(out, tree, 0, list.entries())
}

/// Puts the lines of a dump at the end of a text: the number of leaves, and a line for each leaf and each group from bottom to
/// top. Its boxes are named by their ids. The list has fewer than 4,294,967,296 leaves, and no deeper groups than that. After a
/// refusal the text is as it was.
pub fn push_dump<A: Ledger, B: Ledger>(
    out: &mut String,
    list: ListView<'_, A>,
    tree: &Tree<B>,
) -> Result<(), AllocError>
    requires leaves { length (flat list.list.now.entries) < 4294967296 }
    requires groups { group_depth list.list.now.entries < 4294967296 }
    ensures pushed { OnOk result (string_bytes out.new ≡ string_bytes out.old
        ++ dumps.dump_lines (named_list tree.now.boxes (unordered list.entry.list.now.entries))) }
    ensures kept { OnErr result (string_bytes out.new ≡ string_bytes out.old) }
{
    let mut lines = String::new(*out.allocator());
    push_whole(&mut lines, list, tree)?;
    out.push_str(&lines)
}
