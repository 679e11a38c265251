//! The answer in JSON, for programs.
ghost use Rattle.std.specs.Prelude.{◌≡◌, ◌++◌, OnOk, string_bytes, false};
ghost use Rattle.rd_why.specs.Json as spec;

use crate::wording::{blend_name, bool_text, found_by, is_hit};
use rd_geom::NoMemory;
use rd_item::Leaf;
use rd_keys::BoxKey;
use rd_report::{id_text, part_text};
use rd_trace::{Around, Placing, Reason, Traced, hit_of, reason_of, takes_hit};
use rd_tree::Tree;
use std::alloc::Global;
use std::sync::ledger::Ledger;

/// A comma, where something follows.
fn comma<T>(rest: &[T]) -> &'static str
    ensures { result.now ≡ spec.comma rest.now }
{
    match rest {
        [] => "",
        [_, ..] => ",",
    }
}

/// An id as a string.
fn push_quoted<B: Ledger>(out: &mut String, tree: &Tree<B>, key: BoxKey) -> Result<(), NoMemory>
    ensures { OnOk result (string_bytes out.new ≡ string_bytes out.old ++ spec.quoted tree.now.boxes key) }
{
    let id = id_text(tree, key);
    write!(out, "\"{id}\"")
}

/// A place.
fn push_place<B: Ledger>(out: &mut String, tree: &Tree<B>, p: &Placing) -> Result<(), NoMemory>
    ensures { OnOk result (string_bytes out.new ≡ string_bytes out.old ++ spec.place_json tree.now.boxes p.now) }
{
    let number = p.step.number();
    let level = p.level;
    write!(out, "{{\"step\":{number},\"context\":")?;
    push_quoted(out, tree, p.context)?;
    out.push_str(",\"line\":")?;
    push_quoted(out, tree, p.line)?;
    out.push_str(",\"box\":")?;
    push_quoted(out, tree, p.of)?;
    write!(out, ",\"level\":{level}}}")
}

fn push_places<B: Ledger>(out: &mut String, tree: &Tree<B>, ps: &[Placing]) -> Result<(), NoMemory>
    ensures { OnOk result (string_bytes out.new ≡ string_bytes out.old ++ spec.places_json tree.now.boxes ps.now) }
{
    for (i, p) in ps.iter().enumerate() {
        push_place(out, tree, p)?;
        out.push_str(comma(&ps[i + 1..]))?;
    }
    Ok(())
}

/// A group.
fn push_group<B: Ledger>(out: &mut String, tree: &Tree<B>, g: &Around) -> Result<(), NoMemory>
    ensures { OnOk result (string_bytes out.new ≡ string_bytes out.old ++ spec.group_json tree.now.boxes g.now) }
{
    let opacity = g.opacity;
    let blend = blend_name(g.blend);
    out.push_str("{\"box\":")?;
    push_quoted(out, tree, g.key)?;
    write!(out, ",\"opacity\":{opacity},\"blend\":\"{blend}\"}}")
}

fn push_groups<B: Ledger>(out: &mut String, tree: &Tree<B>, gs: &[Around]) -> Result<(), NoMemory>
    ensures { OnOk result (string_bytes out.new ≡ string_bytes out.old ++ spec.groups_json tree.now.boxes gs.now) }
{
    for (i, g) in gs.iter().enumerate() {
        push_group(out, tree, g)?;
        out.push_str(comma(&gs[i + 1..]))?;
    }
    Ok(())
}

/// A reason with the two places that differ.
fn push_differing<B: Ledger>(
    out: &mut String,
    tree: &Tree<B>,
    word: &str,
    u: &Placing,
    l: &Placing,
) -> Result<(), NoMemory>
    ensures { OnOk result (string_bytes out.new ≡ string_bytes out.old ++ spec.differing_json tree.now.boxes word.now u.now l.now) }
{
    write!(out, "{{\"by\":\"{word}\",\"upper\":")?;
    push_place(out, tree, u)?;
    out.push_str(",\"lower\":")?;
    push_place(out, tree, l)?;
    out.push_str("}")
}

fn push_reason<B: Ledger>(out: &mut String, tree: &Tree<B>, reason: &Reason) -> Result<(), NoMemory>
    ensures { OnOk result (string_bytes out.new ≡ string_bytes out.old ++ spec.reason_json tree.now.boxes reason.now) }
{
    match reason {
        Reason::Steps { upper, lower } => push_differing(out, tree, "step", upper, lower),
        Reason::Levels { upper, lower } => push_differing(out, tree, "level", upper, lower),
        Reason::Boxes { upper, lower } => push_differing(out, tree, "tree", upper, lower),
        Reason::Inlines { upper, lower } => push_differing(out, tree, "line", upper, lower),
        Reason::Parts => out.push_str("{\"by\":\"part\"}"),
    }
}

/// Why a leaf is above the next, where there is one.
fn push_above<B: Ledger>(
    alloc: Global,
    out: &mut String,
    tree: &Tree<B>,
    t: &Traced,
    ts: &[Traced],
) -> Result<(), NoMemory>
    ensures { OnOk result (string_bytes out.new ≡ string_bytes out.old ++ spec.above_json tree.now.boxes t.now ts.now) }
{
    match ts {
        [] => out.push_str("null"),
        [u, ..] => {
            let reason = reason_of(alloc, t, u)?;
            push_reason(out, tree, &reason)
        }
    }
}

/// The box and the part of a leaf.
fn push_leaf_head<B: Ledger>(out: &mut String, tree: &Tree<B>, leaf: &Leaf) -> Result<(), NoMemory>
    ensures { OnOk result (string_bytes out.new ≡ string_bytes out.old ++ spec.leaf_head tree.now.boxes leaf.now) }
{
    let part = part_text(leaf.part);
    out.push_str("{\"box\":")?;
    push_quoted(out, tree, leaf.owner)?;
    write!(out, ",\"part\":\"{part}\"")
}

/// The way of a leaf and its groups.
fn push_leaf_lies<B: Ledger>(
    out: &mut String,
    tree: &Tree<B>,
    way: &[Placing],
    groups: &[Around],
) -> Result<(), NoMemory>
    ensures { OnOk result (string_bytes out.new ≡ string_bytes out.old ++ spec.leaf_lies tree.now.boxes way.now groups.now) }
{
    out.push_str(",\"way\":[")?;
    push_places(out, tree, way)?;
    out.push_str("],\"groups\":[")?;
    push_groups(out, tree, groups)?;
    out.push_str("]")
}

/// Whether a leaf takes the hit, and whether it is hit, where a leaf above it was found that takes it or not.
fn push_leaf_hit(out: &mut String, found: bool, takes: bool) -> Result<(), NoMemory>
    ensures { OnOk result (string_bytes out.new ≡ string_bytes out.old ++ spec.leaf_hit found takes) }
{
    let text = bool_text(takes);
    let hit = bool_text(is_hit(found, takes));
    write!(out, ",\"takes_hit\":{text},\"hit\":{hit}")
}

/// A leaf above others, where a leaf above it was found that takes the hit or not.
fn push_leaf<B: Ledger>(
    alloc: Global,
    out: &mut String,
    tree: &Tree<B>,
    found: bool,
    t: &Traced,
    ts: &[Traced],
) -> Result<(), NoMemory>
    ensures { OnOk result (string_bytes out.new ≡ string_bytes out.old ++ spec.leaf_json tree.now.boxes found t.now ts.now) }
{
    push_leaf_head(out, tree, &t.leaf)?;
    push_leaf_lies(out, tree, &t.way, &t.groups)?;
    push_leaf_hit(out, found, takes_hit(t))?;
    out.push_str(",\"above_next\":")?;
    push_above(alloc, out, tree, t, ts)?;
    out.push_str("}")
}

/// The leaves, the topmost first.
fn push_leaves<B: Ledger>(
    alloc: Global,
    out: &mut String,
    tree: &Tree<B>,
    ts: &[Traced],
) -> Result<(), NoMemory>
    ensures { OnOk result (string_bytes out.new ≡ string_bytes out.old ++ spec.leaves_json tree.now.boxes false ts.now) }
{
    let mut found = false;
    for (i, t) in ts.iter().enumerate() {
        push_leaf(alloc, out, tree, found, t, &ts[i + 1..])?;
        out.push_str(comma(&ts[i + 1..]))?;
        found = found_by(found, t);
    }
    Ok(())
}

/// An id as a string, where there is one.
fn push_or_null<B: Ledger>(
    out: &mut String,
    tree: &Tree<B>,
    key: Option<BoxKey>,
) -> Result<(), NoMemory>
    ensures { OnOk result (string_bytes out.new ≡ string_bytes out.old ++ spec.quoted_or_null tree.now.boxes key) }
{
    match key {
        Some(key) => push_quoted(out, tree, key),
        None => out.push_str("null"),
    }
}

/// Puts the whole answer at the end of a text, the topmost leaf first.
pub(crate) fn push_why_json<B: Ledger>(
    alloc: Global,
    out: &mut String,
    tree: &Tree<B>,
    x: i32,
    y: i32,
    ts: &[Traced],
) -> Result<(), NoMemory>
    ensures { OnOk result (string_bytes out.new ≡ string_bytes out.old ++ spec.why_json tree.now.boxes x y ts.now) }
{
    write!(out, "{{\"x\":{x},\"y\":{y},\"hit\":")?;
    push_or_null(out, tree, hit_of(ts))?;
    out.push_str(",\"leaves\":[")?;
    push_leaves(alloc, out, tree, ts)?;
    out.push_str("]}\n")
}
