//! The answer in lines, for people.
ghost use Rattle.std.specs.Prelude.{◌≡◌, ◌++◌, OnOk, flat_map, codes, string_bytes, false};
ghost use Rattle.rd_why.specs.Lines as spec;

use crate::wording::{found_by, hit_text, step_name};
use rd_geom::NoMemory;
use rd_keys::BoxKey;
use rd_report::{id_text, part_text};
use rd_trace::{Around, Placing, Reason, Traced, hit_of, reason_of, takes_hit};
use rd_tree::Tree;
use std::alloc::Global;
use std::sync::ledger::Ledger;

/// In whose line a box stands, where it is not that box itself.
#[tactic(auto, using(crate::proofs::Joining::joining))]
fn push_line<B: Ledger>(out: &mut String, tree: &Tree<B>, p: &Placing) -> Result<(), NoMemory>
    ensures { OnOk result (string_bytes out.new ≡ string_bytes out.old ++ spec.line_text tree.now.boxes p.now) }
{
    if p.line.is(p.of) {
        Ok(())
    } else {
        let line = id_text(tree, p.line);
        write!(out, " in the line of {line}")
    }
}

/// A step of a box.
#[tactic(auto, using(crate::proofs::Joining::joining))]
fn push_place<B: Ledger>(out: &mut String, tree: &Tree<B>, p: &Placing) -> Result<(), NoMemory>
    ensures { OnOk result (string_bytes out.new ≡ string_bytes out.old ++ spec.place_text tree.now.boxes p.now) }
{
    let number = p.step.number();
    let name = step_name(p.step);
    let context = id_text(tree, p.context);
    write!(out, "step {number} ({name}) of {context}")?;
    push_line(out, tree, p)
}

#[tactic(auto, using(crate::proofs::Joining::joining))]
fn push_place_further<B: Ledger>(
    out: &mut String,
    tree: &Tree<B>,
    p: &Placing,
) -> Result<(), NoMemory>
    ensures { OnOk result (string_bytes out.new ≡ string_bytes out.old ++ (codes ", in " ++ spec.place_text tree.now.boxes p.now)) }
{
    out.push_str(", in ")?;
    push_place(out, tree, p)
}

fn push_further<B: Ledger>(out: &mut String, tree: &Tree<B>, ps: &[Placing]) -> Result<(), NoMemory>
    ensures { OnOk result (string_bytes out.new ≡ string_bytes out.old
        ++ flat_map (λ q. codes ", in " ++ spec.place_text tree.now.boxes q) ps.now) }
{
    for p in ps {
        push_place_further(out, tree, p)?;
    }
    Ok(())
}

/// The places from the leaf's own box outwards.
#[tactic(auto, using(crate::proofs::Joining::joining))]
fn push_way<B: Ledger>(out: &mut String, tree: &Tree<B>, way: &[Placing]) -> Result<(), NoMemory>
    ensures { OnOk result (string_bytes out.new ≡ string_bytes out.old ++ spec.way_text tree.now.boxes way.now) }
{
    match way {
        [] => Ok(()),
        [p, ps @ ..] => {
            push_place(out, tree, p)?;
            push_further(out, tree, ps)
        }
    }
}

#[tactic(auto, using(crate::proofs::Joining::joining))]
fn push_group_further<B: Ledger>(
    out: &mut String,
    tree: &Tree<B>,
    g: &Around,
) -> Result<(), NoMemory>
    ensures { OnOk result (string_bytes out.new ≡ string_bytes out.old ++ spec.group_further tree.now.boxes g.now) }
{
    let id = id_text(tree, g.key);
    write!(out, " in that of {id}")
}

fn push_groups_further<B: Ledger>(
    out: &mut String,
    tree: &Tree<B>,
    gs: &[Around],
) -> Result<(), NoMemory>
    ensures { OnOk result (string_bytes out.new ≡ string_bytes out.old ++ flat_map (spec.group_further tree.now.boxes) gs.now) }
{
    for g in gs {
        push_group_further(out, tree, g)?;
    }
    Ok(())
}

/// A group, and those round it.
#[tactic(auto, using(crate::proofs::Joining::joining))]
fn push_some_groups<B: Ledger>(
    out: &mut String,
    tree: &Tree<B>,
    g: &Around,
    gs: &[Around],
) -> Result<(), NoMemory>
    ensures { OnOk result (string_bytes out.new ≡ string_bytes out.old ++ spec.some_groups tree.now.boxes g.now gs.now) }
{
    let id = id_text(tree, g.key);
    write!(out, "in the group of {id}")?;
    push_groups_further(out, tree, gs)
}

/// The groups from the inside out.
fn push_groups<B: Ledger>(
    out: &mut String,
    tree: &Tree<B>,
    groups: &[Around],
) -> Result<(), NoMemory>
    ensures { OnOk result (string_bytes out.new ≡ string_bytes out.old ++ spec.groups_text tree.now.boxes groups.now) }
{
    match groups {
        [] => out.push_str("in no group"),
        [g, gs @ ..] => push_some_groups(out, tree, g, gs),
    }
}

/// The line of a leaf, where a leaf above it was found that takes the hit or not.
#[tactic(auto, using(crate::proofs::Joining::joining))]
fn push_leaf<B: Ledger>(
    out: &mut String,
    tree: &Tree<B>,
    found: bool,
    t: &Traced,
) -> Result<(), NoMemory>
    ensures { OnOk result (string_bytes out.new ≡ string_bytes out.old ++ spec.leaf_line tree.now.boxes found t.now) }
{
    let id = id_text(tree, t.leaf.owner);
    let part = part_text(t.leaf.part);
    let hit = hit_text(found, takes_hit(t));
    write!(out, "{id} {part}: ")?;
    push_way(out, tree, &t.way)?;
    out.push_str("; ")?;
    push_groups(out, tree, &t.groups)?;
    write!(out, "; {hit}\n")
}

#[tactic(auto, using(crate::proofs::Joining::joining))]
fn push_steps<B: Ledger>(
    out: &mut String,
    tree: &Tree<B>,
    u: &Placing,
    l: &Placing,
) -> Result<(), NoMemory>
    ensures { OnOk result (string_bytes out.new ≡ string_bytes out.old ++ spec.steps_text tree.now.boxes u.now l.now) }
{
    let context = id_text(tree, u.context);
    let (upper, lower) = (u.step.number(), l.step.number());
    let (upper_id, lower_id) = (id_text(tree, u.of), id_text(tree, l.of));
    write!(
        out,
        "{context} paints step {upper} ({upper_id}) after step {lower} ({lower_id})"
    )
}

#[tactic(auto, using(crate::proofs::Joining::joining))]
fn push_levels<B: Ledger>(
    out: &mut String,
    tree: &Tree<B>,
    u: &Placing,
    l: &Placing,
) -> Result<(), NoMemory>
    ensures { OnOk result (string_bytes out.new ≡ string_bytes out.old ++ spec.levels_text tree.now.boxes u.now l.now) }
{
    let context = id_text(tree, u.context);
    let (upper, lower) = (u.level, l.level);
    let (upper_id, lower_id) = (id_text(tree, u.of), id_text(tree, l.of));
    write!(
        out,
        "{context} paints level {upper} ({upper_id}) after level {lower} ({lower_id})"
    )
}

#[tactic(auto, using(crate::proofs::Joining::joining))]
fn push_boxes<B: Ledger>(
    out: &mut String,
    tree: &Tree<B>,
    u: &Placing,
    l: &Placing,
) -> Result<(), NoMemory>
    ensures { OnOk result (string_bytes out.new ≡ string_bytes out.old ++ spec.boxes_text tree.now.boxes u.now l.now) }
{
    let context = id_text(tree, u.context);
    let (upper_id, lower_id) = (id_text(tree, u.line), id_text(tree, l.line));
    let number = u.step.number();
    write!(
        out,
        "{context} paints {upper_id} after {lower_id} in step {number}, by tree order"
    )
}

#[tactic(auto, using(crate::proofs::Joining::joining))]
fn push_inlines<B: Ledger>(
    out: &mut String,
    tree: &Tree<B>,
    u: &Placing,
    l: &Placing,
) -> Result<(), NoMemory>
    ensures { OnOk result (string_bytes out.new ≡ string_bytes out.old ++ spec.inlines_text tree.now.boxes u.now l.now) }
{
    let context = id_text(tree, u.context);
    let (upper_id, lower_id) = (id_text(tree, u.of), id_text(tree, l.of));
    let line = id_text(tree, u.line);
    write!(
        out,
        "{context} paints {upper_id} after {lower_id} in the line of {line}, by tree order"
    )
}

/// Why a leaf is above the next.
#[tactic(auto, using(crate::proofs::Joining::joining))]
fn push_reason<B: Ledger>(out: &mut String, tree: &Tree<B>, reason: &Reason) -> Result<(), NoMemory>
    ensures { OnOk result (string_bytes out.new ≡ string_bytes out.old ++ spec.reason_text tree.now.boxes reason.now) }
{
    match reason {
        Reason::Steps { upper, lower } => push_steps(out, tree, upper, lower),
        Reason::Levels { upper, lower } => push_levels(out, tree, upper, lower),
        Reason::Boxes { upper, lower } => push_boxes(out, tree, upper, lower),
        Reason::Inlines { upper, lower } => push_inlines(out, tree, upper, lower),
        Reason::Parts => {
            out.push_str("a box paints its background, then its border, then its content")
        }
    }
}

/// The line between a leaf and those below it.
#[tactic(auto, using(crate::proofs::Joining::joining))]
fn push_between<B: Ledger>(
    alloc: Global,
    out: &mut String,
    tree: &Tree<B>,
    t: &Traced,
    ts: &[Traced],
) -> Result<(), NoMemory>
    ensures { OnOk result (string_bytes out.new ≡ string_bytes out.old ++ spec.between tree.now.boxes t.now ts.now) }
{
    match ts {
        [] => Ok(()),
        [u, ..] => {
            let reason = reason_of(alloc, t, u)?;
            out.push_str("  above the next: ")?;
            push_reason(out, tree, &reason)?;
            out.push_str("\n")
        }
    }
}

/// The lines of leaves, the topmost first.
fn push_leaves<B: Ledger>(
    alloc: Global,
    out: &mut String,
    tree: &Tree<B>,
    ts: &[Traced],
) -> Result<(), NoMemory>
    ensures { OnOk result (string_bytes out.new ≡ string_bytes out.old ++ spec.leaf_lines tree.now.boxes false ts.now) }
{
    let mut found = false;
    for (i, t) in ts.iter().enumerate() {
        push_leaf(out, tree, found, t)?;
        push_between(alloc, out, tree, t, &ts[i + 1..])?;
        found = found_by(found, t);
    }
    Ok(())
}

/// The id of a box, where there is one.
fn id_or_none<B: Ledger>(tree: &Tree<B>, key: Option<BoxKey>) -> &str
    ensures { result.now ≡ spec.id_or_none tree.now.boxes key }
{
    match key {
        Some(key) => id_text(tree, key),
        None => "none",
    }
}

/// Puts the whole answer at the end of a text, the topmost leaf first.
#[tactic(auto, using(crate::proofs::Joining::joining))]
pub(crate) fn push_why_lines<B: Ledger>(
    alloc: Global,
    out: &mut String,
    tree: &Tree<B>,
    x: i32,
    y: i32,
    ts: &[Traced],
) -> Result<(), NoMemory>
    ensures { OnOk result (string_bytes out.new ≡ string_bytes out.old ++ spec.why_lines tree.now.boxes x y ts.now) }
{
    let hit = id_or_none(tree, hit_of(ts));
    write!(out, "pixel {x} {y}: hit {hit}\n")?;
    push_leaves(alloc, out, tree, ts)
}
