//! Wires, written as bytes.
ghost use Rattle.std.specs.Prelude.{◌≡◌, ◌<◌, ◌^◌, ◌++◌, ◌∷◌, [], OnOk, IfOk, pos, ◌≤ℤ◌};
ghost use Rattle.rd_geom.specs.Plane.{IsPlaced};
ghost use Rattle.rd_list.specs.Wrappers.{wrapper};
ghost use Rattle.rd_list.specs.KeptView.{kept_entries};
ghost use Rattle.rd_list.specs.Unordered.{unordered};
ghost use Rattle.rd_wire.specs.Fields as form;
ghost use Rattle.rd_wire.specs.Fields.{IsKey, IsColor};
ghost use Rattle.rd_wire.specs.Leaves.{name_form, place_form, look_form, leaf_form, FitsLeaf};
ghost use Rattle.rd_wire.specs.Wires.{entries_form, level, group_form, side, width, spelled, KeepsRules, NumbersFit, IsWire, FitsGroup};
ghost use Rattle.rd_wire.specs.Internal.Counts.{CountsFit};
ghost use Rattle.rd_geom.specs.Figures.{max_canvas_side};

use rd_geom::{Blend, Color, NoMemory, Rect, Size};
use rd_item::Item;
use rd_keys::{BoxKey, Part};
use rd_list::{Entry, Kept, ListView};
use std::alloc::Global;
use std::sync::ledger::Ledger;

#[tactic(auto, unfolding(crate::specs::Fields::number))]
fn push_number(out: &mut Vec<u8>, n: u32) -> Result<(), NoMemory>
    ensures { OnOk result (out.new.items ≡ out.old.items ++ form.number n) }
{
    out.extend_from_slice(&n.to_be_bytes())?;
    Ok(())
}

#[tactic(auto, unfolding(crate::specs::Fields::whole))]
fn push_whole(out: &mut Vec<u8>, n: i32) -> Result<(), NoMemory>
    ensures { OnOk result (out.new.items ≡ out.old.items ++ form.whole n) }
{
    push_number(out, n.cast_unsigned())
}

#[tactic(auto, using(crate::proofs::Spelling::spelling))]
fn push_pair(out: &mut Vec<u8>, first: i32, second: i32) -> Result<(), NoMemory>
    ensures { OnOk result (out.new.items ≡ out.old.items ++ (form.whole first ++ form.whole second)) }
{
    push_whole(out, first)?;
    push_whole(out, second)
}

#[tactic(auto, using(crate::proofs::Spelling::spelling))]
fn push_rect(out: &mut Vec<u8>, rect: Rect) -> Result<(), NoMemory>
    ensures spelled { OnOk result (out.new.items ≡ out.old.items ++ form.rectangle rect) }
    ensures placed { OnOk result (IsPlaced rect) }
{
    push_pair(out, rect.x(), rect.y())?;
    push_pair(out, rect.w(), rect.h())
}

#[tactic(auto, using(crate::proofs::Spelling::spelling))]
fn push_key(out: &mut Vec<u8>, key: BoxKey) -> Result<(), NoMemory>
    ensures spelled { OnOk result (out.new.items ≡ out.old.items ++ form.key key) }
    ensures fits { OnOk result (IsKey key) }
{
    push_number(out, key.slot)?;
    push_number(out, key.generation)
}

fn push_part(out: &mut Vec<u8>, part: Part) -> Result<(), NoMemory>
    ensures { OnOk result (out.new.items ≡ out.old.items ++ form.part part) }
{
    match part {
        Part::Back => out.push(0)?,
        Part::Border => out.push(1)?,
        Part::Content => out.push(2)?,
        Part::Outline => out.push(3)?,
    }
    Ok(())
}

fn push_flag(out: &mut Vec<u8>, flag: bool) -> Result<(), NoMemory>
    ensures { OnOk result (out.new.items ≡ out.old.items ++ form.flag flag) }
{
    if flag {
        out.push(1)?;
    } else {
        out.push(0)?;
    }
    Ok(())
}

#[tactic(auto, using(crate::proofs::Spelling::spelling))]
fn push_color(out: &mut Vec<u8>, color: Color) -> Result<(), NoMemory>
    ensures spelled { OnOk result (out.new.items ≡ out.old.items ++ form.color color) }
    ensures fits { OnOk result (IsColor color) }
{
    out.push(color.r)?;
    out.push(color.g)?;
    out.push(color.b)?;
    out.push(color.a)?;
    Ok(())
}

/// The box and the part of a leaf.
#[tactic(auto, using(crate::proofs::Spelling::spelling), unfolding(crate::specs::Leaves::name_form))]
fn push_name(out: &mut Vec<u8>, owner: BoxKey, part: Part) -> Result<(), NoMemory>
    ensures spelled { OnOk result (out.new.items ≡ out.old.items ++ name_form owner part) }
    ensures fits { OnOk result (IsKey owner) }
{
    push_key(out, owner)?;
    push_part(out, part)
}

/// Where a leaf may be seen, and its outer and inner rectangle.
#[tactic(auto, using(crate::proofs::Spelling::spelling), unfolding(crate::specs::Leaves::place_form))]
fn push_place(out: &mut Vec<u8>, visible: Rect, outer: Rect, inner: Rect) -> Result<(), NoMemory>
    ensures spelled { OnOk result (out.new.items ≡ out.old.items ++ place_form visible outer inner) }
    ensures visible { OnOk result (IsPlaced visible) }
    ensures outer { OnOk result (IsPlaced outer) }
    ensures inner { OnOk result (IsPlaced inner) }
{
    push_rect(out, visible)?;
    push_rect(out, outer)?;
    push_rect(out, inner)
}

/// The colour of a leaf, whether it takes hits, and the number of its paint.
#[tactic(auto, using(crate::proofs::Spelling::spelling), unfolding(crate::specs::Leaves::look_form))]
fn push_look(out: &mut Vec<u8>, color: Color, hits: bool, made: u64) -> Result<(), NoMemory>
    ensures spelled { OnOk result (out.new.items ≡ out.old.items ++ look_form color hits made) }
    ensures fits { OnOk result (IsColor color) }
{
    push_color(out, color)?;
    push_flag(out, hits)?;
    out.extend_from_slice(&made.to_be_bytes())?;
    Ok(())
}

/// A leaf, behind its first byte.
#[tactic(auto, using(crate::proofs::Spelling::spelling))]
fn push_leaf<A: Ledger>(out: &mut Vec<u8>, item: &Item<A>) -> Result<(), NoMemory>
    ensures spelled { OnOk result (out.new.items ≡ out.old.items ++ leaf_form item.now) }
    ensures fits { OnOk result (FitsLeaf item.now) }
{
    let shape = item.shape();
    push_name(out, item.owner(), item.part())?;
    push_place(out, item.visible(), shape.outer, shape.inner)?;
    push_look(out, item.color(), item.hits(), item.made_at())
}

fn push_mode(out: &mut Vec<u8>, blend: Blend) -> Result<(), NoMemory>
    ensures { OnOk result (out.new.items ≡ out.old.items ++ form.mode blend) }
{
    match blend {
        Blend::Normal => out.push(0)?,
        Blend::Multiply => out.push(1)?,
        Blend::Screen => out.push(2)?,
        Blend::Darken => out.push(3)?,
        Blend::Lighten => out.push(4)?,
    }
    Ok(())
}

/// The key, the opacity and the blend mode of a group, behind its first byte.
#[tactic(auto, using(crate::proofs::Spelling::spelling))]
fn push_head(out: &mut Vec<u8>, key: BoxKey, opacity: u8, blend: Blend) -> Result<(), NoMemory>
    ensures spelled { OnOk result (out.new.items ≡ out.old.items ++ group_form (wrapper key opacity blend)) }
    ensures fits { OnOk result (FitsGroup (wrapper key opacity blend)) }
{
    push_key(out, key)?;
    out.push(opacity)?;
    push_mode(out, blend)
}

/// A list, behind the number of its entries.
#[cycle(writing)]
#[tactic(auto, using(crate::proofs::Spelling::spelling))]
fn push_level<A: Ledger>(out: &mut Vec<u8>, list: &Kept<A>) -> Result<(), NoMemory>
    requires count { width (unordered list.now.entries) < 2 ^ 32 }
    requires counts { CountsFit (unordered list.now.entries) }
    ensures spelled { OnOk result (out.new.items ≡ out.old.items ++ level (unordered list.now.entries)) }
    ensures fits { OnOk result (NumbersFit (unordered list.now.entries)) }
{
    push_number(out, list.entries().len() as u32)?;
    push_entries(out, list.entries())
}

/// Each entry in order.
#[cycle(writing)]
fn push_entries<A: Ledger>(out: &mut Vec<u8>, entries: &[Entry<A>]) -> Result<(), NoMemory>
    requires { CountsFit (unordered (kept_entries entries.now)) }
    ensures spelled { OnOk result (out.new.items ≡ out.old.items ++ entries_form (unordered (kept_entries entries.now))) }
    ensures fits { OnOk result (NumbersFit (unordered (kept_entries entries.now))) }
{
    for entry in entries {
        push_entry(out, entry)?;
    }
    Ok(())
}

#[cycle(writing)]
#[tactic(auto, using(crate::proofs::Spelling::spelling))]
fn push_entry<A: Ledger>(out: &mut Vec<u8>, entry: &Entry<A>) -> Result<(), NoMemory>
    requires { CountsFit (unordered (kept_entries (entry.now ∷ []))) }
    ensures spelled { OnOk result (out.new.items ≡ out.old.items ++ entries_form (unordered (kept_entries (entry.now ∷ [])))) }
    ensures fits { OnOk result (NumbersFit (unordered (kept_entries (entry.now ∷ [])))) }
{
    match entry {
        Entry::Leaf(item) => {
            out.push(1)?;
            push_leaf(out, item)
        }
        Entry::Group(group) => {
            out.push(2)?;
            push_head(out, group.key, group.opacity, group.blend)?;
            push_level(out, &group.inner)
        }
    }
}

/// The width or the height of a canvas.
fn push_side(out: &mut Vec<u8>, n: i32) -> Result<(), NoMemory>
    requires some { pos 1 ≤ℤ n }
    requires most { n ≤ℤ max_canvas_side }
    ensures { OnOk result (out.new.items ≡ out.old.items ++ side n) }
{
    let n = n.unsigned_abs() as u16;
    out.extend_from_slice(&n.to_be_bytes())?;
    Ok(())
}

/// The one spelling of a list with its canvas, where they keep the rules of a wire, as an engine's list with its canvas does.
#[tactic(auto, using(crate::proofs::Spelling::spelling))]
pub fn encode<A: Ledger>(
    alloc: Global,
    list: ListView<'_, A>,
    size: Size,
) -> Result<Vec<u8>, NoMemory>
    requires { KeepsRules (record { size = size; list = unordered list.list.now.entries }) }
    ensures wire { IfOk result (λ bytes. IsWire (record { size = size; list = unordered list.entry.list.now.entries })) }
    ensures spelled { IfOk result (λ bytes. bytes.items ≡ spelled (record { size = size; list = unordered list.entry.list.now.entries })) }
{
    let mut out = Vec::new(alloc);
    out.extend_from_slice(b"RDL1")?;
    push_side(&mut out, size.w)?;
    push_side(&mut out, size.h)?;
    push_level(&mut out, list.list())?;
    Ok(out)
}
