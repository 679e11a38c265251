//! The list of the last paint.

ghost use Rattle.std.specs.Prelude.{◌≡◌, ◌++◌, ◌∷◌, ◌<◌, [], OnOk, OnErr, IfOk, IfSome, None, length};
ghost use Rattle.rd_list.specs.KeptView.{kept_entries};
ghost use Rattle.rd_c.specs.Handles.{IsSound};
ghost use Rattle.rd_c.specs.Held.{Holds};
ghost use Rattle.rd_c.specs.Listed as told;
ghost use Rattle.rd_c.specs.Listed.{listed};
ghost use Rattle.rd_c.specs.Memory.{IsWritten};
ghost use Rattle.rd_c.specs.Numbers.{number_of};
ghost use Rattle.rd_c.specs.Reading.{IsAnswer, room_answer, status_of};

use crate::handle::RdEngine;
use crate::painter::Painter;
use crate::refusal::{Refusal, status};
use crate::values::{RdColor, RdRect};
use rd_geom::{Blend, Color, NoMemory, Rect};
use rd_item::Item;
use rd_keys::{BoxKey, Part};
use rd_list::{Entry, Kept};
use std::alloc::Global;
use std::sync::ledger::Ledger;

/// One entry of a list: a leaf, or a group. `kind` is 0 for a background, 1 for a border, 2 for content, 3 for an outline and 4
/// for a group, of which alone `opacity`, `blend` and `entries` tell: its `entries` are the next entries of its level.
#[repr(C)]
#[derive(Clone, Copy)]
pub struct RdEntry {
    pub made_at: u64,
    pub entries: u64,
    pub slot: u32,
    pub generation: u32,
    pub visible: RdRect,
    pub outer: RdRect,
    pub inner: RdRect,
    pub color: RdColor,
    pub kind: u8,
    pub hits: u8,
    pub opacity: u8,
    pub blend: u8,
}

pub(crate) fn told_rect(r: Rect) -> RdRect
    ensures { result ≡ told.told_rect r }
{
    RdRect {
        x: r.x(),
        y: r.y(),
        w: r.w(),
        h: r.h(),
    }
}

pub(crate) fn told_color(c: Color) -> RdColor
    ensures { result ≡ told.told_color c }
{
    RdColor {
        r: c.r,
        g: c.g,
        b: c.b,
        a: c.a,
    }
}

fn number_of_part(part: Part) -> u8
    ensures { result ≡ told.number_of_part part }
{
    match part {
        Part::Back => 0,
        Part::Border => 1,
        Part::Content => 2,
        Part::Outline => 3,
    }
}

fn number_of_mode(blend: Blend) -> u8
    ensures { result ≡ told.number_of_mode blend }
{
    match blend {
        Blend::Normal => 0,
        Blend::Multiply => 1,
        Blend::Screen => 2,
        Blend::Darken => 3,
        Blend::Lighten => 4,
    }
}

fn number_of_flag(flag: bool) -> u8
    ensures { result ≡ told.number_of_flag flag }
{
    if flag { 1 } else { 0 }
}

fn told_leaf<A: Ledger>(item: &Item<A>) -> RdEntry
    ensures { result ≡ told.told_leaf item.now }
{
    let shape = item.shape();
    let owner = item.owner();
    RdEntry {
        made_at: item.made_at(),
        entries: 0,
        slot: owner.slot(),
        generation: owner.generation(),
        visible: told_rect(item.visible()),
        outer: told_rect(shape.outer),
        inner: told_rect(shape.inner),
        color: told_color(item.color()),
        kind: number_of_part(item.part()),
        hits: number_of_flag(item.hits()),
        opacity: 255,
        blend: 0,
    }
}

const NO_RECT: RdRect = RdRect {
    x: 0,
    y: 0,
    w: 0,
    h: 0,
};

const NO_COLOR: RdColor = RdColor {
    r: 0,
    g: 0,
    b: 0,
    a: 0,
};

fn told_group(key: BoxKey, opacity: u8, blend: Blend, entries: usize) -> RdEntry
    ensures { result ≡ told.told_group (record { key = key; opacity = opacity; blend = blend }) entries }
{
    RdEntry {
        made_at: 0,
        entries: entries as u64,
        slot: key.slot(),
        generation: key.generation(),
        visible: NO_RECT,
        outer: NO_RECT,
        inner: NO_RECT,
        color: NO_COLOR,
        kind: 4,
        hits: 0,
        opacity,
        blend: number_of_mode(blend),
    }
}

/// How many entries a level has.
#[tactic(auto, using(crate::proofs::Telling::telling))]
fn count<A: Ledger>(list: &Kept<A>) -> usize
    ensures { result ≡ told.count_of list.now.entries }
{
    list.entries().len()
}

/// Each entry of a level in order.
#[cycle(listing)]
fn push_level<A: Ledger>(out: &mut Vec<RdEntry>, list: &Kept<A>) -> Result<(), NoMemory>
    ensures { OnOk result (out.new.items ≡ out.old.items ++ listed list.now.entries) }
{
    push_entries(out, list.entries())
}

#[cycle(listing)]
fn push_entries<A: Ledger>(out: &mut Vec<RdEntry>, entries: &[Entry<A>]) -> Result<(), NoMemory>
    ensures { OnOk result (out.new.items ≡ out.old.items ++ listed (kept_entries entries.now)) }
{
    for entry in entries {
        push_entry(out, entry)?;
    }
    Ok(())
}

#[cycle(listing)]
#[tactic(auto, using(crate::proofs::Telling::telling))]
fn push_entry<A: Ledger>(out: &mut Vec<RdEntry>, entry: &Entry<A>) -> Result<(), NoMemory>
    ensures { OnOk result (out.new.items ≡ out.old.items ++ listed (kept_entries (entry.now ∷ []))) }
{
    match entry {
        Entry::Leaf(item) => {
            out.push(told_leaf(item))?;
            Ok(())
        }
        Entry::Group(group) => {
            let entries = count(&group.inner);
            out.push(told_group(group.key, group.opacity, group.blend, entries))?;
            push_level(out, &group.inner)
        }
    }
}

impl Painter {
    /// The entries of the list, each group right before its own.
    fn entries(&self, alloc: Global) -> Result<Vec<RdEntry>, NoMemory>
        ensures { IfOk result (λ v. v.items ≡ listed self.now.engine.kept.entries) }
    {
        let mut out = Vec::new(alloc);
        push_level(&mut out, self.engine.view().list())?;
        Ok(out)
    }

    /// Writes the entries as far as there is room for all, and in any case how many there are.
    #[tactic(auto, using(crate::proofs::Answering::lists))]
    fn list(&self, alloc: Global, out: &mut [RdEntry], count: &mut usize) -> Result<(), Refusal>
        ensures list { OnOk result (IsWritten (listed self.now.engine.kept.entries) out.old out.new count.new) }
        ensures kept { OnErr result (out.new ≡ out.old) }
        ensures answer { IsAnswer (room_answer (length (listed self.now.engine.kept.entries)) (length out.old)) (status_of result) }
        ensures count { status_of result ≡ number_of Refusal.Short → count.new ≡ length (listed self.now.engine.kept.entries) }
    {
        let Ok(entries) = self.entries(alloc) else {
            return Err(Refusal::NoMemory);
        };
        *count = entries.len();
        if out.len() < entries.len() {
            return Err(Refusal::Short);
        }
        out[..entries.len()].copy_from_slice(&entries);
        Ok(())
    }
}

/// The list of the last paint: its entries in order, each group right before its own. `count` is how many there are, also where
/// there is no room for them.
#[unsafe(no_mangle)]
pub extern "C" fn rd_c_list(
    handle: &mut RdEngine,
    alloc: Global,
    out: &mut [RdEntry],
    count: &mut usize,
) -> u32
    requires { IsSound handle.old.held.value handle.old.full }
    ensures sound { IsSound handle.new.held.value handle.new.full }
    ensures same { handle.new.held.value ≡ handle.old.held.value }
    ensures list { result ≡ 0 → Holds (λ p. IsWritten (listed p.engine.kept.entries) out.old out.new count.new) handle.old.held.value }
    ensures kept { 0 < result → out.new ≡ out.old }
    ensures answer { IfSome handle.old.held.value (λ p. IsAnswer (room_answer (length (listed p.engine.kept.entries)) (length out.old)) result) }
    ensures count { result ≡ number_of Refusal.Short → Holds (λ p. count.new ≡ length (listed p.engine.kept.entries)) handle.old.held.value }
    ensures none { handle.old.held.value ≡ None → result ≡ number_of Refusal.NoEngine }
{
    let Some(painter) = handle.take(alloc) else {
        return Refusal::NoEngine.number();
    };
    let done = painter.list(alloc, out, count);
    handle.put(painter);
    status(done)
}
