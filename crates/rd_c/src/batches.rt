//! Edits, many in one call.

ghost use Rattle.std.specs.Prelude.{◌≡◌, ◌<◌, IfOk, None, Some, drop, length, take};
ghost use Rattle.rd_c.specs.Batched as spelled;
ghost use Rattle.rd_c.specs.Asked.{AreDone, DoneBy, IsFirstRefused, RefusedBy};
ghost use Rattle.rd_c.specs.Batched.{Spells};
ghost use Rattle.rd_c.specs.Handles.{IsHeld, IsSound};
ghost use Rattle.rd_c.specs.Held.{OnHeld, Holds};
ghost use Rattle.rd_c.specs.Numbers.{number_of};

use crate::edits::{insertion, moving, placing, removal, scrolling, shifting, styling};
use crate::handle::RdEngine;
use crate::painter::Painter;
use crate::refusal::Refusal;
use crate::values::{RdRect, RdStyle};
use itoa::Buffer;
use rd_edits::Edit;
use std::alloc::Global;

/// The id of a box: none, where `kind` is 0; bytes of a text, from `from` up to but not including `to`, where it is 1; the decimal
/// digits of `number`, where it is 2.
#[repr(C)]
#[derive(Clone, Copy)]
pub struct RdName {
    pub number: u64,
    pub from: u32,
    pub to: u32,
    pub kind: u32,
}

/// An edit. `kind` is 0 for an insertion, 1 for a removal, 2 for a move, 3 for a style, 4 for a rectangle, 5 for a shift by
/// `dx` and `dy`, and 6 for the scroll offset `dx` and `dy`; what an edit of that kind has no use for is not read, but its
/// names are.
#[repr(C)]
#[derive(Clone, Copy)]
pub struct RdEdit {
    pub id: RdName,
    pub parent: RdName,
    pub before: RdName,
    pub place: RdRect,
    pub look: RdStyle,
    pub names: u32,
    pub dx: i32,
    pub dy: i32,
    pub kind: u32,
}

/// Bytes of a text.
pub(crate) fn part(text: &[u8], from: u32, to: u32) -> Result<&[u8], Refusal>
    ensures { IfOk result (λ t. spelled.part_of text.now from to ≡ Some t.now) }
{
    let (from, to) = (from as usize, to as usize);
    if from > to || to > text.len() {
        return Err(Refusal::Value);
    }
    Ok(&text[from..to])
}

/// The text of an id, with room for that of a number.
fn text_of<'a>(texts: &'a [u8], name: &RdName, digits: &'a mut Buffer) -> Result<&'a [u8], Refusal>
    ensures { IfOk result (λ t. spelled.text_of texts.now name.now ≡ Some t.now) }
{
    match name.kind {
        0 => Ok(b""),
        1 => part(texts, name.from, name.to),
        2 => Ok(digits.format(name.number).as_bytes()),
        _ => Err(Refusal::Value),
    }
}

/// The edit that the numbers and the text spell.
fn edit_of(alloc: Global, texts: &[u8], numbers: &RdEdit) -> Result<Edit, Refusal>
    ensures { IfOk result (Spells texts.now numbers.now) }
{
    let (mut first, mut second, mut third) = (Buffer::new(), Buffer::new(), Buffer::new());
    let id = text_of(texts, &numbers.id, &mut first)?;
    let parent = text_of(texts, &numbers.parent, &mut second)?;
    let before = text_of(texts, &numbers.before, &mut third)?;
    match numbers.kind {
        0 => insertion(alloc, id, parent, before, &numbers.place, &numbers.look),
        1 => removal(alloc, id),
        2 => moving(alloc, id, parent, before),
        3 => styling(alloc, id, &numbers.look, numbers.names),
        4 => placing(alloc, id, &numbers.place),
        5 => shifting(alloc, id, numbers.dx, numbers.dy),
        6 => scrolling(alloc, id, numbers.dx, numbers.dy),
        _ => Err(Refusal::Value),
    }
}

impl Painter {
    /// Does one of them, and answers 0 or the number of why not.
    #[tactic(auto, using(crate::proofs::Asking::spelled))]
    fn edit_spelled(&mut self, alloc: Global, texts: &[u8], numbers: &RdEdit) -> u32
        ensures done { result ≡ 0 → DoneBy (Spells texts.now numbers.now) self.old self.new }
        ensures kept { 0 < result → self.new ≡ self.old }
        ensures refused { 0 < result → result < 9 → RefusedBy (Spells texts.now numbers.now) result self.old }
    {
        match edit_of(alloc, texts, numbers) {
            Ok(edit) => self.edit(alloc, &edit),
            Err(refusal) => refusal.number(),
        }
    }

    /// Does them in order, up to the first that is refused.
    fn edit_all(&mut self, alloc: Global, texts: &[u8], edits: &[RdEdit], done: &mut usize) -> u32
        ensures order { AreDone (Spells texts.now) (take done.new edits.now) self.old self.new }
        ensures all { result ≡ 0 → done.new ≡ length edits.now }
        ensures stopped { 0 < result → done.new < length edits.now }
        ensures refused { 0 < result → result < 9 → IsFirstRefused (Spells texts.now) (drop done.new edits.now) result self.new }
    {
        for (i, numbers) in edits.iter().enumerate() {
            let number = self.edit_spelled(alloc, texts, numbers);
            if number != 0 {
                *done = i;
                return number;
            }
        }
        *done = edits.len();
        0
    }
}

/// Does edits in order, up to the first that is refused, whose number it answers. `done` is how many were done, and so the place
/// of that one.
#[unsafe(no_mangle)]
pub extern "C" fn rd_c_edits(
    handle: &mut RdEngine,
    alloc: Global,
    texts: &[u8],
    edits: &[RdEdit],
    done: &mut usize,
) -> u32
    requires { IsSound handle.old.held.value handle.old.full }
    ensures sound { IsSound handle.new.held.value handle.new.full }
    ensures order { IsHeld handle.old.held.value → OnHeld (AreDone (Spells texts.now) (take done.new edits.now)) handle.old.held.value handle.new.held.value }
    ensures all { result ≡ 0 → done.new ≡ length edits.now }
    ensures stopped { 0 < result → IsHeld handle.old.held.value → done.new < length edits.now }
    ensures refused { 0 < result → result < 9 → Holds (IsFirstRefused (Spells texts.now) (drop done.new edits.now) result) handle.new.held.value }
    ensures none { handle.old.held.value ≡ None → result ≡ number_of Refusal.NoEngine }
{
    let Some(mut painter) = handle.take(alloc) else {
        *done = 0;
        return Refusal::NoEngine.number();
    };
    let number = painter.edit_all(alloc, texts, edits, done);
    handle.put(painter);
    number
}
