//! Edits as a script writes them.

ghost use Rattle.std.specs.Prelude.{◌≡◌, ℕ, pos, ◌-ℤ◌, codes, option_map, IfOk, IsTrue};
ghost use Rattle.serde_json.specs.View.{view, members_view};
ghost use Rattle.rd_style.specs.Changes.{plain, changed};
ghost use Rattle.rd_style.specs.Limits.{is_between, Fits};
ghost use Rattle.rd_edits.specs.declared.edit.Edit.TheVariants as edit;
ghost use Rattle.rd_scene.specs.Boxes as boxes;
ghost use Rattle.rd_scene.specs.Checked.{good, ◌⊛◌};
ghost use Rattle.rd_scene.specs.Edits as spec;
ghost use Rattle.rd_scene.specs.Edits.{FitsEdit};
ghost use Rattle.rd_scene.specs.Versions.{number_of, HasEdit, HasChange};
ghost use Rattle.rd_scene.specs.Internal.Gives.{Gives};
ghost use Rattle.rd_scene.specs.Figures.{max_distance};

use crate::boxes::{id_at, id_of};
use crate::fault::{Refusal, Why};
use crate::members::{known, member, needed, number};
use crate::rects::rect_at;
use crate::script::MAX_DISTANCE;
use crate::styles::{change_of, style_at};
use crate::version::Version;
use rd_edits::Edit;
use rd_style::StyleChange;
use rd_tree::Id;
use serde_json::{Map, Value};
use std::alloc::Global;

/// `null` for none, or an id.
fn id_or_null(alloc: Global, v: &Value) -> Result<Option<Id>, Refusal>
    ensures { Gives (λ i. i) result (spec.id_or_null (view v.now)).first }
{
    if v.is_null() {
        return Ok(None);
    }
    let id = id_of(alloc, v)?;
    Ok(Some(id))
}

/// The box to stand before; none where the member is absent.
fn before_of(alloc: Global, v: Option<&Value>) -> Result<Option<Id>, Refusal>
    ensures { Gives (λ i. i) result (spec.before_of (option_map (λ v. view v.now) v.entry)).first }
{
    match v {
        Some(before) => id_or_null(alloc, before),
        None => Ok(None),
    }
}

/// The box to stand before, at its member.
fn before_at(alloc: Global, v: &Value) -> Result<Option<Id>, Refusal>
    ensures { Gives (λ i. i) result (spec.before_at (view v.now)).first }
{
    before_of(alloc, member(v, "before"))
}

/// A box and where it is to stand.
#[derive(Drop)]
struct Standing {
    id: Id,
    parent: Id,
    before: Option<Id>,
}

/// An id, a parent and perhaps a box to stand before.
fn standing_of(alloc: Global, v: &Value) -> Result<Standing, Refusal>
    ensures insert { Gives (λ s rect style. edit.Insert s.id s.parent s.before rect style) result
        (good edit.Insert ⊛ boxes.id_at (codes "id") (view v.now) ⊛ boxes.id_at (codes "parent") (view v.now)
        ⊛ spec.before_at (view v.now)).first }
    ensures moves { Gives (λ s. edit.Move s.id s.parent s.before) result
        (good edit.Move ⊛ boxes.id_at (codes "id") (view v.now) ⊛ boxes.id_at (codes "parent") (view v.now)
        ⊛ spec.before_at (view v.now)).first }
{
    let id = id_at(alloc, v, "id")?;
    let parent = id_at(alloc, v, "parent")?;
    let before = before_at(alloc, v)?;
    Ok(Standing { id, parent, before })
}

/// A new box: an id, a parent, perhaps a box to stand before, a rectangle and perhaps a style.
#[tactic(auto, unfolding(crate::specs::Edits::insert_of))]
fn insert_of(
    alloc: Global,
    version: Version,
    members: &Map<String, Value>,
    v: &Value,
) -> Result<Edit, Refusal>
    ensures value { Gives (λ e. e) result
        (spec.insert_of version (members_view members.now.entries) (view v.now)).first }
    ensures fits { IfOk result (λ e. FitsEdit e) }
    ensures had { IfOk result (λ e. HasEdit (number_of version) e) }
{
    known(members, &["do", "id", "parent", "before", "rect", "style"])?;
    let standing = standing_of(alloc, v)?;
    let rect = rect_at(v)?;
    let style = style_at(version, v)?;
    Ok(Edit::Insert {
        id: standing.id,
        parent: standing.parent,
        before: standing.before,
        rect,
        style,
    })
}

/// A removal: an id.
#[tactic(auto, unfolding(crate::specs::Edits::remove_of))]
fn remove_of(alloc: Global, members: &Map<String, Value>, v: &Value) -> Result<Edit, Refusal>
    ensures value { Gives (λ e. e) result (spec.remove_of (members_view members.now.entries) (view v.now)).first }
    ensures fits { IfOk result (λ e. FitsEdit e) }
    ensures had { (version : ℕ) → IfOk result (λ e. HasEdit version e) }
{
    known(members, &["do", "id"])?;
    let id = id_at(alloc, v, "id")?;
    Ok(Edit::Remove { id })
}

/// A move: an id, a parent and perhaps a box to stand before.
#[tactic(auto, unfolding(crate::specs::Edits::move_of))]
fn move_of(alloc: Global, members: &Map<String, Value>, v: &Value) -> Result<Edit, Refusal>
    ensures value { Gives (λ e. e) result (spec.move_of (members_view members.now.entries) (view v.now)).first }
    ensures fits { IfOk result (λ e. FitsEdit e) }
    ensures had { (version : ℕ) → IfOk result (λ e. HasEdit version e) }
{
    known(members, &["do", "id", "parent", "before"])?;
    let standing = standing_of(alloc, v)?;
    Ok(Edit::Move {
        id: standing.id,
        parent: standing.parent,
        before: standing.before,
    })
}

fn change_at(version: Version, v: &Value) -> Result<StyleChange, Why>
    ensures value { result ≡ (spec.change_at version (view v.now)).first }
    ensures fits { IfOk result (λ c. Fits (changed plain c)) }
    ensures had { IfOk result (λ c. HasChange (number_of version) c) }
{
    let style = needed(v, "style")?;
    change_of(version, style)
}

/// A change of style: an id and the members of the style that are named.
#[tactic(auto, unfolding(crate::specs::Edits::set_style_of))]
fn set_style_of(
    alloc: Global,
    version: Version,
    members: &Map<String, Value>,
    v: &Value,
) -> Result<Edit, Refusal>
    ensures value { Gives (λ e. e) result
        (spec.set_style_of version (members_view members.now.entries) (view v.now)).first }
    ensures fits { IfOk result (λ e. FitsEdit e) }
    ensures had { IfOk result (λ e. HasEdit (number_of version) e) }
{
    known(members, &["do", "id", "style"])?;
    let id = id_at(alloc, v, "id")?;
    let change = change_at(version, v)?;
    Ok(Edit::SetStyle { id, change })
}

/// Another rectangle: an id and the rectangle.
#[tactic(auto, unfolding(crate::specs::Edits::set_rect_of))]
fn set_rect_of(alloc: Global, members: &Map<String, Value>, v: &Value) -> Result<Edit, Refusal>
    ensures value { Gives (λ e. e) result (spec.set_rect_of (members_view members.now.entries) (view v.now)).first }
    ensures fits { IfOk result (λ e. FitsEdit e) }
    ensures had { (version : ℕ) → IfOk result (λ e. HasEdit version e) }
{
    known(members, &["do", "id", "rect"])?;
    let id = id_at(alloc, v, "id")?;
    let rect = rect_at(v)?;
    Ok(Edit::SetRect { id, rect })
}

#[tactic(auto, unfolding(crate::specs::Edits::distance_at))]
fn distance_at(v: &Value, name: &str) -> Result<i32, Why>
    ensures value { result ≡ (spec.distance_at name.now (view v.now)).first }
    ensures range { IfOk result (λ z. IsTrue (is_between (pos 0 -ℤ max_distance) z max_distance)) }
{
    let distance = needed(v, name)?;
    number(-MAX_DISTANCE, MAX_DISTANCE, distance)
}

/// A shift: an id and two distances, right and down.
#[tactic(auto, unfolding(crate::specs::Edits::shift_of))]
fn shift_of(alloc: Global, members: &Map<String, Value>, v: &Value) -> Result<Edit, Refusal>
    ensures value { Gives (λ e. e) result (spec.shift_of (members_view members.now.entries) (view v.now)).first }
    ensures fits { IfOk result (λ e. FitsEdit e) }
    ensures had { (version : ℕ) → IfOk result (λ e. HasEdit version e) }
{
    known(members, &["do", "id", "dx", "dy"])?;
    let id = id_at(alloc, v, "id")?;
    let dx = distance_at(v, "dx")?;
    let dy = distance_at(v, "dy")?;
    Ok(Edit::Shift { id, dx, dy })
}

/// A scroll offset: an id and two distances, right and down. Version 1 has no such command.
#[tactic(auto, unfolding(crate::specs::Edits::scroll_of))]
fn scroll_of(
    alloc: Global,
    version: Version,
    members: &Map<String, Value>,
    v: &Value,
) -> Result<Edit, Refusal>
    ensures value { Gives (λ e. e) result
        (spec.scroll_of version (members_view members.now.entries) (view v.now)).first }
    ensures fits { IfOk result (λ e. FitsEdit e) }
    ensures had { IfOk result (λ e. HasEdit (number_of version) e) }
{
    match version {
        Version::One => Err(Refusal::Rule(Why::Command)),
        Version::Two => {
            known(members, &["do", "id", "x", "y"])?;
            let id = id_at(alloc, v, "id")?;
            let x = distance_at(v, "x")?;
            let y = distance_at(v, "y")?;
            Ok(Edit::Scroll { id, x, y })
        }
    }
}

/// The edit that a word names, with its members.
#[tactic(auto, unfolding(crate::specs::Edits::edit_named))]
pub(crate) fn edit_named(
    alloc: Global,
    version: Version,
    word: &str,
    members: &Map<String, Value>,
    v: &Value,
) -> Result<Edit, Refusal>
    ensures value { Gives (λ e. e) result
        (spec.edit_named version word.now (members_view members.now.entries) (view v.now)).first }
    ensures fits { IfOk result (λ e. FitsEdit e) }
    ensures had { IfOk result (λ e. HasEdit (number_of version) e) }
{
    match word {
        "insert" => insert_of(alloc, version, members, v),
        "remove" => remove_of(alloc, members, v),
        "move" => move_of(alloc, members, v),
        "style" => set_style_of(alloc, version, members, v),
        "rect" => set_rect_of(alloc, members, v),
        "shift" => shift_of(alloc, members, v),
        "scroll" => scroll_of(alloc, version, members, v),
        _ => Err(Refusal::Rule(Why::Command)),
    }
}
