//! Boxes as a script writes them.

ghost use Rattle.std.specs.Prelude.{◌≡◌, ◌≤◌, ℕ, List, [], ◌∷◌, length, All, IfOk, IfErr, OnOk, Some, None, true, vec_len, bytes_eq, if◌then◌else◌, ◌==◌, Ok};
ghost use Rattle.std.specs.Result.{result_map_both};
ghost use Rattle.serde_json.specs.View.{view, items_view};
ghost use Rattle.rd_style.specs.Limits.{Fits};
ghost use Rattle.rd_scene.specs.declared.fault.Refusal.TheVariants as refusal;
ghost use Rattle.rd_scene.specs.declared.fault.Place.TheVariants as place;
ghost use Rattle.rd_scene.specs.Boxes as spec;
ghost use Rattle.rd_scene.specs.Places.{at};
ghost use Rattle.rd_scene.specs.Order.{are_in_order};
ghost use Rattle.rd_scene.specs.Internal.Gives.{Gives, GivesAt};
ghost use Rattle.rd_scene.specs.Internal.Steps.{told, IsNoted, box_named, names_after};
ghost use Rattle.rd_scene.specs.Scripts.{FitsBox};
ghost use Rattle.rd_scene.specs.Versions.{number_of, HasBox};
ghost use Rattle.rd_tree.specs.Figures.{max_boxes};

use crate::fault::{Place, Refusal, SceneFault, Why};
use crate::members::{known, members, needed, string};
use crate::rects::rect_at;
use crate::script::SceneBox;
use crate::styles::style_at;
use crate::version::Version;
use indexmap::IndexMap;
use rd_tree::{Id, IdFault, MAX_DEPTH};
use serde_json::Value;
use std::alloc::Global;

/// The id with this text; where it is none, this rule is broken.
fn made_id(alloc: Global, text: &str, why: Why) -> Result<Id, Refusal>
    ensures value { Gives (λ i. i) result (spec.an_id why text.now).first }
    ensures same_text { IfOk result (λ i. i ≡ text.now) }
{
    match Id::new(alloc, text) {
        Ok(id) => Ok(id),
        Err(IdFault::Form) => Err(Refusal::Rule(why)),
        Err(IdFault::NoMemory) => Err(Refusal::NoMemory),
    }
}

/// A string that is an id.
pub(crate) fn id_of(alloc: Global, v: &Value) -> Result<Id, Refusal>
    ensures { Gives (λ i. i) result (spec.id_of (view v.now)).first }
{
    let text = string(v)?;
    made_id(alloc, text, Why::Range)
}

/// The id at the member of this name.
pub(crate) fn id_at(alloc: Global, v: &Value, name: &str) -> Result<Id, Refusal>
    ensures { Gives (λ i. i) result (spec.id_at name.now (view v.now)).first }
{
    let id = needed(v, name)?;
    id_of(alloc, id)
}

/// The text at the member `id`, where it is a string.
fn id_text(v: &Value) -> Result<&str, Why>
    ensures { result_map_both (λ w. w.now) (λ w. w) result ≡ (spec.id_text (view v.now)).first }
{
    let id = needed(v, "id")?;
    string(id)
}

/// The depth that the map has of this id.
#[tactic(auto, unfolding(crate::specs::Internal::Steps::told))]
fn found(depths: &IndexMap<&str, u32>, id: &str) -> Option<u32>
    ensures { result ≡ told depths.now id.now }
{
    depths.get(id).copied()
}

/// The id of a box, which no box before has.
#[tactic(auto, unfolding(crate::specs::Boxes::new_id))]
fn new_id(alloc: Global, depths: &IndexMap<&str, u32>, text: &str) -> Result<Id, Refusal>
    ensures value { Gives (λ i. i) result (spec.new_id (told depths.now) text.now).first }
    ensures same_text { IfOk result (λ i. i ≡ text.now) }
    ensures fresh { IfOk result (λ i. told depths.now i ≡ None) }
{
    let id = made_id(alloc, text, Why::Range)?;
    if found(depths, id.text()).is_some() {
        Err(Refusal::Rule(Why::Duplicate))
    } else {
        Ok(id)
    }
}

/// `null` for none, or an id.
fn name_of(alloc: Global, v: &Value) -> Result<Option<Id>, Refusal>
    ensures { Gives (λ i. i) result (spec.name_of (view v.now)).first }
{
    if v.is_null() {
        return Ok(None);
    }
    let text = string(v)?;
    let id = made_id(alloc, text, Why::Parent)?;
    Ok(Some(id))
}

/// The name at the member `parent`.
fn parent_name(alloc: Global, v: &Value) -> Result<Option<Id>, Refusal>
    ensures { Gives (λ i. i) result (spec.parent_name (view v.now)).first }
{
    let parent = needed(v, "parent")?;
    name_of(alloc, parent)
}

/// The depth of a box with this parent, where it may stand after boxes of which `depths` has the depths.
#[tactic(auto, unfolding(crate::specs::Boxes::depth_under))]
fn depth_under(
    is_first: bool,
    depths: &IndexMap<&str, u32>,
    parent: &Option<Id>,
) -> Result<u32, Why>
    ensures { result ≡ (spec.depth_under is_first (told depths.now) parent.now).first }
{
    let Some(parent) = parent else {
        return if is_first { Ok(1) } else { Err(Why::Parent) };
    };
    let Some(above) = found(depths, parent.text()) else {
        return Err(Why::Parent);
    };
    if above < MAX_DEPTH {
        Ok(above + 1)
    } else {
        Err(Why::Depth)
    }
}

/// Notes the depth of the box with this id.
fn note<'a>(depths: &mut IndexMap<&'a str, u32>, id: &'a str, depth: u32) -> Result<(), Refusal>
    ensures noted { OnOk result ((q : List ℕ)
        → told depths.new q ≡ (if bytes_eq id.now q then Some depth else told depths.old q)) }
    ensures memory { IfErr result (λ e. e ≡ refusal.NoMemory) }
{
    depths.insert(id, depth)?;
    Ok(())
}

/// A box's id and its parent's, and how deep it stands.
#[derive(Drop)]
struct Names {
    id: Id,
    parent: Option<Id>,
    depth: u32,
}

/// The names of a box with this id, where it may stand after boxes of which `depths` has the depths.
fn names_of(
    alloc: Global,
    is_first: bool,
    depths: &IndexMap<&str, u32>,
    text: &str,
    v: &Value,
) -> Result<Names, Refusal>
    ensures value { Gives (λ n. box_named n.id n.parent) result
        (names_after is_first (told depths.now) text.now (view v.now)).first }
    ensures same_text { IfOk result (λ n. n.id ≡ text.now) }
    ensures fresh { IfOk result (λ n. told depths.now n.id ≡ None) }
    ensures stands { IfOk result (λ n. (spec.depth_under is_first (told depths.now) n.parent).first ≡ Ok n.depth) }
{
    let id = new_id(alloc, depths, text)?;
    let parent = parent_name(alloc, v)?;
    let depth = depth_under(is_first, depths, &parent)?;
    Ok(Names { id, parent, depth })
}

/// The next box, after boxes of which `depths` has the depths; it has the depth of this one too then.
#[tactic(auto, unfolding(crate::specs::Boxes::box_of))]
fn box_of<'a>(
    alloc: Global,
    version: Version,
    is_first: bool,
    depths: &mut IndexMap<&'a str, u32>,
    v: &'a Value,
) -> Result<SceneBox, Refusal>
    ensures value { Gives (λ b. b) result (spec.box_of version is_first (told depths.old) (view v.now)).first }
    ensures noted { IfOk result (λ b. IsNoted is_first b (told depths.old) (told depths.new)) }
    ensures fits { IfOk result (λ b. FitsBox b) }
    ensures had { IfOk result (λ b. HasBox (number_of version) b) }
{
    let members = members(v)?;
    known(members, &["id", "parent", "rect", "style"])?;
    let text = id_text(v)?;
    let names = names_of(alloc, is_first, depths, text, v)?;
    let rect = rect_at(v)?;
    let style = style_at(version, v)?;
    note(depths, text, names.depth)?;
    Ok(SceneBox {
        id: names.id,
        parent: names.parent,
        rect,
        style,
    })
}

/// The box of this number, after boxes of which `depths` has the depths; it has the depth of this one too then.
fn box_from<'a>(
    alloc: Global,
    version: Version,
    i: u32,
    depths: &mut IndexMap<&'a str, u32>,
    v: &'a Value,
) -> Result<SceneBox, SceneFault>
    ensures value { GivesAt (λ b. b) result
        (at (place.Box i) (spec.box_of version (i == 0) (told depths.old) (view v.now))).first }
    ensures noted { IfOk result (λ b. IsNoted (i == 0) b (told depths.old) (told depths.new)) }
    ensures fits { IfOk result (λ b. FitsBox b) }
    ensures had { IfOk result (λ b. HasBox (number_of version) b) }
{
    match box_of(alloc, version, i == 0, depths, v) {
        Ok(b) => Ok(b),
        Err(refusal) => Err(refusal.at(Place::Box(i))),
    }
}

/// The boxes of an array.
pub(crate) fn boxes_of(
    alloc: Global,
    version: Version,
    list: &[Value],
) -> Result<Vec<SceneBox>, SceneFault>
    requires { length list.now ≤ max_boxes }
    ensures value { GivesAt (λ v. v.items) result (spec.boxes_from version 0 [] (items_view list.now)).first }
    ensures len { IfOk result (λ v. length v.items ≡ length list.now) }
    ensures order { IfOk result (λ v. are_in_order [] v.items ≡ true) }
    ensures fits { IfOk result (λ v. All FitsBox v.items) }
    ensures had { IfOk result (λ v. All (HasBox (number_of version)) v.items) }
{
    let mut boxes = Vec::new(alloc);
    let mut depths = IndexMap::new(alloc);
    for (i, v) in list.iter().enumerate() {
        let b = box_from(alloc, version, i as u32, &mut depths, v)?;
        boxes.push(b)?;
    }
    Ok(boxes)
}
