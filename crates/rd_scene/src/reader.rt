//! Reads a script.

ghost use Rattle.std.specs.Prelude.{◌≡◌, ◌≤◌, true, [], length, All, IfOk, IsErrOf};
ghost use Rattle.serde_json.specs.View.{view, members_view};
ghost use Rattle.rd_geom.specs.Canvas.{IsCanvas};
ghost use Rattle.rd_tree.specs.Figures.{max_boxes};
ghost use Rattle.rd_scene.specs.Figures.{max_commands};
ghost use Rattle.rd_scene.specs.declared.fault.Place.TheVariants as place;
ghost use Rattle.rd_scene.specs.declared.fault.SceneFault.TheVariants.{Form};
ghost use Rattle.rd_scene.specs.Commands.{FitsCommand};
ghost use Rattle.rd_scene.specs.Order.{are_in_order};
ghost use Rattle.rd_scene.specs.Reading.{Reads, HasNoReading, IsOffForm, IsScriptText};
ghost use Rattle.rd_scene.specs.Scripts as spec;
ghost use Rattle.rd_scene.specs.Scripts.{IsScript, FitsBox};
ghost use Rattle.rd_scene.specs.Versions.{number_of, HasBox, HasCommand};
ghost use Rattle.rd_scene.specs.Members.{members as object_members};
ghost use Rattle.rd_scene.specs.Places.{at};
ghost use Rattle.rd_scene.specs.Internal.Gives.{GivesAt};

use crate::boxes::boxes_of;
use crate::commands::commands_of;
use crate::fault::{Place, SceneFault, Why};
use crate::members::{counted, elements_at, known, members, needed, number, take_elements};
use crate::rects::canvas_of;
use crate::script::{Command, MAX_COMMANDS, SceneBox, Script};
use crate::version::Version;
use rd_geom::Size;
use rd_tree::MAX_BOXES;
use serde_json::{Map, Value};
use std::alloc::Global;

/// The fault where a rule of the top object is broken.
fn in_top(why: Why) -> SceneFault
    ensures { result ≡ Form place.Top why }
{
    SceneFault::Form {
        place: Place::Top,
        why,
    }
}

/// The fault where a rule of the canvas is broken.
fn in_canvas(why: Why) -> SceneFault
    ensures { result ≡ Form place.Canvas why }
{
    SceneFault::Form {
        place: Place::Canvas,
        why,
    }
}

/// The members of the value, which is an object.
fn members_at(v: &Value) -> Result<&Map<String, Value>, SceneFault>
    ensures { GivesAt (λ m. members_view m.now.entries) result (at place.Top (object_members (view v.now))).first }
{
    members(v).map_err(in_top)
}

/// There are no other members than a script's.
fn known_at(members: &Map<String, Value>) -> Result<(), SceneFault>
    ensures { GivesAt (λ u. u) result (spec.known_at (members_view members.now.entries)).first }
{
    known(members, &["version", "canvas", "boxes", "script"]).map_err(in_top)
}

/// Version 1 or 2.
fn version_of(v: &Value) -> Result<Version, Why>
    ensures { result ≡ (spec.version_of (view v.now)).first }
{
    let version = needed(v, "version")?;
    let z = number(1, 2, version)?;
    Ok(if z <= 1 { Version::One } else { Version::Two })
}

fn version_at(v: &Value) -> Result<Version, SceneFault>
    ensures { GivesAt (λ v. v) result (spec.version_at (view v.now)).first }
{
    version_of(v).map_err(in_top)
}

fn canvas_at(v: &Value) -> Result<Size, SceneFault>
    ensures value { GivesAt (λ s. s) result (spec.canvas_at (view v.now)).first }
    ensures canvas { IfOk result (λ s. IsCanvas s) }
{
    let canvas = needed(v, "canvas").map_err(in_top)?;
    canvas_of(canvas).map_err(in_canvas)
}

#[tactic(auto, using(crate::proofs::Items::items))]
fn boxes_at(alloc: Global, version: Version, v: &Value) -> Result<Vec<SceneBox>, SceneFault>
    ensures value { GivesAt (λ v. v.items) result (spec.boxes_at version (view v.now)).first }
    ensures some { IfOk result (λ v. 1 ≤ length v.items) }
    ensures most { IfOk result (λ v. length v.items ≤ max_boxes) }
    ensures order { IfOk result (λ v. are_in_order [] v.items ≡ true) }
    ensures fits { IfOk result (λ v. All FitsBox v.items) }
    ensures had { IfOk result (λ v. All (HasBox (number_of version)) v.items) }
{
    let list = elements_at(v, "boxes").map_err(in_top)?;
    counted(1, MAX_BOXES as usize, list.len()).map_err(in_top)?;
    boxes_of(alloc, version, list)
}

/// The commands; the value goes as they are read.
#[tactic(auto, using(crate::proofs::Items::items))]
fn commands_at(alloc: Global, version: Version, v: Value) -> Result<Vec<Command>, SceneFault>
    ensures value { GivesAt (λ v. v.items) result (spec.commands_at version (view v)).first }
    ensures few { IfOk result (λ v. length v.items ≤ max_commands) }
    ensures fits { IfOk result (λ v. All FitsCommand v.items) }
    ensures had { IfOk result (λ v. All (HasCommand (number_of version)) v.items) }
{
    let list = take_elements(v, "script").map_err(in_top)?;
    counted(0, MAX_COMMANDS, list.len()).map_err(in_top)?;
    commands_of(alloc, version, list)
}

/// What stands in a script object of this version. The value goes as it is read.
#[tactic(auto, unfolding(crate::specs::Scripts::script_at, crate::specs::Scripts::IsOfVersion))]
fn script_at(alloc: Global, version: Version, v: Value) -> Result<Script, SceneFault>
    ensures { GivesAt (λ s. s) result (spec.script_at version (view v)).first }
{
    let canvas = canvas_at(&v)?;
    let boxes = boxes_at(alloc, version, &v)?;
    let commands = commands_at(alloc, version, v)?;
    Ok(Script {
        version: version.number(),
        canvas,
        boxes,
        commands,
    })
}

/// The script that a value is. The value goes as it is read.
#[tactic(auto, unfolding(crate::specs::Scripts::reading_of))]
fn script_of(alloc: Global, v: Value) -> Result<Script, SceneFault>
    ensures { GivesAt (λ s. s) result (spec.reading_of (view v)).first }
{
    let members = members_at(&v)?;
    known_at(members)?;
    let version = version_at(&v)?;
    script_at(alloc, version, v)
}

/// The JSON value of the bytes.
fn value_of(alloc: Global, bytes: &[u8]) -> Result<Value, SceneFault>
    ensures value { IfOk result (λ v. Reads bytes.now (view v)) }
    ensures not_json { IsErrOf result SceneFault.NotJson → HasNoReading bytes.now }
    ensures not_form { (p : Place) → (w : Why) → IsErrOf result (SceneFault.Form p w) → ⊥ }
{
    let Ok(text) = std::str::from_utf8(bytes) else {
        return Err(SceneFault::NotJson);
    };
    match Value::from_str(alloc, text) {
        Ok(v) => Ok(v),
        Err(e) => {
            if e.is_memory() {
                Err(SceneFault::NoMemory)
            } else {
                Err(SceneFault::NotJson)
            }
        }
    }
}

/// Reads a script from the bytes of a JSON text. `NotJson` where the bytes are none, and `Form` where their value breaks
/// a rule of the format, with the first rule that is broken and its place.
pub fn read(alloc: Global, bytes: &[u8]) -> Result<Script, SceneFault>
    ensures script { IfOk result (λ s. IsScriptText bytes.now s) }
    ensures rules { IfOk result (λ s. IsScript s) }
    ensures not_json { IsErrOf result SceneFault.NotJson → HasNoReading bytes.now }
    ensures form { (p : Place) → (w : Why) → IsErrOf result (SceneFault.Form p w) → IsOffForm bytes.now p w }
{
    let value = value_of(alloc, bytes)?;
    script_of(alloc, value)
}
