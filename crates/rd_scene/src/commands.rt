//! Commands as a script writes them.

ghost use Rattle.std.specs.Prelude.{◌≡◌, ℕ, pos, ◌-ℤ◌, ◌≤◌, length, All, IfOk, IsTrue, vec_len};
ghost use Rattle.std.specs.Result.{result_map_both};
ghost use Rattle.serde_json.specs.View.{view, items_view, members_view};
ghost use Rattle.rd_style.specs.Limits.{is_between};
ghost use Rattle.rd_scene.specs.Figures.{max_commands};
ghost use Rattle.rd_scene.specs.declared.script.Command.TheVariants as command;
ghost use Rattle.rd_scene.specs.Commands as spec;
ghost use Rattle.rd_scene.specs.Commands.{FitsCommand};
ghost use Rattle.rd_scene.specs.Versions.{number_of, HasCommand};
ghost use Rattle.rd_scene.specs.declared.fault.Place.TheVariants as place;
ghost use Rattle.rd_scene.specs.Places.{at};
ghost use Rattle.rd_scene.specs.Internal.Changes as changing;
ghost use Rattle.rd_scene.specs.Internal.Gives.{Gives, GivesAt};
ghost use Rattle.rd_style.specs.Figures.{max_coordinate};

use crate::edits::edit_named;
use crate::fault::{Place, Refusal, SceneFault, Why};
use crate::members::{known, members, needed, number, string};
use crate::script::Command;
use crate::version::Version;
use rd_style::MAX_COORDINATE;
use serde_json::{Map, Value};
use std::alloc::Global;

/// Paints what changed, where the value has no other member.
fn paint_of(members: &Map<String, Value>) -> Result<Command, Refusal>
    ensures value { Gives (λ c. c) result (spec.alone command.Paint (members_view members.now.entries)).first }
    ensures fits { IfOk result (λ c. FitsCommand c) }
    ensures had { (version : ℕ) → IfOk result (λ c. HasCommand version c) }
{
    known(members, &["do"])?;
    Ok(Command::Paint)
}

/// Writes out the display list, where the value has no other member.
fn dump_of(members: &Map<String, Value>) -> Result<Command, Refusal>
    ensures value { Gives (λ c. c) result (spec.alone command.Dump (members_view members.now.entries)).first }
    ensures fits { IfOk result (λ c. FitsCommand c) }
    ensures had { (version : ℕ) → IfOk result (λ c. HasCommand version c) }
{
    known(members, &["do"])?;
    Ok(Command::Dump)
}

/// Asks for the digest of the picture, where the value has no other member.
fn shot_of(members: &Map<String, Value>) -> Result<Command, Refusal>
    ensures value { Gives (λ c. c) result (spec.alone command.Shot (members_view members.now.entries)).first }
    ensures fits { IfOk result (λ c. FitsCommand c) }
    ensures had { (version : ℕ) → IfOk result (λ c. HasCommand version c) }
{
    known(members, &["do"])?;
    Ok(Command::Shot)
}

/// Takes the latest edit back, where the value has no other member. Version 1 has no such command.
#[tactic(auto, unfolding(crate::specs::Commands::undo_of))]
fn undo_of(version: Version, members: &Map<String, Value>) -> Result<Command, Refusal>
    ensures value { Gives (λ c. c) result (spec.undo_of version (members_view members.now.entries)).first }
    ensures fits { IfOk result (λ c. FitsCommand c) }
    ensures had { IfOk result (λ c. HasCommand (number_of version) c) }
{
    match version {
        Version::One => Err(Refusal::Rule(Why::Command)),
        Version::Two => {
            known(members, &["do"])?;
            Ok(Command::Undo)
        }
    }
}

#[tactic(auto, unfolding(crate::specs::Commands::pixel_at))]
fn pixel_at(v: &Value, name: &str) -> Result<i32, Why>
    ensures value { result ≡ (spec.pixel_at name.now (view v.now)).first }
    ensures range { IfOk result (λ z. IsTrue (is_between (pos 0 -ℤ max_coordinate) z max_coordinate)) }
{
    let place = needed(v, name)?;
    number(-MAX_COORDINATE, MAX_COORDINATE, place)
}

/// Which box is hit at a column and a row.
#[tactic(auto, unfolding(crate::specs::Commands::at_pixel))]
fn hit_of(members: &Map<String, Value>, v: &Value) -> Result<Command, Refusal>
    ensures value { Gives (λ c. c) result
        (spec.at_pixel command.Hit (members_view members.now.entries) (view v.now)).first }
    ensures fits { IfOk result (λ c. FitsCommand c) }
    ensures had { (version : ℕ) → IfOk result (λ c. HasCommand version c) }
{
    known(members, &["do", "x", "y"])?;
    let x = pixel_at(v, "x")?;
    let y = pixel_at(v, "y")?;
    Ok(Command::Hit { x, y })
}

/// Which colour a pixel has.
#[tactic(auto, unfolding(crate::specs::Commands::at_pixel))]
fn pixel_of(members: &Map<String, Value>, v: &Value) -> Result<Command, Refusal>
    ensures value { Gives (λ c. c) result
        (spec.at_pixel command.Pixel (members_view members.now.entries) (view v.now)).first }
    ensures fits { IfOk result (λ c. FitsCommand c) }
    ensures had { (version : ℕ) → IfOk result (λ c. HasCommand version c) }
{
    known(members, &["do", "x", "y"])?;
    let x = pixel_at(v, "x")?;
    let y = pixel_at(v, "y")?;
    Ok(Command::Pixel { x, y })
}

/// The change of the tree that a word names, with its members.
fn change_named(
    alloc: Global,
    version: Version,
    word: &str,
    members: &Map<String, Value>,
    v: &Value,
) -> Result<Command, Refusal>
    ensures value { Gives (λ c. c) result
        (changing.change_named version word.now (members_view members.now.entries) (view v.now)).first }
    ensures fits { IfOk result (λ c. FitsCommand c) }
    ensures had { IfOk result (λ c. HasCommand (number_of version) c) }
{
    let edit = edit_named(alloc, version, word, members, v)?;
    Ok(Command::Change(edit))
}

/// The command that a word names, with its members.
#[tactic(auto, unfolding(crate::specs::Commands::command_named))]
fn command_named(
    alloc: Global,
    version: Version,
    word: &str,
    members: &Map<String, Value>,
    v: &Value,
) -> Result<Command, Refusal>
    ensures value { Gives (λ c. c) result
        (spec.command_named version word.now (members_view members.now.entries) (view v.now)).first }
    ensures fits { IfOk result (λ c. FitsCommand c) }
    ensures had { IfOk result (λ c. HasCommand (number_of version) c) }
{
    match word {
        "paint" => paint_of(members),
        "hit" => hit_of(members, v),
        "pixel" => pixel_of(members, v),
        "dump" => dump_of(members),
        "shot" => shot_of(members),
        "undo" => undo_of(version, members),
        _ => change_named(alloc, version, word, members, v),
    }
}

/// The word at the member `do`.
fn word_at(v: &Value) -> Result<&str, Why>
    ensures { result_map_both (λ w. w.now) (λ w. w) result ≡ (spec.word_at (view v.now)).first }
{
    let word = needed(v, "do")?;
    string(word)
}

#[tactic(auto, unfolding(crate::specs::Commands::command_of))]
fn command_of(alloc: Global, version: Version, v: &Value) -> Result<Command, Refusal>
    ensures value { Gives (λ c. c) result (spec.command_of version (view v.now)).first }
    ensures fits { IfOk result (λ c. FitsCommand c) }
    ensures had { IfOk result (λ c. HasCommand (number_of version) c) }
{
    let members = members(v)?;
    let word = word_at(v)?;
    command_named(alloc, version, word, members, v)
}

/// The command of this number that a value is, which is gone then.
fn command_from(alloc: Global, version: Version, i: u32, v: Value) -> Result<Command, SceneFault>
    ensures value { GivesAt (λ c. c) result (at (place.Command i) (spec.command_of version (view v))).first }
    ensures fits { IfOk result (λ c. FitsCommand c) }
    ensures had { IfOk result (λ c. HasCommand (number_of version) c) }
{
    match command_of(alloc, version, &v) {
        Ok(command) => Ok(command),
        Err(refusal) => Err(refusal.at(Place::Command(i))),
    }
}

/// The commands of an array. Each value goes as it is read.
pub(crate) fn commands_of(
    alloc: Global,
    version: Version,
    list: Vec<Value>,
) -> Result<Vec<Command>, SceneFault>
    requires { vec_len list ≤ max_commands }
    ensures value { GivesAt (λ v. v.items) result (spec.commands_from version 0 (items_view list.items)).first }
    ensures len { IfOk result (λ v. vec_len v ≡ length list.items) }
    ensures fits { IfOk result (λ v. All FitsCommand v.items) }
    ensures had { IfOk result (λ v. All (HasCommand (number_of version)) v.items) }
{
    let mut commands = Vec::with_capacity(alloc, list.len())?;
    for v in list {
        let command = command_from(alloc, version, commands.len() as u32, v)?;
        commands.push(command)?;
    }
    Ok(commands)
}
