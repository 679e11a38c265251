//! The canonical text of a script.

ghost use Rattle.std.specs.Prelude.{◌≡◌, ◌<◌, ◌++◌, map, codes, IfOk, OnOk, option_map, string_bytes, false};
ghost use Rattle.std.specs.Fmt.{digit_glyph};
ghost use Rattle.serde_json.specs.Data.{string, number, unsigned, array};
ghost use Rattle.serde_json.specs.Data as json_data;
ghost use Rattle.serde_json.specs.Written.{compact_text};
ghost use Rattle.serde_json.specs.View.{view, items_view, items_of, members_view};
ghost use Rattle.rd_edits.specs.declared.edit.Edit.TheVariants.{Insert, Remove, Move, SetStyle, SetRect, Shift, Scroll};
ghost use Rattle.rd_scene.specs.Reading.{Reads, IsScriptText};
ghost use Rattle.rd_scene.specs.Writing as spec;

use crate::differing::differing;
use crate::script::{Command, SceneBox, Script};
use crate::types;
use crate::words::Word;
use rd_edits::Edit;
use rd_geom::{Color, NoMemory, Rect, Sides, Size};
use rd_style::{Style, StyleChange};
use rd_tree::Id;
use serde_json::{Map, Value, json, put};
use std::alloc::{AllocError, Global};

fn digit(n: u8) -> u8
    requires { n < 16 }
    ensures value { result ≡ digit_glyph false n }
    ensures ascii { result < 128 }
{
    if n < 10 { b'0' + n } else { b'a' - 10 + n }
}

fn push_hex(out: &mut String, n: u8) -> Result<(), AllocError>
    ensures { OnOk result (string_bytes out.new ≡ string_bytes out.old ++ spec.hex n) }
{
    out.push(digit(n / 16) as char)?;
    out.push(digit(n % 16) as char)
}

#[tactic(auto, unfolding(crate::specs::Writing::color_text))]
fn color_text(alloc: Global, c: Color) -> Result<String, AllocError>
    ensures { IfOk result (λ s. string_bytes s ≡ spec.color_text c) }
{
    let mut text = String::from_str(alloc, "#")?;
    push_hex(&mut text, c.r)?;
    push_hex(&mut text, c.g)?;
    push_hex(&mut text, c.b)?;
    if c.a != 255 {
        push_hex(&mut text, c.a)?;
    }
    Ok(text)
}

fn color_value(alloc: Global, c: Color) -> Result<Value, AllocError>
    ensures { IfOk result (λ v. view v ≡ spec.color_value c) }
{
    Ok(Value::String(color_text(alloc, c)?))
}

fn content_value(alloc: Global, content: Option<Color>) -> Result<Value, AllocError>
    ensures { IfOk result (λ v. view v ≡ spec.content_value content) }
{
    match content {
        Some(c) => color_value(alloc, c),
        None => Ok(Value::Null),
    }
}

fn z_value(alloc: Global, z: Option<i32>) -> Result<Value, AllocError>
    ensures { IfOk result (λ v. view v ≡ spec.z_value z) }
{
    match z {
        Some(z) => Ok(Value::from(z)),
        None => Value::try_from_str(alloc, "auto"),
    }
}

fn rect_value(alloc: Global, r: Rect) -> Result<Value, AllocError>
    ensures { IfOk result (λ v. view v ≡ spec.rect_value r) }
{
    let (x, y, w, h) = (r.x(), r.y(), r.w(), r.h());
    json!(in alloc; [x, y, w, h])
}

fn sides_value(alloc: Global, s: Sides) -> Result<Value, AllocError>
    ensures { IfOk result (λ v. view v ≡ spec.sides_value s) }
{
    json!(in alloc; [s.top, s.right, s.bottom, s.left])
}

fn id_value(alloc: Global, id: &Option<Id>) -> Result<Value, AllocError>
    ensures { IfOk result (λ v. view v ≡ spec.id_value id.now) }
{
    match id {
        Some(id) => Value::try_from_str(alloc, id.text()),
        None => Ok(Value::Null),
    }
}

/// A member with the word of a value, where there is one.
fn add_word<W: Word>(
    alloc: Global,
    map: &mut Map<String, Value>,
    name: &str,
    value: Option<W>,
) -> Result<(), AllocError>
    ensures { OnOk result (members_view map.new.entries
        ≡ spec.with_given name.now (option_map (λ w. string (W.written w)) value) (members_view map.old.entries)) }
{
    match value {
        Some(value) => put(map, alloc, name, Value::try_from_str(alloc, value.word())?),
        None => Ok(()),
    }
}

/// A member with this number, where there is one.
fn add_number(
    alloc: Global,
    map: &mut Map<String, Value>,
    name: &str,
    n: Option<u16>,
) -> Result<(), AllocError>
    ensures { OnOk result (members_view map.new.entries
        ≡ spec.with_given name.now (option_map (λ n. number (unsigned n)) n) (members_view map.old.entries)) }
{
    match n {
        Some(n) => put(map, alloc, name, Value::from(n)),
        None => Ok(()),
    }
}

/// A member with this colour, where there is one.
fn add_color(
    alloc: Global,
    map: &mut Map<String, Value>,
    name: &str,
    color: Option<Color>,
) -> Result<(), AllocError>
    ensures { OnOk result (members_view map.new.entries
        ≡ spec.with_given name.now (option_map spec.color_value color) (members_view map.old.entries)) }
{
    match color {
        Some(color) => put(map, alloc, name, color_value(alloc, color)?),
        None => Ok(()),
    }
}

fn add_z(
    alloc: Global,
    map: &mut Map<String, Value>,
    z: Option<Option<i32>>,
) -> Result<(), AllocError>
    ensures { OnOk result (members_view map.new.entries
        ≡ spec.with_given (codes "z-index") (option_map spec.z_value z) (members_view map.old.entries)) }
{
    match z {
        Some(z) => put(map, alloc, "z-index", z_value(alloc, z)?),
        None => Ok(()),
    }
}

fn add_content(
    alloc: Global,
    map: &mut Map<String, Value>,
    content: Option<Option<Color>>,
) -> Result<(), AllocError>
    ensures { OnOk result (members_view map.new.entries
        ≡ spec.with_given (codes "content") (option_map spec.content_value content) (members_view map.old.entries)) }
{
    match content {
        Some(content) => put(map, alloc, "content", content_value(alloc, content)?),
        None => Ok(()),
    }
}

fn add_sides(
    alloc: Global,
    map: &mut Map<String, Value>,
    sides: Option<Sides>,
) -> Result<(), AllocError>
    ensures { OnOk result (members_view map.new.entries
        ≡ spec.with_given (codes "border-width") (option_map spec.sides_value sides) (members_view map.old.entries)) }
{
    match sides {
        Some(sides) => put(map, alloc, "border-width", sides_value(alloc, sides)?),
        None => Ok(()),
    }
}

fn add_opacity(alloc: Global, map: &mut Map<String, Value>, n: Option<u8>) -> Result<(), AllocError>
    ensures { OnOk result (members_view map.new.entries
        ≡ spec.with_given (codes "opacity") (option_map (λ n. number (unsigned n)) n) (members_view map.old.entries)) }
{
    match n {
        Some(n) => put(map, alloc, "opacity", Value::from(n)),
        None => Ok(()),
    }
}

/// The members that place a box.
#[tactic(auto, unfolding(crate::specs::Writing::with_placing))]
fn add_placing(
    alloc: Global,
    map: &mut Map<String, Value>,
    c: &StyleChange,
) -> Result<(), AllocError>
    ensures { OnOk result (members_view map.new.entries ≡ spec.with_placing c.now (members_view map.old.entries)) }
{
    add_word(alloc, map, "display", c.display)?;
    add_word(alloc, map, "float", c.float)?;
    add_opacity(alloc, map, c.opacity)?;
    add_word(alloc, map, "overflow", c.overflow)?;
    add_word(alloc, map, "position", c.position)?;
    add_z(alloc, map, c.z)
}

/// The members that a box is painted with.
#[tactic(auto, unfolding(crate::specs::Writing::with_painting))]
fn add_painting(
    alloc: Global,
    map: &mut Map<String, Value>,
    c: &StyleChange,
) -> Result<(), AllocError>
    ensures { OnOk result (members_view map.new.entries ≡ spec.with_painting c.now (members_view map.old.entries)) }
{
    add_color(alloc, map, "background", c.background)?;
    add_color(alloc, map, "border-color", c.border_color)?;
    add_sides(alloc, map, c.border_width)?;
    add_content(alloc, map, c.content)?;
    add_color(alloc, map, "outline-color", c.outline_color)?;
    add_number(alloc, map, "outline-width", c.outline_width)
}

/// The members that blend a box.
#[tactic(auto, unfolding(crate::specs::Writing::with_blending))]
fn add_blending(
    alloc: Global,
    map: &mut Map<String, Value>,
    c: &StyleChange,
) -> Result<(), AllocError>
    ensures { OnOk result (members_view map.new.entries ≡ spec.with_blending c.now (members_view map.old.entries)) }
{
    add_word(alloc, map, "isolation", c.isolation)?;
    add_word(alloc, map, "mix-blend-mode", c.blend)
}

/// A style object of the members that a change names.
#[tactic(auto, unfolding(crate::specs::Writing::change_value))]
fn change_value(alloc: Global, c: &StyleChange) -> Result<Value, AllocError>
    ensures { IfOk result (λ v. view v ≡ spec.change_value c.now) }
{
    let mut map = Map::new(alloc);
    add_placing(alloc, &mut map, c)?;
    add_painting(alloc, &mut map, c)?;
    add_word(alloc, &mut map, "pointer-events", c.pointer)?;
    add_word(alloc, &mut map, "visibility", c.visibility)?;
    add_blending(alloc, &mut map, c)?;
    Ok(Value::Object(map))
}

fn style_value(alloc: Global, s: &Style) -> Result<Value, AllocError>
    ensures { IfOk result (λ v. view v ≡ spec.style_value s.now) }
{
    let change = differing(s);
    change_value(alloc, &change)
}

/// The member of this name, a text.
fn add_text(
    alloc: Global,
    map: &mut Map<String, Value>,
    name: &str,
    text: &str,
) -> Result<(), AllocError>
    ensures { OnOk result (members_view map.new.entries
        ≡ json_data.put name.now (string text.now) (members_view map.old.entries)) }
{
    put(map, alloc, name, Value::try_from_str(alloc, text)?)
}

/// The member of this name, a whole number.
fn add_integer(
    alloc: Global,
    map: &mut Map<String, Value>,
    name: &str,
    z: i32,
) -> Result<(), AllocError>
    ensures { OnOk result (members_view map.new.entries
        ≡ json_data.put name.now (spec.number_value z) (members_view map.old.entries)) }
{
    put(map, alloc, name, Value::from(z))
}

/// The member of this name, an id or `null` for none.
fn add_id(
    alloc: Global,
    map: &mut Map<String, Value>,
    name: &str,
    id: &Option<Id>,
) -> Result<(), AllocError>
    ensures { OnOk result (members_view map.new.entries
        ≡ json_data.put name.now (spec.id_value id.now) (members_view map.old.entries)) }
{
    put(map, alloc, name, id_value(alloc, id)?)
}

/// The member `rect`.
fn add_rect(alloc: Global, map: &mut Map<String, Value>, rect: Rect) -> Result<(), AllocError>
    ensures { OnOk result (members_view map.new.entries
        ≡ json_data.put (codes "rect") (spec.rect_value rect) (members_view map.old.entries)) }
{
    put(map, alloc, "rect", rect_value(alloc, rect)?)
}

/// The member `style`, of what a change names.
fn add_change(
    alloc: Global,
    map: &mut Map<String, Value>,
    change: &StyleChange,
) -> Result<(), AllocError>
    ensures { OnOk result (members_view map.new.entries
        ≡ json_data.put (codes "style") (spec.change_value change.now) (members_view map.old.entries)) }
{
    put(map, alloc, "style", change_value(alloc, change)?)
}

/// The member `style`, of a whole style.
fn add_style(alloc: Global, map: &mut Map<String, Value>, style: &Style) -> Result<(), AllocError>
    ensures { OnOk result (members_view map.new.entries
        ≡ json_data.put (codes "style") (spec.style_value style.now) (members_view map.old.entries)) }
{
    put(map, alloc, "style", style_value(alloc, style)?)
}

/// The rectangle and the style of a box.
fn add_looks(
    alloc: Global,
    map: &mut Map<String, Value>,
    rect: Rect,
    style: &Style,
) -> Result<(), AllocError>
    ensures { OnOk result (members_view map.new.entries ≡ json_data.put (codes "style") (spec.style_value style.now)
        (json_data.put (codes "rect") (spec.rect_value rect) (members_view map.old.entries))) }
{
    add_rect(alloc, map, rect)?;
    add_style(alloc, map, style)
}

/// The word of an edit and the box that it names.
fn add_head(
    alloc: Global,
    map: &mut Map<String, Value>,
    word: &str,
    id: &Id,
) -> Result<(), AllocError>
    ensures { OnOk result (members_view map.new.entries ≡ json_data.put (codes "id") (string id.now)
        (json_data.put (codes "do") (string word.now) (members_view map.old.entries))) }
{
    add_text(alloc, map, "do", word)?;
    add_text(alloc, map, "id", id.text())
}

/// The parent of a box and the box that it stands before.
fn add_place(
    alloc: Global,
    map: &mut Map<String, Value>,
    parent: &Id,
    before: &Option<Id>,
) -> Result<(), AllocError>
    ensures { OnOk result (members_view map.new.entries ≡ json_data.put (codes "before") (spec.id_value before.now)
        (json_data.put (codes "parent") (string parent.now) (members_view map.old.entries))) }
{
    add_text(alloc, map, "parent", parent.text())?;
    add_id(alloc, map, "before", before)
}

/// A box object, with all four members.
#[tactic(auto, unfolding(crate::specs::Writing::box_value))]
fn box_value(alloc: Global, b: &SceneBox) -> Result<Value, AllocError>
    ensures { IfOk result (λ v. view v ≡ spec.box_value b.now) }
{
    let mut map = Map::new(alloc);
    add_text(alloc, &mut map, "id", b.id.text())?;
    add_id(alloc, &mut map, "parent", &b.parent)?;
    add_looks(alloc, &mut map, b.rect, &b.style)?;
    Ok(Value::Object(map))
}

#[tactic(auto, unfolding(crate::specs::Writing::edit_value))]
fn insert_value(
    alloc: Global,
    id: &Id,
    parent: &Id,
    before: &Option<Id>,
    rect: Rect,
    style: &Style,
) -> Result<Value, AllocError>
    ensures { IfOk result (λ v. view v ≡ spec.edit_value (Insert id.now parent.now before.now rect style.now)) }
{
    let mut map = Map::new(alloc);
    add_head(alloc, &mut map, "insert", id)?;
    add_place(alloc, &mut map, parent, before)?;
    add_looks(alloc, &mut map, rect, style)?;
    Ok(Value::Object(map))
}

#[tactic(auto, unfolding(crate::specs::Writing::edit_value))]
fn move_value(alloc: Global, id: &Id, parent: &Id, before: &Option<Id>) -> Result<Value, AllocError>
    ensures { IfOk result (λ v. view v ≡ spec.edit_value (Move id.now parent.now before.now)) }
{
    let mut map = Map::new(alloc);
    add_head(alloc, &mut map, "move", id)?;
    add_place(alloc, &mut map, parent, before)?;
    Ok(Value::Object(map))
}

#[tactic(auto, unfolding(crate::specs::Writing::edit_value))]
fn remove_value(alloc: Global, id: &Id) -> Result<Value, AllocError>
    ensures { IfOk result (λ v. view v ≡ spec.edit_value (Remove id.now)) }
{
    json!(in alloc; {"do": "remove", "id": id.text()})
}

#[tactic(auto, unfolding(crate::specs::Writing::edit_value))]
fn set_style_value(alloc: Global, id: &Id, change: &StyleChange) -> Result<Value, AllocError>
    ensures { IfOk result (λ v. view v ≡ spec.edit_value (SetStyle id.now change.now)) }
{
    let mut map = Map::new(alloc);
    add_head(alloc, &mut map, "style", id)?;
    add_change(alloc, &mut map, change)?;
    Ok(Value::Object(map))
}

#[tactic(auto, unfolding(crate::specs::Writing::edit_value))]
fn set_rect_value(alloc: Global, id: &Id, rect: Rect) -> Result<Value, AllocError>
    ensures { IfOk result (λ v. view v ≡ spec.edit_value (SetRect id.now rect)) }
{
    let mut map = Map::new(alloc);
    add_head(alloc, &mut map, "rect", id)?;
    add_rect(alloc, &mut map, rect)?;
    Ok(Value::Object(map))
}

#[tactic(auto, unfolding(crate::specs::Writing::edit_value))]
fn shift_value(alloc: Global, id: &Id, dx: i32, dy: i32) -> Result<Value, AllocError>
    ensures { IfOk result (λ v. view v ≡ spec.edit_value (Shift id.now dx dy)) }
{
    let mut map = Map::new(alloc);
    add_head(alloc, &mut map, "shift", id)?;
    add_integer(alloc, &mut map, "dx", dx)?;
    add_integer(alloc, &mut map, "dy", dy)?;
    Ok(Value::Object(map))
}

#[tactic(auto, unfolding(crate::specs::Writing::edit_value))]
fn scroll_value(alloc: Global, id: &Id, x: i32, y: i32) -> Result<Value, AllocError>
    ensures { IfOk result (λ v. view v ≡ spec.edit_value (Scroll id.now x y)) }
{
    let mut map = Map::new(alloc);
    add_head(alloc, &mut map, "scroll", id)?;
    add_integer(alloc, &mut map, "x", x)?;
    add_integer(alloc, &mut map, "y", y)?;
    Ok(Value::Object(map))
}

fn edit_value(alloc: Global, edit: &Edit) -> Result<Value, AllocError>
    ensures { IfOk result (λ v. view v ≡ spec.edit_value edit.now) }
{
    match edit {
        Edit::Insert {
            id,
            parent,
            before,
            rect,
            style,
        } => insert_value(alloc, id, parent, before, *rect, style),
        Edit::Remove { id } => remove_value(alloc, id),
        Edit::Move { id, parent, before } => move_value(alloc, id, parent, before),
        Edit::SetStyle { id, change } => set_style_value(alloc, id, change),
        Edit::SetRect { id, rect } => set_rect_value(alloc, id, *rect),
        Edit::Shift { id, dx, dy } => shift_value(alloc, id, *dx, *dy),
        Edit::Scroll { id, x, y } => scroll_value(alloc, id, *x, *y),
    }
}

fn bare(alloc: Global, word: &str) -> Result<Value, AllocError>
    ensures { IfOk result (λ v. view v ≡ spec.bare word.now) }
{
    json!(in alloc; {"do": word})
}

fn at_pixel(alloc: Global, word: &str, x: i32, y: i32) -> Result<Value, AllocError>
    ensures { IfOk result (λ v. view v ≡ spec.at_pixel word.now x y) }
{
    let mut map = Map::new(alloc);
    add_text(alloc, &mut map, "do", word)?;
    add_integer(alloc, &mut map, "x", x)?;
    add_integer(alloc, &mut map, "y", y)?;
    Ok(Value::Object(map))
}

fn command_value(alloc: Global, command: &Command) -> Result<Value, AllocError>
    ensures { IfOk result (λ v. view v ≡ spec.command_value command.now) }
{
    match command {
        Command::Change(edit) => edit_value(alloc, edit),
        Command::Paint => bare(alloc, "paint"),
        Command::Hit { x, y } => at_pixel(alloc, "hit", *x, *y),
        Command::Pixel { x, y } => at_pixel(alloc, "pixel", *x, *y),
        Command::Dump => bare(alloc, "dump"),
        Command::Shot => bare(alloc, "shot"),
        Command::Undo => bare(alloc, "undo"),
    }
}

fn boxes_value(alloc: Global, boxes: &[SceneBox]) -> Result<Vec<Value>, AllocError>
    ensures { IfOk result (λ v. map view v.items ≡ map spec.box_value boxes.now) }
{
    let mut values = Vec::new(alloc);
    for b in boxes {
        values.push(box_value(alloc, b)?)?;
    }
    Ok(values)
}

fn commands_value(alloc: Global, commands: &[Command]) -> Result<Vec<Value>, AllocError>
    ensures { IfOk result (λ v. map view v.items ≡ map spec.command_value commands.now) }
{
    let mut values = Vec::new(alloc);
    for command in commands {
        values.push(command_value(alloc, command)?)?;
    }
    Ok(values)
}

fn canvas_value(alloc: Global, size: Size) -> Result<Value, AllocError>
    ensures { IfOk result (λ v. view v ≡ spec.canvas_value size) }
{
    json!(in alloc; {"w": size.w, "h": size.h})
}

/// The member `version`.
fn add_version(alloc: Global, map: &mut Map<String, Value>, version: u8) -> Result<(), AllocError>
    ensures { OnOk result (members_view map.new.entries
        ≡ json_data.put (codes "version") (number (unsigned version)) (members_view map.old.entries)) }
{
    put(map, alloc, "version", Value::from(version))
}

/// The member `canvas`.
fn add_canvas(alloc: Global, map: &mut Map<String, Value>, size: Size) -> Result<(), AllocError>
    ensures { OnOk result (members_view map.new.entries
        ≡ json_data.put (codes "canvas") (spec.canvas_value size) (members_view map.old.entries)) }
{
    put(map, alloc, "canvas", canvas_value(alloc, size)?)
}

/// The member `boxes`.
fn add_boxes(
    alloc: Global,
    members: &mut Map<String, Value>,
    boxes: &[SceneBox],
) -> Result<(), AllocError>
    ensures { OnOk result (members_view members.new.entries ≡ json_data.put (codes "boxes")
        (array (items_of (map spec.box_value boxes.now))) (members_view members.old.entries)) }
{
    put(
        members,
        alloc,
        "boxes",
        Value::Array(boxes_value(alloc, boxes)?),
    )
}

/// The member `script`, of the commands.
fn add_commands(
    alloc: Global,
    members: &mut Map<String, Value>,
    commands: &[Command],
) -> Result<(), AllocError>
    ensures { OnOk result (members_view members.new.entries ≡ json_data.put (codes "script")
        (array (items_of (map spec.command_value commands.now))) (members_view members.old.entries)) }
{
    put(
        members,
        alloc,
        "script",
        Value::Array(commands_value(alloc, commands)?),
    )
}

#[tactic(auto, unfolding(crate::specs::Writing::scene_value))]
fn scene_value(alloc: Global, script: &Script) -> Result<Value, AllocError>
    ensures { IfOk result (λ v. view v ≡ spec.scene_value script.now) }
{
    let mut map = Map::new(alloc);
    add_version(alloc, &mut map, script.version)?;
    add_canvas(alloc, &mut map, script.canvas)?;
    add_boxes(alloc, &mut map, &script.boxes)?;
    add_commands(alloc, &mut map, &script.commands)?;
    Ok(Value::Object(map))
}

/// The compact text of a script's value.
#[tactic(auto, using(crate::proofs::Written::written))]
fn text_of(alloc: Global, script: &Script) -> Result<Vec<u8>, NoMemory>
    ensures text { IfOk result (λ v. v.items ≡ compact_text (spec.scene_value script.now)) }
    ensures value { IfOk result (λ v. Reads v.items (spec.scene_value script.now)) }
{
    let value = scene_value(alloc, script)?;
    Ok(value.to_vec(alloc)?)
}

/// The canonical text of a script: the compact text of its JSON value, each object's members in the byte order of their
/// names. It reads as that script again. Only want of memory refuses it. The script stays.
pub fn write_scene(alloc: Global, script: &Script) -> Result<Vec<u8>, NoMemory>
    ensures text { IfOk result (λ v. v.items ≡ compact_text (spec.scene_value script.now)) }
    ensures value { IfOk result (λ v. Reads v.items (spec.scene_value script.now)) }
    ensures read { IfOk result (λ v. IsScriptText v.items script.now) }
{
    types::of_script(script);
    text_of(alloc, script)
}
