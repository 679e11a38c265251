//! What no clause says: the numbers of a few draws and a whole small script.

use rd_edits::Edit;
use rd_gen::{Draw, script};
use rd_geom::{Color, Rect};
use rd_scene::{Command, SceneBox, Script};
use rd_style::{Floating, StyleChange, Visibility};
use rd_tree::Id;
use std::alloc::Global;
use std::process::Abort;

/// The text comes at the end of another.
fn say(rt: &impl Abort, out: &mut String, text: &str) {
    out.push_str(text).expect(rt, "a longer text");
}

/// A rectangle in brackets.
fn say_rect(rt: &impl Abort, out: &mut String, r: Rect) {
    let (x, y, w, h) = (r.x(), r.y(), r.w(), r.h());
    write!(out, "[{x},{y},{w},{h}]").expect(rt, "a longer text");
}

/// A colour in parentheses.
fn say_color(rt: &impl Abort, out: &mut String, c: Color) {
    let (r, g, b, a) = (c.r, c.g, c.b, c.a);
    write!(out, "({r},{g},{b},{a})").expect(rt, "a longer text");
}

/// The word of a visibility, if one is named.
fn visibility_word(visibility: Option<Visibility>) -> &'static str {
    match visibility {
        Some(Visibility::Hidden) => "hidden",
        Some(_) => "visible",
        None => "nothing",
    }
}

/// A word and a number.
fn say_number(rt: &impl Abort, out: &mut String, word: &str, number: i32) {
    write!(out, "{word} {number}").expect(rt, "a longer text");
}

/// The one member that a generated change names.
fn say_change(rt: &impl Abort, out: &mut String, c: &StyleChange) {
    if let Some(Some(z)) = c.z {
        say_number(rt, out, "z-index", z);
    } else if let Some(opacity) = c.opacity {
        say_number(rt, out, "opacity", i32::from(opacity));
    } else if let Some(background) = c.background {
        say_color(rt, out, background);
    } else {
        say(rt, out, visibility_word(c.visibility));
    }
}

/// The word of an edit, and the id of its box.
fn say_id(rt: &impl Abort, out: &mut String, word: &str, id: &Id) {
    say(rt, out, word);
    say(rt, out, " ");
    say(rt, out, id.text());
}

/// Two numbers after a word.
fn say_pair(rt: &impl Abort, out: &mut String, word: &str, x: i32, y: i32) {
    write!(out, "{word} {x} {y}").expect(rt, "a longer text");
}

/// A new box in words: its id, its parent, its rectangle and its background.
fn say_insertion(
    rt: &impl Abort,
    out: &mut String,
    id: &Id,
    parent: &Id,
    rect: Rect,
    background: Color,
) {
    say_id(rt, out, "insert", id);
    say_id(rt, out, "", parent);
    say(rt, out, " ");
    say_rect(rt, out, rect);
    say(rt, out, " ");
    say_color(rt, out, background);
}

/// A change of style in words.
fn say_restyling(rt: &impl Abort, out: &mut String, id: &Id, change: &StyleChange) {
    say_id(rt, out, "style", id);
    say(rt, out, " ");
    say_change(rt, out, change);
}

/// A move in words.
fn say_movement(rt: &impl Abort, out: &mut String, id: &Id, parent: &Id) {
    say_id(rt, out, "move", id);
    say_id(rt, out, "", parent);
}

/// A new rectangle in words.
fn say_placement(rt: &impl Abort, out: &mut String, id: &Id, rect: Rect) {
    say_id(rt, out, "rect", id);
    say(rt, out, " ");
    say_rect(rt, out, rect);
}

/// A shift in words.
fn say_shift(rt: &impl Abort, out: &mut String, id: &Id, dx: i32, dy: i32) {
    say_id(rt, out, "shift", id);
    say_pair(rt, out, "", dx, dy);
}

/// A scroll offset in words.
fn say_scroll(rt: &impl Abort, out: &mut String, id: &Id, x: i32, y: i32) {
    say_id(rt, out, "scroll", id);
    say_pair(rt, out, "", x, y);
}

/// An edit in words.
fn say_edit(rt: &impl Abort, out: &mut String, edit: &Edit) {
    match edit {
        Edit::Insert {
            id,
            parent,
            rect,
            style,
            ..
        } => say_insertion(rt, out, id, parent, *rect, style.background),
        Edit::Remove { id } => say_id(rt, out, "remove", id),
        Edit::Move { id, parent, .. } => say_movement(rt, out, id, parent),
        Edit::SetStyle { id, change } => say_restyling(rt, out, id, change),
        Edit::SetRect { id, rect } => say_placement(rt, out, id, *rect),
        Edit::Shift { id, dx, dy } => say_shift(rt, out, id, *dx, *dy),
        Edit::Scroll { id, x, y } => say_scroll(rt, out, id, *x, *y),
    }
}

/// A command in words.
fn say_command(rt: &impl Abort, out: &mut String, command: &Command) {
    match command {
        Command::Change(edit) => say_edit(rt, out, edit),
        Command::Paint => say(rt, out, "paint"),
        Command::Hit { x, y } => say_pair(rt, out, "hit", *x, *y),
        Command::Pixel { x, y } => say_pair(rt, out, "pixel", *x, *y),
        Command::Dump => say(rt, out, "dump"),
        Command::Shot => say(rt, out, "shot"),
        Command::Undo => say(rt, out, "undo"),
    }
}

#[test]
fn the_first_draws(rt: HostRuntime) {
    let mut draw = Draw::new(0);
    assert_eq!(rt; draw.below(10), 7);
    assert!(rt; draw == Draw::new(1_442_695_040_888_963_407));
    assert_eq!(rt; draw.below(8), 0);
    assert!(rt; draw == Draw::new(1_876_011_003_808_476_466));
}

/// The commands, each on a line.
fn commands_text(rt: &impl Abort, alloc: Global, commands: &[Command]) -> String {
    let mut text = String::new(alloc);
    for command in commands {
        say_command(rt, &mut text, command);
        say(rt, &mut text, "\n");
    }
    text
}

/// A box on a line, with its background.
fn say_box(rt: &impl Abort, out: &mut String, b: &SceneBox) {
    say(rt, out, b.id.text());
    say(rt, out, " ");
    say_rect(rt, out, b.rect);
    say(rt, out, " ");
    say_color(rt, out, b.style.background);
    say(rt, out, "\n");
}

/// The boxes, each on a line, with their backgrounds.
fn boxes_text(rt: &impl Abort, alloc: Global, boxes: &[SceneBox]) -> String {
    let mut text = String::new(alloc);
    for b in boxes {
        say_box(rt, &mut text, b);
    }
    text
}

/// The script has the commands of this text.
fn has_commands(rt: &impl Abort, alloc: Global, s: &Script, want: &str) {
    let text = commands_text(rt, alloc, &s.commands);
    assert_eq!(rt; text.as_str(), want);
}

/// The script has the boxes of this text.
fn has_boxes(rt: &impl Abort, alloc: Global, s: &Script, want: &str) {
    let text = boxes_text(rt, alloc, &s.boxes);
    assert_eq!(rt; text.as_str(), want);
}

#[test]
fn a_script_of_each_kind_of_edit(rt: HostRuntime) {
    let alloc = rt.alloc();
    let s = script(alloc, 1769, 3, 10).expect(&rt, "a script");
    has_commands(
        &rt,
        alloc,
        &s,
        "paint\nstyle b2 z-index -2\nremove b2\nstyle b2 (222,108,133,255)\nmove b0 b2\nstyle b1 hidden\nstyle b0 opacity 186\nshift b0 -3 8\nrect b0 [248,127,13,31]\ninsert n8 b0 [21,127,28,31] (185,26,166,66)\nstyle b1 hidden\npaint\npaint\n",
    );
    has_boxes(
        &rt,
        alloc,
        &s,
        "b0 [0,0,256,256] (255,255,255,255)\nb1 [-25,72,3,35] (146,196,149,17)\nb2 [11,-17,53,26] (88,120,249,255)\n",
    );
    assert_eq!(rt; s.boxes.len(), 3);
    assert_eq!(rt; s.boxes[1].style.outline_width, 2);
    assert!(rt; s.boxes[2].style.float == Floating::Left);
}

#[test]
fn the_smallest_script(rt: HostRuntime) {
    let alloc = rt.alloc();
    let one = script(alloc, 0, 1, 1).expect(&rt, "a script");
    assert_eq!(rt; one.commands.len(), 3);
    let mut text = String::new(alloc);
    say_command(&rt, &mut text, &one.commands[1]);
    assert!(rt; text.as_str().starts_with("style b0 ("));
}

#[test]
fn a_large_script(rt: HostRuntime) {
    let many = script(rt.alloc(), u64::MAX, 5_000, 2_000).expect(&rt, "a script");
    assert_eq!(rt; many.boxes.len(), 5_000);
    assert_eq!(rt; many.commands.len(), 2_202);
}
