//! What no clause says: which texts are scripts and which rule others break first, and that large scenes are read and
//! planted.

use rd_geom::{Color, Sides};
use rd_scene::{Command, Edit, Place, SceneFault, Script, Why, plant, read, write_scene};
use rd_style::{Display, Floating, Overflow, Pointer, Position, Style, Visibility};
use rd_tree::Tree;
use std::alloc::Global;
use std::marker::Brand;
use std::process::Abort;

/// What a text gives.
#[derive(Clone, Copy, PartialEq, Eq, Debug)]
enum Outcome {
    Script,
    NotJson,
    Form(Place, Why),
    NoMemory,
}

/// What the text gives.
fn given(alloc: Global, text: &[u8]) -> Outcome {
    match read(alloc, text) {
        Ok(_) => Outcome::Script,
        Err(SceneFault::NotJson) => Outcome::NotJson,
        Err(SceneFault::Form { place, why }) => Outcome::Form(place, why),
        Err(SceneFault::NoMemory) => Outcome::NoMemory,
    }
}

/// The text gives this.
fn is_given(rt: &impl Abort, alloc: Global, text: &str, want: Outcome) {
    assert_eq!(rt; given(alloc, text.as_bytes()), want, "{text}");
}

/// These parts, one after another.
fn joined(rt: &impl Abort, alloc: Global, parts: &[&str]) -> String {
    let mut text = String::new(alloc);
    for part in parts {
        text.push_str(part).expect(rt, "a longer text");
    }
    text
}

/// A script of version 1 with these boxes and these commands.
fn script(rt: &impl Abort, alloc: Global, boxes: &str, commands: &str) -> String {
    let head = r#"{"version":1,"canvas":{"w":10,"h":10},"boxes":["#;
    joined(rt, alloc, &[head, boxes, r#"],"script":["#, commands, "]}"])
}

/// A script of version 2 of the root and this command.
fn in_version_two(rt: &impl Abort, alloc: Global, command: &str) -> String {
    let head = r#"{"version":2,"canvas":{"w":10,"h":10},"boxes":["#;
    joined(rt, alloc, &[head, ROOT, r#"],"script":["#, command, "]}"])
}

/// A script of version 2: the root, and a change of style.
fn restyled(rt: &impl Abort, alloc: Global, style: &str) -> String {
    let head = r#"{"do":"style","id":"a","style":"#;
    let command = joined(rt, alloc, &[head, style, "}"]);
    in_version_two(rt, alloc, command.as_str())
}

const ROOT: &str = r#"{"id":"root","parent":null,"rect":[0,0,10,10]}"#;

/// The root and another box.
fn two_boxes(rt: &impl Abort, alloc: Global, second: &str) -> String {
    let boxes = joined(rt, alloc, &[ROOT, ",", second]);
    script(rt, alloc, boxes.as_str(), "")
}

/// The root and a box with this style.
fn styled(rt: &impl Abort, alloc: Global, style: &str) -> String {
    let head = r#"{"id":"a","parent":"root","rect":[0,0,1,1],"style":"#;
    let second = joined(rt, alloc, &[head, style, "}"]);
    two_boxes(rt, alloc, second.as_str())
}

/// The text is a script.
fn read_of(rt: &impl Abort, alloc: Global, text: &str) -> Script {
    read(alloc, text.as_bytes()).expect(rt, "a script")
}

/// The box of this number comes last below that of another.
fn push_box(rt: &impl Abort, text: &mut String, number: u32, above: u32) {
    write!(
        text,
        r#",{{"id":"d{number}","parent":"d{above}","rect":[0,0,1,1]}}"#
    )
    .expect(rt, "a longer text");
}

/// A scene of so many boxes: each below the one before it, or all below the root.
fn scene(rt: &impl Abort, alloc: Global, boxes: u32, deep: bool) -> String {
    let mut text = joined(
        rt,
        alloc,
        &[r#"{"id":"d1","parent":null,"rect":[0,0,1,1]}"#],
    );
    for i in 1..boxes {
        push_box(rt, &mut text, i + 1, if deep { i } else { 1 });
    }
    script(rt, alloc, text.as_str(), "")
}

#[test]
fn tops(rt: HostRuntime) {
    let alloc = rt.alloc();
    let bytes: [u8; 1] = [255];
    assert!(rt; given(alloc, &bytes) == Outcome::NotJson);
    for (text, want) in [
        ("", Outcome::NotJson),
        ("{} {}", Outcome::NotJson),
        ("[]", Outcome::Form(Place::Top, Why::Kind)),
        ("{}", Outcome::Form(Place::Top, Why::Missing)),
        (r#"{"x":1}"#, Outcome::Form(Place::Top, Why::Unknown)),
        (r#"{"version":1.0}"#, Outcome::Form(Place::Top, Why::Kind)),
        (r#"{"version":3}"#, Outcome::Form(Place::Top, Why::Range)),
        (r#"{"version":0}"#, Outcome::Form(Place::Top, Why::Range)),
        (r#"{"version":1}"#, Outcome::Form(Place::Top, Why::Missing)),
        (r#"{"version":2}"#, Outcome::Form(Place::Top, Why::Missing)),
        (
            r#"{"version":1,"canvas":7}"#,
            Outcome::Form(Place::Canvas, Why::Kind),
        ),
        (
            r#"{"version":1,"canvas":{"h":1}}"#,
            Outcome::Form(Place::Canvas, Why::Missing),
        ),
        (
            r#"{"version":1,"canvas":{"d":1}}"#,
            Outcome::Form(Place::Canvas, Why::Unknown),
        ),
        (
            r#"{"version":1,"canvas":{"w":4097,"h":"1"}}"#,
            Outcome::Form(Place::Canvas, Why::Range),
        ),
        (
            r#"{"version":1,"canvas":{"w":4096,"h":1}}"#,
            Outcome::Form(Place::Top, Why::Missing),
        ),
        (
            r#"{"version":1,"canvas":{"w":1,"h":1},"boxes":7}"#,
            Outcome::Form(Place::Top, Why::Kind),
        ),
        (
            r#"{"version":1,"canvas":{"w":1,"h":1},"boxes":[]}"#,
            Outcome::Form(Place::Top, Why::Count),
        ),
        (
            r#"{"version":1,"canvas":{"w":1,"h":1},"boxes":[7]}"#,
            Outcome::Form(Place::Box(0), Why::Kind),
        ),
    ] {
        is_given(&rt, alloc, text, want);
    }
}

/// A rule that the second box breaks first, or none.
fn is_second(rt: &impl Abort, alloc: Global, second: &str, want: Option<Why>) {
    let text = two_boxes(rt, alloc, second);
    let want = match want {
        Some(why) => Outcome::Form(Place::Box(1), why),
        None => Outcome::Script,
    };
    is_given(rt, alloc, text.as_str(), want);
}

#[test]
fn second_boxes(rt: HostRuntime) {
    let alloc = rt.alloc();
    for (second, want) in [
        (
            r#"{"id":"A.b:c-9_","parent":"root","rect":[-1000000,1000000,0,1000000]}"#,
            None,
        ),
        ("[]", Some(Why::Kind)),
        (r#"{"id":7,"colour":7}"#, Some(Why::Unknown)),
        (r#"{"parent":7}"#, Some(Why::Missing)),
        (r#"{"id":7}"#, Some(Why::Kind)),
        (r#"{"id":"a b","parent":7}"#, Some(Why::Range)),
        (r#"{"id":"root","parent":7}"#, Some(Why::Duplicate)),
        (r#"{"id":"a"}"#, Some(Why::Missing)),
        (r#"{"id":"a","parent":7}"#, Some(Why::Kind)),
        (r#"{"id":"a","parent":null,"rect":7}"#, Some(Why::Parent)),
        (r#"{"id":"a","parent":"a","rect":7}"#, Some(Why::Parent)),
        (r#"{"id":"a","parent":"a b","rect":7}"#, Some(Why::Parent)),
        (
            r#"{"id":"a","parent":"root","style":7}"#,
            Some(Why::Missing),
        ),
        (
            r#"{"id":"a","parent":"root","rect":[0,0,1000001]}"#,
            Some(Why::Kind),
        ),
        (
            r#"{"id":"a","parent":"root","rect":[1000001,0,0,1.5]}"#,
            Some(Why::Kind),
        ),
        (
            r#"{"id":"a","parent":"root","rect":[1000001,0,0,0],"style":7}"#,
            Some(Why::Range),
        ),
        (
            r#"{"id":"a","parent":"root","rect":[0,0,-1,0]}"#,
            Some(Why::Range),
        ),
        (
            r#"{"id":"a","parent":"root","rect":[0,0,1,1],"style":null}"#,
            Some(Why::Kind),
        ),
    ] {
        is_second(&rt, alloc, second, want);
    }
}

/// A rule that a style breaks first.
fn is_style(rt: &impl Abort, alloc: Global, style: &str, why: Why) {
    let text = styled(rt, alloc, style);
    is_given(rt, alloc, text.as_str(), Outcome::Form(Place::Box(1), why));
}

#[test]
fn styles_off_form(rt: HostRuntime) {
    let alloc = rt.alloc();
    for (style, why) in [
        (r#"{"position":"sticky","color":7}"#, Why::Unknown),
        (r#"{"position":"sticky"}"#, Why::Kind),
        (r#"{"z-index":"none"}"#, Why::Kind),
        (r#"{"z-index":1e2}"#, Why::Kind),
        (r#"{"z-index":9223372036854775808}"#, Why::Kind),
        (r#"{"z-index":2147483648,"opacity":"1"}"#, Why::Range),
        (r#"{"opacity":256}"#, Why::Range),
        (r#"{"overflow":"none"}"#, Why::Kind),
        (r#"{"display":"none"}"#, Why::Kind),
        (r#"{"float":7}"#, Why::Kind),
        (r##"{"background":"#12345"}"##, Why::Color),
        (r#"{"background":null}"#, Why::Kind),
        (r#"{"border-width":[0,1001,0]}"#, Why::Kind),
        (r#"{"border-width":[0,1001,0,0]}"#, Why::Range),
        (r##"{"border-color":"#gg0000"}"##, Why::Color),
        (r#"{"content":"none"}"#, Why::Color),
        (r#"{"outline-width":-1}"#, Why::Range),
        (r#"{"visibility":"hide"}"#, Why::Kind),
        (r#"{"pointer-events":"all"}"#, Why::Kind),
        (r#"{"mix-blend-mode":"normal"}"#, Why::Unknown),
        (r#"{"isolation":"auto"}"#, Why::Unknown),
    ] {
        is_style(&rt, alloc, style, why);
    }
}

/// A rule that a change of style breaks first in version 2, or none.
fn is_restyled(rt: &impl Abort, alloc: Global, style: &str, want: Option<Why>) {
    let text = restyled(rt, alloc, style);
    let want = match want {
        Some(why) => Outcome::Form(Place::Command(0), why),
        None => Outcome::Script,
    };
    is_given(rt, alloc, text.as_str(), want);
}

#[test]
fn styles_of_version_two(rt: HostRuntime) {
    let alloc = rt.alloc();
    for (style, want) in [
        (
            r#"{"mix-blend-mode":"overlay","color":7}"#,
            Some(Why::Unknown),
        ),
        (r#"{"mix-blend-mode":"overlay"}"#, Some(Why::Kind)),
        (r#"{"mix-blend-mode":null}"#, Some(Why::Kind)),
        (r#"{"isolation":"none"}"#, Some(Why::Kind)),
        (r#"{"isolation":7,"opacity":256}"#, Some(Why::Range)),
        (
            r#"{"mix-blend-mode":"lighten","isolation":"isolate"}"#,
            None,
        ),
    ] {
        is_restyled(&rt, alloc, style, want);
    }
}

/// A style that names every member.
const WHOLE_STYLE: &str =
    r##"{"position":"fixed","z-index":-7,"opacity":9,"overflow":"scroll","display":"inline-block","float":"right","background":"#0102Ff04","border-width":[1,2,3,1000],"border-color":"#0a0B0c","content":"transparent","outline-width":5,"outline-color":"#ffffff00","visibility":"collapse","pointer-events":"none"}"##;

/// The style that a style of the format is read as.
fn style_read(rt: &impl Abort, alloc: Global, style: &str) -> Style {
    let text = styled(rt, alloc, style);
    let script = read_of(rt, alloc, text.as_str());
    assert_eq!(rt; script.boxes.len(), 2);
    script.boxes[1].style
}

/// A colour of these channels.
const fn color(r: u8, g: u8, b: u8, a: u8) -> Color {
    Color { r, g, b, a }
}

const WIDTHS: Sides = Sides {
    top: 1,
    right: 2,
    bottom: 3,
    left: 1000,
};

#[test]
fn every_member_of_a_style(rt: HostRuntime) {
    let s = style_read(&rt, rt.alloc(), WHOLE_STYLE);
    assert!(rt; s.position == Position::Fixed && s.z == Some(-7) && s.opacity == 9);
    assert!(rt;
        s.overflow == Overflow::Scroll
            && s.display == Display::InlineBlock
            && s.float == Floating::Right
    );
    assert!(rt; s.background == color(1, 2, 255, 4));
    assert!(rt; s.border_width == WIDTHS);
    assert!(rt; s.border_color == color(10, 11, 12, 255));
    assert!(rt; s.content == Some(Color::TRANSPARENT));
    assert!(rt; s.outline_width == 5);
    assert!(rt; s.outline_color == color(255, 255, 255, 0));
    assert!(rt; s.visibility == Visibility::Collapse && s.pointer == Pointer::Off);
}

/// A rule that a second command breaks first.
fn is_command(rt: &impl Abort, alloc: Global, command: &str, why: Why) {
    let both = joined(rt, alloc, &[r#"{"do":"paint"},"#, command]);
    let text = script(rt, alloc, ROOT, both.as_str());
    is_given(
        rt,
        alloc,
        text.as_str(),
        Outcome::Form(Place::Command(1), why),
    );
}

#[test]
fn commands_off_form(rt: HostRuntime) {
    let alloc = rt.alloc();
    for (command, why) in [
        ("7", Why::Kind),
        (r#"{"id":"a"}"#, Why::Missing),
        (r#"{"do":7}"#, Why::Kind),
        (r#"{"do":"draw","x":1}"#, Why::Command),
        (r#"{"do":"scroll","id":"a","x":0,"y":0}"#, Why::Command),
        (r#"{"do":"undo"}"#, Why::Command),
        (r#"{"do":"paint","x":1}"#, Why::Unknown),
        (r#"{"do":"shot","id":"a"}"#, Why::Unknown),
        (r#"{"do":"hit","x":0}"#, Why::Missing),
        (r#"{"do":"hit","x":"0","y":0}"#, Why::Kind),
        (r#"{"do":"pixel","x":0,"y":1000001}"#, Why::Range),
        (r#"{"do":"insert","id":"a","parent":null}"#, Why::Kind),
        (
            r#"{"do":"insert","id":"a","parent":"a","before":7}"#,
            Why::Kind,
        ),
        (
            r#"{"do":"insert","id":"a","parent":"a","before":"","rect":7}"#,
            Why::Range,
        ),
        (
            r#"{"do":"insert","id":"a","parent":"a","before":null}"#,
            Why::Missing,
        ),
        (
            r##"{"do":"insert","id":"a","parent":"a","rect":[0,0,1,1],"style":{"content":"#0"}}"##,
            Why::Color,
        ),
        (r#"{"do":"remove","id":""}"#, Why::Range),
        (
            r#"{"do":"move","id":"a","parent":"a","rect":[]}"#,
            Why::Unknown,
        ),
        (r#"{"do":"move","id":"a"}"#, Why::Missing),
        (r#"{"do":"style","id":"a"}"#, Why::Missing),
        (
            r#"{"do":"style","id":"a","style":{"rect":7}}"#,
            Why::Unknown,
        ),
        (
            r#"{"do":"rect","id":"a","rect":[0,0,0,1000001]}"#,
            Why::Range,
        ),
        (
            r#"{"do":"shift","id":"a","dx":-2000001,"dy":null}"#,
            Why::Range,
        ),
        (
            r#"{"do":"shift","id":"a","dx":2000000,"dy":null}"#,
            Why::Kind,
        ),
    ] {
        is_command(&rt, alloc, command, why);
    }
}

/// The name of a command.
fn name(command: &Command) -> &'static str {
    match command {
        Command::Change(Edit::Insert { before: None, .. }) => "insert last",
        Command::Change(Edit::Insert { .. }) => "insert before",
        Command::Change(Edit::Remove { .. }) => "remove",
        Command::Change(Edit::Move { before: None, .. }) => "move last",
        Command::Change(Edit::Move { .. }) => "move before",
        Command::Change(Edit::SetStyle { .. }) => "style",
        Command::Change(Edit::SetRect { .. }) => "rect",
        Command::Change(Edit::Shift { dx: 3, dy: -2, .. }) => "shift",
        Command::Change(Edit::Scroll { x: 3, y: -2, .. }) => "scroll",
        Command::Change(_) => "another shift or scroll",
        Command::Paint => "paint",
        Command::Hit { x: 1, y: -1 } => "hit",
        Command::Pixel { x: 1, y: -1 } => "pixel",
        Command::Hit { .. } | Command::Pixel { .. } => "another place",
        Command::Dump => "dump",
        Command::Shot => "shot",
        Command::Undo => "undo",
    }
}

/// A script of this command alone has a command of this name.
fn is_named(rt: &impl Abort, alloc: Global, command: &str, want: &str) {
    let text = script(rt, alloc, ROOT, command);
    let script = read_of(rt, alloc, text.as_str());
    assert_eq!(rt; script.commands.len(), 1);
    assert_eq!(rt; name(&script.commands[0]), want);
}

#[test]
fn every_command(rt: HostRuntime) {
    let alloc = rt.alloc();
    for (command, want) in [
        (
            r#"{"do":"insert","id":"a","parent":"Z","rect":[0,0,1,1]}"#,
            "insert last",
        ),
        (
            r#"{"do":"insert","id":"a","parent":"Z","before":"b","rect":[0,0,1,1],"style":{}}"#,
            "insert before",
        ),
        (r#"{"do":"remove","id":"a"}"#, "remove"),
        (
            r#"{"do":"move","id":"a","parent":"Z","before":null}"#,
            "move last",
        ),
        (
            r#"{"do":"move","id":"a","parent":"a","before":"a"}"#,
            "move before",
        ),
        (
            r#"{"do":"style","id":"a","style":{"z-index":"auto"}}"#,
            "style",
        ),
        (r#"{"do":"rect","id":"a","rect":[0,0,1000000,0]}"#, "rect"),
        (r#"{"do":"shift","id":"a","dx":3,"dy":-2}"#, "shift"),
        (r#"{"do":"paint"}"#, "paint"),
        (r#"{"do":"hit","x":1,"y":-1}"#, "hit"),
        (r#"{"do":"pixel","x":1,"y":-1}"#, "pixel"),
        (r#"{"do":"dump"}"#, "dump"),
        (r#"{"do":"shot"}"#, "shot"),
    ] {
        is_named(&rt, alloc, command, want);
    }
}

/// What a command gives in version 2.
fn gives_in_version_two(rt: &impl Abort, alloc: Global, command: &str, want: Outcome) {
    let text = in_version_two(rt, alloc, command);
    is_given(rt, alloc, text.as_str(), want);
}

#[test]
fn the_commands_of_version_two(rt: HostRuntime) {
    let alloc = rt.alloc();
    for (command, want) in [
        (r#"{"do":"scroll","id":"a","x":3,"y":-2}"#, "scroll"),
        (r#"{"do":"undo"}"#, "undo"),
    ] {
        let text = in_version_two(&rt, alloc, command);
        let script = read_of(&rt, alloc, text.as_str());
        assert_eq!(rt; script.commands.len(), 1);
        assert_eq!(rt; name(&script.commands[0]), want);
    }
    for (command, why) in [
        (r#"{"do":"scroll","id":"a","x":0,"dy":0}"#, Why::Unknown),
        (r#"{"do":"scroll","id":"","x":0}"#, Why::Range),
        (r#"{"do":"scroll","id":"a","x":2000001}"#, Why::Range),
        (
            r#"{"do":"scroll","id":"a","x":2000000,"y":null}"#,
            Why::Kind,
        ),
        (r#"{"do":"scroll","id":"a","y":0}"#, Why::Missing),
        (r#"{"do":"Scroll","id":"a","x":0,"y":0}"#, Why::Command),
        (r#"{"do":"undo","id":"a"}"#, Why::Unknown),
    ] {
        gives_in_version_two(&rt, alloc, command, Outcome::Form(Place::Command(0), why));
    }
}

/// A scene of so many boxes gives this.
fn is_scene(rt: &impl Abort, alloc: Global, boxes: u32, deep: bool, want: Outcome) {
    let text = scene(rt, alloc, boxes, deep);
    let found = given(alloc, text.as_bytes());
    assert_eq!(rt; found, want, "{boxes}");
}

#[test]
fn large_scenes(rt: HostRuntime) {
    for (boxes, deep, want) in [
        (256, true, Outcome::Script),
        (257, true, Outcome::Form(Place::Box(256), Why::Depth)),
        (20_001, false, Outcome::Form(Place::Top, Why::Count)),
    ] {
        is_scene(&rt, rt.alloc(), boxes, deep, want);
    }
}

/// A tree with the boxes of a script.
fn planted(rt: &impl Abort, alloc: Global, script: &Script) -> Tree<Brand> {
    plant::<Brand>(alloc, script).expect(rt, "a tree")
}

#[test]
fn the_largest_scene_is_planted(rt: HostRuntime) {
    let text = scene(&rt, rt.alloc(), 20_000, false);
    let script = read_of(&rt, rt.alloc(), text.as_str());
    let tree = planted(&rt, rt.alloc(), &script);
    assert_eq!(rt; script.boxes.len(), 20_000);
    assert!(rt; tree.find(&script.boxes[0].id).is_some());
}

const LOOSE: &str = r##"{"version":1,"canvas":{"w":10,"h":9},
 "boxes":[{"rect":[0,0,10,10],"parent":null,"id":"root"},
  {"id":"a","parent":"root","rect":[0,-1,2,3],"style":{"z-index":-7,"position":"static","opacity":9,"background":"#0102Ff04","border-color":"#000000","border-width":[1,2,3,4],"content":"#FFffFF","pointer-events":"none"}}],
 "script":[{"do":"insert","id":"b","parent":"Z","rect":[0,0,1,1]},{"do":"move","id":"b","parent":"a","before":"c"},
  {"do":"style","id":"b","style":{"z-index":"auto","position":"static","content":null}},{"do":"rect","id":"b","rect":[1,2,3,4]},
  {"do":"shift","id":"b","dx":3,"dy":-2},{"do":"remove","id":"b"},{"do":"paint"},{"do":"hit","x":1,"y":-1},
  {"do":"pixel","x":1,"y":-1},{"do":"dump"},{"do":"shot"}]}"##;

const CANONICAL: &str =
    r##"{"boxes":[{"id":"root","parent":null,"rect":[0,0,10,10],"style":{}},{"id":"a","parent":"root","rect":[0,-1,2,3],"style":{"background":"#0102ff04","border-width":[1,2,3,4],"content":"#ffffff","opacity":9,"pointer-events":"none","z-index":-7}}],"canvas":{"h":9,"w":10},"script":[{"before":null,"do":"insert","id":"b","parent":"Z","rect":[0,0,1,1],"style":{}},{"before":"c","do":"move","id":"b","parent":"a"},{"do":"style","id":"b","style":{"content":null,"position":"static","z-index":"auto"}},{"do":"rect","id":"b","rect":[1,2,3,4]},{"do":"shift","dx":3,"dy":-2,"id":"b"},{"do":"remove","id":"b"},{"do":"paint"},{"do":"hit","x":1,"y":-1},{"do":"pixel","x":1,"y":-1},{"do":"dump"},{"do":"shot"}],"version":1}"##;

/// The canonical text of a script of version 2.
const CANONICAL_TWO: &str =
    r#"{"boxes":[{"id":"root","parent":null,"rect":[0,0,10,10],"style":{"isolation":"isolate"}},{"id":"a","parent":"root","rect":[0,-1,2,3],"style":{"float":"left","isolation":"isolate","mix-blend-mode":"multiply","opacity":9}}],"canvas":{"h":9,"w":10},"script":[{"before":null,"do":"insert","id":"b","parent":"a","rect":[0,0,1,1],"style":{"mix-blend-mode":"screen"}},{"do":"style","id":"b","style":{"isolation":"auto","mix-blend-mode":"normal"}},{"do":"style","id":"b","style":{"mix-blend-mode":"darken"}},{"do":"style","id":"b","style":{"mix-blend-mode":"lighten"}}],"version":2}"#;

/// The text is a script, which is written in this canonical text.
fn is_canonical(rt: &impl Abort, alloc: Global, text: &str, canonical: &str) {
    let script = read_of(rt, alloc, text);
    let written = write_scene(alloc, &script).expect(rt, "a text");
    assert!(rt; written.as_slice() == canonical.as_bytes());
}

#[test]
fn canonical_texts(rt: HostRuntime) {
    for (text, canonical) in [
        (LOOSE, CANONICAL),
        (CANONICAL, CANONICAL),
        (CANONICAL_TWO, CANONICAL_TWO),
    ] {
        is_canonical(&rt, rt.alloc(), text, canonical);
    }
}
