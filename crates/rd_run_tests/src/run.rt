//! What no clause says: that scripts are answered at all, and that the answers are those that were worked out by hand.

ghost use Rattle.std.specs.Prelude.{◌≡◌, ◌<◌};

use rd_geom::Steps;
use rd_io::{MemorySink, MemorySource};
use rd_run::run;
use std::alloc::Global;
use std::marker::Brand;
use std::process::Abort;
use std::sync::ledger::{Blank, Ledger};

/// A canvas of 10 by 10 with a white root.
const TEN: &str = r##"{"version":1,"canvas":{"w":10,"h":10},"boxes":[
{"id":"root","parent":null,"rect":[0,0,10,10],"style":{"background":"#ffffff"}}"##;

/// One white pixel.
const ONE: &str = r##"{"version":1,"canvas":{"w":1,"h":1},"boxes":[
{"id":"root","parent":null,"rect":[0,0,1,1],"style":{"background":"#ffffff"}}"##;

/// One pixel, half black.
const DIM: &str = r##"{"version":1,"canvas":{"w":1,"h":1},"boxes":[
{"id":"root","parent":null,"rect":[0,0,1,1],"style":{"background":"#000000","opacity":128}}"##;

/// The canvas of 10 by 10 in version 2, whose boxes may be blended.
const TEN_BLENDED: &str = r##"{"version":2,"canvas":{"w":10,"h":10},"boxes":[
{"id":"root","parent":null,"rect":[0,0,10,10],"style":{"background":"#ffffff"}}"##;

/// One pixel of a colour in version 2.
const ONE_BLENDED: &str = r##"{"version":2,"canvas":{"w":1,"h":1},"boxes":[
{"id":"root","parent":null,"rect":[0,0,1,1],"style":{"background":"#8040ff"}}"##;

/// Two boxes that overlap, and one away from them.
const THREE: &str = r##",
{"id":"A","parent":"root","rect":[0,0,4,4],"style":{"background":"#ff0000"}},
{"id":"B","parent":"root","rect":[2,2,4,4],"style":{"background":"#00ff00"}},
{"id":"C","parent":"root","rect":[7,7,2,2],"style":{"background":"#0000ff"}}"##;

/// Four boxes over each other, at four levels.
const LEVELS: &str = r##",
{"id":"p","parent":"root","rect":[0,0,2,2],"style":{"position":"relative","z-index":2147483647,"background":"#ff0000"}},
{"id":"q","parent":"root","rect":[0,0,2,2],"style":{"position":"relative","z-index":0,"background":"#00ff00"}},
{"id":"r","parent":"root","rect":[0,0,2,2],"style":{"position":"relative","z-index":"auto","background":"#0000ff"}},
{"id":"s","parent":"root","rect":[0,0,2,2],
"style":{"position":"relative","z-index":-2147483648,"background":"#000000"}}"##;

const USAGE: &str =
    "usage: rd_cli replay | rd_cli render | rd_cli storm --seed N --boxes N --edits N \
| rd_cli tiles | rd_cli wire | rd_cli compose | rd_cli check\n";

/// The list of one white pixel, in the wire form.
const ONE_WIRE: [u8; 83] = [
    0x52, 0x44, 0x4c, 0x31, 0, 1, 0, 1, 0, 0, 0, 1, 1, 0, 0, 0, 0, 0, 0, 0, 0, 0, 0, 0, 0, 0, 0, 0,
    0, 0, 0, 0, 0, 1, 0, 0, 0, 1, 0, 0, 0, 0, 0, 0, 0, 0, 0, 0, 0, 1, 0, 0, 0, 1, 0, 0, 0, 0, 0, 0,
    0, 0, 0, 0, 0, 0, 0, 0, 0, 0, 0xff, 0xff, 0xff, 0xff, 1, 0, 0, 0, 0, 0, 0, 0, 1,
];

/// A canvas of 100 by 100 with a white root.
const HUNDRED: &str = r##"{"version":1,"canvas":{"w":100,"h":100},"boxes":[
{"id":"root","parent":null,"rect":[0,0,100,100],"style":{"background":"#ffffff"}}"##;

/// How a run over memory ended: its status, and what the sinks hold.
#[derive(Drop)]
struct Ended {
    status: u8,
    out: Vec<u8>,
    err: Vec<u8>,
}

/// The status of a run whose items and looks are counted.
fn counted<A: Ledger, B: Ledger>(
    alloc: Global,
    words: &[String],
    source: &mut MemorySource,
    out: &mut MemorySink<'_>,
    err: &mut MemorySink<'_>,
    a: Blank,
    b: Blank,
) -> u8
    requires a_name { a.name ≡ A.name }
    requires a_parts { a.parts ≡ A.parts }
    requires a_some { 0 < a.parts }
    requires b_name { b.name ≡ B.name }
    requires b_parts { b.parts ≡ B.parts }
    requires b_some { 0 < b.parts }
{
    let mut made = Steps::<A>::new(a);
    let mut looks = Steps::<B>::new(b);
    run(alloc, words, source, out, err, &mut made, &mut looks)
}

/// The word as a text.
fn text_of(rt: &impl Abort, alloc: Global, word: &str) -> String {
    String::from_str(alloc, word).expect(rt, "a text")
}

/// The words as texts.
fn texts_of(rt: &impl Abort, alloc: Global, words: &[&str]) -> Vec<String> {
    let mut texts = Vec::new(alloc);
    for word in words {
        texts
            .push(text_of(rt, alloc, word))
            .expect(rt, "room for a text");
    }
    texts
}

/// The same bytes.
fn bytes_of(rt: &impl Abort, alloc: Global, bytes: &[u8]) -> Vec<u8> {
    Vec::from_slice(alloc, bytes).expect(rt, "bytes")
}

/// The same numbers.
fn numbers_of(rt: &impl Abort, alloc: Global, numbers: &[u64]) -> Vec<u64> {
    Vec::from_slice(alloc, numbers).expect(rt, "numbers")
}

/// A run over these words and this source, where the calls of these numbers fail at standard output.
fn run_from(
    rt: &impl Abort,
    alloc: Global,
    words: &[String],
    source: &mut MemorySource,
    writes: &[u64],
) -> Ended {
    let mut out_room = [0u8; 4096];
    let mut err_room = [0u8; 256];
    let mut out = MemorySink::new(&mut out_room, numbers_of(rt, alloc, writes));
    let mut err = MemorySink::new(&mut err_room, Vec::new(alloc));
    let status = counted::<Brand, Brand>(
        alloc,
        words,
        source,
        &mut out,
        &mut err,
        Blank::new(1),
        Blank::new(1),
    );
    Ended {
        status,
        out: bytes_of(rt, alloc, out.bytes()),
        err: bytes_of(rt, alloc, err.bytes()),
    }
}

/// A run over these words and this input, where the calls of these numbers fail at the source and at standard output.
fn run_over(
    rt: &impl Abort,
    alloc: Global,
    words: &[&str],
    input: Vec<u8>,
    reads: &[u64],
    writes: &[u64],
) -> Ended {
    let texts = texts_of(rt, alloc, words);
    let mut source = MemorySource::new(input, numbers_of(rt, alloc, reads));
    run_from(rt, alloc, &texts, &mut source, writes)
}

/// A script: a canvas with its root, more boxes, and commands.
fn script(rt: &impl Abort, alloc: Global, head: &str, boxes: &str, commands: &str) -> String {
    let mut text = String::new(alloc);
    for part in [head, boxes, r#"],"script":["#, commands, "]}"] {
        text.push_str(part).expect(rt, "a longer text");
    }
    text
}

/// A run of `replay` or `render` over this input.
fn over_bytes(rt: &impl Abort, alloc: Global, word: &str, input: &[u8]) -> Ended {
    run_over(rt, alloc, &[word], bytes_of(rt, alloc, input), &[], &[])
}

/// The run ended with this status, and wrote these bytes and this line.
fn is_end(rt: &impl Abort, ended: &Ended, i: usize, status: u8, out: &[u8], err: &str) {
    assert_eq!(rt; ended.status, status, "in case {i}");
    assert!(rt; ended.out.as_slice() == out, "in case {i}");
    assert!(rt; ended.err.as_slice() == err.as_bytes(), "in case {i}");
}

/// A head, boxes, commands, and their answers.
type Case = (&'static str, &'static str, &'static str, &'static str);

/// The script of a case has its answers.
fn is_answered(rt: &impl Abort, alloc: Global, i: usize, case: &Case) {
    let (head, boxes, commands, want) = case;
    let text = script(rt, alloc, head, boxes, commands);
    let ended = over_bytes(rt, alloc, "replay", text.as_bytes());
    is_end(rt, &ended, i, 0, want.as_bytes(), "");
}

/// The script of each case has its answers.
fn each_is_answered(rt: &impl Abort, alloc: Global, cases: &[Case]) {
    for (i, case) in cases.iter().enumerate() {
        is_answered(rt, alloc, i, case);
    }
}

#[test]
fn a_paint_makes_anew_what_meets_the_area(rt: HostRuntime) {
    let cases: [Case; 7] = [
        (
            TEN,
            THREE,
            r#"{"do":"paint"},{"do":"paint"}"#,
            "paint 1 built 4 kept 0 area 100\npaint 2 built 0 kept 4 area 0\n",
        ),
        (
            TEN,
            THREE,
            r##"{"do":"paint"},{"do":"style","id":"A","style":{"background":"#800000"}},{"do":"paint"},
{"do":"pixel","x":2,"y":2}"##,
            "paint 1 built 4 kept 0 area 100\nok\npaint 2 built 3 kept 1 area 16\npixel 00ff00\n",
        ),
        (
            TEN,
            THREE,
            r#"{"do":"paint"},{"do":"style","id":"A","style":{"position":"relative","z-index":1}},{"do":"paint"},
{"do":"pixel","x":2,"y":2}"#,
            "paint 1 built 4 kept 0 area 100\nok\npaint 2 built 3 kept 1 area 16\npixel ff0000\n",
        ),
        (
            TEN,
            THREE,
            r#"{"do":"paint"},{"do":"rect","id":"B","rect":[6,6,3,3]},{"do":"paint"}"#,
            "paint 1 built 4 kept 0 area 100\nok\npaint 2 built 4 kept 0 area 25\n",
        ),
        (
            TEN,
            THREE,
            r##"{"do":"paint"},{"do":"remove","id":"A"},
{"do":"insert","id":"A","parent":"root","rect":[0,6,2,2],"style":{"background":"#ffff00"}},
{"do":"paint"},{"do":"hit","x":0,"y":0},{"do":"hit","x":0,"y":6},{"do":"hit","x":7,"y":7}"##,
            "paint 1 built 4 kept 0 area 100\nok\nok\npaint 2 built 3 kept 1 area 20\nhit root\nhit A\nhit C\n",
        ),
        (
            TEN,
            THREE,
            r#"{"do":"paint"},{"do":"shift","id":"C","dx":999994,"dy":0},
{"do":"shift","id":"C","dx":999993,"dy":0},{"do":"paint"}"#,
            "paint 1 built 4 kept 0 area 100\nrefused 9\nok\npaint 2 built 1 kept 2 area 4\n",
        ),
        (
            TEN,
            r##",{"id":"q","parent":"root","rect":[0,0,4,4],"style":{"overflow":"hidden","background":"#ff0000"}},
{"id":"a","parent":"q","rect":[2,2,6,6],"style":{"position":"absolute","background":"#0000ff"}}"##,
            r#"{"do":"pixel","x":6,"y":6},{"do":"style","id":"q","style":{"position":"relative"}},
{"do":"pixel","x":6,"y":6}"#,
            "paint 1 built 3 kept 0 area 100\npixel 0000ff\nok\npaint 2 built 3 kept 0 area 48\npixel ffffff\n",
        ),
    ];
    each_is_answered(&rt, rt.alloc(), &cases);
}

#[test]
fn edits_are_refused_by_the_first_test_that_holds(rt: HostRuntime) {
    let cases: [Case; 2] = [
        (
            TEN,
            THREE,
            r#"{"do":"paint"},{"do":"remove","id":"Z"},{"do":"move","id":"A","parent":"Z"},
{"do":"move","id":"root","parent":"Z"},{"do":"remove","id":"root"},
{"do":"insert","id":"X","parent":"A","before":"C","rect":[0,0,1,1]},
{"do":"move","id":"A","parent":"root","before":"A"},{"do":"insert","id":"B","parent":"root","rect":[0,0,1,1]}"#,
            "paint 1 built 4 kept 0 area 100\nrefused 1\nrefused 2\nrefused 2\n\
refused 3\nrefused 5\nrefused 5\nrefused 6\n",
        ),
        (
            TEN,
            r##",{"id":"A","parent":"root","rect":[0,0,4,4],"style":{"background":"#ff0000"}},
{"id":"B","parent":"root","rect":[2,2,4,4],"style":{"background":"#00ff00"}},
{"id":"C","parent":"root","rect":[7,7,2,2],"style":{"background":"#0000ff"}},
{"id":"A1","parent":"A","rect":[0,0,1,1],"style":{"background":"#0000ff"}}"##,
            r##"{"do":"paint"},{"do":"move","id":"A","parent":"A1"},{"do":"paint"},
{"do":"style","id":"root","style":{"background":"#ffffff"}},{"do":"paint"}"##,
            "paint 1 built 5 kept 0 area 100\nrefused 4\npaint 2 built 0 kept 5 area 0\nok\n\
paint 3 built 5 kept 0 area 100\n",
        ),
    ];
    each_is_answered(&rt, rt.alloc(), &cases);
}

#[test]
fn questions_are_answered_by_the_painting_order(rt: HostRuntime) {
    let cases: [Case; 7] = [
        (
            TEN,
            r##",{"id":"i","parent":"root","rect":[0,0,4,4],
"style":{"display":"inline","position":"relative","z-index":0,"background":"#ff0000"}},
{"id":"n","parent":"i","rect":[0,0,4,4],"style":{"position":"relative","z-index":-1,"background":"#0000ff"}}"##,
            r#"{"do":"pixel","x":1,"y":1},{"do":"style","id":"i","style":{"display":"block"}},
{"do":"pixel","x":1,"y":1}"#,
            "paint 1 built 3 kept 0 area 100\npixel ff0000\nok\npaint 2 built 3 kept 0 area 16\npixel 0000ff\n",
        ),
        (
            TEN,
            r##",{"id":"f","parent":"root","rect":[0,0,4,4],"style":{"float":"left","background":"#ff0000"}},
{"id":"d","parent":"root","rect":[0,0,4,4],
"style":{"background":"#0000ff","border-width":[1,1,1,1],"content":"#00ff00"}}"##,
            r#"{"do":"pixel","x":0,"y":0},{"do":"pixel","x":1,"y":1},{"do":"hit","x":0,"y":0},
{"do":"hit","x":1,"y":1}"#,
            "paint 1 built 5 kept 0 area 100\npixel ff0000\npixel 00ff00\nhit f\nhit d\n",
        ),
        (
            TEN,
            r##",{"id":"u","parent":"root","rect":[0,0,4,4],"style":{"background":"#ff0000"}},
{"id":"o","parent":"root","rect":[0,0,4,4],"style":{"pointer-events":"none"}},
{"id":"v","parent":"root","rect":[5,5,2,2]}"##,
            r#"{"do":"hit","x":1,"y":1},{"do":"hit","x":5,"y":5},{"do":"hit","x":10,"y":0},{"do":"hit","x":-1,"y":0}"#,
            "paint 1 built 4 kept 0 area 100\nhit u\nhit v\nhit none\nhit none\n",
        ),
        (
            TEN,
            r##",{"id":"H","parent":"root","rect":[0,0,4,4],"style":{"background":"#ff0000","visibility":"hidden"}},
{"id":"k","parent":"H","rect":[1,1,2,2],"style":{"background":"#00ff00","visibility":"visible"}}"##,
            r#"{"do":"hit","x":0,"y":0},{"do":"hit","x":1,"y":1}"#,
            "paint 1 built 2 kept 0 area 100\nhit root\nhit k\n",
        ),
        (
            ONE,
            r##",{"id":"g","parent":"root","rect":[0,0,1,1],"style":{"background":"#ff0000","opacity":128}}"##,
            r#"{"do":"pixel","x":0,"y":0},
{"do":"insert","id":"h","parent":"root","rect":[0,0,0,0],"style":{"opacity":128}},
{"do":"move","id":"g","parent":"h"},{"do":"pixel","x":0,"y":0}"#,
            "paint 1 built 2 kept 0 area 1\npixel ff7f7f\nok\nok\npaint 2 built 2 kept 0 area 1\npixel ffbfbf\n",
        ),
        (
            TEN,
            r##",{"id":"G","parent":"root","rect":[0,0,0,0],"style":{"opacity":128}},
{"id":"c1","parent":"G","rect":[0,0,2,2],"style":{"background":"#ff0000"}},
{"id":"K","parent":"root","rect":[4,0,2,2],"style":{"background":"#00ff00"}}"##,
            r##"{"do":"paint"},{"do":"insert","id":"c2","parent":"G","rect":[8,0,2,2],"style":{"background":"#ff0000"}},
{"do":"paint"},{"do":"pixel","x":8,"y":0},{"do":"pixel","x":10,"y":0}"##,
            "paint 1 built 3 kept 0 area 100\nok\npaint 2 built 2 kept 2 area 4\npixel ff7f7f\npixel none\n",
        ),
        (
            ONE,
            "",
            r#"{"do":"shot"}"#,
            "paint 1 built 1 kept 0 area 1\nshot 3aaa77f17582428b99e7f04836135214e7ae36328fb233b7b284da36da2dafb3\n",
        ),
    ];
    each_is_answered(&rt, rt.alloc(), &cases);
}

#[test]
fn a_dump_has_a_line_for_each_item_and_group(rt: HostRuntime) {
    let cases: [Case; 2] = [
        (
            TEN,
            LEVELS,
            r#"{"do":"paint"},{"do":"dump"},{"do":"paint"},{"do":"dump"}"#,
            "paint 1 built 5 kept 0 area 100\ndump 5\n\
item 0 root back 0 0 10 10 0 0 10 10 0 0 0 0 ffffffff auto 1\n\
item 0 s back 0 0 2 2 0 0 2 2 0 0 0 0 000000ff auto 1\n\
item 0 q back 0 0 2 2 0 0 2 2 0 0 0 0 00ff00ff auto 1\n\
item 0 r back 0 0 2 2 0 0 2 2 0 0 0 0 0000ffff auto 1\n\
item 0 p back 0 0 2 2 0 0 2 2 0 0 0 0 ff0000ff auto 1\n\
paint 2 built 0 kept 5 area 0\ndump 5\n\
item 0 root back 0 0 10 10 0 0 10 10 0 0 0 0 ffffffff auto 1\n\
item 0 s back 0 0 2 2 0 0 2 2 0 0 0 0 000000ff auto 1\n\
item 0 q back 0 0 2 2 0 0 2 2 0 0 0 0 00ff00ff auto 1\n\
item 0 r back 0 0 2 2 0 0 2 2 0 0 0 0 0000ffff auto 1\n\
item 0 p back 0 0 2 2 0 0 2 2 0 0 0 0 ff0000ff auto 1\n",
        ),
        (
            DIM,
            "",
            r#"{"do":"pixel","x":0,"y":0},{"do":"dump"}"#,
            "paint 1 built 1 kept 0 area 1\npixel 7f7f7f\ndump 1\ngroup 0 root 128 1\n\
item 1 root back 0 0 1 1 0 0 1 1 0 0 0 0 000000ff auto 1\n",
        ),
    ];
    each_is_answered(&rt, rt.alloc(), &cases);
}

#[test]
fn blended_boxes_are_composed_in_their_context(rt: HostRuntime) {
    let cases: [Case; 3] = [
        (
            ONE_BLENDED,
            r##",{"id":"m","parent":"root","rect":[0,0,1,1],"style":{"background":"#c08040","mix-blend-mode":"multiply"}}"##,
            r#"{"do":"pixel","x":0,"y":0},{"do":"style","id":"m","style":{"mix-blend-mode":"screen"}},{"do":"pixel","x":0,"y":0},
{"do":"style","id":"m","style":{"mix-blend-mode":"darken"}},{"do":"pixel","x":0,"y":0},
{"do":"style","id":"m","style":{"mix-blend-mode":"lighten"}},{"do":"pixel","x":0,"y":0}"#,
            "paint 1 built 2 kept 0 area 1\npixel 602040\nok\npaint 2 built 2 kept 0 area 1\npixel e0a0ff\nok\n\
paint 3 built 2 kept 0 area 1\npixel 804040\nok\npaint 4 built 2 kept 0 area 1\npixel c080ff\n",
        ),
        (
            TEN_BLENDED,
            r##",{"id":"x","parent":"root","rect":[0,0,4,4],"style":{"position":"relative","z-index":0,"background":"#ff0000"}},
{"id":"k","parent":"x","rect":[6,6,2,2],"style":{"background":"#00ff00"}}"##,
            r##"{"do":"paint"},{"do":"insert","id":"y","parent":"x","rect":[1,1,1,1],
"style":{"background":"#808080","mix-blend-mode":"multiply"}},{"do":"paint"},{"do":"pixel","x":1,"y":1}"##,
            "paint 1 built 3 kept 0 area 100\nok\npaint 2 built 4 kept 0 area 20\npixel 800000\n",
        ),
        (
            TEN_BLENDED,
            r##",{"id":"x","parent":"root","rect":[0,0,4,4],"style":{"position":"relative","z-index":0,"background":"#ff0000"}},
{"id":"z","parent":"x","rect":[8,8,1,1]},
{"id":"y","parent":"z","rect":[8,8,1,1],"style":{"background":"#808080","mix-blend-mode":"multiply"}}"##,
            r##"{"do":"paint"},{"do":"style","id":"x","style":{"background":"#00ff00"}},{"do":"paint"},{"do":"pixel","x":8,"y":8}"##,
            "paint 1 built 4 kept 0 area 100\nok\npaint 2 built 2 kept 2 area 16\npixel 808080\n",
        ),
    ];
    each_is_answered(&rt, rt.alloc(), &cases);
}

/// The one pixel of a white root, in the format P6.
const WHITE_PIXEL: &[u8] = b"P6\n1 1\n255\n\xff\xff\xff";

/// A storm of one box and no edits.
const STORM: &str =
    "storm seed 0 boxes 1 edits 0\naccepted 0 refused 0\npaints 2 built 1 area 65536\n\
final ab3d1bbe688ba26f575013fc60b5cbe90f63889b34b4118d7f2bf7a23c1aa961\n";

#[test]
fn a_picture_is_written(rt: HostRuntime) {
    let alloc = rt.alloc();
    let text = script(&rt, alloc, ONE, "", "");
    let picture = over_bytes(&rt, alloc, "render", text.as_bytes());
    is_end(&rt, &picture, 0, 0, WHITE_PIXEL, "");
}

#[test]
fn a_list_is_handed_on(rt: HostRuntime) {
    let alloc = rt.alloc();
    let text = script(&rt, alloc, ONE, "", "");
    let wire = over_bytes(&rt, alloc, "wire", text.as_bytes());
    is_end(&rt, &wire, 0, 0, ONE_WIRE.as_slice(), "");
    let picture = over_bytes(&rt, alloc, "compose", ONE_WIRE.as_slice());
    is_end(&rt, &picture, 1, 0, WHITE_PIXEL, "");
    let none = over_bytes(&rt, alloc, "compose", &ONE_WIRE[1..]);
    is_end(&rt, &none, 2, 8, &[], "bad wire\n");
}

#[test]
fn paints_are_told_on_tiles(rt: HostRuntime) {
    let alloc = rt.alloc();
    let small = r##",
{"id":"a","parent":"root","rect":[0,0,10,10],"style":{"background":"#ff0000"}}"##;
    let commands =
        r##"{"do":"paint"},{"do":"style","id":"a","style":{"background":"#0000ff"}},{"do":"paint"}"##;
    let text = script(&rt, alloc, HUNDRED, small, commands);
    let tiles = over_bytes(&rt, alloc, "tiles", text.as_bytes());
    let lines = "tiles 1 repainted 4 of 4\ntiles 2 repainted 1 of 4\n\
final 6636949e0bd7771d7f09d3672d2aefc9441fdf920609c4bbeddd9312a88361e4\n";
    is_end(&rt, &tiles, 0, 0, lines.as_bytes(), "");
}

#[test]
fn a_summary_is_written(rt: HostRuntime) {
    let alloc = rt.alloc();
    let words = ["storm", "--seed", "0", "--boxes", "1", "--edits", "0"];
    let storm = run_over(&rt, alloc, &words, Vec::new(alloc), &[], &[]);
    is_end(&rt, &storm, 0, 0, STORM.as_bytes(), "");
}

/// A run with these words ends with the usage before it reads.
fn is_no_form(rt: &impl Abort, alloc: Global, i: usize, words: &[&str]) {
    let ended = run_over(rt, alloc, words, Vec::new(alloc), &[0], &[]);
    is_end(rt, &ended, i, 1, &[], USAGE);
}

#[test]
fn words_of_no_form_end_a_run_before_it_reads(rt: HostRuntime) {
    let cases: [&[&str]; 8] = [
        &[],
        &["paint"],
        &["replay", "--seed", "1"],
        &["render", "replay"],
        &["storm"],
        &["storm", "--seed", "0", "--boxes", "0", "--edits", "0"],
        &["storm", "--seed", "0", "--boxes", "20001", "--edits", "0"],
        &[
            "storm",
            "--seed",
            "18446744073709551616",
            "--boxes",
            "1",
            "--edits",
            "0",
        ],
    ];
    for (i, words) in cases.into_iter().enumerate() {
        is_no_form(&rt, rt.alloc(), i, words);
    }
}

/// An input, the status and the line.
type BadInput = (&'static [u8], u8, &'static str);

/// The input is refused with its status and its line.
fn is_refused(rt: &impl Abort, alloc: Global, i: usize, case: &BadInput) {
    let (input, status, line) = case;
    let bad = over_bytes(rt, alloc, "replay", input);
    is_end(rt, &bad, i, *status, &[], line);
}

#[test]
fn each_bad_input_has_its_status_and_its_line(rt: HostRuntime) {
    let cases: [BadInput; 10] = [
        (b"", 2, "not json\n"),
        (b"\xff", 2, "not json\n"),
        (b"{} {}", 2, "not json\n"),
        (b"{\"vers", 2, "not json\n"),
        (b"{}", 3, "form: top: Missing\n"),
        (b"{\"x\":1}", 3, "form: top: Unknown\n"),
        (b"{\"version\":1.0}", 3, "form: top: Kind\n"),
        (b"{\"version\":3}", 3, "form: top: Range\n"),
        (b"{\"version\":1}", 3, "form: top: Missing\n"),
        (
            b"{\"version\":1,\"canvas\":{\"w\":4097,\"h\":1}}",
            3,
            "form: canvas: Range\n",
        ),
    ];
    for (i, case) in cases.iter().enumerate() {
        is_refused(&rt, rt.alloc(), i, case);
    }
}

/// What of the script is written otherwise, how, the status and the line.
type Change = (&'static str, &'static str, u8, &'static str);

/// The script with the change has its status and its line.
fn is_placed(rt: &impl Abort, alloc: Global, i: usize, whole: &str, case: &Change) {
    let (from, to, status, line) = case;
    let text = whole.replace(alloc, from, to).expect(rt, "a text");
    let bad = over_bytes(rt, alloc, "replay", text.as_bytes());
    assert_eq!(rt; bad.status, *status, "in case {i}");
    assert!(rt; bad.err.as_slice() == line.as_bytes(), "in case {i}");
}

#[test]
fn each_broken_rule_has_its_place(rt: HostRuntime) {
    let whole = script(&rt, rt.alloc(), TEN, THREE, r#"{"do":"paint"}"#);
    let cases: [Change; 7] = [
        ("[0,0,10,10]", "[0,0,1000001,10]", 3, "form: box 0: Range\n"),
        ("[0,0,4,4]", "[0,0,1000000,4]", 0, ""),
        ("\"#0000ff\"", "\"#12345\"", 3, "form: box 3: Color\n"),
        (
            "\"id\":\"C\"",
            "\"id\":\"A\"",
            3,
            "form: box 3: Duplicate\n",
        ),
        (
            "\"B\",\"parent\":\"root\"",
            "\"B\",\"parent\":\"Q\"",
            3,
            "form: box 2: Parent\n",
        ),
        (
            "\"paint\"",
            "\"paint\",\"x\":1",
            3,
            "form: command 0: Unknown\n",
        ),
        ("\"paint\"", "\"draw\"", 3, "form: command 0: Command\n"),
    ];
    for (i, case) in cases.iter().enumerate() {
        is_placed(&rt, rt.alloc(), i, whole.as_str(), case);
    }
}

/// Which reads fail, which writes, the status and the line.
type Failing = (&'static [u64], &'static [u64], u8, &'static str);

/// The run with the failing stream has its status and its line.
fn is_ended(rt: &impl Abort, alloc: Global, i: usize, whole: &str, case: &Failing) {
    let (reads, writes, status, line) = case;
    let input = bytes_of(rt, alloc, whole.as_bytes());
    let bad = run_over(rt, alloc, &["replay"], input, reads, writes);
    is_end(rt, &bad, i, *status, &[], line);
}

#[test]
fn a_failing_stream_ends_a_run(rt: HostRuntime) {
    let whole = script(&rt, rt.alloc(), TEN, THREE, r#"{"do":"paint"}"#);
    let cases: [Failing; 2] = [
        (&[0], &[], 4, "read fault\n"),
        (&[], &[0], 5, "write fault\n"),
    ];
    for (i, case) in cases.iter().enumerate() {
        is_ended(&rt, rt.alloc(), i, whole.as_str(), case);
    }
}

/// A run over so many spaces.
fn over_spaces(rt: &impl Abort, alloc: Global, count: usize) -> Ended {
    let spaces = vec![in alloc; b' '; count].expect(rt, "spaces");
    run_over(rt, alloc, &["replay"], spaces, &[], &[])
}

#[test]
fn the_input_ends_at_its_limit(rt: HostRuntime) {
    let most = 67_108_864;
    let full = over_spaces(&rt, rt.alloc(), most);
    assert_eq!(rt; full.status, 2);
    let over = over_spaces(&rt, rt.alloc(), most + 1);
    assert_eq!(rt; over.status, 7);
    assert!(rt; over.err.as_slice() == "input too large\n".as_bytes());
}
