//! Checks of dumps of one scene: what no clause says of want of memory, and each verdict once.
ghost use Rattle.std.specs.Prelude.{◌≡◌, ◌<◌};

use rd_check::{CheckFault, Verdict, check, push_verdict};
use rd_geom::Steps;
use rd_keys::Part;
use rd_scene::{Script, plant, read};
use rd_tree::{Id, Tree};
use std::alloc::Global;
use std::marker::Brand;
use std::process::Abort;
use std::sync::ledger::{Blank, Ledger};

/// Layers at four levels on one place of a white root, and a group.
const SCENE: &str = r##"{"version":1,"canvas":{"w":10,"h":10},"boxes":[
{"id":"root","parent":null,"rect":[0,0,10,10],"style":{"background":"#ffffff"}},
{"id":"p","parent":"root","rect":[0,0,2,2],"style":{"position":"relative","z-index":2147483647,"background":"#ff0000"}},
{"id":"q","parent":"root","rect":[0,0,2,2],"style":{"position":"relative","z-index":0,"background":"#00ff00"}},
{"id":"r","parent":"root","rect":[0,0,2,2],"style":{"position":"relative","z-index":"auto","background":"#0000ff"}},
{"id":"s","parent":"root","rect":[0,0,2,2],"style":{"position":"relative","z-index":-2147483648,"background":"#000000"}},
{"id":"t","parent":"q","rect":[-4,0,2,2]}
],"script":[]}"##;

const ROOT: &str = "item 0 root back 0 0 10 10 0 0 10 10 0 0 0 0 ffffffff auto 1\n";

const S: &str = "item 0 s back 0 0 2 2 0 0 2 2 0 0 0 0 000000ff auto 1\n";

const Q: &str = "item 0 q back 0 0 2 2 0 0 2 2 0 0 0 0 00ff00ff auto 1\n";

const R: &str = "item 0 r back 0 0 2 2 0 0 2 2 0 0 0 0 0000ffff auto 1\n";

const P: &str = "item 0 p back 0 0 2 2 0 0 2 2 0 0 0 0 ff0000ff auto 1\n";

fn joined(rt: &impl Abort, alloc: Global, lines: &[&str]) -> String {
    let mut text = String::new(alloc);
    for line in lines {
        text.push_str(line).expect(rt, "a longer text");
    }
    text
}

/// The line of a verdict.
fn line_of<B: Ledger>(rt: &impl Abort, alloc: Global, tree: &Tree<B>, verdict: Verdict) -> String {
    let mut text = String::new(alloc);
    push_verdict(&mut text, tree, verdict).expect(rt, "a line");
    text
}

/// What a check of these lines says.
fn said<A: Ledger, B: Ledger>(
    rt: &impl Abort,
    alloc: Global,
    tree: &Tree<B>,
    made: &mut Steps<A>,
    looks: &mut Steps<B>,
    lines: &[&str],
) -> Result<Verdict, CheckFault> {
    let text = joined(rt, alloc, lines);
    let bytes = text.as_bytes();
    assert!(rt; bytes.len() < 4_294_967_296);
    check(alloc, bytes, tree, made, looks)
}

fn verdicts<A: Ledger, B: Ledger>(
    rt: &impl Abort,
    alloc: Global,
    tree: &Tree<B>,
    made: &mut Steps<A>,
    looks: &mut Steps<B>,
) {
    let p = tree
        .find(&Id::new(alloc, "p").expect(rt, "an id"))
        .expect(rt, "a box");
    let cases: [(&[&str], Verdict, &str); 9] = [
        (&["dump 5\n", ROOT, S, Q, R, P], Verdict::Yes, "yes\n"),
        (
            &["dump 5\n", ROOT, S, Q, P, R],
            Verdict::Order {
                first: 3,
                second: 4,
            },
            "no order 3 4\n",
        ),
        (
            &["dump 4\n", ROOT, S, Q, R],
            Verdict::Missing {
                key: p,
                part: Part::Back,
            },
            "no missing p back\n",
        ),
        (
            &[
                "dump 5\n",
                ROOT,
                "item 0 s back 0 0 2 2 0 0 2 2 0 0 0 0 000001ff auto 1\n",
                Q,
                R,
                P,
            ],
            Verdict::Differs { entry: 1 },
            "no differs 1\n",
        ),
        (
            &[
                "dump 5\n",
                ROOT,
                S,
                Q,
                R,
                "group 0 q 128 1\n",
                "item 1 p back 0 0 2 2 0 0 2 2 0 0 0 0 ff0000ff auto 7\n",
            ],
            Verdict::Wrapped { entry: 5 },
            "no wrapped 5\n",
        ),
        (
            &[
                "dump 5\n",
                ROOT,
                S,
                Q,
                R,
                "item 0 p border 0 0 2 2 0 0 2 2 0 0 0 0 ff0000ff auto 1\n",
            ],
            Verdict::Extra { entry: 4 },
            "no extra 4\n",
        ),
        (
            &["dump 6\n", ROOT, S, Q, R, P, S],
            Verdict::Twice { entry: 5 },
            "no twice 5\n",
        ),
        (
            &[
                "dump 5\n",
                ROOT,
                S,
                Q,
                R,
                "item 0 x back 0 0 2 2 0 0 2 2 0 0 0 0 ff0000ff auto 1\n",
            ],
            Verdict::Unknown { entry: 4 },
            "no unknown 4\n",
        ),
        (
            &["dump 0\n"],
            Verdict::Missing {
                key: tree.root(),
                part: Part::Back,
            },
            "no missing root back\n",
        ),
    ];
    for (lines, want, line) in cases {
        let given = said(rt, alloc, tree, made, looks, lines).expect(rt, "a verdict");
        assert_eq!(rt; given, want);
        let text = line_of(rt, alloc, tree, given);
        assert_eq!(rt; text.as_str(), line);
    }
}

fn faults<A: Ledger, B: Ledger>(
    rt: &impl Abort,
    alloc: Global,
    tree: &Tree<B>,
    made: &mut Steps<A>,
    looks: &mut Steps<B>,
) {
    let cases: [&[&str]; 8] = [
        &["dump 6\n", ROOT, S, Q, R, P],
        &[""],
        &["dump 0"],
        &["dump 00\n"],
        &[
            "dump 1\n",
            "item 1 s back 0 0 2 2 0 0 2 2 0 0 0 0 000000ff auto 1\n",
        ],
        &[
            "dump 1\n",
            "item 0 s back -0 0 2 2 0 0 2 2 0 0 0 0 000000ff auto 1\n",
        ],
        &["dump 0\n", "group 0 s 128 0\n"],
        &[
            "dump 1\n",
            "group 0 s 128 2\n",
            "item 1 s back 0 0 2 2 0 0 2 2 0 0 0 0 000000ff auto 1\n",
        ],
    ];
    for lines in cases {
        let given = said(rt, alloc, tree, made, looks, lines);
        assert!(rt; matches!(given, Err(CheckFault::Dump)));
    }
}

fn with_ledgers<A: Ledger, B: Ledger>(rt: &impl Abort, alloc: Global, one: Blank, two: Blank)
    requires one_name { one.name ≡ A.name }
    requires one_parts { one.parts ≡ A.parts }
    requires one_some { 0 < one.parts }
    requires two_name { two.name ≡ B.name }
    requires two_parts { two.parts ≡ B.parts }
    requires two_some { 0 < two.parts }
{
    let mut made = Steps::<A>::new(one);
    let mut looks = Steps::<B>::new(two);
    let script: Script = read(alloc, SCENE.as_bytes()).expect(rt, "a script");
    let tree: Tree<B> = plant(alloc, &script).expect(rt, "a tree");
    verdicts(rt, alloc, &tree, &mut made, &mut looks);
    faults(rt, alloc, &tree, &mut made, &mut looks);
}

#[test]
fn of_one_scene(rt: HostRuntime) {
    with_ledgers::<Brand, Brand>(&rt, rt.alloc(), Blank::new(1), Blank::new(1));
}
