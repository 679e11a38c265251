//! The line of a verdict.
ghost use Rattle.std.specs.Prelude.{◌≡◌, ◌++◌, OnOk, string_bytes};
ghost use Rattle.rd_check.specs.Spoken.{verdict_line};

use crate::verdict::Verdict;
use rd_geom::NoMemory;
use rd_report::{id_text, part_text};
use rd_tree::Tree;
use std::sync::ledger::Ledger;

/// Puts the line of a verdict on a dump and a tree at the end of a text.
pub fn push_verdict<B: Ledger>(
    out: &mut String,
    tree: &Tree<B>,
    verdict: Verdict,
) -> Result<(), NoMemory>
    ensures { OnOk result (string_bytes out.new ≡ string_bytes out.old ++ verdict_line tree.now.boxes verdict) }
{
    match verdict {
        Verdict::Unknown { entry } => write!(out, "no unknown {entry}\n"),
        Verdict::Twice { entry } => write!(out, "no twice {entry}\n"),
        Verdict::Extra { entry } => write!(out, "no extra {entry}\n"),
        Verdict::Differs { entry } => write!(out, "no differs {entry}\n"),
        Verdict::Wrapped { entry } => write!(out, "no wrapped {entry}\n"),
        Verdict::Missing { key, part } => {
            let id = id_text(tree, key);
            let part = part_text(part);
            write!(out, "no missing {id} {part}\n")
        }
        Verdict::Order { first, second } => write!(out, "no order {first} {second}\n"),
        Verdict::Yes => write!(out, "yes\n"),
    }
}
