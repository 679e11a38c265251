//! The check of a dump beside the tree at the end of a script.

ghost use Rattle.std.specs.Prelude.{◌≡◌, ◌==◌, ◌<◌, ◌≤◌, ℕ, List, length, take, drop, IfOk, string_bytes};
ghost use Rattle.rd_check.specs.Rows.{IsReadFrom};
ghost use Rattle.rd_check.specs.Spoken.{verdict_line};
ghost use Rattle.rd_tree.specs.Forest.{size};
ghost use Rattle.rd_run.specs.Checks.{dump_before, script_from};
ghost use Rattle.rd_run.specs.Endings.{counter, stream, EndsAs};
ghost use Rattle.rd_run.specs.Internal.Answered.{ChecksAs, ChecksScript, ChecksOf, ChecksText};
ghost use Rattle.rd_run.specs.declared.words.WordsForm.TheVariants.{Check};

use crate::input::{read_bytes, script_of};
use crate::last::last_tree;
use crate::performing::write;
use crate::status::Status;
use rd_check::{CheckFault, Dump, Verdict, push_verdict};
use rd_geom::{NoMemory, Steps};
use rd_io::{Sink, Source};
use rd_scene::Script;
use rd_tree::Tree;
use std::alloc::Global;
use std::sync::ledger::Ledger;

/// Is it the first byte of a script? No dump has it.
fn opens(byte: u8) -> bool
    ensures { result ≡ (byte == 123) }
{
    byte == b'{'
}

/// How many bytes stand before the script.
fn script_start(bytes: &[u8]) -> usize
    ensures within { result ≤ length bytes.now }
    ensures dump { take result bytes.now ≡ dump_before bytes.now }
    ensures script { drop result bytes.now ≡ script_from bytes.now }
{
    for i in 0..bytes.len() {
        if opens(bytes[i]) {
            return i;
        }
    }
    bytes.len()
}

fn verdict_text<B: Ledger>(
    alloc: Global,
    tree: &Tree<B>,
    verdict: Verdict,
) -> Result<String, NoMemory>
    ensures { IfOk result (λ text. string_bytes text ≡ verdict_line tree.now.boxes verdict) }
{
    let mut text = String::new(alloc);
    push_verdict(&mut text, tree, verdict)?;
    Ok(text)
}

/// Checks a dump beside a tree, and writes the verdict.
fn check_tree<O: Sink, A: Ledger, B: Ledger>(
    alloc: Global,
    dump: &Dump,
    tree: &Tree<B>,
    out: &mut O,
    made: &mut Steps<A>,
    looks: &mut Steps<B>,
) -> Status
    ensures { (text : List ℕ) → IsReadFrom text dump.now → ChecksAs text tree.now (size tree.now.boxes)
        (stream (O.written out.old) (O.written out.new) (O.faults out.old) (O.faults out.new))
        (counter made.old made.new) (counter looks.old looks.new) result }
{
    let verdict = match dump.check(alloc, tree, made, looks) {
        Ok(verdict) => verdict,
        Err(_) => return Status::NoMemory,
    };
    match verdict_text(alloc, tree, verdict) {
        Ok(text) => write(out, text.as_bytes()),
        Err(_) => Status::NoMemory,
    }
}

/// Checks a dump beside the tree at the end of a script, and writes the verdict.
fn check_script<O: Sink, A: Ledger, B: Ledger>(
    alloc: Global,
    dump: &Dump,
    script: &Script,
    out: &mut O,
    made: &mut Steps<A>,
    looks: &mut Steps<B>,
) -> Status
    ensures { (text : List ℕ) → IsReadFrom text dump.now
        → ChecksScript ((out.new ≡ out.old) × (made.new ≡ made.old) × (looks.new ≡ looks.old)) text script.now
        (stream (O.written out.old) (O.written out.new) (O.faults out.old) (O.faults out.new))
        (counter made.old made.new) (counter looks.old looks.new) result }
{
    let tree: Tree<B> = match last_tree(alloc, script, made, looks) {
        Ok(tree) => tree,
        Err(_) => return Status::NoMemory,
    };
    check_tree(alloc, dump, &tree, out, made, looks)
}

/// Reads a dump, checks it beside the tree at the end of a script, and writes the verdict.
fn check_dump<O: Sink, A: Ledger, B: Ledger>(
    alloc: Global,
    bytes: &[u8],
    script: &Script,
    out: &mut O,
    made: &mut Steps<A>,
    looks: &mut Steps<B>,
) -> Status
    requires { length bytes.now < 4294967296 }
    ensures { ChecksOf ((out.new ≡ out.old) × (made.new ≡ made.old) × (looks.new ≡ looks.old)) bytes.now script.now
        (stream (O.written out.old) (O.written out.new) (O.faults out.old) (O.faults out.new))
        (counter made.old made.new) (counter looks.old looks.new) result }
{
    match Dump::read(alloc, bytes) {
        Ok(dump) => check_script(alloc, &dump, script, out, made, looks),
        Err(CheckFault::Dump) => Status::BadDump,
        Err(CheckFault::NoMemory) => Status::NoMemory,
    }
}

/// Checks the dump before a script in bytes, and writes the verdict.
fn check_bytes<O: Sink, A: Ledger, B: Ledger>(
    alloc: Global,
    bytes: &[u8],
    out: &mut O,
    made: &mut Steps<A>,
    looks: &mut Steps<B>,
) -> Status
    requires { length bytes.now < 4294967296 }
    ensures { ChecksText ((out.new ≡ out.old) × (made.new ≡ made.old) × (looks.new ≡ looks.old)) bytes.now
        (stream (O.written out.old) (O.written out.new) (O.faults out.old) (O.faults out.new))
        (counter made.old made.new) (counter looks.old looks.new) result }
{
    let start = script_start(bytes);
    let text = &bytes[start..];
    let dump = &bytes[..start];
    match script_of(alloc, text) {
        Ok(script) => check_dump(alloc, dump, &script, out, made, looks),
        Err(status) => status,
    }
}

/// Reads a dump and a script, and writes the verdict on the dump beside the tree at the script's end.
pub(crate) fn check_input<S: Source, O: Sink, A: Ledger, B: Ledger>(
    alloc: Global,
    source: &mut S,
    out: &mut O,
    made: &mut Steps<A>,
    looks: &mut Steps<B>,
) -> Status
    ensures { EndsAs (source.new ≡ source.old) ((out.new ≡ out.old) × (made.new ≡ made.old) × (looks.new ≡ looks.old))
        (stream (S.left source.old) (S.left source.new) (S.faults source.old) (S.faults source.new))
        (stream (O.written out.old) (O.written out.new) (O.faults out.old) (O.faults out.new))
        (counter made.old made.new) (counter looks.old looks.new) Check result }
{
    match read_bytes(alloc, source) {
        Ok(all) => check_bytes(alloc, all.as_slice(), out, made, looks),
        Err(status) => status,
    }
}
