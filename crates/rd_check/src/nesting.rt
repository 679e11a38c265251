//! The lines of a dump as those of a nested list.
ghost use Rattle.std.specs.Prelude.{◌≡◌, ◌==◌, ◌<◌, ◌≤◌, [], true, List, length, map, reverse, option_map, OnOk, IfOk, IsErrOf};
ghost use Rattle.std.specs.List.{AllByRecursion};
ghost use Rattle.rd_report.specs.Dumps.{NamedList};
ghost use Rattle.rd_check.specs.Dumped.{IsDumpOf};
ghost use Rattle.rd_check.specs.Rows.{NamedRow, row_of, rows};
ghost use Rattle.rd_check.specs.Internal.Rows.{FitsRow, row_lines};
ghost use Rattle.rd_check.specs.Internal.Nesting as nesting;
ghost use Rattle.rd_check.specs.Internal.Nesting.{without_done, one_less, opened, nests};
ghost use Rattle.rd_check.specs.Internal.Head as head;

use crate::fault::CheckFault;
use crate::fields::number_before;
use crate::reading::row_at;
use crate::row::{Row, What};
use crate::words::word_before;
use std::alloc::{AllocError, Global};

/// Closes the innermost groups that want no more entries.
fn close(stack: &mut Vec<u64>)
    ensures { reverse stack.new.items ≡ without_done (reverse stack.old.items) }
{
    while !stack.is_empty() && stack[stack.len() - 1] == 0 {
        stack.pop();
    }
}

/// May the entry come, below just the open groups?
#[tactic(auto, using(crate::proofs::Stacks::stacked))]
fn may_come(stack: &[u64], row: &Row) -> bool
    ensures { result ≡ nesting.may_come (reverse stack.now) (row_of row.now) }
{
    if row.depth != stack.len() as u64 {
        return false;
    }
    match row.what {
        What::Item(_) => true,
        What::Group { entries, .. } => 0 < entries && stack.len() < 256,
    }
}

/// Is no group open?
#[tactic(auto, using(crate::proofs::Stacks::stacked))]
fn none_is_open(stack: &[u64]) -> bool
    ensures { result ≡ (length (reverse stack.now) == 0) }
{
    stack.is_empty()
}

/// The innermost open group has this entry, and the entry is open where it is a group.
#[tactic(auto, using(crate::proofs::Stacks::stacked))]
fn enter(stack: &mut Vec<u64>, row: &Row) -> Result<(), AllocError>
    ensures { OnOk result (reverse stack.new.items ≡ opened (row_of row.now) (one_less (reverse stack.old.items))) }
{
    if let Some(wanted) = stack.pop() {
        stack.push(wanted.saturating_sub(1))?;
    }
    match row.what {
        What::Item(_) => Ok(()),
        What::Group { entries, .. } => {
            stack.push(entries)?;
            Ok(())
        }
    }
}

/// The lines that some bytes are, where they are those of a nested list.
fn rows_of(alloc: Global, bytes: &[u8]) -> Result<Vec<Row>, CheckFault>
    ensures lines { IfOk result (λ v. bytes.now ≡ row_lines (map row_of v.items)) }
    ensures fit { IfOk result (λ v. AllByRecursion FitsRow (map row_of v.items)) }
    ensures nested { IfOk result (λ v. nests [] (map row_of v.items) ≡ true) }
    ensures none { IsErrOf result CheckFault.Dump → (rs : List NamedRow) → AllByRecursion FitsRow rs
        → nests [] rs ≡ true → bytes.now ≡ row_lines rs → ⊥ }
{
    let mut rows = Vec::new(alloc);
    let mut stack = Vec::new(alloc);
    let mut rest = bytes;
    while !rest.is_empty() {
        let (row, after) = row_at(alloc, rest)?;
        close(&mut stack);
        if !may_come(&stack, &row) {
            return Err(CheckFault::Dump);
        }
        enter(&mut stack, &row)?;
        rows.push(row)?;
        rest = after;
    }
    close(&mut stack);
    if none_is_open(&stack) {
        Ok(rows)
    } else {
        Err(CheckFault::Dump)
    }
}

/// 1 for a leaf, and 0 for a group.
fn leaf_count(row: &Row) -> u64
    ensures count { result ≡ nesting.leaf_count (row_of row.now) }
    ensures most { result ≤ 1 }
{
    match row.what {
        What::Item(_) => 1,
        What::Group { .. } => 0,
    }
}

/// How many of the lines are those of leaves.
fn leaves_in(rows: &[Row]) -> u64
    ensures { result ≡ nesting.leaves_in (map row_of rows.now) }
{
    let mut leaves: u64 = 0;
    for row in rows {
        leaves += leaf_count(row);
    }
    leaves
}

/// The number of leaves that the first line tells, and what comes after it.
fn leaves_at(bytes: &[u8]) -> Option<(u64, &[u8])>
    ensures { option_map (λ x. (x.0, x.1.now)) result ≡ head.leaves_at bytes.now }
{
    let (word, rest) = word_before(b' ', bytes)?;
    if word == b"dump".as_slice() {
        number_before(b'\n', rest)
    } else {
        None
    }
}

/// The lines of the entries of a dump. `Dump` exactly where the bytes are none.
pub(crate) fn read(alloc: Global, dump: &[u8]) -> Result<Vec<Row>, CheckFault>
    requires { length dump.now < 4294967296 }
    ensures found { IfOk result (λ v. (list : NamedList) × IsDumpOf dump.now list × (map row_of v.items ≡ rows 0 list)) }
    ensures few { IfOk result (λ v. length v.items < 4294967296) }
    ensures none { IsErrOf result CheckFault.Dump → (list : NamedList) → IsDumpOf dump.now list → ⊥ }
{
    let Some((leaves, rest)) = leaves_at(dump) else {
        return Err(CheckFault::Dump);
    };
    let rows = rows_of(alloc, rest)?;
    if leaves_in(&rows) == leaves {
        Ok(rows)
    } else {
        Err(CheckFault::Dump)
    }
}
