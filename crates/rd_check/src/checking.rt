//! The check of a dump.
ghost use Rattle.std.specs.Prelude.{◌≡◌, ◌<◌, ◌≤◌, ◌+◌, ℕ, List, length, IfOk, OnOk, IsErrOf};
ghost use Rattle.rd_list.specs.Entries.{flat};
ghost use Rattle.rd_list.specs.Lists.{StandsFor};
ghost use Rattle.rd_stack.specs.Fresh.{fresh_list};
ghost use Rattle.rd_tree.specs.Forest.{size};
ghost use Rattle.rd_report.specs.Dumps.{NamedList};
ghost use Rattle.rd_check.specs.Dumped.{IsDumpOf};
ghost use Rattle.rd_check.specs.Checked.{IsChecked};
ghost use Rattle.rd_check.specs.Rows.{IsReadFrom};

use crate::dump::Dump;
use crate::fault::CheckFault;
use crate::judging::judge;
use crate::naming::{Named, name_all};
use crate::painted::Painted;
use crate::verdict::Verdict;
use rd_geom::{NoMemory, Steps};
use rd_partial::build_all;
use rd_stack::laws::stands_for_itself;
use rd_tree::Tree;
use std::alloc::Global;
use std::sync::ledger::Ledger;

/// The painting order of a tree stands for itself, since no two boxes have one key.
fn fresh_stands<B: Ledger>(tree: &Tree<B>)
    ensures { StandsFor (fresh_list tree.now) (fresh_list tree.now) }
{
    let _root = tree.root();
    stands_for_itself();
}

impl Dump {
    /// What the dump is of, beside the painting order of a tree: the first verdict that holds. The items of the painting order
    /// are counted in `made`, looks in `looks`; without memory both count what was done.
    pub fn check<A: Ledger, B: Ledger>(
        &self,
        alloc: Global,
        tree: &Tree<B>,
        made: &mut Steps<A>,
        looks: &mut Steps<B>,
    ) -> Result<Verdict, NoMemory>
        // The verdict on the text that was read: the first of the table that holds, and `Yes` exactly where the dumped list stands
        // for the painting order.
        ensures verdict { IfOk result (λ v. (text : List ℕ) → IsReadFrom text self.now → IsChecked text tree.now v) }
        // The items of the painting order.
        ensures made { OnOk result (made.new ≡ made.old + length (flat (fresh_list tree.now))) }
        ensures most { made.new ≤ made.old + length (flat (fresh_list tree.now)) }
        // At most one look at each box.
        ensures looks { looks.new ≤ looks.old + size tree.now.boxes }
    {
        fresh_stands(tree);
        let fresh = build_all(alloc, tree, 1, made, looks)?;
        let painted = Painted::of(alloc, &fresh)?;
        match name_all(alloc, tree, &self.rows)? {
            Named::Entries(entries) => Ok(judge(alloc, &entries, &painted)?),
            Named::Unknown(i) => Ok(Verdict::Unknown { entry: i as u32 }),
        }
    }
}

/// What a dump is of, beside the painting order of a tree: the first verdict that holds. `Dump` exactly where the bytes
/// are no dump; then nothing is counted. The items of the painting order are counted in `made`, looks in `looks`; without
/// memory both count what was done. The bytes are fewer than 4,294,967,296.
pub fn check<A: Ledger, B: Ledger>(
    alloc: Global,
    dump: &[u8],
    tree: &Tree<B>,
    made: &mut Steps<A>,
    looks: &mut Steps<B>,
) -> Result<Verdict, CheckFault>
    requires { length dump.now < 4294967296 }
    // A verdict comes of a dump alone. It is the first of the table that holds, and `Yes` exactly where the dumped list stands for
    // the painting order.
    ensures verdict { IfOk result (IsChecked dump.now tree.now) }
    // `Dump` comes only where the bytes are no dump; then nothing was counted.
    ensures dump { IsErrOf result CheckFault.Dump → (list : NamedList) → IsDumpOf dump.now list → ⊥ }
    ensures unmade { IsErrOf result CheckFault.Dump → made.new ≡ made.old }
    ensures unlooked { IsErrOf result CheckFault.Dump → looks.new ≡ looks.old }
    // The items of the painting order.
    ensures made { OnOk result (made.new ≡ made.old + length (flat (fresh_list tree.now))) }
    ensures most { made.new ≤ made.old + length (flat (fresh_list tree.now)) }
    // At most one look at each box.
    ensures looks { looks.new ≤ looks.old + size tree.now.boxes }
{
    let read = Dump::read(alloc, dump)?;
    Ok(read.check(alloc, tree, made, looks)?)
}
