//! The entries of a new list, taken one after another.
ghost use Rattle.std.specs.Prelude.{◌≡◌};
ghost use Rattle.rd_merge.specs.Internal.Untaken.{IsTurned, untaken};

use rd_list::{NewEntry, NewList};
use std::alloc::Global;
use std::sync::ledger::Ledger;
use std::vec::IntoIter;

/// The entries of a new list that are not taken yet: what is left of a run, and the runs after it.
#[derive(Drop)]
pub(crate) struct NewEntries<A: Ledger> {
    pub(crate) run: IntoIter<NewEntry<A>, Global>,
    pub(crate) after: IntoIter<Vec<NewEntry<A>>, Global>,
}

impl<A: Ledger> NewEntries<A> {
    /// All entries of a list.
    pub(crate) fn new(alloc: Global, list: NewList<A>) -> NewEntries<A>
        ensures { untaken result ≡ list }
    {
        NewEntries {
            run: Vec::new(alloc).into_iter(),
            after: list.runs.into_iter(),
        }
    }

    /// Goes on to the next run that has entries.
    #[inline(never)]
    fn next_run(&mut self)
        ensures same { untaken self.new ≡ untaken self.old }
        ensures turned { IsTurned self.new }
    {
        while self.run.len() == 0 {
            match self.after.next() {
                Some(run) => self.run = run.into_iter(),
                None => return,
            }
        }
    }

    /// Goes on to the next run that has entries, where nothing is left of this one.
    #[inline(always)]
    pub(crate) fn turn(&mut self)
        ensures same { untaken self.new ≡ untaken self.old }
        ensures turned { IsTurned self.new }
    {
        if self.run.len() == 0 {
            self.next_run();
        }
    }
}
