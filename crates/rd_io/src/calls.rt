//! Calls that are to fail by their number.

ghost use Rattle.std.specs.Prelude.{◌≡◌, OkIff};
ghost use Rattle.rd_io.specs.Causes.{HasCause, one_more};
ghost use Rattle.rd_io.specs.Memory.{Calls as SeenCalls, MayPass, NextCall, first_call};

use crate::source::Failed;
use std::marker::Model;

/// Counts calls and their faults. The calls whose numbers are given, counted from 0, fail.
#[derive(Drop)]
pub(crate) struct Calls {
    call: u64,
    failing: Vec<u64>,
    faults: u64,
}

impl Model for Calls {
    ghost Value = { SeenCalls };

    ghost view = { λ c. record { call = c.call; failing = c.failing.items; faults = c.faults } };
}

impl Calls {
    pub(crate) fn new(failing: Vec<u64>) -> Calls
        ensures { result ≡ first_call failing.items }
    {
        Calls {
            call: 0,
            failing,
            faults: 0,
        }
    }

    /// Counts a call, which fails where it is to.
    pub(crate) fn begin(&mut self) -> Result<(), Failed>
        ensures passes { OkIff result (MayPass self.old) tt }
        ensures next { NextCall self.old self.new }
        ensures cause { HasCause self.old.faults self.new.faults result }
    {
        let call = self.call;
        self.call = call.saturating_add(1);
        if self.failing.contains(&call) {
            self.faults = self.faults.saturating_add(1);
            return Err(Failed);
        }
        Ok(())
    }

    /// Counts a fault of a call that had begun.
    pub(crate) fn fail(&mut self) -> Failed
        ensures counted { self.new.faults ≡ one_more self.old.faults }
        ensures call { self.new.call ≡ self.old.call }
        ensures failing { self.new.failing ≡ self.old.failing }
    {
        self.faults = self.faults.saturating_add(1);
        Failed
    }
}
