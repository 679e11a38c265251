//! The handle that C holds.

ghost use Rattle.std.specs.Prelude.{◌≡◌, Some, None, option_map};
ghost use Rattle.rd_c.specs.Handles.{IsSound};

use crate::held::Held;
use crate::loose::Loose;
use crate::painter::Painter;
use std::alloc::Global;
use std::mem;

/// What C holds of an engine. All bytes 0 is a handle that holds none.
#[repr(C)]
#[derive(Drop)]
pub struct RdEngine {
    pub(crate) held: Held,
    pub(crate) full: bool,
}

impl RdEngine {
    /// The engine, which the handle no longer holds.
    pub(crate) fn take(&mut self, alloc: Global) -> Option<Box<Painter, Global>>
        requires { IsSound self.old.held.value self.old.full }
        ensures taken { option_map (λ b. b.value) result ≡ self.old.held.value }
        ensures left { self.new.held.value ≡ None }
        ensures sound { IsSound self.new.held.value self.new.full }
    {
        if !self.full {
            return None;
        }
        let held = mem::replace(&mut self.held, Held::none(alloc));
        self.full = false;
        Some(held.into_loose().into_box())
    }

    /// The handle holds the engine from now on.
    pub(crate) fn put(&mut self, engine: Box<Painter, Global>)
        ensures held { self.new.held.value ≡ Some engine.value }
        ensures sound { IsSound self.new.held.value self.new.full }
    {
        self.held = Held::of(Loose::of(engine));
        self.full = true;
    }
}
