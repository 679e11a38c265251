//! The memory of an engine, as its pointer.

ghost use Rattle.std.specs.Prelude.{◌≡◌, Option, Some, None};
ghost use Rattle.std.specs.Coded.{coded_option};
ghost use Rattle.rd_c.specs.Handles.{IsHeld};
ghost use Rattle.rd_c.specs.declared.painter.Painter.{Painter as Kept};
ghost use Rattle.rd_c.specs.contracts.painter.Painter as painter;

use crate::loose::Loose;
use crate::painter::Painter;
use std::alloc::Global;
use std::marker::Model;
use std::ptr;

/// The memory of an engine, or none.
#[repr(C)]
#[derive(Drop)]
pub struct Held {
    at: *mut u8,
    alloc: Global,
    pub ghost value: { Option Kept } by { coded_option painter.the_row.coded },
}

impl Model for Held {
    ghost use Rattle.rd_c.specs.Handles.{held_owns};
    ghost use Rattle.rd_c.specs.contracts.painter.Painter as painter;

    ghost also_owns = { λ h. held_owns painter.the_row h.alloc h.at h.value };
}

impl Held {
    /// No engine.
    pub(crate) fn none(alloc: Global) -> Held
        ensures { result.value ≡ None }
    {
        Held {
            at: ptr::null_mut(),
            alloc,
        }
    }

    /// An engine in a box.
    pub(crate) fn of(loose: Loose<Painter, Global>) -> Held
        ensures { result.value ≡ Some loose.value }
    {
        let Loose { at, alloc } = loose;
        Held {
            at: at as *mut u8,
            alloc,
        }
    }

    /// The box again.
    pub(crate) fn into_loose(self) -> Loose<Painter, Global>
        requires { IsHeld self.value }
        ensures { self.value ≡ Some result.value }
    {
        let Held { at, alloc } = self;
        Loose {
            at: at as *mut Painter,
            alloc,
        }
    }
}
