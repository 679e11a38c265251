//! Wires, read from bytes.
ghost use Rattle.std.specs.Prelude.{◌≡◌, IfOk, IfErr};
ghost use Rattle.rd_wire.specs.Wires.{spelled, IsWire};
ghost use Rattle.rd_wire.specs.declared.fault.WireFault.TheVariants.{Form, NoMemory};
ghost use Rattle.rd_wire.specs.declared.wire.Wire as spec;

use crate::fault::WireFault;
use crate::names::names_differ;
use crate::reading::read;
use crate::wire::Wire;
use std::alloc::Global;

/// The wire whose spelling the bytes are, all of them. `Form` only where they are the spelling of none.
/// It takes time and memory for the bytes that are there, and not for what they say of others.
pub fn decode(alloc: Global, bytes: &[u8]) -> Result<Wire, WireFault>
    // What is read is a wire, and is spelled so.
    ensures found { IfOk result (λ w. IsWire w × (bytes.now ≡ spelled w)) }
    // What is spelled so is read, unless memory runs out.
    ensures only { (w : spec.Wire) → IsWire w → bytes.now ≡ spelled w → IfOk result (λ v. v ≡ w) }
    ensures form { IfErr result (λ e. e ≡ Form → (w : spec.Wire) → IsWire w → bytes.now ≡ spelled w → ⊥) }
{
    let wire = match read(alloc, bytes) {
        Ok(wire) => wire,
        Err(fault) => return Err(fault),
    };
    if names_differ(alloc, &wire.list)? {
        Ok(wire)
    } else {
        Err(WireFault::Form)
    }
}
