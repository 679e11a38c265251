//! The script that a source holds.

ghost use Rattle.std.specs.Prelude.{◌≡◌, ℕ, List, IfOk, IfErr};
ghost use Rattle.rd_scene.specs.Reading.{IsScriptText};
ghost use Rattle.rd_run.specs.Endings.{HasRead, RefusesInput, stream};
ghost use Rattle.rd_run.specs.Figures.{most_bytes};
ghost use Rattle.rd_run.specs.Internal.Answered.{RefusesBytes, RefusesText};

use crate::status::Status;
use rd_io::{ReadAll, Source, read_all};
use rd_scene::{SceneFault, Script, read};
use std::alloc::Global;

/// The most bytes of an input.
pub const MOST_BYTES: usize = 67_108_864;

/// The limits, so that clauses can say what they are.
fn figures()
    ensures { MOST_BYTES ≡ most_bytes }
{}

/// The bytes of a source, to its end.
pub(crate) fn read_bytes<S: Source>(alloc: Global, source: &mut S) -> Result<Vec<u8>, Status>
    ensures read { IfOk result (λ bytes. HasRead
        (stream (S.left source.old) (S.left source.new) (S.faults source.old) (S.faults source.new)) bytes.items) }
    ensures refused { IfErr result (RefusesBytes
        (stream (S.left source.old) (S.left source.new) (S.faults source.old) (S.faults source.new))) }
{
    match read_all(alloc, source, MOST_BYTES) {
        Ok(bytes) => Ok(bytes),
        Err(ReadAll::Fault) => Err(Status::ReadFault),
        Err(ReadAll::TooLarge) => Err(Status::TooLarge),
        Err(ReadAll::NoMemory) => Err(Status::NoMemory),
    }
}

/// The script that bytes are.
pub(crate) fn script_of(alloc: Global, bytes: &[u8]) -> Result<Script, Status>
    ensures script { IfOk result (IsScriptText bytes.now) }
    ensures refused { IfErr result (RefusesText bytes.now) }
{
    match read(alloc, bytes) {
        Ok(script) => Ok(script),
        Err(SceneFault::NotJson) => Err(Status::NotJson),
        Err(SceneFault::Form { place, why }) => Err(Status::Form { place, why }),
        Err(SceneFault::NoMemory) => Err(Status::NoMemory),
    }
}

/// Reads a script to the end of a source, at most [`MOST_BYTES`] of it. The bytes are gone when it returns. The error is the status
/// with which the program ends then: `ReadFault`, `TooLarge`, `NotJson`, `Form` or `NoMemory`.
pub fn read_input<S: Source>(alloc: Global, source: &mut S) -> Result<Script, Status>
    ensures script { IfOk result (λ s. (bytes : List ℕ) × IsScriptText bytes s
        × HasRead (stream (S.left source.old) (S.left source.new) (S.faults source.old) (S.faults source.new)) bytes) }
    ensures refused { IfErr result (RefusesInput
        (stream (S.left source.old) (S.left source.new) (S.faults source.old) (S.faults source.new))) }
{
    match read_bytes(alloc, source) {
        Ok(bytes) => script_of(alloc, bytes.as_slice()),
        Err(status) => Err(status),
    }
}
