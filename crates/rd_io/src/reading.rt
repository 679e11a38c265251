//! A source's bytes to the end.

ghost use Rattle.std.specs.Prelude.{ℕ, List, ◌≡◌, ◌≤◌, ◌<◌, ◌+◌, ◌-◌, ◌++◌, length, IfOk, IsErrOf, Bool, false, IsTrue, vec_len, []};
ghost use Rattle.std.specs.Io.KnownBytes.{Consumes, IsAtEnd};
ghost use Rattle.rd_io.specs.Causes.{HasReadCause, TakesTo, Takes};

use crate::source::{Failed, Source};
use std::alloc::{AllocError, Global};

/// Why not every byte was read.
#[derive(Debug, Drop)]
pub enum ReadAll {
    /// The source failed.
    Fault,
    /// The source gave more bytes than the limit.
    TooLarge,
    /// There was no memory for the bytes.
    NoMemory,
}

impl From<AllocError> for ReadAll {
    ghost use Rattle.rd_io.specs.declared.reading.ReadAll.TheVariants.{NoMemory};

    ghost from_gives = { λ _ e. e ≡ NoMemory };

    fn from(_e: AllocError) -> ReadAll {
        ReadAll::NoMemory
    }
}

impl From<Failed> for ReadAll {
    ghost use Rattle.rd_io.specs.declared.reading.ReadAll.TheVariants.{Fault};

    ghost from_gives = { λ _ e. e ≡ Fault };

    fn from(_e: Failed) -> ReadAll {
        ReadAll::Fault
    }
}

// So many bytes are asked for at a time.
const PIECE: usize = 65_536;

/// Reads some of the bytes that are left onto the end of those read so far, until there are `limit + 1`, and tells
/// whether there may be more. `buf` is room to read into.
fn read_some<S: Source>(
    source: &mut S,
    bytes: &mut Vec<u8>,
    limit: usize,
    buf: &mut [u8],
) -> Result<bool, ReadAll>
    requires room { vec_len bytes.old ≤ limit }
    requires limit { limit < usize.MAX }
    requires buf { 0 < length buf.old }
    ensures more { IfOk result (λ more. (taken : List ℕ)
        × (bytes.new.items ≡ bytes.old.items ++ taken)
        × Consumes (S.left source.old) (S.left source.new) taken
        × (length taken + vec_len bytes.old ≤ limit + 1)
        × (IsTrue more → 0 < length taken)
        × (more ≡ false → IsAtEnd (S.left source.new) × (taken ≡ []))) }
    ensures fault { IsErrOf result ReadAll.Fault → Takes (S.left source.old) (S.left source.new) 0 }
    ensures not_large { IsErrOf result ReadAll.TooLarge → ⊥ }
    ensures memory { IsErrOf result ReadAll.NoMemory
        → Takes (S.left source.old) (S.left source.new) 0 }
    ensures cause { HasReadCause (S.faults source.old) (S.faults source.new) result }
{
    let room = (limit - bytes.len()).min(buf.len() - 1) + 1;
    bytes.reserve(room)?;
    let n = source.read(&mut buf[..room])?;
    bytes.extend_from_slice(&buf[..n])?;
    Ok(0 < n)
}

/// Reads all bytes that are left, where these are at most `limit`. After a refusal the bytes that were taken are gone: `limit + 1`
/// of them where there are too many, and else at most `limit`.
pub fn read_all<S: Source>(alloc: Global, source: &mut S, limit: usize) -> Result<Vec<u8>, ReadAll>
    requires { limit < usize.MAX }
    ensures all { IfOk result (λ v. Consumes (S.left source.old) (S.left source.new) v.items
        × IsAtEnd (S.left source.new) × (vec_len v ≤ limit)) }
    ensures too_large { IsErrOf result ReadAll.TooLarge
        → Takes (S.left source.old) (S.left source.new) (limit + 1) }
    ensures fault { IsErrOf result ReadAll.Fault
        → TakesTo (S.left source.old) (S.left source.new) limit }
    ensures memory { IsErrOf result ReadAll.NoMemory
        → TakesTo (S.left source.old) (S.left source.new) limit }
    ensures cause { HasReadCause (S.faults source.old) (S.faults source.new) result }
{
    let mut buf = [0u8; PIECE];
    let mut bytes = Vec::new(alloc);
    let mut more = true;
    while more {
        if bytes.len() > limit {
            return Err(ReadAll::TooLarge);
        }
        more = read_some(source, &mut bytes, limit, &mut buf)?;
    }
    Ok(bytes)
}
