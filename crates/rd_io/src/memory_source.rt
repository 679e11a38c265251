//! Sources over bytes in memory.

ghost use Rattle.std.specs.Prelude.{ℕ, List, ◌≡◌, ◌≤◌, drop, take, min, length, OkIff, IsOkAnd, Some, vec_len};
ghost use Rattle.std.specs.Io.{ReadsAtMost};
ghost use Rattle.std.specs.Io.KnownBytes.{ReadConsumes};
ghost use Rattle.rd_io.specs.Causes.{HasCause};
ghost use Rattle.rd_io.specs.Memory.{Given, MayPass, NextCall, first_call};

use crate::calls::Calls;
use crate::source::{Failed, Source};
use std::marker::Model;

/// A source in memory that never fails. Contracts see the bytes left.
#[derive(Drop)]
pub struct SureSource {
    bytes: Vec<u8>,
    at: usize,
}

impl Model for SureSource {
    ghost Value = { List ℕ };

    ghost view = { λ s. drop s.at s.bytes.items };

    ghost invariant = { λ s. s.at ≤ vec_len s.bytes };
}

impl SureSource {
    /// A source of these bytes.
    pub fn new(bytes: Vec<u8>) -> SureSource
        ensures { result ≡ bytes.items }
    {
        SureSource { bytes, at: 0 }
    }
}

/// Copies as many of the bytes to the front of `buf` as it has room for, and says how many.
fn copy_prefix(bytes: &[u8], buf: &mut [u8]) -> usize
    ensures count { result ≡ min (length buf.old) (length bytes.now) }
    ensures bytes { take result buf.new ≡ take result bytes.now }
{
    let count = buf.len().min(bytes.len());
    buf[..count].copy_from_slice(&bytes[..count]);
    count
}

impl Source for SureSource {
    ghost use Rattle.std.specs.Prelude.{Some};

    ghost left = { λ s. Some s };

    ghost faults = { λ s. 0 };

    /// Never fails, and gives as many bytes as there are and `buf` has room for.
    fn read(&mut self, buf: &mut [u8]) -> Result<usize, Failed>
        ensures bound { ReadsAtMost result buf.new }
        ensures bytes { ReadConsumes (Some self.old) (Some self.new) result buf.new }
        ensures cause { HasCause 0 0 result }
        ensures answer { IsOkAnd result (λ n. n ≡ min (length buf.new) (length self.old)) }
    {
        let count = copy_prefix(&self.bytes[self.at..], buf);
        self.at += count;
        Ok(count)
    }
}

/// A source in memory of which the calls of given numbers fail, counted from 0. Contracts see the bytes left, and the
/// calls: the number of the next one, those numbers and the count of faults.
#[derive(Drop)]
pub struct MemorySource {
    bytes: SureSource,
    calls: Calls,
}

impl Model for MemorySource {
    ghost Value = { Given };

    ghost view = { λ s. record { left = s.bytes; calls = s.calls } };
}

impl MemorySource {
    /// A source of these bytes, of which the calls numbered in `failing` fail.
    pub fn new(bytes: Vec<u8>, failing: Vec<u64>) -> MemorySource
        ensures { result ≡ record { left = bytes.items; calls = first_call failing.items } }
    {
        MemorySource {
            bytes: SureSource::new(bytes),
            calls: Calls::new(failing),
        }
    }
}

impl Source for MemorySource {
    ghost use Rattle.std.specs.Prelude.{Some};

    ghost left = { λ s. Some s.left };

    ghost faults = { λ s. s.calls.faults };

    /// Fails where its number is among those given, and else gives as many bytes as there are and `buf` has room for.
    fn read(&mut self, buf: &mut [u8]) -> Result<usize, Failed>
        ensures bound { ReadsAtMost result buf.new }
        ensures bytes { ReadConsumes (Some self.old.left) (Some self.new.left) result buf.new }
        ensures cause { HasCause self.old.calls.faults self.new.calls.faults result }
        ensures answer { OkIff result (MayPass self.old.calls)
            (min (length buf.new) (length self.old.left)) }
        ensures call { NextCall self.old.calls self.new.calls }
    {
        self.calls.begin()?;
        self.bytes.read(buf)
    }
}
