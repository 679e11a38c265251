//! Sinks over a slice in memory.

ghost use Rattle.std.specs.Prelude.{ℕ, List, ◌≡◌, ◌≤◌, ◌<◌, ◌+◌, ◌-◌, ◌++◌, [], drop, take, min, length, ⊤, IfOk, Some};
ghost use Rattle.std.specs.Io.{WritesAtMost};
ghost use Rattle.std.specs.Io.KnownBytes.{WriteAppends};
ghost use Rattle.rd_io.specs.Causes.{HasCause};
ghost use Rattle.rd_io.specs.Memory.{Filled, Fills, Taken, MayPass, NextCall, first_call};

use crate::calls::Calls;
use crate::sink::Sink;
use crate::source::Failed;
use std::marker::Model;

/// Copies as many of the bytes into `out` from `at` on as it has room for, and says how many.
fn copy_at(bytes: &[u8], out: &mut [u8], at: usize) -> usize
    requires { at ≤ length out.old }
    ensures count { result ≡ min (length bytes.now) (length out.old - at) }
    ensures bytes { take (at + result) out.new ≡ take at out.old ++ take result bytes.now }
    ensures behind { drop (at + result) out.new ≡ drop (at + result) out.old }
{
    let count = bytes.len().min(out.len() - at);
    out[at..at + count].copy_from_slice(&bytes[..count]);
    count
}

/// A sink into a slice, which fails only where the slice is full. Contracts see the bytes written, those
/// behind them in the slice, and the count of faults.
#[derive(Drop)]
pub struct SureSink<'a> {
    out: &'a mut [u8],
    at: usize,
    faults: u64,
}

impl<'a> Model for SureSink<'a> {
    ghost Value = { Filled };

    ghost view = { λ s. record { written = take s.at s.out.now; behind = drop s.at s.out.now; faults = s.faults } };

    ghost invariant = { λ s. s.at ≤ length s.out.now };
}

impl<'a> SureSink<'a> {
    /// A sink that writes to the front of `out`.
    pub fn new(out: &'a mut [u8]) -> SureSink<'a>
        ensures { result ≡ record { written = []; behind = out.old; faults = 0 } }
    {
        SureSink {
            out,
            at: 0,
            faults: 0,
        }
    }

    /// How many bytes were written.
    pub fn written(&self) -> usize
        ensures { result ≡ length self.now.written }
    {
        self.bytes().len()
    }

    fn bytes(&self) -> &[u8]
        ensures { result.now ≡ self.now.written }
    {
        &self.out[..self.at]
    }
}

impl<'a> Sink for SureSink<'a> {
    ghost use Rattle.std.specs.Prelude.{Some};

    ghost written = { λ s. Some s.written };

    ghost faults = { λ s. s.faults };

    fn write(&mut self, piece: &[u8]) -> Result<usize, Failed>
        ensures bound { WritesAtMost result piece.now }
        ensures some { IfOk result (λ n. 0 < length piece.now → 0 < n) }
        ensures bytes { WriteAppends (Some self.old.written) (Some self.new.written) result piece.now }
        ensures cause { HasCause self.old.faults self.new.faults result }
        ensures answer { Fills ⊤ piece.now self.old.behind self.new.behind result }
    {
        let count = copy_at(piece, self.out, self.at);
        if count == 0 && !piece.is_empty() {
            self.faults = self.faults.saturating_add(1);
            return Err(Failed);
        }
        self.at += count;
        Ok(count)
    }
}

/// A sink into a slice of which the calls of given numbers fail, counted from 0, and those for which the slice has no
/// room. Contracts see the bytes written, those behind them in the slice, and the calls: the number of the next one, those
/// numbers and the count of faults.
#[derive(Drop)]
pub struct MemorySink<'a> {
    out: SureSink<'a>,
    calls: Calls,
}

impl<'a> Model for MemorySink<'a> {
    ghost Value = { Taken };

    ghost view = { λ s. record { written = s.out.written; behind = s.out.behind; calls = s.calls } };
}

impl<'a> MemorySink<'a> {
    /// A sink that writes to the front of `out`, and of which the calls numbered in `failing` fail.
    pub fn new(out: &'a mut [u8], failing: Vec<u64>) -> MemorySink<'a>
        ensures { result ≡ record {
          written = [];
          behind = out.old;
          calls = first_call failing.items;
        } }
    {
        MemorySink {
            out: SureSink::new(out),
            calls: Calls::new(failing),
        }
    }

    /// The bytes that were written.
    pub fn bytes(&self) -> &[u8]
        ensures { result.now ≡ self.now.written }
    {
        self.out.bytes()
    }
}

impl<'a> Sink for MemorySink<'a> {
    ghost use Rattle.std.specs.Prelude.{Some};

    ghost written = { λ s. Some s.written };

    ghost faults = { λ s. s.calls.faults };

    fn write(&mut self, piece: &[u8]) -> Result<usize, Failed>
        ensures bound { WritesAtMost result piece.now }
        ensures some { IfOk result (λ n. 0 < length piece.now → 0 < n) }
        ensures bytes { WriteAppends (Some self.old.written) (Some self.new.written) result piece.now }
        ensures cause { HasCause self.old.calls.faults self.new.calls.faults result }
        ensures answer { Fills (MayPass self.old.calls) piece.now self.old.behind self.new.behind result }
        ensures call { NextCall self.old.calls self.new.calls }
    {
        self.calls.begin()?;
        match self.out.write(piece) {
            Ok(count) => Ok(count),
            Err(Failed) => Err(self.calls.fail()),
        }
    }
}
