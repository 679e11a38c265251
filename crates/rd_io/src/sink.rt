//! What takes bytes.

ghost use Rattle.std.specs.Prelude.{ℕ, List, ◌<◌, length, IfOk};
ghost use Rattle.std.specs.declared.option.Option.{Option};
ghost use Rattle.std.specs.Io.{WritesAtMost};
ghost use Rattle.std.specs.Io.KnownBytes.{WriteAppends};
ghost use Rattle.rd_io.specs.Causes.{HasCause};

use crate::source::Failed;

/// A stream that takes bytes, and counts the faults that it met.
pub trait Sink {
    /// The bytes that were written, where they are told.
    ghost written: { Self → Option (List ℕ) };

    /// The faults so far. The count never falls, and stays at the last value of 64 bits.
    ghost faults: { Self → ℕ };

    /// Appends bytes from the front of `piece`, and says how many: at least one, unless `piece` is empty. After
    /// `Failed` the bytes written are as before.
    fn write(&mut self, piece: &[u8]) -> Result<usize, Failed>
        ensures bound { WritesAtMost result piece.now }
        ensures some { IfOk result (λ n. 0 < length piece.now → 0 < n) }
        ensures bytes { WriteAppends (written self.old) (written self.new) result piece.now }
        ensures cause { HasCause (faults self.old) (faults self.new) result };
}
