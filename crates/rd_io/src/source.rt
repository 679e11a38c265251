//! What gives bytes.

ghost use Rattle.std.specs.Prelude.{ℕ, List};
ghost use Rattle.std.specs.declared.option.Option.{Option};
ghost use Rattle.std.specs.Io.{ReadsAtMost};
ghost use Rattle.std.specs.Io.KnownBytes.{ReadConsumes};
ghost use Rattle.rd_io.specs.Causes.{HasCause};

/// A read or a write failed, and the count of faults of its stream shows it.
#[derive(Debug, Drop)]
pub struct Failed;

/// A stream that gives bytes, and counts the faults that it met.
pub trait Source {
    /// The bytes that are left, where they are told.
    ghost left: { Self → Option (List ℕ) };

    /// The faults so far. The count never falls, and stays at the last value of 64 bits.
    ghost faults: { Self → ℕ };

    /// Moves bytes that are left to the front of `buf`, and says how many: none only at the end, or into an empty
    /// `buf`. After `Failed` the bytes left are as before.
    fn read(&mut self, buf: &mut [u8]) -> Result<usize, Failed>
        ensures bound { ReadsAtMost result buf.new }
        ensures bytes { ReadConsumes (left self.old) (left self.new) result buf.new }
        ensures cause { HasCause (faults self.old) (faults self.new) result };
}
