//! Words of 64 bits, of which each number has one, by its place among 64.
ghost use Rattle.std.specs.Prelude.{◌≡◌, ◌≢◌, ℕ, ◌%◌};
ghost use Rattle.std.specs.Int.{bit_at};

/// A word with the bit of a number set.
#[inline(always)]
pub fn with_bit(bits: u64, number: usize) -> u64
    ensures set { bit_at result (number % 64) ≡ 1 }
    ensures kept { (i : ℕ) → bit_at bits i ≡ 1 → bit_at result i ≡ 1 }
    ensures others { (i : ℕ) → i ≢ number % 64 → bit_at result i ≡ bit_at bits i }
{
    bits | (1 << (number % 64))
}
