//! The line of a paint on tiles.

ghost use Rattle.std.specs.Prelude.{◌≡◌, ◌++◌, OnOk, string_bytes};
ghost use Rattle.rd_report.specs.Tiles.{tiles_line};

use std::alloc::AllocError;

/// Puts the line of a paint on tiles at the end of a text: its number from 1, how many tiles it repainted, and how many
/// there are.
pub fn push_tiles(out: &mut String, number: u64, repainted: u32, all: u32) -> Result<(), AllocError>
    ensures { OnOk result (string_bytes out.new ≡ string_bytes out.old ++ tiles_line number repainted all) }
{
    write!(out, "tiles {number} repainted {repainted} of {all}\n")
}
