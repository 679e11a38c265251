//! Pictures as files.

ghost use Rattle.std.specs.Prelude.{◌≡◌, ◌++◌, ◌∷◌, [], IfOk, OnOk, string_bytes};
ghost use Rattle.rd_report.specs.Pictures.{p6_head, p6_text, rgb};

use rd_geom::{NoMemory, Px};
use rd_paint::Canvas;
use std::alloc::Global;

/// The head of a picture of this width and height, in pixels, as Netpbm P6 has it.
#[tactic(auto, unfolding(crate::specs::Pictures::p6_head))]
pub fn picture_head(alloc: Global, width: u32, height: u32) -> Result<String, NoMemory>
    ensures { IfOk result (λ s. string_bytes s ≡ p6_head width height) }
{
    format!(in alloc; "P6\n{width} {height}\n255\n")
}

/// Puts red, green and blue of a pixel at the end of a picture, in channels of 8 bits.
#[tactic(auto, unfolding(crate::specs::Pictures::rgb), using(crate::proofs::Joining::joining))]
pub fn push_px(bytes: &mut Vec<u8>, px: &Px) -> Result<(), NoMemory>
    ensures { OnOk result (bytes.new.items ≡ bytes.old.items ++ rgb (px.now ∷ [])) }
{
    bytes.push(px.r())?;
    bytes.push(px.g())?;
    bytes.push(px.b())?;
    Ok(())
}

/// The picture of a canvas as Netpbm P6 has it, in channels of 8 bits: `P6`, the width and the height in pixels, 255, and
/// then red, green and blue of each pixel, row by row from the top.
#[tactic(auto, using(crate::proofs::Joining::joining))]
pub fn p6(alloc: Global, canvas: &Canvas) -> Result<Vec<u8>, NoMemory>
    ensures { IfOk result (λ bytes. bytes.items ≡ p6_text canvas.now.width canvas.now.height canvas.now.pixels) }
{
    let size = canvas.size();
    let head = picture_head(alloc, size.w.unsigned_abs(), size.h.unsigned_abs())?;
    let pixels = canvas.pixels();
    let mut bytes = Vec::with_capacity(alloc, head.len() + 3 * pixels.len())?;
    bytes.extend_from_slice(head.as_bytes())?;
    for px in pixels {
        push_px(&mut bytes, px)?;
    }
    Ok(bytes)
}
