//! Blend modes: how a pixel is put onto its backdrop.

ghost use Rattle.std.specs.Prelude.{◌≡◌, min};
ghost use Rattle.rd_geom.specs.Colors.{IsPremultiplied, laid_over, clear};
ghost use Rattle.rd_geom.specs.Blends.{mixed, blended, channel};
ghost use Rattle.rd_geom.specs.declared.blend.Blend.TheVariants as mode;

use crate::color::{Px, mul, over};

/// How the colours of a source and of its backdrop are mixed (CSS Compositing 1 section 10.1).
#[derive(Clone, Copy, PartialEq, Eq, Debug)]
pub enum Blend {
    /// The source alone.
    Normal,
    /// The product of both.
    Multiply,
    /// The complement of the product of the complements.
    Screen,
    /// The darker of both.
    Darken,
    /// The lighter of both.
    Lighten,
}

/// A channel of a source and one of a backdrop mixed, at the opacities of both, of 8 bits each.
#[inline(always)]
#[tactic(auto, using(crate::proofs::Products::times_fits, crate::proofs::Mixing::times_fits_left))]
fn mix_channel(m: Blend, s: u8, d: u8, source: u8, backdrop: u8) -> u16
    ensures { result ≡ channel m s d source backdrop }
{
    let both = s as u16 + d as u16;
    match m {
        Blend::Normal => s as u16 + mul(d, 255 - source) as u16,
        Blend::Multiply => {
            mul(s, d) as u16 + mul(s, 255 - backdrop) as u16 + mul(d, 255 - source) as u16
        }
        Blend::Screen => both - mul(s, d) as u16,
        Blend::Darken => both - mul(s, backdrop).max(mul(d, source)) as u16,
        Blend::Lighten => both - mul(s, backdrop).min(mul(d, source)) as u16,
    }
}

/// A channel that is kept within the opacity.
#[inline(always)]
fn within(channel: u16, a: u8) -> u8
    ensures { result ≡ min channel a }
{
    channel.min(a as u16) as u8
}

/// A pixel put onto its backdrop by a blend mode: both premultiplied, with channels of 8 bits (CSS Compositing 1 section 10.1).
pub fn mix(m: Blend, s: Px, d: Px) -> Px
    ensures value { result ≡ blended m s d }
    ensures table { result ≡ mixed m s d }
    ensures clear { s ≡ clear → result ≡ d }
    ensures normal { m ≡ mode.Normal → result ≡ laid_over s d }
    ensures rule { IsPremultiplied result }
{
    if let Blend::Normal = m {
        return over(s, d);
    }
    let a = s.a + mul(d.a, 255 - s.a);
    Px {
        r: within(mix_channel(m, s.r, d.r, s.a, d.a), a),
        g: within(mix_channel(m, s.g, d.g, s.a, d.a), a),
        b: within(mix_channel(m, s.b, d.b, s.a, d.a), a),
        a,
    }
}
