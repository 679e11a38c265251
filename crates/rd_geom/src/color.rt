//! Colours of 8 bits a channel, plain and premultiplied.

ghost use Rattle.std.specs.Prelude.{◌≡◌, ◌≤◌, ◌+◌, ◌*◌};
ghost use Rattle.rd_geom.specs.Colors.{Premultiplied, IsPremultiplied, times, premultiplied, laid_over, scaled, white, clear, transparent, black};

use std::marker::Model;

/// A colour, its channels not multiplied by its opacity `a` (CSS Color 3 section 4.2).
#[derive(Clone, Copy, PartialEq, Eq, Debug)]
pub struct Color {
    pub r: u8,
    pub g: u8,
    pub b: u8,
    pub a: u8,
}

impl Color {
    /// The keyword `transparent` (CSS Color 3 section 4.2.3).
    pub const TRANSPARENT: Color = Color {
        r: 0,
        g: 0,
        b: 0,
        a: 0,
    };

    /// The keyword `black` (CSS Color 3 section 4.1).
    pub const BLACK: Color = Color {
        r: 0,
        g: 0,
        b: 0,
        a: 255,
    };
}

/// A pixel: a colour whose channels were multiplied by its opacity, so that none exceeds it (CSS Color 3 section 3.2).
#[derive(Clone, Copy, PartialEq, Eq, Debug)]
pub struct Px {
    pub(crate) r: u8,
    pub(crate) g: u8,
    pub(crate) b: u8,
    pub(crate) a: u8,
}

impl Model for Px {
    ghost use Rattle.rd_geom.specs.Colors.{Premultiplied, IsPremultiplied};

    ghost Value = { Premultiplied };

    ghost view = { λ p. record { r = p.r; g = p.g; b = p.b; a = p.a } };

    ghost invariant = { λ p. IsPremultiplied (record { r = p.r; g = p.g; b = p.b; a = p.a }) };

    ghost inverse = { λ p. record { r = p.r; g = p.g; b = p.b; a = p.a } };
}

impl Px {
    /// Opaque white, from which the canvas starts.
    pub const WHITE: Px = Px {
        r: 255,
        g: 255,
        b: 255,
        a: 255,
    };

    /// No colour at all, from which a group starts.
    pub const CLEAR: Px = Px {
        r: 0,
        g: 0,
        b: 0,
        a: 0,
    };

    /// Red, multiplied by the opacity.
    pub fn r(&self) -> u8
        ensures value { result ≡ self.now.r }
        ensures rule { IsPremultiplied self.now }
    {
        self.r
    }

    /// Green, multiplied by the opacity.
    pub fn g(&self) -> u8
        ensures value { result ≡ self.now.g }
        ensures rule { IsPremultiplied self.now }
    {
        self.g
    }

    /// Blue, multiplied by the opacity.
    pub fn b(&self) -> u8
        ensures value { result ≡ self.now.b }
        ensures rule { IsPremultiplied self.now }
    {
        self.b
    }

    /// The opacity.
    pub fn a(&self) -> u8
        ensures value { result ≡ self.now.a }
        ensures rule { IsPremultiplied self.now }
    {
        self.a
    }
}

/// The product of two channels, of which 255 is one: rounded to the nearest.
#[tactic(auto, using(crate::proofs::Products::times_fits, crate::proofs::Products::product_fits))]
pub fn mul(a: u8, b: u8) -> u8
    ensures value { result ≡ times a b }
    ensures whole { a ≡ 255 → result ≡ b }
    ensures by_whole { b ≡ 255 → result ≡ a }
    ensures none { a ≡ 0 → result ≡ 0 }
{
    ((a as u32 * b as u32 + 127) / 255) as u8
}

/// A pixel laid over another one (CSS Color 3 section 3.2).
pub fn over(s: Px, d: Px) -> Px
    ensures value { result ≡ laid_over s d }
    ensures clear { s ≡ clear → result ≡ d }
    ensures opaque { s.a ≡ 255 → result ≡ s }
    ensures rule { IsPremultiplied result }
{
    let left = 255 - s.a;
    Px {
        r: s.r + mul(d.r, left),
        g: s.g + mul(d.g, left),
        b: s.b + mul(d.b, left),
        a: s.a + mul(d.a, left),
    }
}

/// A pixel with each channel multiplied by `k`, of which 255 is one.
pub fn scale(p: Px, k: u8) -> Px
    ensures value { result ≡ scaled p k }
    ensures rule { IsPremultiplied result }
{
    Px {
        r: mul(p.r, k),
        g: mul(p.g, k),
        b: mul(p.b, k),
        a: mul(p.a, k),
    }
}

/// The pixel of a colour: its channels multiplied by its opacity.
pub fn px_of(c: Color) -> Px
    ensures value { result ≡ premultiplied c }
    ensures rule { IsPremultiplied result }
{
    Px {
        r: mul(c.r, c.a),
        g: mul(c.g, c.a),
        b: mul(c.b, c.a),
        a: c.a,
    }
}

/// The constants, so that clauses can say what they are.
fn constants() -> (Px, Px)
    ensures white { result.0 ≡ white }
    ensures clear { result.1 ≡ clear }
    ensures transparent { Color.TRANSPARENT ≡ transparent }
    ensures black { Color.BLACK ≡ black }
{
    (Px::WHITE, Px::CLEAR)
}
