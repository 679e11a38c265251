//! What decides which of two leaves is above.
ghost use Rattle.std.specs.Prelude.{◌≡◌, IfOk, reverse};
ghost use Rattle.rd_trace.specs.Reasons as spec;

use crate::placing::{PaintStep, Placing};
use crate::way::Traced;
use rd_geom::NoMemory;
use std::alloc::Global;

/// Why of two leaves the upper one is above: the first places from the root inwards in which their ways differ.
#[derive(Clone, Copy)]
pub enum Reason {
    /// Both are painted by one box, in different steps.
    Steps { upper: Placing, lower: Placing },
    /// In the same step, at different stack levels.
    Levels { upper: Placing, lower: Placing },
    /// In the same step, different boxes, or what stands in their lines: tree order of the two.
    Boxes { upper: Placing, lower: Placing },
    /// In the line of the same box, or as that box: tree order of two boxes.
    Inlines { upper: Placing, lower: Placing },
    /// They are parts of one box: its border is above its background, and its content above both.
    Parts,
}

impl PaintStep {
    /// The number of the step in CSS 2.2 Appendix E.2.
    pub fn number(self) -> u8
        ensures { result ≡ spec.number_of self }
    {
        match self {
            PaintStep::RootBackground => 1,
            PaintStep::OwnBackground => 2,
            PaintStep::NegativeLayers => 3,
            PaintStep::BlockBackgrounds => 4,
            PaintStep::Floats => 5,
            PaintStep::InlineContext => 6,
            PaintStep::BlockContents => 7,
            PaintStep::ZeroLayers => 8,
            PaintStep::PositiveLayers => 9,
            PaintStep::Outlines => 10,
        }
    }
}

/// What decides between two places in one box; None where they are the same.
fn differing(u: &Placing, l: &Placing) -> Option<Reason>
    ensures { result ≡ spec.differing u.now l.now }
{
    let (upper, lower) = (*u, *l);
    if u.step.number() != l.step.number() {
        Some(Reason::Steps { upper, lower })
    } else if u.level < l.level || l.level < u.level {
        Some(Reason::Levels { upper, lower })
    } else if !u.line.is(l.line) {
        Some(Reason::Boxes { upper, lower })
    } else if !u.of.is(l.of) {
        Some(Reason::Inlines { upper, lower })
    } else {
        None
    }
}

/// What decides between two ways from the root inwards.
fn decided(us: &[Placing], ls: &[Placing]) -> Reason
    ensures { result ≡ spec.decided us.now ls.now }
{
    match us {
        [] => Reason::Parts,
        [u, more_us @ ..] => match ls {
            [] => Reason::Parts,
            [l, more_ls @ ..] => match differing(u, l) {
                Some(reason) => reason,
                None => decided(more_us, more_ls),
            },
        },
    }
}

fn inwards(alloc: Global, way: &[Placing]) -> Result<Vec<Placing>, NoMemory>
    ensures { IfOk result (λ v. v.items ≡ reverse way.now) }
{
    way.iter().rev().copied().collect(alloc)
}

/// Why of two leaves the first one is above the second.
pub fn reason_of(alloc: Global, upper: &Traced, lower: &Traced) -> Result<Reason, NoMemory>
    ensures { IfOk result (λ r. r ≡ spec.reason_of upper.now lower.now) }
{
    let us = inwards(alloc, &upper.way)?;
    let ls = inwards(alloc, &lower.way)?;
    Ok(decided(&us, &ls))
}
