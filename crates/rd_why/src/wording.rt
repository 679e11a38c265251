//! The words of answers.
ghost use Rattle.std.specs.Prelude.{◌≡◌, ◌&&◌, ◌||◌, not};
ghost use Rattle.rd_trace.specs.Ways.{takes_hit};
ghost use Rattle.rd_why.specs.Wording as spec;
ghost use Rattle.rd_why.specs.Json.{bool_text};
ghost use Rattle.rd_why.specs.Lines.{hit_text};

use rd_geom::Blend;
use rd_trace::{PaintStep, Traced, takes_hit};

/// What a step paints.
pub(crate) fn step_name(step: PaintStep) -> &'static str
    ensures { result.now ≡ spec.step_name step }
{
    match step {
        PaintStep::RootBackground => "background of the root",
        PaintStep::OwnBackground => "its background and border",
        PaintStep::NegativeLayers => "layers of negative level",
        PaintStep::BlockBackgrounds => "backgrounds and borders of blocks",
        PaintStep::Floats => "floats",
        PaintStep::InlineContext => "inline box and its line",
        PaintStep::BlockContents => "contents and lines",
        PaintStep::ZeroLayers => "layers of level 0",
        PaintStep::PositiveLayers => "layers of positive level",
        PaintStep::Outlines => "outlines",
    }
}

/// The word of a blend mode.
pub(crate) fn blend_name(blend: Blend) -> &'static str
    ensures { result.now ≡ spec.blend_name blend }
{
    match blend {
        Blend::Normal => "normal",
        Blend::Multiply => "multiply",
        Blend::Screen => "screen",
        Blend::Darken => "darken",
        Blend::Lighten => "lighten",
    }
}

/// A truth value.
pub(crate) fn bool_text(value: bool) -> &'static str
    ensures { result.now ≡ bool_text value }
{
    if value { "true" } else { "false" }
}

/// Which leaf is hit, where a leaf above it was found that takes the hit or not.
pub(crate) fn hit_text(found: bool, takes: bool) -> &'static str
    ensures { result.now ≡ hit_text found takes }
{
    if !takes {
        "takes no hit"
    } else if found {
        "would be hit"
    } else {
        "is hit"
    }
}

/// Was a leaf found that takes the hit, once this one is passed?
pub(crate) fn found_by(found: bool, t: &Traced) -> bool
    ensures { result ≡ (found || takes_hit t.now) }
{
    found || takes_hit(t)
}

/// Is a leaf hit that takes the hit or not, where a leaf above it was found that takes it or not?
pub(crate) fn is_hit(found: bool, takes: bool) -> bool
    ensures { result ≡ (takes && not found) }
{
    takes && !found
}
