//! Values that a style writes as a word.
ghost use Rattle.std.specs.Prelude.{◌≡◌, List, ℕ};
ghost use Rattle.serde_json.specs.Data.{Data};
ghost use Rattle.serde_json.specs.View.{view};
ghost use Rattle.rd_scene.specs.Checked.{Checked};
ghost use Rattle.rd_scene.specs.declared.fault.Why.{Why as Reason};
ghost use Rattle.rd_scene.specs.Styles as reading;
ghost use Rattle.rd_scene.specs.Writing as spec;

use crate::fault::Why;
use crate::members::string;
use rd_geom::Blend;
use rd_style::{Display, Floating, Isolation, Overflow, Pointer, Position, Visibility};
use serde_json::Value;

/// A value of a style that a script writes as a word.
pub(crate) trait Word {
    ghost written: { Self → List ℕ };

    ghost read: { Data → Checked Reason Self };

    /// The word of a value.
    fn word(self) -> &'static str
        ensures { result.now ≡ written self };

    /// The value that a word stands for.
    fn of(v: &Value) -> Result<Self, Why>
        ensures { result ≡ (read (view v.now)).first };
}

impl Word for Position {
    ghost written = { spec.position_word };

    ghost read = { reading.position_of };

    fn word(self) -> &'static str {
        match self {
            Position::Static => "static",
            Position::Relative => "relative",
            Position::Absolute => "absolute",
            Position::Fixed => "fixed",
        }
    }

    fn of(v: &Value) -> Result<Position, Why> {
        match string(v)? {
            "static" => Ok(Position::Static),
            "relative" => Ok(Position::Relative),
            "absolute" => Ok(Position::Absolute),
            "fixed" => Ok(Position::Fixed),
            _ => Err(Why::Kind),
        }
    }
}

impl Word for Overflow {
    ghost written = { spec.overflow_word };

    ghost read = { reading.overflow_of };

    fn word(self) -> &'static str {
        match self {
            Overflow::Visible => "visible",
            Overflow::Hidden => "hidden",
            Overflow::Scroll => "scroll",
            Overflow::Auto => "auto",
        }
    }

    fn of(v: &Value) -> Result<Overflow, Why> {
        match string(v)? {
            "visible" => Ok(Overflow::Visible),
            "hidden" => Ok(Overflow::Hidden),
            "scroll" => Ok(Overflow::Scroll),
            "auto" => Ok(Overflow::Auto),
            _ => Err(Why::Kind),
        }
    }
}

impl Word for Display {
    ghost written = { spec.display_word };

    ghost read = { reading.display_of };

    fn word(self) -> &'static str {
        match self {
            Display::Block => "block",
            Display::Inline => "inline",
            Display::InlineBlock => "inline-block",
        }
    }

    fn of(v: &Value) -> Result<Display, Why> {
        match string(v)? {
            "block" => Ok(Display::Block),
            "inline" => Ok(Display::Inline),
            "inline-block" => Ok(Display::InlineBlock),
            _ => Err(Why::Kind),
        }
    }
}

impl Word for Floating {
    ghost written = { spec.float_word };

    ghost read = { reading.float_of };

    fn word(self) -> &'static str {
        match self {
            Floating::No => "none",
            Floating::Left => "left",
            Floating::Right => "right",
        }
    }

    fn of(v: &Value) -> Result<Floating, Why> {
        match string(v)? {
            "none" => Ok(Floating::No),
            "left" => Ok(Floating::Left),
            "right" => Ok(Floating::Right),
            _ => Err(Why::Kind),
        }
    }
}

impl Word for Visibility {
    ghost written = { spec.visibility_word };

    ghost read = { reading.visibility_of };

    fn word(self) -> &'static str {
        match self {
            Visibility::Visible => "visible",
            Visibility::Hidden => "hidden",
            Visibility::Collapse => "collapse",
        }
    }

    fn of(v: &Value) -> Result<Visibility, Why> {
        match string(v)? {
            "visible" => Ok(Visibility::Visible),
            "hidden" => Ok(Visibility::Hidden),
            "collapse" => Ok(Visibility::Collapse),
            _ => Err(Why::Kind),
        }
    }
}

impl Word for Pointer {
    ghost written = { spec.pointer_word };

    ghost read = { reading.pointer_of };

    fn word(self) -> &'static str {
        match self {
            Pointer::Auto => "auto",
            Pointer::Off => "none",
        }
    }

    fn of(v: &Value) -> Result<Pointer, Why> {
        match string(v)? {
            "auto" => Ok(Pointer::Auto),
            "none" => Ok(Pointer::Off),
            _ => Err(Why::Kind),
        }
    }
}

impl Word for Blend {
    ghost written = { spec.blend_word };

    ghost read = { reading.blend_of };

    fn word(self) -> &'static str {
        match self {
            Blend::Normal => "normal",
            Blend::Multiply => "multiply",
            Blend::Screen => "screen",
            Blend::Darken => "darken",
            Blend::Lighten => "lighten",
        }
    }

    fn of(v: &Value) -> Result<Blend, Why> {
        match string(v)? {
            "normal" => Ok(Blend::Normal),
            "multiply" => Ok(Blend::Multiply),
            "screen" => Ok(Blend::Screen),
            "darken" => Ok(Blend::Darken),
            "lighten" => Ok(Blend::Lighten),
            _ => Err(Why::Kind),
        }
    }
}

impl Word for Isolation {
    ghost written = { spec.isolation_word };

    ghost read = { reading.isolation_of };

    fn word(self) -> &'static str {
        match self {
            Isolation::Auto => "auto",
            Isolation::Isolate => "isolate",
        }
    }

    fn of(v: &Value) -> Result<Isolation, Why> {
        match string(v)? {
            "auto" => Ok(Isolation::Auto),
            "isolate" => Ok(Isolation::Isolate),
            _ => Err(Why::Kind),
        }
    }
}
