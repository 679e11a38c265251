//! Styles as a script writes them.

ghost use Rattle.std.specs.Prelude.{◌≡◌, ◌≤◌, codes, option_map, IfOk, IfSome};
ghost use Rattle.serde_json.specs.View.{view, members_view};
ghost use Rattle.serde_json.specs.Find.{as_str};
ghost use Rattle.rd_style.specs.Changes.{plain, changed};
ghost use Rattle.rd_style.specs.Limits.{Fits};
ghost use Rattle.rd_style.specs.Figures.{max_line_width};
ghost use Rattle.rd_scene.specs.Members.{optional, if_given};
ghost use Rattle.rd_scene.specs.Members.{known as known_names};
ghost use Rattle.rd_scene.specs.Styles as spec;
ghost use Rattle.rd_scene.specs.Versions.{number_of, HasStyle, HasChange};
ghost use Rattle.rd_scene.specs.Colors as colors;
ghost use Rattle.rd_scene.specs.Rects as rects;
ghost use Rattle.rd_scene.specs.Internal.Widths.{AreWidths};

use crate::colors::{color_of, content_of};
use crate::fault::Why;
use crate::members::{known, member, members, number};
use crate::rects::{outline_width_of, sides_of};
use crate::version::Version;
use crate::words::Word;
use rd_geom::{Blend, Color, Sides};
use rd_style::{
    Display, Floating, Isolation, Overflow, Pointer, Position, Style, StyleChange, Visibility,
    changed,
};
use serde_json::{Map, Value};

fn is_auto(v: &Value) -> bool
    ensures { result ≡ spec.is_auto (as_str (view v.now)) }
{
    match v.as_str() {
        Some(word) => word == "auto",
        None => false,
    }
}

fn z_of(v: &Value) -> Result<Option<i32>, Why>
    ensures { result ≡ (spec.z_of (view v.now)).first }
{
    if is_auto(v) {
        return Ok(None);
    }
    let z = number(i32::MIN, i32::MAX, v)?;
    Ok(Some(z))
}

fn opacity_of(v: &Value) -> Result<u8, Why>
    ensures { result ≡ (spec.opacity_of (view v.now)).first }
{
    let z = number(0, 255, v)?;
    Ok(z as u8)
}

/// The member of this name, a word, where there is one.
fn word_at<W: Word>(v: &Value, name: &str) -> Result<Option<W>, Why>
    ensures { result ≡ (if_given W.read name.now (view v.now)).first }
{
    match member(v, name) {
        Some(there) => {
            let word = W::of(there)?;
            Ok(Some(word))
        }
        None => Ok(None),
    }
}

fn z_at(v: &Value) -> Result<Option<Option<i32>>, Why>
    ensures { result ≡ (if_given spec.z_of (codes "z-index") (view v.now)).first }
{
    member(v, "z-index").map(z_of).transpose()
}

fn opacity_at(v: &Value) -> Result<Option<u8>, Why>
    ensures { result ≡ (if_given spec.opacity_of (codes "opacity") (view v.now)).first }
{
    member(v, "opacity").map(opacity_of).transpose()
}

fn color_at(v: &Value, name: &str) -> Result<Option<Color>, Why>
    ensures { result ≡ (if_given colors.color_of name.now (view v.now)).first }
{
    member(v, name).map(color_of).transpose()
}

fn border_width_at(v: &Value) -> Result<Option<Sides>, Why>
    ensures value { result ≡ (if_given rects.sides_of (codes "border-width") (view v.now)).first }
    ensures fits { IfOk result (λ o. IfSome o (λ s. AreWidths s)) }
{
    member(v, "border-width").map(sides_of).transpose()
}

fn content_at(v: &Value) -> Result<Option<Option<Color>>, Why>
    ensures { result ≡ (if_given colors.content_of (codes "content") (view v.now)).first }
{
    member(v, "content").map(content_of).transpose()
}

fn outline_width_at(v: &Value) -> Result<Option<u16>, Why>
    ensures value { result ≡ (if_given rects.outline_width_of (codes "outline-width") (view v.now)).first }
    ensures most { IfOk result (λ o. IfSome o (λ n. n ≤ max_line_width)) }
{
    member(v, "outline-width").map(outline_width_of).transpose()
}

/// A change that names these members, which place a box.
#[tactic(auto, unfolding(crate::specs::Styles::placing))]
fn placing(
    position: Option<Position>,
    z: Option<Option<i32>>,
    opacity: Option<u8>,
    overflow: Option<Overflow>,
    display: Option<Display>,
    float: Option<Floating>,
) -> StyleChange
    ensures { result ≡ spec.placing position z opacity overflow display float }
{
    StyleChange {
        position,
        z,
        opacity,
        overflow,
        display,
        float,
        ..StyleChange::none()
    }
}

/// A change that names these members, which a box is painted with.
#[tactic(auto, unfolding(crate::specs::Styles::painting))]
fn painting(
    background: Option<Color>,
    border_width: Option<Sides>,
    border_color: Option<Color>,
    content: Option<Option<Color>>,
    outline_width: Option<u16>,
    outline_color: Option<Color>,
) -> StyleChange
    ensures { result ≡ spec.painting background border_width border_color content outline_width outline_color }
{
    StyleChange {
        background,
        border_width,
        border_color,
        content,
        outline_width,
        outline_color,
        ..StyleChange::none()
    }
}

/// A change that names these members, which blend a box.
#[tactic(auto, unfolding(crate::specs::Styles::blending))]
fn blending(blend: Option<Blend>, isolation: Option<Isolation>) -> StyleChange
    ensures { result ≡ spec.blending blend isolation }
{
    StyleChange {
        blend,
        isolation,
        ..StyleChange::none()
    }
}

/// What the first change names of placing, the second of painting, these two members, and what the last names of blending.
#[tactic(auto, unfolding(crate::specs::Styles::joined))]
fn joined(
    c: StyleChange,
    p: StyleChange,
    visibility: Option<Visibility>,
    pointer: Option<Pointer>,
    b: StyleChange,
) -> StyleChange
    ensures { result ≡ spec.joined c p visibility pointer b }
{
    StyleChange {
        background: p.background,
        border_width: p.border_width,
        border_color: p.border_color,
        content: p.content,
        outline_width: p.outline_width,
        outline_color: p.outline_color,
        visibility,
        pointer,
        blend: b.blend,
        isolation: b.isolation,
        ..c
    }
}

/// The members that place a box.
#[tactic(auto, unfolding(crate::specs::Styles::placing_of))]
fn placing_of(v: &Value) -> Result<StyleChange, Why>
    ensures { result ≡ (spec.placing_of (view v.now)).first }
{
    let position = word_at(v, "position")?;
    let z = z_at(v)?;
    let opacity = opacity_at(v)?;
    let overflow = word_at(v, "overflow")?;
    let display = word_at(v, "display")?;
    let float = word_at(v, "float")?;
    Ok(placing(position, z, opacity, overflow, display, float))
}

/// The members that a box is painted with.
#[tactic(auto, unfolding(crate::specs::Styles::painting_of), using(crate::proofs::Limits::painting_fits))]
fn painting_of(v: &Value) -> Result<StyleChange, Why>
    ensures value { result ≡ (spec.painting_of (view v.now)).first }
    ensures fits { IfOk result (λ c. Fits (changed plain c)) }
{
    let background = color_at(v, "background")?;
    let border_width = border_width_at(v)?;
    let border_color = color_at(v, "border-color")?;
    let content = content_at(v)?;
    let outline_width = outline_width_at(v)?;
    let outline_color = color_at(v, "outline-color")?;
    Ok(painting(
        background,
        border_width,
        border_color,
        content,
        outline_width,
        outline_color,
    ))
}

/// The members that blend a box, which the first version has not.
#[tactic(auto, unfolding(crate::specs::Styles::blending_of))]
fn blending_of(version: Version, v: &Value) -> Result<StyleChange, Why>
    ensures value { result ≡ (spec.blending_of version (view v.now)).first }
    ensures had { IfOk result (λ c. HasChange (number_of version) c) }
{
    match version {
        Version::One => Ok(StyleChange::none()),
        Version::Two => {
            let blend = word_at(v, "mix-blend-mode")?;
            let isolation = word_at(v, "isolation")?;
            Ok(blending(blend, isolation))
        }
    }
}

const NAMES: [&str; 16] = [
    "position",
    "z-index",
    "opacity",
    "overflow",
    "display",
    "float",
    "background",
    "border-width",
    "border-color",
    "content",
    "outline-width",
    "outline-color",
    "visibility",
    "pointer-events",
    "mix-blend-mode",
    "isolation",
];

/// No member has another name than those of a style.
fn style_known(version: Version, members: &Map<String, Value>) -> Result<(), Why>
    ensures { result ≡ (known_names (spec.style_names version) (members_view members.now.entries)).first }
{
    match version {
        Version::One => known(members, &NAMES[..14]),
        Version::Two => known(members, &NAMES),
    }
}

/// What a style object gives its members, of which each may be absent.
#[tactic(auto, unfolding(crate::specs::Styles::given_of), using(crate::proofs::Limits::joined_fits, crate::proofs::Limits::joined_had))]
fn given_of(version: Version, v: &Value) -> Result<StyleChange, Why>
    ensures value { result ≡ (spec.given_of version (view v.now)).first }
    ensures fits { IfOk result (λ c. Fits (changed plain c)) }
    ensures had { IfOk result (λ c. HasChange (number_of version) c) }
{
    let places = placing_of(v)?;
    let paints = painting_of(v)?;
    let visibility = word_at(v, "visibility")?;
    let pointer = word_at(v, "pointer-events")?;
    let blends = blending_of(version, v)?;
    Ok(joined(places, paints, visibility, pointer, blends))
}

/// The same of a style object that names no other members.
#[tactic(auto, unfolding(crate::specs::Styles::change_of))]
pub(crate) fn change_of(version: Version, v: &Value) -> Result<StyleChange, Why>
    ensures value { result ≡ (spec.change_of version (view v.now)).first }
    ensures fits { IfOk result (λ c. Fits (changed plain c)) }
    ensures had { IfOk result (λ c. HasChange (number_of version) c) }
{
    let members = members(v)?;
    style_known(version, members)?;
    given_of(version, v)
}

#[tactic(auto, using(crate::proofs::Limits::changed_had))]
fn style_of(version: Version, v: &Value) -> Result<Style, Why>
    ensures value { result ≡ (spec.style_of version (view v.now)).first }
    ensures fits { IfOk result (λ s. Fits s) }
    ensures had { IfOk result (λ s. HasStyle (number_of version) s) }
{
    let change = change_of(version, v)?;
    Ok(changed(&Style::plain(), &change))
}

/// The style that a member gives; without it, the default style.
#[tactic(auto, using(crate::proofs::Limits::plain_fits, crate::proofs::Limits::plain_had))]
fn style_or_plain(version: Version, v: Option<&Value>) -> Result<Style, Why>
    ensures value { result ≡ (spec.style_or_plain version (option_map (λ v. view v.now) v.entry)).first }
    ensures fits { IfOk result (λ s. Fits s) }
    ensures had { IfOk result (λ s. HasStyle (number_of version) s) }
{
    match v {
        Some(v) => style_of(version, v),
        None => Ok(Style::plain()),
    }
}

/// The style of a box or an insertion.
pub(crate) fn style_at(version: Version, v: &Value) -> Result<Style, Why>
    ensures value { result ≡ (spec.style_at version (view v.now)).first }
    ensures fits { IfOk result (λ s. Fits s) }
    ensures had { IfOk result (λ s. HasStyle (number_of version) s) }
{
    style_or_plain(version, member(v, "style"))
}
