//! Boxes where they stand, and the tests of painting on them.
ghost use Rattle.std.specs.Prelude.{◌≡◌};
ghost use Rattle.std.specs.List.{list_all};
ghost use Rattle.rd_geom.specs.Plane.{IsPlaced, outset};
ghost use Rattle.rd_stack.specs.Paths as paths;
ghost use Rattle.rd_style.specs.declared.kinds.Class.TheVariants as classes;

use rd_geom::Rect;
use rd_keys::BoxKey;
use rd_style::{Class, Style, is_blended as has_mode, real};
use std::marker::Model;

/// A box by its name, its border box in canvas pixels and its style.
#[derive(Clone, Copy)]
pub struct BoxData {
    pub(crate) key: BoxKey,
    pub(crate) rect: Rect,
    pub(crate) style: Style,
}

impl Model for BoxData {
    ghost use Rattle.rd_stack.specs.Paths.{BoxData, OutlineFits};

    ghost Value = { BoxData };

    ghost view = { λ a. record { key = a.key; rect = a.rect; style = a.style } };

    ghost invariant = { λ a. OutlineFits (record { key = a.key; rect = a.rect; style = a.style }) };

    ghost inverse = { λ b. record { key = b.key; rect = b.rect; style = b.style } };
}

impl BoxData {
    #[inline(always)]
    pub fn new(key: BoxKey, rect: &Rect, style: &Style) -> BoxData
        requires { IsPlaced (outset rect.now style.now.outline_width) }
        ensures { result ≡ record { key = key; rect = rect.now; style = style.now } }
    {
        BoxData {
            key,
            rect: *rect,
            style: *style,
        }
    }

    pub fn key(&self) -> BoxKey
        ensures { result ≡ self.now.key }
    {
        self.key
    }

    pub fn rect(&self) -> Rect
        ensures { result ≡ self.now.rect }
    {
        self.rect
    }

    pub fn style(&self) -> &Style
        ensures { result.now ≡ self.now.style }
    {
        &self.style
    }
}

/// A box with the boxes above it, from its parent up to the root.
#[derive(Drop)]
pub struct BoxPath {
    pub above: Vec<BoxData>,
    pub here: BoxData,
}

impl Model for BoxPath {
    ghost use Rattle.rd_stack.specs.Paths.{BoxPath};

    ghost Value = { BoxPath };

    ghost view = { λ s. record { above = s.above.items; here = s.here } };
}

/// Is no box above it?
pub fn is_root(x: &BoxPath) -> bool
    ensures { result ≡ paths.is_root x.now }
{
    x.above.is_empty()
}

/// Does the box make a stacking context?
pub fn is_context(e: &BoxPath) -> bool
    ensures { result ≡ paths.is_context e.now }
{
    real(&e.here.style, is_root(e))
}

/// How the box takes part in painting.
pub fn class_of(x: &BoxPath) -> Class
    ensures { result ≡ paths.class_of x.now }
{
    rd_style::class_of(&x.here.style, is_root(x))
}

/// Is it a block?
pub fn is_block(x: &BoxPath) -> bool
    ensures { result ≡ paths.has_class classes.Block x.now }
{
    matches!(class_of(x), Class::Block)
}

/// Does it float?
pub fn is_float(x: &BoxPath) -> bool
    ensures { result ≡ paths.has_class classes.Float x.now }
{
    matches!(class_of(x), Class::Float)
}

/// Is it an atomic inline?
pub fn is_atom(x: &BoxPath) -> bool
    ensures { result ≡ paths.has_class classes.Atom x.now }
{
    matches!(class_of(x), Class::Atom)
}

fn is_of_layer_class(x: &BoxPath) -> bool
    ensures { result ≡ paths.has_class classes.Layer x.now }
{
    matches!(class_of(x), Class::Layer)
}

fn is_inline_level(x: &BoxPath) -> bool
    ensures { result ≡ paths.is_inline_level x.now }
{
    matches!(class_of(x), Class::Inline | Class::Atom)
}

fn is_plain(b: &BoxData) -> bool
    ensures { result ≡ paths.is_plain b.now }
{
    matches!(
        rd_style::class_of(&b.style, false),
        Class::Block | Class::Inline
    )
}

fn is_inline(b: &BoxData) -> bool
    ensures { result ≡ paths.is_inline b.now }
{
    matches!(rd_style::class_of(&b.style, false), Class::Inline)
}

fn is_no_context(b: &BoxData) -> bool
    ensures { result ≡ paths.is_no_context b.now }
{
    !real(&b.style, false)
}

/// The boxes strictly between e and a box x below it.
fn boxes_between<'a>(e: &BoxPath, x: &'a BoxPath) -> &'a [BoxData]
    ensures { result.now ≡ paths.boxes_between e.now x.now }
{
    let n = x.above.len().saturating_sub(e.above.len() + 1);
    &x.above[..n]
}

/// Does no layer, float or atomic inline stand between e and x?
pub fn is_local(e: &BoxPath, x: &BoxPath) -> bool
    ensures { result ≡ paths.is_local e.now x.now }
{
    boxes_between(e, x).iter().all(|b| is_plain(b))
}

fn has_no_context_between(e: &BoxPath, x: &BoxPath) -> bool
    ensures { result ≡ list_all paths.is_no_context (paths.boxes_between e.now x.now) }
{
    boxes_between(e, x).iter().all(|b| is_no_context(b))
}

fn is_all_inline(c: &BoxPath, x: &BoxPath) -> bool
    ensures { result ≡ paths.is_all_inline c.now x.now }
{
    boxes_between(c, x).iter().all(|b| is_inline(b))
}

/// Is x a layer of the stacking context e?
pub fn is_layer(e: &BoxPath, x: &BoxPath) -> bool
    ensures { result ≡ paths.is_layer e.now x.now }
{
    is_of_layer_class(x) && has_no_context_between(e, x)
}

/// Has the box a blend mode other than normal?
pub fn is_blended(x: &BoxPath) -> bool
    ensures { result ≡ paths.is_blended x.now }
{
    has_mode(&x.here.style)
}

/// Is x a layer of the stacking context e that blends with what e paints?
pub fn is_blended_layer(e: &BoxPath, x: &BoxPath) -> bool
    ensures { result ≡ paths.is_blended_layer e.now x.now }
{
    is_layer(e, x) && is_blended(x)
}

fn is_below(c: &BoxPath, x: &BoxPath) -> bool
    ensures { result ≡ paths.is_below c.now x.now }
{
    x.above.iter().any(|b| b.key.is(c.here.key))
}

/// Is x an inline box or an atomic inline in the line of c, which e paints?
pub fn is_in_line(e: &BoxPath, c: &BoxPath, x: &BoxPath) -> bool
    ensures { result ≡ paths.is_in_line e.now c.now x.now }
{
    is_local(e, x) && is_inline_level(x) && is_below(c, x) && is_all_inline(c, x)
}
