//! How far an edit touches.
ghost use Rattle.std.specs.Prelude.{◌≡◌};
ghost use Rattle.rd_tree.specs.Internal.Reaching as reaching;

use rd_style::{Style, StyleChange, clips, names_any, whole};

/// How far an edit touches.
#[derive(Clone, Copy)]
pub(crate) enum Reach {
    /// No box.
    Nothing,
    /// The box alone.
    Alone,
    /// The box and all below it.
    Subtree,
}

/// How far a change of style touches.
pub(crate) fn style_reach(s: &Style, is_root: bool, c: &StyleChange) -> Reach
    ensures { result ≡ reaching.style_reach s.now is_root c.now }
{
    if whole(s, is_root, c) {
        return Reach::Subtree;
    }
    if names_any(c) {
        return Reach::Alone;
    }
    Reach::Nothing
}

/// How far another rectangle touches.
pub(crate) fn rect_reach(s: &Style, is_root: bool) -> Reach
    ensures { result ≡ reaching.rect_reach s.now is_root }
{
    if clips(s, is_root) {
        Reach::Subtree
    } else {
        Reach::Alone
    }
}
