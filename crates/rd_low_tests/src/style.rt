//! Tables of styles.

use rd_geom::{Rect, Sides};
use rd_style::*;

fn styled(
    position: Position,
    float: Floating,
    display: Display,
    z: Option<i32>,
    opacity: u8,
) -> Style {
    Style {
        position,
        float,
        display,
        z,
        opacity,
        overflow: Overflow::Hidden,
        ..Style::plain()
    }
}

// For each style: the class of its box, its level, and whether it is a block.
#[test]
fn classes_and_levels(rt: HostRuntime) {
    let (still, moved) = (Position::Static, Position::Relative);
    let (out, fixed) = (Position::Absolute, Position::Fixed);
    let (none, left) = (Floating::No, Floating::Left);
    let (block, inline, atom) = (Display::Block, Display::Inline, Display::InlineBlock);
    let table = [
        (
            styled(still, none, block, None, 255),
            Class::Block,
            None,
            true,
        ),
        (
            styled(still, none, inline, Some(7), 255),
            Class::Inline,
            None,
            false,
        ),
        (
            styled(still, none, atom, None, 255),
            Class::Atom,
            None,
            true,
        ),
        (
            styled(still, left, inline, None, 255),
            Class::Float,
            None,
            true,
        ),
        (
            styled(moved, left, inline, None, 255),
            Class::Layer,
            None,
            true,
        ),
        (
            styled(out, left, inline, Some(-3), 255),
            Class::Layer,
            Some(-3),
            true,
        ),
        (
            styled(moved, none, inline, None, 254),
            Class::Layer,
            Some(0),
            false,
        ),
        (
            styled(still, none, block, Some(5), 128),
            Class::Layer,
            Some(0),
            true,
        ),
        (
            styled(fixed, none, inline, None, 255),
            Class::Layer,
            Some(0),
            true,
        ),
    ];
    for (s, class, want, is_block) in table {
        assert!(rt; class_of(&s, false) == class);
        assert_eq!(rt; level(&s, false), want);
        assert_eq!(rt; real(&s, false), want.is_some());
        assert_eq!(rt; blocky(&s, false), is_block);
        assert_eq!(rt; clips(&s, false), is_block);
    }
}

#[test]
fn the_root_is_a_block_at_level_0(rt: HostRuntime) {
    let s = styled(
        Position::Absolute,
        Floating::Left,
        Display::Inline,
        Some(9),
        128,
    );
    assert!(rt; class_of(&s, true) == Class::Block);
    assert_eq!(rt; level(&s, true), Some(0));
    assert!(rt; real(&s, true) && blocky(&s, true) && !clips(&s, true));
}

#[test]
fn changes_and_limits(rt: HostRuntime) {
    let plain = Style::plain();
    let none = StyleChange::none();
    let clipping = Style {
        overflow: Overflow::Auto,
        ..plain
    };
    let wide = Sides {
        top: 0,
        right: 0,
        bottom: 0,
        left: 1001,
    };
    let widened = StyleChange {
        border_width: Some(wide),
        ..none
    };
    let content = StyleChange {
        content: Some(None),
        ..none
    };
    let auto = StyleChange {
        z: Some(None),
        ..none
    };
    assert!(rt; changed(&plain, &none) == plain && !whole(&plain, false, &none));
    assert!(rt; !names_any(&none) && names_any(&content));
    assert!(rt;
        whole(&clipping, false, &widened)
            && !whole(&clipping, true, &widened)
            && !whole(&plain, false, &widened)
    );
    assert!(rt; whole(&plain, false, &auto) && !whole(&clipping, false, &content));
    assert!(rt; fits(&plain) && !fits(&changed(&plain, &widened)));
    let of = |x, y, w, h| Rect::new(x, y, w, h).unwrap_or(Rect::EMPTY);
    assert!(rt; fits_rect(of(-1_000_000, 1_000_000, 0, 1_000_000)));
    assert!(rt; !fits_rect(of(1_000_001, 0, 0, 0)) && !fits_rect(of(0, 0, 0, 1_000_001)));
}
