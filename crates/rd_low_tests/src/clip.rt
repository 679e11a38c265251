//! Clips below some boxes.

use rd_clip::Clips;
use rd_geom::{Rect, Sides, Size};
use rd_style::{Overflow, Position, Style};

fn of(x: i32, y: i32, w: i32, h: i32) -> Rect {
    Rect::new(x, y, w, h).unwrap_or(Rect::EMPTY)
}

// On a canvas of 10 by 10: the root hides what overflows it, which clips nothing, a box at 0 0 4 4 hides it too,
// with a border of one pixel where it is positioned, and below that a box at 1 1 9 2.
#[test]
fn clips_below_two_boxes(rt: HostRuntime) {
    let (canvas, inner, flow) = (of(0, 0, 10, 10), of(0, 0, 4, 4), of(1, 1, 2, 2));
    let plain = Style::plain();
    let hiding = Style {
        overflow: Overflow::Hidden,
        ..plain
    };
    let border = Sides {
        top: 1,
        right: 1,
        bottom: 1,
        left: 1,
    };
    let moved = Style {
        position: Position::Relative,
        border_width: border,
        ..hiding
    };
    let absolute = Style {
        position: Position::Absolute,
        ..hiding
    };
    let fixed = Style {
        position: Position::Fixed,
        ..hiding
    };
    let none = Rect::EMPTY;
    let narrow = of(1, 1, 3, 2);
    let table = [
        (hiding, plain, inner, canvas, canvas),
        (moved, plain, flow, flow, canvas),
        (hiding, hiding, narrow, canvas, canvas),
        (hiding, absolute, of(1, 1, 9, 2), of(1, 1, 9, 2), canvas),
        (moved, absolute, flow, flow, canvas),
        (moved, fixed, of(1, 1, 9, 2), of(1, 1, 9, 2), canvas),
    ];
    for (upper, lower, below, out, pinned) in table {
        let clips = Clips::root(Size { w: 10, h: 10 }).enter(&hiding, of(0, 0, 2, 2), true);
        let clips = clips
            .enter(&upper, inner, false)
            .enter(&lower, of(1, 1, 9, 2), false);
        assert!(rt; clips.for_box(&plain) == below);
        assert!(rt; clips.for_box(&absolute) == out);
        assert!(rt; clips.for_box(&fixed) == pinned);
        assert!(rt; below != none);
    }
}
