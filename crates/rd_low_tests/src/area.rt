//! Rectangles that join areas.

use rd_area::*;
use rd_geom::{NoMemory, Rect, Size};

fn of(x: i32, y: i32, w: i32, h: i32) -> Rect {
    Rect::new(x, y, w, h).unwrap_or(Rect::EMPTY)
}

// On a canvas of 10 by 10: rectangles, how many pixels the area has after each, how many spans
// the third row has, and its first and last one.
#[test]
fn rectangles_join(rt: HostRuntime) -> Result<(), NoMemory> {
    let mut area = Area::none(rt.alloc(), Size { w: 10, h: 10 })?;
    assert!(rt; area.count() == 0 && area.spans(2).is_empty() && !area.meets(of(0, 0, 10, 10)));
    let table = [
        (of(2, 2, 4, 4), 16, 1, (2, 6), (2, 6)),
        (of(6, 6, 3, 3), 25, 1, (2, 6), (2, 6)),
        (of(8, 0, 9, 3), 31, 2, (2, 6), (8, 10)),
        (of(-5, 2, 6, 1), 32, 3, (0, 1), (8, 10)),
        (of(6, 2, 1, 1), 33, 3, (0, 1), (8, 10)),
        (of(1, 2, 6, 1), 34, 2, (0, 7), (8, 10)),
        (of(0, 12, 10, 4), 34, 2, (0, 7), (8, 10)),
        (of(3, -4, 6, 7), 45, 1, (0, 10), (0, 10)),
    ];
    for (r, count, few, first, last) in table {
        area.add(r)?;
        assert_eq!(rt; area.count(), count);
        assert_eq!(rt; area.spans(2).len(), few);
        let of = |s: (i32, i32)| Some(Span { x0: s.0, x1: s.1 });
        assert!(rt; area.spans(2).first().copied() == of(first));
        assert!(rt; area.spans(2).last().copied() == of(last));
    }
    assert!(rt;
        area.holds(0, 2)
            && !area.holds(0, 3)
            && !area.holds(-1, 2)
            && !area.holds(0, -1)
            && !area.holds(0, 10)
    );
    assert!(rt;
        area.meets(of(8, 8, 5, 5)) && !area.meets(of(9, 3, 1, 3)) && !area.meets(of(0, 3, 2, 7))
    );
    assert!(rt; area.spans(-1).is_empty() && area.spans(10).is_empty());
    let whole = Area::whole(rt.alloc(), Size { w: 3, h: 2 })?;
    assert!(rt; whole.count() == 6 && whole.holds(2, 1) && !whole.holds(3, 1));
    Ok(())
}

// The largest canvas takes a thousand rectangles.
#[test]
fn many_rectangles(rt: HostRuntime) -> Result<(), NoMemory> {
    let mut area = Area::none(rt.alloc(), Size { w: 4096, h: 4096 })?;
    for j in 0..25u16 {
        for i in 0..40u16 {
            area.add(of(i32::from(i * 100), i32::from(j * 160), 50, 100))?;
        }
    }
    assert_eq!(rt; area.count(), 5_000_000);
    assert_eq!(rt; area.spans(50).len(), 40);
    assert!(rt; !area.meets(of(50, 0, 50, 4096)) && area.meets(of(49, 0, 1, 1)));
    Ok(())
}
