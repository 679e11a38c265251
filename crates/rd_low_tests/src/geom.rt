//! Tables of products, pixels and rectangles.

use rd_geom::*;

#[test]
fn products_of_channels(rt: HostRuntime) {
    let table = [
        (255, 77, 77),
        (0, 200, 0),
        (31, 255, 31),
        (128, 128, 64),
        (127, 127, 63),
        (200, 100, 78),
        (100, 203, 80),
        (1, 127, 0),
        (1, 128, 1),
        (2, 64, 1),
        (254, 254, 253),
    ];
    for (a, b, want) in table {
        assert_eq!(rt; mul(a, b), want, "at {a} {b}");
    }
}

#[test]
fn pixels_laid_over_white(rt: HostRuntime) {
    let opaque = |r, g, b| Color { r, g, b, a: 255 };

    // Red through 128, red through 128 twice, black through 128, and red over white.
    let red = px_of(opaque(255, 0, 0));
    let half = scale(red, 128);
    let quarter = scale(half, 128);
    let shade = scale(px_of(opaque(0, 0, 0)), 128);
    let table = [
        (half, 255, 127, 127),
        (quarter, 255, 191, 191),
        (shade, 127, 127, 127),
        (red, 255, 0, 0),
        (Px::CLEAR, 255, 255, 255),
    ];
    for (s, r, g, b) in table {
        let p = over(s, Px::WHITE);
        assert_eq!(rt; (p.r(), p.g(), p.b(), p.a()), (r, g, b, 255));
    }
}

// Orange put onto violet, both opaque, and warm onto cold, both translucent, by each mode.
#[test]
fn pixels_put_by_blend_modes(rt: HostRuntime) {
    let of = |r, g, b, a| px_of(Color { r, g, b, a });
    let channels = |p: Px| (p.r(), p.g(), p.b(), p.a());
    let (orange, violet) = (of(192, 128, 64, 255), of(128, 64, 255, 255));
    let (warm, cold) = (of(200, 100, 50, 128), of(50, 100, 200, 192));
    let table = [
        (Blend::Normal, (192, 128, 64, 255), (119, 87, 100, 224)),
        (Blend::Multiply, (96, 32, 64, 255), (59, 64, 96, 224)),
        (Blend::Screen, (224, 160, 255, 255), (123, 110, 161, 224)),
        (Blend::Darken, (128, 64, 64, 255), (63, 87, 100, 224)),
        (Blend::Lighten, (192, 128, 255, 255), (119, 87, 157, 224)),
    ];
    for (m, opaque, translucent) in table {
        assert_eq!(rt; channels(mix(m, orange, violet)), opaque);
        assert_eq!(rt; channels(mix(m, warm, cold)), translucent);
        assert!(rt; mix(m, Px::CLEAR, cold) == cold);
    }
}

#[test]
fn rectangles(rt: HostRuntime) {
    let of = |x, y, w, h| Rect::new(x, y, w, h).unwrap_or(Rect::EMPTY);
    let (a, b, far) = (of(0, 0, 4, 4), of(2, 2, 4, 4), of(7, 7, 2, 2));
    assert!(rt; meet(a, b) == of(2, 2, 2, 2) && meets(a, b));
    assert!(rt; meet(a, far) == Rect::EMPTY && !meets(a, far) && !meets(a, of(4, 0, 1, 1)));
    assert!(rt; hull(a, far) == of(0, 0, 9, 9) && hull(of(5, 5, 0, 3), far) == far);
    assert!(rt; hull(of(5, 5, 0, 3), of(1, 1, 1, 0)) == Rect::EMPTY);
    assert!(rt; holds(b, 2, 5) && !holds(b, 6, 5) && !holds(b, 1, 5));
    assert!(rt; b.right() == 6 && b.bottom() == 6);
    let sides = |top, right, bottom, left| Sides {
        top,
        right,
        bottom,
        left,
    };
    assert!(rt; inset(a, sides(1, 0, 2, 1)) == of(1, 1, 3, 1));
    assert!(rt; inset(a, sides(2, 0, 2, 0)) == Rect::EMPTY);
    if let Some(r) = Rect::new(0, 0, 4, 4) {
        assert!(rt; outset(r, 3) == of(-3, -3, 10, 10));
    }
    assert!(rt; Rect::new(0, 0, -1, 0).is_none() && Rect::new(-1_000_000_001, 0, 1, 1).is_none());
    assert!(rt;
        Rect::new(1, 0, 1_000_000_000, 0).is_none() && Rect::new(0, 5, 1_000_000_000, 0).is_some()
    );
    assert!(rt; Size { w: 4096, h: 1 }.rect() == of(0, 0, 4096, 1));
}

// The hull of some rectangles once one of them has moved, where it can be told without the others.
#[test]
fn moved_hulls(rt: HostRuntime) {
    let of = |x, y, w, h| Rect::new(x, y, w, h).unwrap_or(Rect::EMPTY);
    let (all, middle, corner) = (of(0, 0, 9, 9), of(3, 3, 2, 2), of(7, 7, 2, 2));
    let table = [
        (middle, of(1, 1, 2, 2), Some(all)),
        (middle, of(8, 3, 4, 2), Some(of(0, 0, 12, 9))),
        (corner, of(7, 7, 3, 3), Some(of(0, 0, 10, 10))),
        (Rect::EMPTY, of(-1, 0, 1, 1), Some(of(-1, 0, 10, 9))),
        (corner, middle, None),
    ];
    for (lost, gained, want) in table {
        assert!(rt; moved_hull(all, lost, gained) == want);
    }
}
