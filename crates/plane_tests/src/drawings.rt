// A drawing, as curves and points are added to it.
use plane::{Curve, CurveKind, Drawing, Placed, Point, Window2};
use ports::Memory;

const WINDOW: Window2 = Window2 {
    low: Point { x: 0, y: 0 },
    high: Point { x: 1000, y: 1000 },
};

const A: Point = Point { x: 0, y: 0 };

const B: Point = Point { x: 500, y: 0 };

const C: Point = Point { x: 1000, y: 500 };

const CURVES: [Curve; 3] = [
    Curve {
        kind: CurveKind::Straight,
        from: A,
        to: B,
        third: B,
        line: 7,
    },
    Curve {
        kind: CurveKind::HalfArc,
        from: B,
        to: C,
        third: A,
        line: 8,
    },
    Curve {
        kind: CurveKind::HalfArc,
        from: C,
        to: A,
        third: B,
        line: 9,
    },
];

#[test]
fn a_drawing_gains_what_is_added(rt: HostRuntime) -> Result<(), Memory> {
    let mut drawing = Drawing::new(rt.alloc(), WINDOW);
    drawing.add_straight(A, B, 7)?;
    drawing.add_arc(B, C, A, 8, 9)?;
    drawing.add_point(B, 10)?;
    let points = [Placed { at: B, line: 10 }];
    let same = drawing.curves.as_slice() == CURVES.as_slice();
    assert!(rt; same && drawing.points.as_slice() == points.as_slice());
    Ok(())
}
