// Curves and objects' points of a drawing by their numbers.
ghost use Rattle.std.specs.Prelude.{◌≡◌};
ghost use Rattle.plane.specs.Rule.Plans.{curve, plan};
ghost use Rattle.itffaults.specs.FaultText.Text.{placed};

use plane::{Curve, CurveKind, Drawing, Placed, Point};

const ORIGIN: Point = Point { x: 0, y: 0 };

/// The curve of that number. Beyond the last one it is not meant: no list of faults names it.
pub fn curve_at(drawing: &Drawing, number: u32) -> Curve
    ensures { result ≡ curve (plan drawing.now) number }
{
    match drawing.curves.get(number as usize) {
        Some(curve) => *curve,
        None => Curve {
            kind: CurveKind::Straight,
            line: 0,
            from: ORIGIN,
            to: ORIGIN,
            third: ORIGIN,
        },
    }
}

/// The object's point of that number. Beyond the last one it is not meant either.
pub fn placed_at(drawing: &Drawing, number: u32) -> Placed
    ensures { result ≡ placed (plan drawing.now) number }
{
    match drawing.points.get(number as usize) {
        Some(placed) => *placed,
        None => Placed {
            at: ORIGIN,
            line: 0,
        },
    }
}
