// The order of points: by x, then by y.
ghost use Rattle.std.specs.Prelude.{◌↔◌, IsTrue};
ghost use Rattle.plane.specs.Forms.Vectors.{Before};

use plane::Point;

/// Whether `p` comes before `q`: by x, then by y.
pub fn before(p: Point, q: Point) -> bool
    ensures { IsTrue result ↔ Before p q }
{
    p.x < q.x || (p.x == q.x && p.y < q.y)
}
