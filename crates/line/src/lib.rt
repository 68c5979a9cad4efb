// A line as a number: the number of its end above that of its start, each counted row by row (specs/inner/Line).
// It is no struct, since `sort` sorts numbers, and C lends lines as numbers (`probe`).
#![tactic(auto)]

ghost use Rattle.std.specs.Prelude.{◌≡◌, ◌<◌, ◌/◌, ◌%◌};
ghost use Rattle.segment.specs.Segment.{at};
ghost use Rattle.segment.specs.inner.Test.{number as number_of};
ghost use Rattle.line.specs.inner.Line.{start_of, end_of, first as first_of, last as last_of};

use segment::Point;

// What a step of the end adds to a line's number: more than the number of any start.
const HALF: u64 = 0x1_0000_0000;

// The number of a point, counted row by row.
pub fn number(p: Point) -> u64
    ensures { (result ≡ number_of 65536 p) × (p.row < 65536) × (p.column < 65536) }
{
    65536 * u64::from(p.row) + u64::from(p.column)
}

// The line from p to q, as a number.
pub fn from_ends(p: Point, q: Point) -> u64
    ensures { (start_of result ≡ p) × (end_of result ≡ q) }
{
    number(q) * HALF + number(p)
}

// The number of the point that a line starts at.
pub fn first(k: u64) -> u64
    ensures { result ≡ first_of k }
{
    k % HALF
}

// The number of the point that it ends at.
pub fn last(k: u64) -> u64
    ensures { result ≡ last_of k }
{
    k / HALF
}

// The point with this number. That the casts lose no bits is proved, so `try_from` and an `unwrap` would be no plainer.
fn numbered(n: u64) -> Point
    requires { n < 4294967296 }
    ensures { result ≡ at (n % 65536) (n / 65536) }
{
    Point {
        column: (n % 65536) as u16,
        row: (n / 65536) as u16,
    }
}

// The point that a line starts at.
#[tactic(auto, using(crate::proofs::Numbers::start_numbered))]
pub fn start(k: u64) -> Point
    ensures { result ≡ start_of k }
{
    numbered(first(k))
}

// The point that it ends at.
#[tactic(auto, using(crate::proofs::Numbers::end_numbered))]
pub fn end(k: u64) -> Point
    ensures { result ≡ end_of k }
{
    numbered(last(k))
}
