// Line segments between grid points: cross products, shared points, and how two segments meet.
// A segment is two points and no struct, since the definitions and the promises of `compare` speak of its ends.
#![tactic(auto)]

pub mod meeting;

ghost use Rattle.std.specs.Prelude.{◌≡◌, ◌↔◌, T, pos, ◌-ℤ◌};
ghost use Rattle.segment.specs.Segment as Meaning;
ghost use Rattle.segment.specs.Meeting.{Crosses};
ghost use Rattle.segment.specs.inner.Test as Test;
ghost use Rattle.segment.specs.inner.Test.{order};

// A point of the grid: column 0 is leftmost, row 0 the top, rows grow downward.
#[derive(Clone, Copy, Debug, PartialEq, Eq)]
pub struct Point {
    pub column: u16,
    pub row: u16,
}

// The signed difference a - b.
fn minus(a: u16, b: u16) -> i64
    ensures { result ≡ pos a -ℤ pos b }
{
    i64::from(a) - i64::from(b)
}

// The cross product of a - p and b - p. For a and b below p: below zero where a is to the left of b.
pub fn cross(p: Point, a: Point, b: Point) -> i64
    ensures { result ≡ Meaning.cross p a b }
{
    minus(a.column, p.column) * minus(b.row, p.row)
        - minus(a.row, p.row) * minus(b.column, p.column)
}

// Have the intervals from a to b and from x to y a number in common?
#[tactic(auto, unfolding(crate::specs::inner::Test::overlap))]
fn overlap(a: u16, b: u16, x: u16, y: u16) -> bool
    ensures { result ≡ Test.overlap a b x y }
{
    a.min(b) <= x.max(y) && x.min(y) <= a.max(b)
}

// Is zero from d to e, or, if STRICT, strictly between them?
#[tactic(auto, unfolding(crate::specs::inner::Test::spans))]
fn spans<const STRICT: bool>(d: i64, e: i64) -> bool
    ensures { result ≡ Test.spans (order STRICT) d e }
{
    if STRICT {
        d < 0 && 0 < e
    } else {
        d <= 0 && 0 <= e
    }
}

// Are x and y not both strictly on one side of the line through a and b, or, if STRICT, strictly on either side of it?
fn astride<const STRICT: bool>(a: Point, b: Point, x: Point, y: Point) -> bool
    ensures { result ≡ Test.astride (order STRICT) a b x y }
{
    let d = cross(a, b, x);
    let e = cross(a, b, y);
    spans::<STRICT>(d, e) || spans::<STRICT>(e, d)
}

// Do the segments from p to q and from r to s share a point?
pub fn meets(p: Point, q: Point, r: Point, s: Point) -> bool
    ensures { T result ↔ Meaning.Share p q r s }
{
    overlap(p.row, q.row, r.row, s.row)
        && overlap(p.column, q.column, r.column, s.column)
        && astride::<false>(p, q, r, s)
        && astride::<false>(r, s, p, q)
}

// Do the segments from p to q and from r to s cross?
pub fn crosses(p: Point, q: Point, r: Point, s: Point) -> bool
    ensures { T result ↔ Crosses p q r s }
{
    astride::<true>(p, q, r, s) && astride::<true>(r, s, p, q)
}

// Does b lie on the segment from p to q?
pub fn lies(b: Point, p: Point, q: Point) -> bool
    ensures { T result ↔ Meaning.Lies b p q }
{
    meets(p, q, b, b)
}
