// Along which axis lines are sorted: by rows, or by columns where they overlap less in these (specs/inner/Arranged).
#![tactic(auto)]

ghost use Rattle.std.specs.Prelude.{◌≡◌, ◌+◌, ◌≤◌, ◌<◌, length};
ghost use Rattle.line.specs.inner.Line.{start_of, end_of};
ghost use Rattle.axis.specs.inner.Arranged.{view, Joined, Arranged, Settled};

use line::{end, first, from_ends, last, number, start};
use segment::Point;
use sort::sort;

// The line between p and q, from the one with the lesser number.
#[tactic(auto, using(crate::proofs::Arranging::joined_forth, crate::proofs::Arranging::joined_back))]
fn join(p: Point, q: Point) -> u64
    ensures { Joined p q result }
{
    if number(p) <= number(q) {
        from_ends(p, q)
    } else {
        from_ends(q, p)
    }
}

// A point, with column and row exchanged or not. Which axis is a bool, and no enum, since the definitions `view` and `Arranged` ask one.
fn viewed(p: Point, across: bool) -> Point
    ensures { result ≡ view across p }
{
    if across {
        Point {
            column: p.row,
            row: p.column,
        }
    } else {
        p
    }
}

// A line, with columns and rows exchanged or not, from its end with the lesser number.
fn aligned(k: u64, across: bool) -> u64
    ensures { Joined (view across (start_of k)) (view across (end_of k)) result }
{
    if !across && first(k) <= last(k) {
        return k;
    }
    join(viewed(start(k), across), viewed(end(k), across))
}

// Every line so.
#[tactic(auto, using(crate::proofs::Arranging::arranging_none, crate::proofs::Arranging::arranging_more, crate::proofs::Arranging::arranging_all))]
fn arrange(lines: &mut [u64], across: bool)
    ensures { Arranged across (length lines.old) lines.old lines.new }
{
    for line in lines.iter_mut() {
        *line = aligned(*line, across);
    }
}

// How far lines reach along one axis: from the least place to the greatest, and in sum.
#[derive(Clone, Copy)]
struct Reach {
    low: u16,
    high: u16,
    sum: u64,
}

impl Reach {
    // How far no line reaches: each place is less than `low` or equal, and greater than `high` or equal. An Option would be asked at each line: no plainer.
    const NONE: Reach = Reach {
        low: 65535,
        high: 0,
        sum: 0,
    };

    // How far the lines reach, in rows or in columns.
    fn along(lines: &[u64], across: bool) -> Reach
        requires { length lines.now ≤ 4097 }
        ensures { result.sum < 4294967296 }
    {
        let mut reach = Reach::NONE;
        for &line in lines {
            let p = viewed(start(line), across);
            let q = viewed(end(line), across);
            reach = reach.with(p.row, q.row);
        }
        reach
    }

    // With one line more, between the places a and b.
    fn with(self, a: u16, b: u16) -> Reach
        requires { self.sum < 4294967296 }
        ensures { result.sum ≤ self.sum + 65535 }
    {
        Reach {
            low: self.low.min(a).min(b),
            high: self.high.max(a).max(b),
            sum: self.sum + u64::from(a.abs_diff(b)),
        }
    }

    // How many lines lie abreast, on the average.
    fn abreast(self) -> u64 {
        if self.high < self.low {
            return 0;
        }
        self.sum / (u64::from(self.high - self.low) + 1)
    }
}

// Along which axis lines are searched, and whether they lie far abreast along both. Any answer is right: it decides only the time.
#[derive(Clone, Copy, Debug, PartialEq, Eq)]
pub struct View {
    pub across: bool,
    pub far: bool,
}

// By columns, if many lines, more than seven, lie abreast by rows, and fewer by columns; far, if more than 12 do by both.
pub fn view_of(lines: &[u64]) -> View
    requires { length lines.now ≤ 4097 }
    ensures { Unit {0} }
{
    let rows = Reach::along(lines, false).abreast();
    if rows <= 7 {
        return View {
            across: false,
            far: false,
        };
    }
    let columns = Reach::along(lines, true).abreast();
    View {
        across: columns < rows,
        far: 12 < columns && 12 < rows,
    }
}

// The lines as they are seen along an axis, sorted by their ends.
#[tactic(auto, using(crate::proofs::Arranging::settled))]
pub fn settle(lines: &mut [u64], scratch: &mut [u64], across: bool)
    requires { length lines.old ≤ length scratch.old }
    ensures { Settled (length lines.old) lines.old lines.new }
{
    arrange(lines, across);
    sort(lines, scratch, 32);
}
