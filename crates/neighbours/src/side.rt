// Is a line beside another, to its right? By the numbers of their ends (specs/inner/Side).
ghost use Rattle.std.specs.Prelude.{◌≡◌, true};
ghost use Rattle.line.specs.inner.Line.{start_of};
ghost use Rattle.neighbours.specs.inner.Side.{Ends, Right, Beyond, Next};

use line::{first, last, start};
use segment::cross;

// Is e one of the points p and q?
fn ends(e: u64, p: u64, q: u64) -> bool
    ensures { result ≡ true → Ends (start_of e) (start_of p) (start_of q) }
{
    e == p || e == q
}

// Is r strictly to the right of the line from p to q, as it goes down?
fn right_of(p: u64, q: u64, r: u64) -> bool
    ensures { result ≡ true → Right (start_of p) (start_of q) (start_of r) }
{
    cross(start(p), start(q), start(r)) < 0
}

// Is the line from r to s to the right of it?
fn beyond(p: u64, q: u64, r: u64, s: u64) -> bool
    ensures { result ≡ true → Beyond (start_of p) (start_of q) (start_of r) (start_of s) }
{
    if ends(r, p, q) {
        return r == s || right_of(p, q, s);
    }
    right_of(p, q, r) && (ends(s, p, q) || right_of(p, q, s))
}

// Is the line y beside the line x, to the right?
pub fn beside(x: u64, y: u64) -> bool
    ensures { result ≡ true → Next x y }
{
    let p = first(x);
    let q = last(x);
    let r = first(y);
    let s = last(y);
    beyond(p, q, r, s) || beyond(s, r, p, q)
}
