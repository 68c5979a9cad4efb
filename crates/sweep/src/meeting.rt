// Meetings of lines by how bad they are (specs/inner/Meetings).
ghost use Rattle.std.specs.Prelude.{◌≡◌, true, ◌≢◌, ◌⊎◌, min, max, ◌<◌};
ghost use Rattle.segment.specs.Meeting.{MeetSo};
ghost use Rattle.sweep.specs.inner.Meetings.{WorseWith};

use segment::meeting::{Meeting, compare_apart, compare_joined};
use segment::{Point, crosses};

// Are a and b both below low, or both above high?
fn beside(low: u16, high: u16, a: u16, b: u16) -> bool
    ensures { result ≡ true → (max a b < low) ⊎ (high < min a b) }
{
    a.max(b) < low || high < a.min(b)
}

// How does the line from r to s meet that from p to q? A common end starts both or ends both.
fn against(p: Point, q: Point, r: Point, s: Point) -> Meeting
    requires { (s ≢ p) × (r ≡ q → s ≡ q) }
    ensures { MeetSo result r s p q }
{
    if r == p {
        return compare_joined(r, s, q);
    }
    if s == q {
        return compare_joined(s, r, p);
    }
    compare_apart(r, s, p, q)
}

// The worse of a meeting and that of the line from r to s with that from p to q, whose columns are from low to high.
// Where lines touch already, only a crossing is worse. Seven parameters, since `WorseWith` speaks of the four points, and low and high are found once a line: a
// struct would be unpacked here.
#[tactic(auto, using(crate::proofs::Grades::worse_new, crate::proofs::Grades::worse_touching, crate::proofs::Grades::worse_crossing))]
pub fn worse_with(
    worst: Meeting,
    p: Point,
    q: Point,
    low: u16,
    high: u16,
    r: Point,
    s: Point,
) -> Meeting
    requires columns { (low ≡ min p.column q.column) × (high ≡ max p.column q.column) }
    requires ends_apart { (s ≢ p) × (r ≡ q → s ≡ q) }
    ensures { WorseWith worst r s p q result }
{
    if beside(low, high, r.column, s.column) {
        return worst;
    }
    match worst {
        Meeting::Separate | Meeting::SharedEnd => against(p, q, r, s),
        Meeting::Touching if crosses(r, s, p, q) => Meeting::Crossing,
        _ => worst,
    }
}
