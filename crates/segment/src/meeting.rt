// How two segments meet (specs/Meeting).
ghost use Rattle.std.specs.Prelude.{◌↔◌, ◌≢◌, T};
ghost use Rattle.segment.specs.Segment.{Clash};
ghost use Rattle.segment.specs.Meeting.{MeetSo};

use crate::{Point, cross, crosses, lies, meets};

// Two segments share no point, only ends of both, a point inside both where they are not parallel, or any other.
#[derive(Clone, Copy, Debug, PartialEq, Eq)]
pub enum Meeting {
    Separate,
    SharedEnd,
    Crossing,
    Touching,
}

// Do the segments from p to a and from p to b share more than p?
fn along(p: Point, a: Point, b: Point) -> bool
    ensures { T result ↔ Clash p a p b }
{
    cross(p, a, b) == 0 && p != a && p != b && (lies(a, p, b) || lies(b, p, a))
}

// How do the segments from p to a and from p to b meet? They do not cross.
pub fn compare_joined(p: Point, a: Point, b: Point) -> Meeting
    ensures { MeetSo result p a p b }
{
    if along(p, a, b) {
        return Meeting::Touching;
    }
    Meeting::SharedEnd
}

// How do the segments from p to q and from r to s meet, which have no common end?
#[tactic(auto, using(crate::proofs::Clashing::no_common, crate::proofs::FourKinds::touches_by))]
pub fn compare_apart(p: Point, q: Point, r: Point, s: Point) -> Meeting
    requires { (p ≢ r) × (p ≢ s) × (q ≢ r) × (q ≢ s) }
    ensures { MeetSo result p q r s }
{
    if !meets(p, q, r, s) {
        return Meeting::Separate;
    }
    if crosses(p, q, r, s) {
        return Meeting::Crossing;
    }
    Meeting::Touching
}

// How do the segments from p to q and from r to s meet?
// Promised beyond this contract (promises/specs/Promises): `OneMeeting`, `SomeMeeting`.
pub fn compare(p: Point, q: Point, r: Point, s: Point) -> Meeting
    ensures { MeetSo result p q r s }
{
    if p == r {
        return compare_joined(p, q, s);
    }
    if p == s {
        return compare_joined(p, q, r);
    }
    if q == r {
        return compare_joined(q, p, s);
    }
    if q == s {
        return compare_joined(q, p, r);
    }
    compare_apart(p, q, r, s)
}
