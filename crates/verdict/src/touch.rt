// Conditions 21, 22, 23 and 25 over lines as numbers: two that end at one point, one that goes up, two that cross, two that share another point which does
// not end both. No node is held against a line: each node has a line that ends at it, so that a node on a line that it does not end shows as two lines that
// clash (`clashing`, proofs/Places).
ghost use Rattle.std.specs.Prelude.{◌≡◌, ◌↔◌, ◌≤◌, T, length, get_or};
ghost use Rattle.sort.specs.inner.Order.{Below};
ghost use Rattle.verdict.specs.Verdict.{FirstOf};
ghost use Rattle.verdict.specs.Fault.{fault_number};
ghost use Rattle.verdict.specs.inner.Steps.{Rises, line_conditions, worst_verdict};

use crate::Fault;
use line::{end, start};
use segment::meeting::Meeting;
use sort::sort;
use sweep::{same_end, worst_meeting};

// Does a line go up, from a node to a child above it?
fn rises_at(k: u64) -> bool
    ensures { T result ↔ Rises k }
{
    end(k).row < start(k).row
}

// Does one of the lines go up?
fn rises(lines: &[u64]) -> bool
    ensures { T result ↔ Below (length lines.now) (λ i. Rises (get_or lines.now i 0)) }
{
    lines.iter().any(|&line| rises_at(line))
}

// 23 or 25, by the worst meeting of two lines.
fn fault_of(worst: Meeting) -> Option<Fault>
    ensures { fault_number result ≡ worst_verdict worst }
{
    match worst {
        Meeting::Separate | Meeting::SharedEnd => None,
        Meeting::Crossing => Some(Fault::LinesCross),
        Meeting::Touching => Some(Fault::Clashing),
    }
}

// 21, 22, 23 or 25: the first that holds. The lists to work in are no struct, since `sort` takes one of them and `worst_meeting` both.
pub fn judge_lines(lines: &mut [u64], scratch: &mut [u64], abreast: &mut [u16]) -> Option<Fault>
    requires { (length lines.old ≤ 4097) × (length lines.old ≤ length scratch.old) × (length lines.old ≤ length abreast.old) }
    ensures { FirstOf (line_conditions (length lines.old) lines.old) (fault_number result) }
{
    sort(lines, scratch, 32);
    if same_end(lines) {
        return Some(Fault::SamePoint);
    }
    if rises(lines) {
        return Some(Fault::ChildAbove);
    }
    fault_of(worst_meeting(lines, scratch, abreast))
}
