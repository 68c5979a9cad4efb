// The worst meeting of two lines of a list: lines sorted by their ends, and each compared with those before it that end after it starts. Where that takes long,
// a sweep that compares neighbours only (`neighbours`) is asked first whether there is anything to be found.
#![tactic(auto)]

mod meeting;

ghost use Rattle.std.specs.Prelude.{◌≡◌, true, ◌↔◌, ◌≤◌, ◌<◌, T, length, get_or, IfSome, IsSome};
ghost use Rattle.sort.specs.inner.Order.{Pairs, Ascending};
ghost use Rattle.line.specs.inner.Line.{last, Onward};
ghost use Rattle.segment.specs.declared.meeting.Meeting.TheVariants.{Separate};
ghost use Rattle.sweep.specs.inner.Meetings.{Room, WorstFrom, Worst, Seen};

use crate::meeting::worse_with;
use axis::{View, settle, view_of};
use line::{end, first, last, start};
use neighbours::clear;
use segment::meeting::Meeting;

// The worst meeting found, and the first line that was compared.
#[derive(Clone, Copy)]
struct Found {
    worst: Meeting,
    from: usize,
}

// More comparisons than 4,097 lines can need: no Option, since a test at each line would be no plainer.
const ALL: usize = 0x100_2001;

// Lines sorted by their ends.
#[derive(Clone, Copy)]
struct Sorted<'a> {
    lines: &'a [u64],
    ghost onward: { Onward (length lines.now) lines.now },
    ghost ascending: { Ascending last (length lines.now) lines.now },
}

impl Sorted<'_> {
    // The worst of a meeting and those of line i with the lines before it; by place, since the answer names one.
    // Where one ends at the start of line i or before, so do all before that.
    fn worst_before(self, i: usize, worst: Meeting) -> Found
        requires { i < length self.lines.now }
        ensures { (result.from ≤ i) × WorstFrom 0 i self.entry.lines.now worst result.worst }
    {
        let k = self.lines[i];
        let p = start(k);
        let q = end(k);
        let low = p.column.min(q.column);
        let high = p.column.max(q.column);
        let mut worst = worst;
        for j in (0..i).rev() {
            let before = self.lines[j];
            if last(before) <= first(k) {
                return Found { worst, from: j + 1 };
            }
            worst = worse_with(worst, p, q, low, high, start(before), end(before));
        }
        Found { worst, from: 0 }
    }

    // The worst meeting of two of the lines, by place, since `worst_before` is asked by one. Stops with the first line that crosses another, since no meeting
    // is worse; and is given up where it has compared more than `budget` and, for each line so far, 10.
    #[tactic(auto, using(crate::proofs::Grades::worst_utmost, crate::proofs::Grades::worst_more))]
    fn worst(self, budget: usize) -> Option<Meeting>
        requires { (length self.lines.now ≤ 4097) × (budget ≤ 16785409) }
        ensures worst { IfSome result (λ m. Worst (length self.entry.lines.now) self.entry.lines.now m) }
        ensures whole { budget ≡ 16785409 → IsSome result }
    {
        let mut worst = Meeting::Separate;
        let mut left = budget;
        for i in 0..self.lines.len() {
            let found = self.worst_before(i, worst);
            worst = found.worst;
            if worst == Meeting::Crossing {
                return Some(worst);
            }
            let compared = i - found.from;
            left += 10;
            if left < compared {
                return None;
            }
            left -= compared;
        }
        Some(worst)
    }
}

// The worst meeting of two lines, by a search that is not begun where lines lie far abreast, and given up where it takes long. If it is given up,
// they are seen upright again.
fn search_first(lines: &mut [u64], scratch: &mut [u64], view: View) -> Option<Meeting>
    requires { (length lines.old ≤ 4097) × (length lines.old ≤ length scratch.old) }
    ensures worst { IfSome result (λ m. Worst (length lines.old) lines.old m) }
    ensures seen { Seen (length lines.old) lines.old lines.new }
{
    if view.far {
        return None;
    }
    settle(lines, scratch, view.across);
    let found = Sorted { lines }.worst(2 * lines.len());
    if found.is_some() {
        return found;
    }
    settle(lines, scratch, view.across);
    found
}

// Are the lines surely without a clash? "No" says nothing.
pub fn surely_clear(lines: &mut [u64], scratch: &mut [u64], abreast: &mut [u16]) -> bool
    requires { Room lines.old scratch.old abreast.old }
    ensures clear { result ≡ true → Worst (length lines.old) lines.old Separate }
    ensures seen { Seen (length lines.old) lines.old lines.new }
{
    settle(lines, scratch, false);
    clear(lines, abreast)
}

// The worst meeting of two lines, whichever way they go. Leaves them seen along an axis and sorted. The lists to work in are no struct, since
// `settle` takes two of them and `clear` another two: it would be unpacked at each call.
#[tactic(auto, using(crate::proofs::Seeing::seen_clear))]
pub fn worst_meeting(lines: &mut [u64], scratch: &mut [u64], abreast: &mut [u16]) -> Meeting
    requires { Room lines.old scratch.old abreast.old }
    ensures { Worst (length lines.old) lines.old result }
{
    let view = view_of(lines);
    if let Some(worst) = search_first(lines, scratch, view) {
        return worst;
    }
    if surely_clear(lines, scratch, abreast) {
        return Meeting::Separate;
    }
    settle(lines, scratch, view.across);
    Sorted { lines }.worst(ALL).unwrap()
}

// Do two lines end at one point, of lines sorted by their ends? Of a slice, which its caller has at hand: a value made of it for this one call is no plainer.
pub fn same_end(lines: &[u64]) -> bool
    requires { Ascending last (length lines.now) lines.now }
    ensures { T result ↔ Pairs (length lines.now)
        (λ i j. last (get_or lines.now i 0) ≡ last (get_or lines.now j 0)) }
{
    !lines.is_sorted_by(|before, line| last(*before) < last(*line))
}
