// Are lines surely without a clash? A sweep over all numbers, from the greatest down, has the lines abreast at a level from right to left and
// compares neighbours only. "No" says nothing. Where a line comes in, and at which level lines go out, are guesses: a wrong one shows, since neighbours
// are then not side by side, or a line never goes out. What is known of the lines abreast is `Abreast` (specs/inner/Abreast).
#![tactic(auto)]

mod abreast;
mod side;

ghost use Rattle.std.specs.Prelude.{◌≡◌, true, ℕ, ◌-◌, ◌≤◌, ◌<◌, length, get_or};
ghost use Rattle.sort.specs.inner.Order.{Ascending};
ghost use Rattle.line.specs.inner.Line.{last, Onward};
ghost use Rattle.neighbours.specs.inner.Abreast.{NoClash, EndsBy};

use crate::abreast::Front;
use line::{first, last};

// ---- which level: any that is not above the last, nor below the next end

// The end of the line before i, which comes in next, or the start of the line that came in last, if that comes sooner. The lines are
// not cut before i, since `EndsBy` speaks of i.
fn next_level(lines: &[u64], i: usize, soon: u64) -> u64
    requires { i ≤ length lines.now }
    ensures least { (t : ℕ) → soon ≤ t → EndsBy i t lines.now → result ≤ t }
    ensures reached { EndsBy i result lines.now }
{
    if i == 0 {
        return soon;
    }
    soon.max(last(lines[i - 1]))
}

// Does the line before i end at a level?
fn ends_at(lines: &[u64], i: usize, level: u64) -> bool
    requires { i ≤ length lines.now }
    ensures { result ≡ true → (0 < i) × (last (get_or lines.now (i - 1) 0) ≡ level) }
{
    0 < i && last(lines[i - 1]) == level
}

// ---- the sweep

// Are the lines surely without a clash? A list to work in is lent. Of a good sheet, seen upright and sorted by ends, those with one end with the
// line that goes left from it first, each guess is right (docs/GROUNDS.md; not proved).
pub fn clear(lines: &[u64], abreast: &mut [u16]) -> bool
    requires onward { Onward (length lines.now) lines.now }
    requires ascending { Ascending last (length lines.now) lines.now }
    requires lines_len_bound { (length lines.now ≤ 65535) × (length lines.now ≤ length abreast.old) }
    ensures { result ≡ true → NoClash (length lines.now) lines.now }
{
    let mut front = Front::new(lines, abreast);
    let mut i = lines.len();
    let mut soon = 0;
    // A line comes in, or lines go out: two counts fall by turns, which no range or iterator has, so no `for`.
    while 0 < i + front.count() {
        let level = next_level(lines, i, soon);
        let from = front.place(level);
        let to = front.starting(from, level);
        if ends_at(lines, i, level) {
            i -= 1;
            if !front.come_in(from, to, i) {
                return false;
            }
            soon = first(lines[i]);
        } else {
            if from == to || !front.go_out(from, to) {
                return false;
            }
            soon = 0;
        }
    }
    true
}
