// The lines abreast at a level of the sweep, from right to left, as a list of their places among all lines.
ghost use Rattle.std.specs.Prelude.{◌≡◌, true, ℕ, ◌+◌, ◌-◌, ◌≤◌, ◌<◌, length, get_or};
ghost use Rattle.line.specs.inner.Line.{last, Onward};
ghost use Rattle.neighbours.specs.inner.Side.{Next};
ghost use Rattle.neighbours.specs.inner.Abreast.{Places, at, Starting, Replaced, Downto};

use crate::side::beside;
use line::{end, first, start};
use segment::cross;

// The first `count` of the places are those of the lines abreast; the others are free, since the list is lent (no heap).
#[derive(Drop)]
pub struct Front<'a> {
    lines: &'a [u64],
    places: &'a mut [u16],
    count: usize,
    ghost onward: { Onward (length lines.now) lines.now },
    ghost places_of: { Places (length lines.now) count places.now },
}

// Is a line to the right of the point at a level, or does it end there? Lines come in from right to left.
fn right_of_point(line: u64, level: u64) -> bool {
    first(line) != level && 0 <= cross(start(line), end(line), start(level))
}

// Puts a place in the stead of the elements from `from` to before `to`, of m: `Replaced` speaks of each, so no range. Where one goes out, none moves.
fn replace(places: &mut [u16], m: usize, from: usize, to: usize, place: u16)
    requires { (from ≤ to) × (to ≤ m) × (m < length places.old) }
    ensures { Replaced 1 m from to place places.old places.new }
{
    if to != from + 1 {
        places.copy_within(to..m, from + 1);
    }
    places[from] = place;
}

impl<'a> Front<'a> {
    // No line is abreast yet.
    pub fn new(lines: &'a [u64], places: &'a mut [u16]) -> Front<'a>
        requires onward { Onward (length lines.now) lines.now }
        ensures lines { result.lines.now ≡ lines.now }
        ensures places { result.places.now ≡ places.old }
        ensures count { result.count ≡ 0 }
    {
        Front {
            lines,
            places,
            count: 0,
        }
    }

    // How many are.
    pub fn count(&self) -> usize
        ensures { result ≡ self.now.count }
    {
        self.count
    }

    // One of them.
    fn line_at(&self, place: usize) -> u64
        requires { place < self.now.count }
        ensures { result ≡ at self.now.lines.now self.now.places.now place }
    {
        self.lines[usize::from(self.places[place])]
    }

    // After how many of them does the point at a level lie? Any answer would do. A match, since a closure in the closure would be no plainer.
    pub fn place(&self, level: u64) -> usize
        ensures { result ≤ self.now.count }
    {
        self.places[..self.count].partition_point(|place| {
            match self.lines.get(usize::from(*place)) {
                Some(line) => right_of_point(*line, level),
                None => false,
            }
        })
    }

    // Up to where the lines, from `from` on, start at a level: a place is the answer, so that places are gone through.
    pub fn starting(&self, from: usize, level: u64) -> usize
        requires { from ≤ self.now.count }
        ensures { (result ≤ self.now.count) × Starting from result level self.now.lines.now self.now.places.now }
    {
        for place in from..self.count {
            if first(self.line_at(place)) != level {
                return place;
            }
        }
        self.count
    }

    // Are the line at a place and that before it side by side, if there are both?
    fn beside_last(&self, place: usize) -> bool
        ensures { result ≡ true → (s : ℕ) → s + 1 ≡ place → place < self.now.count
            → Next (at self.now.lines.now self.now.places.now (s + 1)) (at self.now.lines.now self.now.places.now s) }
    {
        if place == 0 || self.count <= place {
            return true;
        }
        beside(self.line_at(place), self.line_at(place - 1))
    }

    // Line i comes in at its end, in the place of those from `from` to before `to`, which go out. That i fits a place is proved, so `try_from` and an
    // `unwrap` would be no plainer than the cast.
    pub fn come_in(&mut self, from: usize, to: usize, i: usize) -> bool
        requires starting { Starting from to (last (get_or self.old.lines.now i 0)) self.old.lines.now self.old.places.now }
        requires room { (to ≤ self.old.count) × (self.old.count < length self.old.places.now) × (i < length self.old.lines.now)
            × (length self.old.lines.now ≤ 65535) }
        ensures count { self.new.count ≡ self.old.count + from + 1 - to }
        ensures lines { (self.new.lines.now ≡ self.old.lines.now) × (length self.new.places.now ≡ length self.old.places.now) }
        ensures reached { result ≡ true → Downto (length self.old.lines.now) (i + 1) i (last (get_or self.old.lines.now i 0)) self.old.count self.new.count
            self.old.lines.now self.old.places.now self.new.places.now }
    {
        replace(self.places, self.count, from, to, i as u16);
        self.count = self.count + from + 1 - to;
        self.beside_last(from + 1) && self.beside_last(from)
    }

    // The lines from `from` to before `to` go out.
    pub fn go_out(&mut self, from: usize, to: usize) -> bool
        requires { (from ≤ to) × (to ≤ self.old.count) }
        ensures count { self.new.count ≡ self.old.count + from - to }
        ensures lines { (self.new.lines.now ≡ self.old.lines.now) × (length self.new.places.now ≡ length self.old.places.now) }
        ensures reached { result ≡ true → (i t : ℕ) → i ≤ length self.old.lines.now → Starting from to t self.old.lines.now self.old.places.now
            → Downto (length self.old.lines.now) i i t self.old.count self.new.count self.old.lines.now self.old.places.now self.new.places.now }
    {
        self.places.copy_within(to..self.count, from);
        self.count = self.count + from - to;
        self.beside_last(from)
    }
}
