// What the cases work on: a table and placements. Some cases bring them, others put them to a call and print its answer, and what it changed.
ghost use Rattle.std.specs.Prelude.{◌≡◌};

use crate::input::{Head, low_byte, next_word, read_full};
use crate::text::{put, put_changed, put_line, put_placements, put_point};
use pen::strokes::Stroke;
use std::io::Read;
use table::Refusal;

// More than the greatest word: a word is a place in each buffer.
const ROOM: usize = 65536;

// Two buffers (no heap): the table is the first bytes of one, the placements are the first numbers of the other. A count of 16 bits is never past the end,
// so that nothing has to be proved of it.
#[derive(Drop)]
pub struct Bench {
    table: [u8; ROOM],
    bytes: u16,
    placements: [u16; ROOM],
    numbers: u16,
}

impl Bench {
    // No table and no placements yet.
    pub fn new() -> Bench {
        Bench {
            table: [0; ROOM],
            bytes: 0,
            placements: [0; ROOM],
            numbers: 0,
        }
    }

    // The bytes that follow are the table.
    pub fn take_table(&mut self, input: &mut impl Read, count: u16)
        ensures { self.new.bytes ≡ count }
    {
        self.bytes = count;
        read_full(input, &mut self.table[..usize::from(count)]);
    }

    // The words that follow are the placements. A loop here and one in `fill`, whose numbers come from elsewhere: one over a closure is no plainer.
    pub fn take_numbers(&mut self, input: &mut impl Read, count: u16)
        ensures { self.new.numbers ≡ count }
    {
        self.numbers = count;
        for number in &mut self.placements[..usize::from(count)] {
            *number = next_word(input);
        }
    }

    // The first number is first, and each further one is by step more, mod 65536.
    pub fn fill(&mut self, count: u16, first: u16, step: u16)
        ensures { self.new.numbers ≡ count }
    {
        self.numbers = count;
        let mut next = first;
        for number in &mut self.placements[..usize::from(count)] {
            *number = next;
            next = next.wrapping_add(step);
        }
    }

    // Of each pair of words that follows, the second is put at the place that the first names.
    pub fn take_pairs(&mut self, input: &mut impl Read, count: u16) {
        for _ in 0..count {
            let place = usize::from(next_word(input));
            self.placements[place] = next_word(input);
        }
    }

    fn table(&self) -> &[u8] {
        &self.table[..usize::from(self.bytes)]
    }

    fn placements(&self) -> &[u16] {
        &self.placements[..usize::from(self.numbers)]
    }

    pub fn draw(&mut self, rt: &impl Print) {
        let (bytes, numbers) = (self.bytes, self.numbers);
        let table = &self.table[..usize::from(bytes)];
        let placements = &mut self.placements[..];
        let drawn = drawing::draw(table, &mut placements[..usize::from(numbers)]);
        let refusal = drawn.refusal.map_or(0, u16::from);
        let plan = drawn.plan;
        put_line(rt, "draw", &[refusal, plan.nodes, plan.width, plan.height]);
        put_placements(rt, self.placements());
    }

    pub fn draw_wide(&mut self, rt: &impl Print) {
        let (bytes, numbers) = (self.bytes, self.numbers);
        let table = &self.table[..usize::from(bytes)];
        let placements = &mut self.placements[..];
        match wide::draw_wide(table, &mut placements[..usize::from(numbers)]) {
            Ok(plan) => put_line(rt, "wide", &[plan.nodes, plan.width, plan.height]),
            Err(refusal) => put_refused(rt, "wide", refusal),
        }
        put_placements(rt, self.placements());
    }

    pub fn check(&self, rt: &impl Print) {
        let answer = verdict::check(self.table(), self.placements());
        put_line(rt, "check", &[verdict::number(answer)]);
    }

    pub fn stroke(&self, rt: &impl Print, pitch: u16, number: u64) {
        match pen::stroke(self.table(), self.placements(), low_byte(pitch), number) {
            Ok(Some(Stroke::Lift(point))) => put_point(rt, "stroke lift", point),
            Ok(Some(Stroke::Draw(point))) => put_point(rt, "stroke draw", point),
            Ok(None) => put(rt, "stroke done\n"),
            Err(refusal) => put_line(rt, "stroke refused", &[u16::from(refusal)]),
        }
    }

    pub fn hold(&self, rt: &impl Print, head: Head) {
        let answer = hanging::hold(self.table(), head.count, low_byte(head.first));
        put_hung(rt, "hold", answer);
    }

    // This, `hang_held` and `cut` each call another and print another answer: one function over a closure that is lent the table would be longer.
    pub fn hang(&mut self, rt: &impl Print, head: Head) {
        let before = self.table;
        let bytes = self.bytes;
        let table = &mut self.table[..usize::from(bytes)];
        let answer = hanging::hang(table, head.count, low_byte(head.first), head.step);
        put_hung(rt, "hang", answer);
        self.put_changed(rt, &before);
    }

    // The record that was held is the number mod 65536, which fits 16 bits: a `try_from` could not fail and would be no plainer than the cast.
    pub fn hang_held(&mut self, rt: &impl Print, head: Head, number: u64) {
        let before = self.table;
        let bytes = self.bytes;
        let table = &mut self.table[..usize::from(bytes)];
        let side = low_byte(head.first);
        let held = (number % 65536) as u16;
        let answer = hanging::hang_held(table, head.count, side, head.step, held);
        put_number(rt, "held", answer);
        self.put_changed(rt, &before);
    }

    pub fn cut(&mut self, rt: &impl Print, node: u16) {
        let before = self.table;
        let bytes = usize::from(self.bytes);
        let answer = hanging::cut(&mut self.table[..bytes], node);
        put_number(rt, "cut", answer);
        self.put_changed(rt, &before);
    }

    // The records that differ, also the last where the table ends within it.
    fn put_changed(&self, rt: &impl Print, before: &[u8; ROOM]) {
        let end = 8 * usize::from(self.bytes).div_ceil(8);
        put_changed(rt, &before[..end], &self.table[..end]);
    }
}

// A refusal, behind the name of what is refused.
fn put_refused(rt: &impl Print, name: &str, refusal: Refusal) {
    put(rt, name);
    put_line(rt, " refused", &[u16::from(refusal)]);
}

// What hanging or its first half says: the record, or the refusal.
fn put_hung(rt: &impl Print, name: &str, answer: Result<u16, Refusal>) {
    match answer {
        Ok(record) => put_line(rt, name, &[record]),
        Err(refusal) => put_refused(rt, name, refusal),
    }
}

// What a call that writes says: 0, or the refusal.
fn put_number(rt: &impl Print, name: &str, answer: Result<(), Refusal>) {
    let number = match answer {
        Ok(()) => 0,
        Err(refusal) => u16::from(refusal),
    };
    put_line(rt, name, &[number]);
}
