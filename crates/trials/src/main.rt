// Runs the drawer, the check, the allowed width, the wide drawer, the pen, hanging, at once and in two halves, cutting and the comparison of two lines on the
// cases of standard input, and prints every answer.
// What it must print is made by tests/make_trials.py from the reference program. Proved safe; what it prints is tested.
//
// A case is a head of four words (16 bits, low byte first) named kind, count, first, step, and what the kind says:
//   1 table: count bytes follow, the table from here on
//   2 numbers: count words follow, the placements from here on
//   3 filled: count placements, the number at place i is (first + step * i) mod 65536
//   4 changed: count pairs of words follow, a place and its new number
//   5 draw: prints 'draw', the refusal, nodes, width and height, and a line of the placements afterwards: all of
//     them up to 600, else 'sum' and the number s at the end of s = (65599 s + number + 1) mod 4294967291, from 0
//   6 check: prints 'check' and the number
//   7 width: prints 'width' and the allowed width of count + 2^16 first + 2^32 step
//   8 wide: prints 'wide', nodes, width and height, or 'wide refused' and the refusal, and the placements as in 5
//   9 stroke: four words follow, the stroke's number, low word first; the pitch is count mod 256. Prints 'stroke lift' or
//     'stroke draw' and the bit patterns of the point's two floats, 'stroke done', or 'stroke refused' and the refusal
//   10 name: count mod 256 bytes follow, the name of what comes next; prints them as a line
//   11 hang: at the parent count, on the side first mod 256, with the tag step. Prints 'hang' and the record, or 'hang refused' and the
//     refusal; and for each record of the table that is changed a line, 'record', its number, and its four words afterwards
//   12 cut: the node count. Prints 'cut' and the refusal or 0, and the changed records as in 11
//   13 hold: at the parent count, on the side first mod 256. Prints 'hold' and the record, or 'hold refused' and the refusal
//   14 held: parent, side and tag as in 11; four words follow, a number, low word first, which mod 65536 is the record that was held. Prints 'held' and
//     the refusal or 0, and the changed records as in 11
//   15 compare: eight words follow, the columns and rows of the ends of two lines. Prints 'compare' and 'separate', 'end', 'crossing' or 'touching'
// The table that 11, 12 or 14 leaves is the table from there on.
// The cases end with the input, or with a head of any other kind.
#![tactic(auto)]

mod bench;
mod input;
mod text;

use crate::bench::Bench;
use crate::input::{Head, Kind, low_byte, next_head, next_number, read_full};
use crate::text::{put, put_line};
use line::{end, start};
use segment::meeting::{Meeting, compare};
use std::io::Read;

fn put_width(rt: &impl Print, h: Head) {
    let n = u64::from(h.count) + 65536 * u64::from(h.first) + 4294967296 * u64::from(h.step);
    put_line(rt, "width", &[width::allowed_width(n)]);
}

// A name, as it stands, and the end of the line.
fn put_name(rt: &impl Print, input: &mut impl Read, count: u16) {
    let mut name = [0; 256];
    let name = &mut name[..usize::from(low_byte(count))];
    read_full(input, name);
    let _ = rt.write_all(name);
    put(rt, "\n");
}

// A line is a number of 64 bits.
fn put_meeting(rt: &impl Print, a: u64, b: u64) {
    match compare(start(a), end(a), start(b), end(b)) {
        Meeting::Separate => put(rt, "compare separate\n"),
        Meeting::SharedEnd => put(rt, "compare end\n"),
        Meeting::Crossing => put(rt, "compare crossing\n"),
        Meeting::Touching => put(rt, "compare touching\n"),
    }
}

fn run_case(rt: &impl Print, input: &mut impl Read, bench: &mut Bench, head: Head) {
    match head.kind {
        Kind::Table => bench.take_table(input, head.count),
        Kind::Numbers => bench.take_numbers(input, head.count),
        Kind::Filled => bench.fill(head.count, head.first, head.step),
        Kind::Changed => bench.take_pairs(input, head.count),
        Kind::Draw => bench.draw(rt),
        Kind::Check => bench.check(rt),
        Kind::Width => put_width(rt, head),
        Kind::Wide => bench.draw_wide(rt),
        Kind::Stroke => bench.stroke(rt, head.count, next_number(input)),
        Kind::Name => put_name(rt, input, head.count),
        Kind::Hang => bench.hang(rt, head),
        Kind::Cut => bench.cut(rt, head.count),
        Kind::Hold => bench.hold(rt, head),
        Kind::Held => bench.hang_held(rt, head, next_number(input)),
        Kind::Compare => put_meeting(rt, next_number(input), next_number(input)),
    }
}

// A proved loop has to end, and nothing says that the input does: the number of its turns is one that no run uses up.
fn run(rt: &impl Print, input: &mut impl Read, bench: &mut Bench) {
    for _ in 0..u64::MAX {
        let Ok(head) = next_head(input) else {
            return;
        };
        run_case(rt, input, bench, head);
    }
}

fn main(rt: HostRuntime) {
    let mut bench = Bench::new();
    run(&rt, &mut rt.reader(), &mut bench);
}
