// Text on standard output, piece by piece: a name, a space, a number and the end of a line are a write each. What cannot be written is let go, and the next
// piece is tried.
ghost use Rattle.std.specs.Prelude.{◌<◌};

use pen::points::PenPoint;
use std::fmt::Display;

pub fn put(rt: &impl Print, text: &str) {
    let _ = rt.write_all(text.as_bytes());
}

fn put_field<N: Display + Drop>(rt: &impl Print, number: N) {
    put(rt, " ");
    let _ = rt.print(number);
}

fn put_fields<N: Display + Drop + Copy>(rt: &impl Print, numbers: &[N]) {
    for number in numbers {
        put_field(rt, *number);
    }
    put(rt, "\n");
}

// A name, each number behind a space, and the end of the line.
pub fn put_line<N: Display + Drop + Copy>(rt: &impl Print, name: &str, numbers: &[N]) {
    put(rt, name);
    put_fields(rt, numbers);
}

// The bit pattern of a float; u64::MAX, the pattern of a NaN, where it is one, since std's `to_bits` asks that it is none.
fn bits(x: f64) -> u64 {
    if x == x {
        return f64::to_bits(x);
    }
    u64::MAX
}

// A line of a pen point, which is printed as the bits of its two floats.
pub fn put_point(rt: &impl Print, name: &str, point: PenPoint) {
    put_line(rt, name, &[bits(point.x), bits(point.y)]);
}

// A sum with a number more (main.rt, 5). The remainder is below 2^32, so a `try_from` could not fail and would be no plainer than the cast.
fn mixed(sum: u32, number: u16) -> u32
    ensures { result < 4294967291 }
{
    ((65599 * u64::from(sum) + u64::from(number) + 1) % 4294967291) as u32
}

// The sum of many placements (main.rt, 5).
fn sum_of(numbers: &[u16]) -> u32 {
    numbers.iter().fold(0, |sum, number| mixed(sum, *number))
}

// The placements: all of them, or of many a sum.
pub fn put_placements(rt: &impl Print, placements: &[u16]) {
    if 600 < placements.len() {
        put_line(rt, "sum", &[sum_of(placements)]);
        return;
    }
    put_line(rt, "places", placements);
}

// The records that differ, by their numbers and their words. Eight names, since a mapped list of four words would need a place to stand in (no heap).
pub fn put_changed(rt: &impl Print, before: &[u8], after: &[u8]) {
    let (before, _) = before.as_chunks::<8>();
    let (after, _) = after.as_chunks::<8>();
    for (record, (old, new)) in before.iter().zip(after).enumerate() {
        if old != new {
            let [a, b, c, d, e, f, g, h] = *new;
            put(rt, "record");
            put_field(rt, record);
            put_fields(
                rt,
                &[
                    u16::from_le_bytes([a, b]),
                    u16::from_le_bytes([c, d]),
                    u16::from_le_bytes([e, f]),
                    u16::from_le_bytes([g, h]),
                ],
            );
        }
    }
}
