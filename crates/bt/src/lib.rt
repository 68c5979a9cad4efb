// The library for other languages (include/bt.h). Each function has the contract of the proved one that it calls; what is promised beyond that contract is
// named there, as that cutting a leaf just hung restores every byte at `cutting::cut`. Answers in bits, columns and rows one by one, and a table, parent and
// side in three calls are the C interface.
#![tactic(auto)]

ghost use Rattle.std.specs.Prelude.{◌≡◌, [], ◌∷◌};
ghost use Rattle.table.specs.Cause.{number_of, refused_by};
ghost use Rattle.drawing.specs.Answer.{said as said_drawn, drawn_of, placed_in};
ghost use Rattle.hanging.specs.Hanging.{said, hang_says, after_hang};
ghost use Rattle.hanging.specs.Holding.{held_refusal, after_held};
ghost use Rattle.cutting.specs.Cutting.{cut_refusal, after_cut};
ghost use Rattle.pen.specs.Strokes.{told, stroke_of};
ghost use Rattle.segment.specs.Segment.{at};
ghost use Rattle.verdict.specs.Verdict.{Verdict};
ghost use Rattle.width.specs.Allowed.{allowed_width};
ghost use Rattle.wide.specs.Wide.{said as said_wide, wide_of, wide_placed_in};
ghost use Rattle.bt.specs.Bits.{drawn_bits, said_bits, overwritten, meeting_number, Compared};

use drawing::{Drawn, Plan};
use hanging::{cut, hang, hang_held, hold};
use pen::points::PenPoint;
use pen::stroke;
use pen::strokes::Stroke;
use segment::Point;
use segment::meeting::{Meeting, compare};
use table::Refusal;
use wide::draw_wide;

// The nodes in bits 16 to 31, the width in bits 32 to 47, the height in bits 48 to 63.
fn plan_bits(plan: Plan) -> u64
    ensures { result ≡ drawn_bits (record { refusal = 0; plan = plan }) }
{
    0x1_0000 * u64::from(plan.nodes)
        + 0x1_0000_0000 * u64::from(plan.width)
        + 0x1_0000_0000_0000 * u64::from(plan.height)
}

// A refusal is its number alone.
fn number(refusal: Refusal) -> u32
    ensures { result ≡ number_of refusal }
{
    u32::from(u16::from(refusal))
}

// The refusal in bits 0 to 15, and the plan.
#[tactic(auto, unfolding(drawing::specs::Answer::said))]
fn drawn_bits(drawn: Drawn) -> u64
    ensures { result ≡ drawn_bits (said_drawn drawn) }
{
    match drawn.refusal {
        None => plan_bits(drawn.plan),
        Some(refusal) => u64::from(number(refusal)) + plan_bits(drawn.plan),
    }
}

// The plan, or the refusal alone.
#[tactic(auto, unfolding(table::specs::Said::said_of))]
fn wide_bits(drawn: Result<Plan, Refusal>) -> u64
    ensures { result ≡ said_bits (said_wide drawn) }
{
    match drawn {
        Ok(plan) => plan_bits(plan),
        Err(refusal) => u64::from(number(refusal)),
    }
}

// In bits as `drawn_bits` has it.
#[unsafe(no_mangle)]
pub extern "C" fn bt_draw(table: &[u8], placements: &mut [u16]) -> u64
    ensures value { result ≡ drawn_bits (drawn_of table.now placements.old) }
    ensures placements_after { placements.new ≡ placed_in table.now placements.old }
{
    drawn_bits(drawing::draw(table, placements))
}

// In bits as `bt_draw`; a refusal is its number alone.
#[unsafe(no_mangle)]
pub extern "C" fn bt_draw_wide(table: &[u8], placements: &mut [u16]) -> u64
    ensures value { result ≡ said_bits (wide_of table.now placements.old) }
    ensures placements_after { placements.new ≡ wide_placed_in table.now placements.old }
{
    wide_bits(draw_wide(table, placements))
}

#[unsafe(no_mangle)]
pub extern "C" fn bt_check(table: &[u8], placements: &[u16]) -> u32
    ensures { Verdict table.now placements.now result }
{
    u32::from(verdict::number(verdict::check(table, placements)))
}

// The number of a meeting, which is the C interface's. It is no `From`, since neither `Meeting` nor `u32` is of this crate.
fn meeting_number(m: Meeting) -> u32
    ensures { result ≡ meeting_number m }
{
    match m {
        Meeting::Separate => 0,
        Meeting::SharedEnd => 1,
        Meeting::Crossing => 2,
        Meeting::Touching => 3,
    }
}

#[unsafe(no_mangle)]
pub extern "C" fn bt_compare(
    c1: u16,
    r1: u16,
    c2: u16,
    r2: u16,
    c3: u16,
    r3: u16,
    c4: u16,
    r4: u16,
) -> u32
    ensures { Compared (at c1 r1) (at c2 r2) (at c3 r3) (at c4 r4) result }
{
    let p = Point {
        column: c1,
        row: r1,
    };
    let q = Point {
        column: c2,
        row: r2,
    };
    let r = Point {
        column: c3,
        row: r3,
    };
    let s = Point {
        column: c4,
        row: r4,
    };
    meeting_number(compare(p, q, r, s))
}

#[unsafe(no_mangle)]
pub extern "C" fn bt_allowed_width(nodes: u64) -> u64
    ensures { result ≡ allowed_width nodes }
{
    width::allowed_width(nodes)
}

// Writes a point where there is room for it: by index, since a pattern of two places would be no plainer.
fn put_point(point: PenPoint, lent: &mut [f64])
    ensures { lent.new ≡ overwritten (point.x ∷ point.y ∷ []) lent.old }
{
    if 2 <= lent.len() {
        lent[0] = point.x;
        lent[1] = point.y;
    }
}

// Writes the point of a stroke, if it has one, and answers in bits what it says.
#[tactic(auto, using(crate::proofs::Kept::no_point), unfolding(pen::specs::Strokes::told, pen::specs::Strokes::drawn))]
fn put_stroke(stroke: Result<Option<Stroke>, Refusal>, lent: &mut [f64]) -> u32
    ensures value { result ≡ said_bits (told stroke).said }
    ensures lent_after { lent.new ≡ overwritten (told stroke).point lent.old }
{
    match stroke {
        Ok(Some(Stroke::Lift(point))) => {
            put_point(point, lent);
            0x1_0000
        }
        Ok(Some(Stroke::Draw(point))) => {
            put_point(point, lent);
            0x2_0000
        }
        Ok(None) => 0,
        Err(refusal) => number(refusal),
    }
}

// The refusal in bits 0 to 15; in bits 16 to 31 0 for done, 1 for a lift, 2 for a draw.
#[unsafe(no_mangle)]
pub extern "C" fn bt_stroke(
    table: &[u8],
    placements: &[u16],
    pitch: u8,
    number: u64,
    point: &mut [f64],
) -> u32
    ensures value { result ≡ said_bits (stroke_of table.now placements.now pitch number).said }
    ensures point_after { point.new ≡ overwritten (stroke_of table.now placements.now pitch number).point point.old }
{
    put_stroke(stroke(table, placements, pitch, number), point)
}

// What hanging says in one number: the refusal in bits 0 to 15, the record in bits 16 to 31.
#[tactic(auto, unfolding(hanging::specs::Hanging::said, table::specs::Said::said_of))]
fn hung_bits(answer: Result<u16, Refusal>) -> u32
    ensures { result ≡ said_bits (said answer) }
{
    match answer {
        Ok(leaf) => 0x1_0000 * u32::from(leaf),
        Err(refusal) => number(refusal),
    }
}

// What a call that writes says: 0, or the refusal.
fn refusal_bits(answer: Result<(), Refusal>) -> u32
    ensures { result ≡ refused_by answer }
{
    match answer {
        Ok(()) => 0,
        Err(refusal) => number(refusal),
    }
}

#[unsafe(no_mangle)]
pub extern "C" fn bt_hang(table: &mut [u8], parent: u16, side: u8, tag: u16) -> u32
    ensures value { result ≡ said_bits (hang_says table.old parent side) }
    ensures table_after { table.new ≡ after_hang table.old parent side tag }
{
    hung_bits(hang(table, parent, side, tag))
}

#[unsafe(no_mangle)]
pub extern "C" fn bt_hold(table: &[u8], parent: u16, side: u8) -> u32
    ensures { result ≡ said_bits (hang_says table.now parent side) }
{
    hung_bits(hold(table, parent, side))
}

#[unsafe(no_mangle)]
pub extern "C" fn bt_hang_held(table: &mut [u8], parent: u16, side: u8, tag: u16, held: u16) -> u32
    ensures value { result ≡ held_refusal table.old parent side held }
    ensures table_after { table.new ≡ after_held table.old parent side tag held }
{
    refusal_bits(hang_held(table, parent, side, tag, held))
}

#[unsafe(no_mangle)]
pub extern "C" fn bt_cut(table: &mut [u8], node: u16) -> u32
    ensures value { result ≡ cut_refusal table.old node }
    ensures table_after { table.new ≡ after_cut table.old node }
{
    refusal_bits(cut(table, node))
}
