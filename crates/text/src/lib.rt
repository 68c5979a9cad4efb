// The text of a table's drawing, as the program prints it (specs/Text).
#![tactic(auto)]

mod lines;

ghost use Rattle.std.specs.Prelude.{◌≡◌, ◌++◌, length, drop};
ghost use Rattle.text.specs.Text.{text_within};

use crate::lines::{put_plan, put_refusal};
use drawing::draw;
use fields::Writer;

// Enough for a header and 4,096 nodes, at 24 bytes a line.
pub const ROOM: usize = 98328;

// Draws the trees of a table and writes the text at the start of out; answers how many bytes. A buffer without ROOM is left as it is,
// and 0 the answer (the clause `value`).
// Promised beyond this contract (promises/specs/Promises): `NeverSix`, `DigitsWhole`, `OffChainText`.
pub fn write_text(table: &[u8], out: &mut [u8]) -> usize
    ensures value { result ≡ length (text_within (length out.old) table.now) }
    ensures out_after { out.new ≡ text_within (length out.old) table.now ++ drop result out.old }
{
    if out.len() < ROOM {
        return 0;
    }
    let mut placements = [0u16; 8194];
    let mut writer = Writer::new(out);
    let drawn = draw(table, &mut placements);
    match drawn.refusal {
        None => put_plan(table, &placements, drawn.plan, &mut writer),
        Some(refusal) => put_refusal(refusal, &mut writer),
    }
    writer.at
}
