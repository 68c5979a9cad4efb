// Strokes of a pen plotter that draws the lines of a table with placements.
#![tactic(auto)]

mod lines;
pub mod points;
pub mod strokes;

ghost use Rattle.std.specs.Prelude.{◌≡◌};
ghost use Rattle.pen.specs.Strokes.{told, stroke_of};

use crate::lines::line;
use crate::strokes::{Stroke, choose};
use records::forest::Forest;
use records::trace;
use table::Refusal;

// The stroke of that number, from 0, or none past the last. The pitch of the grid is counted in quarter millimetres.
// Promised beyond this contract (promises/specs/Promises): `LinesPlottedOnce`, `StrokesNumbered`, `OneQuarter`, `OffChainStroke`.
#[tactic(auto, using(crate::proofs::Answered::unpitched))]
pub fn stroke(
    table: &[u8],
    placements: &[u16],
    pitch: u8,
    number: u64,
) -> Result<Option<Stroke>, Refusal>
    ensures { told result ≡ stroke_of table.now placements.now pitch number }
{
    let mut chain = [0u16; 4097];
    let mut order = [0u16; 4097];
    let count = trace(table, placements.len(), &mut chain, &mut order)?;
    if pitch == 0 {
        return Err(Refusal::Pitch);
    }
    let forest = Forest {
        table,
        nodes: &chain[..count],
    };
    // A return of its own and no `map`: past the last line a wrong answer can be tried (must-fail/done_refused).
    let Some(ends) = line(forest, number / 2) else {
        return Ok(None);
    };
    Ok(Some(choose(placements, pitch, ends, number)))
}
