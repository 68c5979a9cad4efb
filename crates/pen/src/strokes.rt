// The strokes of a line: a lift to its parent, then a draw to its child.
ghost use Rattle.std.specs.Prelude.{◌≡◌, ◌+◌, ◌*◌, ◌<◌, length};
ghost use Rattle.pen.specs.inner.Steps.{chosen};

use crate::lines::Ends;
use crate::points::{PenPoint, pen_at};

// What the pen is to do.
#[derive(Clone, Copy)]
pub enum Stroke {
    Lift(PenPoint),
    Draw(PenPoint),
}

// The stroke of a number, given the line of half that number.
pub fn choose(placements: &[u16], pitch: u8, ends: Ends, number: u64) -> Stroke
    requires { (2 * ends.parent + 1 < length placements.now) × (2 * ends.child + 1 < length placements.now) }
    ensures { result ≡ chosen placements.now pitch ends number }
{
    if number % 2 == 0 {
        return Stroke::Lift(pen_at(placements, pitch, ends.parent));
    }
    Stroke::Draw(pen_at(placements, pitch, ends.child))
}
