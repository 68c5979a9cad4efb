// Draws, then checks: what the drawer accepts, the check calls good.
#![tactic(auto)]

ghost use Rattle.guarantee.specs.Demand.{Guaranteed};

use drawing::{Drawn, draw};
use table::Refusal;
use verdict::{Fault, check};

// The drawer's answer, and what the check says of the placements as the drawer left them.
#[derive(Clone, Copy, Debug, PartialEq, Eq)]
pub struct Checked {
    pub drawn: Drawn,
    pub verdict: Result<Option<Fault>, Refusal>,
}

pub fn draw_checked(table: &[u8], placements: &mut [u16]) -> Checked
    ensures { Guaranteed table.now placements.old result placements.new }
{
    let drawn = draw(table, placements);
    let verdict = check(table, placements);
    Checked { drawn, verdict }
}
