// The wide plan: the mirror images of the trees drawn, then column and row of each node exchanged.
#![tactic(auto)]

ghost use Rattle.std.specs.Prelude.{◌≡◌, ◌*◌, ◌≤◌, length};
ghost use Rattle.table.specs.Table.{records, root_of, chain as chainOf, Chained};
ghost use Rattle.table.specs.Trees.{trees};
ghost use Rattle.drawing.specs.Answer.{store_all};
ghost use Rattle.drawing.specs.inner.Placing.{Led};
ghost use Rattle.wide.specs.Wide.{draw_wide, said, wide_of, wide_placed_in};
ghost use Rattle.wide.specs.inner.Planned.{wide_plan_of};

use drawing::{Plan, plan_of};
use mirror::{exchange_placements, exchange_table};
use records::read;
use records::writing::copy;
use roles::Subtrees;
use table::Refusal;

// The wide plan of an accepted table that has nodes, from a mirrored copy of it.
fn wide_plan(subtrees: Subtrees<'_>, nodes: &[u16], order: &[u16], placements: &mut [u16]) -> Plan
    requires chained { Chained subtrees.table.now (root_of subtrees.table.now) }
    requires listed { nodes.now ≡ chainOf subtrees.table.now }
    requires led { Led subtrees.table.now order.now }
    requires table_in_bounds { 2 * records subtrees.table.now ≤ length placements.old }
    ensures { (result ≡ wide_plan_of subtrees.entry.table.now)
        × (placements.new ≡ store_all (draw_wide (trees subtrees.entry.table.now)) placements.old) }
{
    let bytes = subtrees.table.len();
    let mut mirrored = [0u8; 32776];
    copy(subtrees.table, &mut mirrored);
    exchange_table(&mut mirrored[..bytes], nodes);
    let mut roles = [0u16; 4097];
    let mirror_image = Subtrees {
        table: &mirrored[..bytes],
        sizes: subtrees.sizes,
    };
    let plan = plan_of(mirror_image, order, &mut roles, placements, nodes.len());
    exchange_placements(placements, nodes);
    Plan {
        nodes: plan.nodes,
        width: plan.height,
        height: plan.width,
    }
}

// Draws the wide plan of a table, or answers why it is refused, and places its nodes. All placements are kept on a refusal. It reads as
// `drawing::try_draw` does: one function for both would take the drawing as a closure over four lent lists, and be no plainer.
// Promised beyond this contract (promises/specs/Promises): `WideIsGood`, `AtMost37`, `WideRootsBeside`, `WideKeepsOthers`, `OffChainWide`,
// `WidePlanAsBefore`.
pub fn draw_wide(table: &[u8], placements: &mut [u16]) -> Result<Plan, Refusal>
    ensures { (said result ≡ wide_of table.now placements.old)
        × (placements.new ≡ wide_placed_in table.now placements.old) }
{
    let mut chain = [0u16; 4097];
    let mut order = [0u16; 4097];
    let mut sizes = [0u16; 4097];
    // A `match` and no `?`: what a refusal answers has a line of its own, where a wrong answer can be tried (must-fail/always_one).
    let nodes = match read(table, placements.len(), &mut chain, &mut order, &mut sizes) {
        Ok(nodes) => nodes,
        Err(refusal) => return Err(refusal),
    };
    if nodes == 0 {
        return Ok(Plan::EMPTY);
    }
    let subtrees = Subtrees {
        table,
        sizes: &sizes,
    };
    let plan = wide_plan(subtrees, &chain[..nodes], &order, placements);
    Ok(plan)
}
