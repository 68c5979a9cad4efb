// The drawer: Algorithm BT-Ordered-Draw over a table of records.
#![tactic(auto)]

mod place;
mod spines;

ghost use Rattle.std.specs.Prelude.{◌≡◌, ◌*◌, ◌≤◌, length};
ghost use Rattle.table.specs.Table.{records, root_of, chain as chainOf, Chained};
ghost use Rattle.table.specs.Trees.{trees};
ghost use Rattle.layout.specs.Trees.{draw_trees};
ghost use Rattle.drawing.specs.Answer.{store_all, plan_of, said, drawn_of, placed_in};
ghost use Rattle.drawing.specs.inner.Placing.{Led, TreesDrawn};
ghost use Rattle.drawing.specs.inner.Told.{told};

use crate::spines::Spines;
use records::read;
use roles::{Subtrees, prepare};
use table::Refusal;

// The extent of a drawing.
#[derive(Clone, Copy, Debug, PartialEq, Eq)]
pub struct Plan {
    pub nodes: u16,
    pub width: u16,
    pub height: u16,
}

impl Plan {
    // Of the empty tree; and what every refusal of the drawer returns.
    pub const EMPTY: Plan = Plan {
        nodes: 0,
        width: 0,
        height: 0,
    };
}

// The extent of trees that are drawn one under the other: their width, and the first row below them.
#[derive(Clone, Copy)]
struct Extent {
    width: usize,
    height: usize,
}

// The trees one under the other, from the roots that lead the order: of each the roles and W of every spine first, then the points (document 02, Paper 3),
// until no node is left: how many roots there are is not told, so the nodes are counted down. Lists are lent for the roles and for W.
#[tactic(auto, using(crate::proofs::Stacking::stack_end))]
fn draw_trees(
    subtrees: Subtrees<'_>,
    order: &[u16],
    roles: &mut [u16; 4097],
    widest: &mut [u16; 4097],
    placements: &mut [u16],
    nodes: usize,
) -> Extent
    requires chained { Chained subtrees.table.now (root_of subtrees.table.now) }
    requires led { Led subtrees.table.now order.now }
    requires table_in_bounds { 2 * records subtrees.table.now ≤ length placements.old }
    requires nodes_value { nodes ≡ length (chainOf subtrees.table.now) }
    ensures { TreesDrawn subtrees.entry.table.now placements.old result.width result.height placements.new }
{
    let mut width = 0;
    let mut top = 0;
    let mut unplaced = nodes;
    for &root in order {
        if unplaced == 0 {
            break;
        }
        let root = usize::from(root);
        width = prepare(subtrees, roles, widest, root).max(width);
        let mut spines = Spines {
            subtrees,
            roles,
            widest,
            points: placements,
        };
        top = spines.draw_tree(root, top);
        unplaced -= usize::from(subtrees.sizes[root]);
    }
    Extent { width, height: top }
}

// The plan of an accepted table that has nodes. A list is lent for the roles. Order and nodes stand apart, as the clauses `led` and `nodes_value` have them.
// Compiled apart, so that its list for W lies on no stack while a table is read, which takes the most.
#[inline(never)]
pub fn plan_of(
    subtrees: Subtrees<'_>,
    order: &[u16],
    roles: &mut [u16; 4097],
    placements: &mut [u16],
    nodes: usize,
) -> Plan
    requires chained { Chained subtrees.table.now (root_of subtrees.table.now) }
    requires led { Led subtrees.table.now order.now }
    requires table_in_bounds { 2 * records subtrees.table.now ≤ length placements.old }
    requires nodes_value { nodes ≡ length (chainOf subtrees.table.now) }
    ensures { (result ≡ plan_of subtrees.entry.table.now)
        × (placements.new ≡ store_all (draw_trees (trees subtrees.entry.table.now)) placements.old) }
{
    let mut widest = [0u16; 4097];
    let extent = draw_trees(subtrees, order, roles, &mut widest, placements, nodes);
    // Each of the three fits, by proof; `try_from`, and an `unwrap` that cannot fail, would be no plainer.
    Plan {
        nodes: nodes as u16,
        width: extent.width as u16,
        height: extent.height as u16,
    }
}

// The trees of a table drawn: their plan, or why the table is refused, and the placements of the nodes.
fn try_draw(table: &[u8], placements: &mut [u16]) -> Result<Plan, Refusal>
    ensures { (told result ≡ drawn_of table.now placements.old)
        × (placements.new ≡ placed_in table.now placements.old) }
{
    let mut chain = [0u16; 4097];
    let mut order = [0u16; 4097];
    let mut sizes = [0u16; 4097];
    let nodes = read(table, placements.len(), &mut chain, &mut order, &mut sizes)?;
    if nodes == 0 {
        return Ok(Plan::EMPTY);
    }
    let subtrees = Subtrees {
        table,
        sizes: &sizes,
    };
    // The chain's list is lent again, for the roles.
    let plan = plan_of(subtrees, &order, &mut chain, placements, nodes);
    Ok(plan)
}

// The drawer's answer: the plan, and the cause of refusal, if there is one; then the plan is the empty one, as document 01 asks (so no `Result`).
#[derive(Clone, Copy, Debug, PartialEq, Eq)]
pub struct Drawn {
    pub refusal: Option<Refusal>,
    pub plan: Plan,
}

// Draws the trees of a table: its refusal and plan, and the placements of its nodes. All placements are kept on a refusal.
// Promised beyond this contract (promises/specs/Promises): `AcceptedIsGood`, `AtMost37`, `RootsBelow`, `RowsNotShared`, `RulerCovers`, `RowsFilled`,
// `EveryNodeOnASpine`, `DrawnBySteps`, `FlipsWhole`, `PlainKeepsOthers`, `OffChainPlain`, `StarredSheets`, `PlanAsFirst`, `PlanAsBefore`.
#[tactic(auto, unfolding(crate::specs::Answer::said, crate::specs::inner::Told::told))]
pub fn draw(table: &[u8], placements: &mut [u16]) -> Drawn
    ensures { (said result ≡ drawn_of table.now placements.old)
        × (placements.new ≡ placed_in table.now placements.old) }
{
    match try_draw(table, placements) {
        Ok(plan) => Drawn {
            refusal: None,
            plan,
        },
        Err(refusal) => Drawn {
            refusal: Some(refusal),
            plan: Plan::EMPTY,
        },
    }
}
