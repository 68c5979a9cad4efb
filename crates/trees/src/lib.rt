// Causes 4 and 5: the links of the chained records, the roots, the nodes reached from them, breadth first, and the sizes of the subtrees.
#![tactic(auto)]

pub mod links;
mod naming;
pub mod reach;

ghost use Rattle.std.specs.Prelude.{◌≡◌, false, length};
ghost use Rattle.table.specs.Table.{chain as chainOf};
ghost use Rattle.table.specs.Refusal.{bad_links};
ghost use Rattle.chains.specs.inner.Listing.{Listed, Marked};
ghost use Rattle.trees.specs.inner.Steps.{Tallied, Grown};

use crate::naming::list_roots;
use crate::reach::reaches;
use access::words::left;
use chains::{ROOM, marked};

// Whether the records of the chain make trees; then lists their nodes, breadth first from the roots on, in place of how often they are named, which
// order tells before. The marks make way for the roots. What chain has to list is asked of it as in `strays`.
#[tactic(auto, using(crate::proofs::Rooting::grown_bad, crate::proofs::Rooting::ill_named))]
pub fn grow(table: &[u8], chain: &[u16], mark: &mut [u16; ROOM], order: &mut [u16; ROOM]) -> bool
    requires listed { Listed table.now (chainOf table.now) chain.now }
    requires marked { Marked (chainOf table.now) mark.old }
    requires table_value { bad_links table.now ≡ false }
    requires tallied { Tallied table.now order.old }
    ensures { Grown table.now result (length chain.now) order.new }
{
    let root = left(table, 0);
    if root == 0 {
        return chain.is_empty();
    }
    if !marked(mark, root) {
        return false;
    }
    match list_roots(table, chain, root, order, mark) {
        Some(count) => reaches(table, chain.len(), &mark[..count], order),
        None => false,
    }
}
