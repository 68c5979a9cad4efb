// Cause 4: links that name no chained record; how often records are named is counted on the way.
ghost use Rattle.std.specs.Prelude.{◌≡◌, false};
ghost use Rattle.table.specs.Table.{chain as chainOf};
ghost use Rattle.table.specs.Refusal.{bad_links};
ghost use Rattle.chains.specs.inner.Listing.{Blank, Listed, Marked};
ghost use Rattle.trees.specs.inner.Steps.{Tallied};

use crate::naming::tick;
use access::words::{left, right};
use chains::{ROOM, marked};

// Whether a chained node has a link to a record that is not marked. If none has, the tally counts how often each record is named.
// Chain lists the chain of this table: a value of table and list in their place, built for the call, is no plainer.
#[tactic(auto, using(chains::proofs::Scan::listed_inside))]
pub fn strays(table: &[u8], chain: &[u16], mark: &[u16; ROOM], tally: &mut [u16; ROOM]) -> bool
    requires listed { Listed table.now (chainOf table.now) chain.now }
    requires marked { Marked (chainOf table.now) mark.now }
    requires blank { Blank tally.old }
    ensures value { result ≡ bad_links table.now }
    ensures tallied { result ≡ false → Tallied table.now tally.new }
{
    for &node in chain {
        let k = usize::from(node);
        let l = left(table, k);
        let r = right(table, k);
        if !marked(mark, l) || !marked(mark, r) {
            return true;
        }
        tick(tally, l);
        tick(tally, r);
    }
    false
}
