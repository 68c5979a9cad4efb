// The parents of the nodes of an accepted table.
#![tactic(auto)]

ghost use Rattle.std.specs.Prelude.{◌≡◌, ◌<◌, length};
ghost use Rattle.chains.specs.inner.Listing.{Blank};
ghost use Rattle.parents.specs.inner.Parents.{Parents, above as above_of};

use records::forest::Forest;
use records::words::{left, right};

// Sets up[c] to the parent of c, for each child c. What up[0] is then does not matter. A caller lends the list, by record (no heap).
pub fn find_parents(forest: Forest<'_>, up: &mut [u16])
    requires { Blank up.old }
    ensures { Parents forest.entry.table.now up.new }
{
    for &node in forest.nodes {
        let k = usize::from(node);
        up[left(forest.table, k)] = node;
        up[right(forest.table, k)] = node;
    }
}

// The parent of c, or c where there is none. No Option: who asks wants a node, and so the definition `above` gives one.
pub fn above(up: &[u16], c: usize) -> usize
    requires { c < length up.now }
    ensures { result ≡ above_of up.now c }
{
    match up[c] {
        0 => c,
        parent => usize::from(parent),
    }
}
