// The nodes that are reached from the roots, and the sizes of their subtrees.
ghost use Rattle.std.specs.Prelude.{◌≡◌, true, not, ◌++◌, [], ◌∷◌, ◌+◌, ◌≤◌, ◌<◌, length, set, take};
ghost use Rattle.table.specs.Table.{chain as chainOf};
ghost use Rattle.table.specs.Tree.{size, tree_at};
ghost use Rattle.table.specs.Trees.{roots as rootsOf};
ghost use Rattle.table.specs.Refusal.{fault};
ghost use Rattle.trees.specs.inner.Steps.{Rooted, Queue, Ordered, Fillable, Filled, present, not_reached};

use access::words::{left, right};
use chains::ROOM;

// Puts a link that is not zero, which is none (`present`), at the end of the order, a lent list whose length stands beside it (no heap).
#[tactic(auto, using(crate::proofs::Order::present_none, crate::proofs::Order::present_one))]
fn push(order: &mut [u16], tail: usize, link: usize) -> usize
    requires link_in_bounds { tail + length (present (link ∷ [])) ≤ length order.old }
    requires link_bound { link < 65536 }
    ensures value { result ≡ tail + length (present (link ∷ [])) }
    ensures order_after { take result order.new ≡ take tail order.old ++ present (link ∷ []) }
{
    if link == 0 {
        return tail;
    }
    // It fits: `u16::try_from`, with an unwrap that cannot fail, is no plainer.
    order[tail] = link as u16;
    tail + 1
}

// Lists the nodes that are reached, breadth first, the roots before the others, and counts them.
#[tactic(auto, using(crate::proofs::Order::roots_few, crate::proofs::Order::spread_inside))]
fn spread(table: &[u8], roots: &[u16], order: &mut [u16; ROOM]) -> usize
    requires rooted { Rooted table.now }
    requires roots_value { roots.now ≡ rootsOf table.now }
    ensures { (result ≤ 4097) × Queue table.now result (take result order.new) }
{
    order[..roots.len()].copy_from_slice(roots);
    let mut head = 0;
    let mut tail = roots.len();
    // The order grows while it is gone through, so no iterator can lend it.
    while head < tail {
        let node = usize::from(order[head]);
        tail = push(order, tail, left(table, node));
        tail = push(order, tail, right(table, node));
        head += 1;
    }
    tail
}

// Whether all the nodes are reached from the roots; then lists them, breadth first. It asks for the number of nodes alone, for which `grow` has their list:
// lending the list too is no plainer.
pub fn reaches(table: &[u8], nodes: usize, roots: &[u16], order: &mut [u16; ROOM]) -> bool
    requires rooted { Rooted table.now }
    requires nodes_value { nodes ≡ length (chainOf table.now) }
    requires roots_value { roots.now ≡ rootsOf table.now }
    ensures value { result ≡ not (not_reached table.now) }
    ensures ordered { result ≡ true → Ordered table.now nodes order.new }
{
    let reached = spread(table, roots, order);
    reached == nodes
}

// Fills in the size of the subtree at a node, from those of its children.
fn fill(table: &[u8], node: usize, sizes: &mut [u16; ROOM])
    requires { Fillable table.now node sizes.old }
    ensures { sizes.new ≡ set sizes.old node (size (tree_at table.now node)) }
{
    let l = sizes[left(table, node)];
    let r = sizes[right(table, node)];
    sizes[node] = 1 + l + r;
}

// The sizes of the subtrees, from the last node of the order to the first.
pub fn measure(table: &[u8], order: &[u16], sizes: &mut [u16; ROOM])
    requires table_value { fault table.now ≡ 0 }
    requires queued { Queue table.now (length order.now) order.now }
    requires filled { Filled table.now [] sizes.old }
    ensures { Filled table.now order.now sizes.new }
{
    for &node in order.iter().rev() {
        fill(table, usize::from(node), sizes);
    }
}
