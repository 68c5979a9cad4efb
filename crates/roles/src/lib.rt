// Spines measured before they are drawn: the roles of every spine, and its W. "004" is document 004, "01" document 01.
#![tactic(auto)]

mod choosing;
mod hung;
pub mod role;
pub mod sides;
mod survey;

ghost use Rattle.std.specs.Prelude.{◌≡◌};
ghost use Rattle.table.specs.Table.{left as leftSide, Chained};
ghost use Rattle.table.specs.Refusal.{fault};
ghost use Rattle.roles.specs.inner.Sized.{Sized};
ghost use Rattle.roles.specs.Chosen.{side_of};
ghost use Rattle.roles.specs.inner.Forked.{Forked, goes_right};
ghost use Rattle.roles.specs.inner.Measured.{Measured};

use crate::hung::measure_spine;
use crate::sides::Side;
use records::words::{left, right};

// The child that a spine goes on to, the child off the spine, and the side on which it hangs. A child is 0 for none, as in
// the table, and so the definition `Forked` has it.
#[derive(Clone, Copy)]
pub struct Fork {
    pub spine: usize,
    pub hung: usize,
    pub side: Side,
}

// An accepted table, and the sizes of its subtrees. What is listed by record stands in lists of its own that a caller lends: no heap.
#[derive(Clone, Copy)]
pub struct Subtrees<'a> {
    pub table: &'a [u8],
    pub sizes: &'a [u16],
    pub ghost sound: { fault table.now ≡ 0 },
    pub ghost sized: { Sized table.now sizes.now },
}

// 004, Step 1; 01, "The spine goes": whether a spine goes on to the right child, from the sizes of the two subtrees: of equal ones it takes that on its side.
fn goes_right(left: u16, right: u16, side: Side) -> bool
    ensures { result ≡ goes_right (side_of side) left right }
{
    match side {
        Side::Left => left < right,
        Side::Right => left <= right,
    }
}

impl Subtrees<'_> {
    // 004, Step 1; 01, "The spine goes": the fork of a spine at a node, in a drawing on the left side or on the right.
    pub fn fork_at(self, at: usize, side: Side) -> Fork
        requires chained { Chained self.table.now at }
        ensures { Forked self.entry.table.now (side_of side) at result.spine result.hung (side_of result.side) }
    {
        let left_child = left(self.table, at);
        let right_child = right(self.table, at);
        if goes_right(self.sizes[left_child], self.sizes[right_child], side) {
            return Fork {
                spine: right_child,
                hung: left_child,
                side: Side::Left,
            };
        }
        Fork {
            spine: left_child,
            hung: right_child,
            side: Side::Right,
        }
    }
}

// 004, Steps 1 to 4; 01, steps 1 to 3 and 7: the roles and W of every spine, which placing is handed, for the drawing of the tree from `root` on. Answers
// the drawing's width. The root is asked to be chained as an index is to be in bounds, and what is lent is not the same in any two functions here: a value of
// these, built for one call, is no plainer.
pub fn prepare(
    subtrees: Subtrees<'_>,
    roles: &mut [u16; 4097],
    widest: &mut [u16; 4097],
    root: usize,
) -> usize
    requires chained { Chained subtrees.table.now root }
    ensures { Measured subtrees.entry.table.now leftSide root
        roles.old widest.old roles.new widest.new result }
{
    measure_spine(subtrees, roles, widest, root, Side::Left)
}
