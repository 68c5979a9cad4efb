// Placing (document 004, Steps 5 and 6, and the drawings of Step 3; document 01, steps 1 and 3 to 8): the points of a drawing, in the columns and rows of
// the whole plan, stored among the placements. The roles and W of each spine are handed over and only read; placing chooses none. "004" and "01" below are
// these documents, whose steps have numbers of their own.
ghost use Rattle.std.specs.Prelude.{◌≡◌, ◌+◌, ◌<◌};
ghost use Rattle.table.specs.Table.{left, right};
ghost use Rattle.layout.specs.Spine.{Role as LayoutRole, knee, ordinary, switch};
ghost use Rattle.layout.specs.inner.Held.{inwards as inwardsOf, Inside};
ghost use Rattle.roles.specs.Chosen.{side_of};
ghost use Rattle.roles.specs.inner.Forked.{Forked};
ghost use Rattle.drawing.specs.inner.Placing.{Kept, hand_at as hand_of, walk_to, Drawable, SubtreeDrawn, Going, Stepped};

use crate::spines::Spines;
use placements::set_point;
use roles::Fork;
use roles::role::{hand_at, role_at};
use roles::sides::Side;

// A walk along the spine of a drawing: the next node and its row, the lowest row used so far, the pending child, 0 for none (`Named`); the hand that the node
// is on, by its role, and that hand's edge; W of the spine, and the side that its drawing is on.
#[derive(Clone, Copy)]
pub struct Walk {
    pub at: usize,
    pub row: usize,
    pub lowest: usize,
    pub pending: usize,
    pub hand: Side,
    pub edge: usize,
    pub widest: usize,
    pub side: Side,
}

impl Walk {
    // The walk at the next node, on the same hand.
    fn onward(self, at: usize, row: usize, lowest: usize, pending: usize) -> Walk
        ensures { result ≡ walk_to self at row lowest pending self.hand self.edge }
    {
        Walk {
            at,
            row,
            lowest,
            pending,
            ..self
        }
    }

    // 004, Step 6(d); 01, step 7: so many columns inwards from the edge of its hand.
    fn inwards(self, columns: usize) -> usize
        requires { Inside 65536 (hand_of self) self.edge (columns + 1) }
        ensures { (result ≡ inwardsOf (hand_of self) self.edge columns) × (result < 65536) }
    {
        match self.hand {
            Side::Left => self.edge + columns,
            Side::Right => self.edge - columns,
        }
    }
}

// Each of the three steps is handed the fork at its node (`forked`), which is looked up once, in `step`: to look it up in each would be no plainer.
// Each function says what it keeps (`Kept`), since `&mut self` lends every field.
impl Spines<'_> {
    // 004, Step 6(a); 01, step 4: a child hung on the far side is drawn below all so far, and the next node is below it; one on the near side is pending.
    #[cycle(spines)]
    #[tactic(auto, using(crate::proofs::Walking::entry_within))]
    fn at_knee(&mut self, fork: Fork, walk: Walk) -> Walk
        requires going { Going self.old.subtrees.table.now self.old.roles.now self.old.widest.now knee walk }
        requires forked { Forked self.old.subtrees.table.now (side_of walk.side) walk.at fork.spine fork.hung (side_of fork.side) }
        ensures kept { Kept self.old self.new }
        ensures stepped { Stepped self.old.subtrees.table.now self.old.roles.now self.old.widest.now knee walk
            self.old.points.now result self.new.points.now }
    {
        set_point(self.points, walk.at, walk.edge, walk.row);
        let lowest = walk.lowest.max(walk.row);
        let row = lowest + 1;
        if fork.side.is_far(walk.hand) {
            let below = self.draw_hung(walk, fork.hung, 1, row);
            return walk.onward(fork.spine, below, below - 1, 0);
        }
        walk.onward(fork.spine, row, lowest, fork.hung)
    }

    // 004, Step 6(b); 01, step 5: the next node is on the bottom row of the hung drawing, or one row lower.
    #[cycle(spines)]
    #[tactic(auto, using(crate::proofs::Walking::entry_within))]
    fn at_ordinary(&mut self, fork: Fork, walk: Walk) -> Walk
        requires going { Going self.old.subtrees.table.now self.old.roles.now self.old.widest.now ordinary walk }
        requires forked { Forked self.old.subtrees.table.now (side_of walk.side) walk.at fork.spine fork.hung (side_of fork.side) }
        ensures kept { Kept self.old self.new }
        ensures stepped { Stepped self.old.subtrees.table.now self.old.roles.now self.old.widest.now ordinary walk
            self.old.points.now result self.new.points.now }
    {
        set_point(self.points, walk.at, walk.inwards(1), walk.row);
        let row = walk.row + 1;
        let below = self.draw_hung(walk, fork.hung, 2, row);
        let lowest = below - 1;
        walk.onward(fork.spine, row.max(lowest), lowest, walk.pending)
    }

    // 004, Step 6(c); 01, step 6: what is pending goes under the hung drawing, and the next node, a knee by its role, is at the edge of its own hand.
    #[cycle(spines)]
    #[tactic(auto, using(crate::proofs::Walking::entry_within, roles::proofs::Forks::named_within))]
    fn at_switch(&mut self, fork: Fork, walk: Walk) -> Walk
        requires going { Going self.old.subtrees.table.now self.old.roles.now self.old.widest.now switch walk }
        requires forked { Forked self.old.subtrees.table.now (side_of walk.side) walk.at fork.spine fork.hung (side_of fork.side) }
        ensures kept { Kept self.old self.new }
        ensures stepped { Stepped self.old.subtrees.table.now self.old.roles.now self.old.widest.now switch walk
            self.old.points.now result self.new.points.now }
    {
        set_point(self.points, walk.at, walk.inwards(1), walk.row);
        let roles = self.roles;
        let hand = hand_at(roles, fork.spine);
        let row = walk.row + 1;
        let foot = self.draw_hung(walk, fork.hung, 1, row);
        let below = self.draw_hung(walk, walk.pending, 1, foot);
        Walk {
            at: fork.spine,
            row,
            lowest: below - 1,
            pending: 0,
            hand,
            edge: walk.inwards(walk.widest + 2),
            ..walk
        }
    }

    // 004, Step 6; 01, steps 4 to 7: one node of a spine, it and what hangs from it, or was pending, by its role. Tests and no match, since placing names no
    // role (docs/GROUNDS.md, "That placing chooses none").
    #[cycle(spines)]
    fn step(&mut self, walk: Walk) -> Walk
        requires going { (o : LayoutRole) × Going self.old.subtrees.table.now self.old.roles.now self.old.widest.now o walk }
        requires at_nonzero { 0 < walk.at }
        ensures kept { Kept self.old self.new }
        ensures stepped { (o : LayoutRole) → Going self.old.subtrees.table.now self.old.roles.now self.old.widest.now o walk
            → Stepped self.old.subtrees.table.now self.old.roles.now self.old.widest.now o walk self.old.points.now result self.new.points.now }
    {
        let fork = self.subtrees.fork_at(walk.at, walk.side);
        let roles = self.roles;
        let role = role_at(roles, walk.at);
        if role.is_knee() {
            return self.at_knee(fork, walk);
        }
        if role.is_switch() {
            return self.at_switch(fork, walk);
        }
        self.at_ordinary(fork, walk)
    }

    // 004, Steps 5 and 6; 01, steps 1 and 4 to 8: from the first node to the end of a spine; what is then still pending goes below all (step 8, which 004
    // omits). Answers the first row below the drawing. A `while` follows the links of the spine, whose nodes stand in no list.
    #[cycle(spines)]
    #[tactic(auto, using(roles::proofs::Forks::named_within))]
    fn draw_spine(&mut self, root: usize, edge: usize, top: usize, side: Side) -> usize
        requires drawable { Drawable self.old.subtrees.table.now self.old.roles.now self.old.widest.now (side_of side) root edge 0 top }
        requires root_nonzero { 0 < root }
        ensures kept { Kept self.old self.new }
        ensures drawn { SubtreeDrawn self.old.subtrees.table.now (side_of side) root edge top self.old.points.now result self.new.points.now }
    {
        let roles = self.roles;
        let mut walk = Walk {
            at: root,
            row: top,
            lowest: top,
            pending: 0,
            hand: hand_at(roles, root),
            edge,
            widest: usize::from(self.widest[root]),
            side,
        };
        while walk.at != 0 {
            walk = self.step(walk);
        }
        self.draw_hung(walk, walk.pending, 1, walk.lowest + 1)
    }

    // 004, Step 3(a) to (c); 01, step 3: a drawing on the left side, by these same steps. Answers the first row below it. It and the next are two functions,
    // since document 01 asks for a left-side and a right-side drawing that call each other through the hung subtrees.
    #[cycle(spines)]
    fn draw_left(&mut self, root: usize, edge: usize, top: usize) -> usize
        requires drawable { Drawable self.old.subtrees.table.now self.old.roles.now self.old.widest.now left root edge 0 top }
        requires root_nonzero { 0 < root }
        ensures kept { Kept self.old self.new }
        ensures drawn { SubtreeDrawn self.old.subtrees.table.now left root edge top self.old.points.now result self.new.points.now }
    {
        self.draw_spine(root, edge, top, Side::Left)
    }

    // 004, Steps 3(d) and 6(d); 01, step 3: a drawing on the right side, which is that of the mirror image, flipped left to right.
    #[cycle(spines)]
    fn draw_right(&mut self, root: usize, edge: usize, top: usize) -> usize
        requires drawable { Drawable self.old.subtrees.table.now self.old.roles.now self.old.widest.now right root edge 0 top }
        requires root_nonzero { 0 < root }
        ensures kept { Kept self.old self.new }
        ensures drawn { SubtreeDrawn self.old.subtrees.table.now right root edge top self.old.points.now result self.new.points.now }
    {
        self.draw_spine(root, edge, top, Side::Right)
    }

    // 004, Step 3; 01, step 3: the drawing of a hung subtree, 0 for none, on the side of the walk's hand: its edge is at that hand's column, its top at the
    // row. Answers the first row below it.
    #[cycle(spines)]
    fn draw_hung(&mut self, walk: Walk, child: usize, column: usize, top: usize) -> usize
        requires drawable { Drawable self.old.subtrees.table.now self.old.roles.now self.old.widest.now (hand_of walk) child walk.edge column top }
        ensures kept { Kept self.old self.new }
        ensures drawn { SubtreeDrawn self.old.subtrees.table.now (hand_of walk) child (inwardsOf (hand_of walk) walk.edge column) top
            self.old.points.now result self.new.points.now }
    {
        if child == 0 {
            return top;
        }
        let edge = walk.inwards(column);
        match walk.hand {
            Side::Left => self.draw_left(child, edge, top),
            Side::Right => self.draw_right(child, edge, top),
        }
    }

    // 004, Step 5; 01, step 1: the drawing of a whole tree, 0 for none, on the left side, from column 0 on and the given row on, by the roles of its spines.
    // Answers the first row below it. It enters where hung subtrees do, by a walk with nothing done, so that the steps of a walk are compiled into one loop
    // and no walk is passed through memory: if it called `draw_left`, that would have two callers, and the steps would be compiled apart.
    pub fn draw_tree(&mut self, root: usize, top: usize) -> usize
        requires drawable { Drawable self.old.subtrees.table.now self.old.roles.now self.old.widest.now left root 0 0 top }
        ensures kept { Kept self.old self.new }
        ensures drawn { SubtreeDrawn self.old.subtrees.table.now left root 0 top self.old.points.now result self.new.points.now }
    {
        let walk = Walk {
            at: 0,
            row: 0,
            lowest: 0,
            pending: 0,
            hand: Side::Left,
            edge: 0,
            widest: 0,
            side: Side::Left,
        };
        self.draw_hung(walk, root, 0, top)
    }
}
