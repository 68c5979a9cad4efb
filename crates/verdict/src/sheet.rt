// A drawing of an accepted table, and its faults. The lines are numbers, one for each node: to the node from its parent, and to a root, which is no child,
// from itself.
ghost use Rattle.std.specs.Prelude.{◌≡◌, ◌↔◌, ◌*◌, ◌≤◌, T, length};
ghost use Rattle.table.specs.Table.{records};
ghost use Rattle.verdict.specs.Conditions.{OutOfOrder};
ghost use Rattle.verdict.specs.Verdict.{FirstOf, conditions};
ghost use Rattle.verdict.specs.Fault.{fault_number};
ghost use Rattle.verdict.specs.inner.Steps.{LinesOf, Placeable, Turned};

use crate::Fault;
use crate::order::in_order;
use crate::touch::judge_lines;
use line::from_ends;
use parents::{above, find_parents};
use placements::point;
use records::forest::Forest;
use records::words::{left, right};

// The trees of an accepted table, and the places of its records; two lifetimes, since the two are lent to `check` apart.
#[derive(Clone, Copy)]
pub struct Sheet<'a, 'b> {
    pub forest: Forest<'a>,
    pub placements: &'b [u16],
    pub ghost placed: { 2 * records forest.table.now ≤ length placements.now },
}

impl Sheet<'_, '_> {
    // The lines to the nodes, in their order. By place: after a zip with `iter_mut` the proof knows nothing of what was written, and did not close.
    fn list_lines(self, lines: &mut [u64])
        requires { length lines.old ≡ length self.forest.nodes.now }
        ensures { LinesOf self.entry.forest.table.now self.entry.placements.now self.entry.forest.nodes.now lines.new }
    {
        let mut up = [0u16; 4097];
        find_parents(self.forest, &mut up);
        for (i, &node) in self.forest.nodes.iter().enumerate() {
            let c = usize::from(node);
            lines[i] = from_ends(
                point(self.placements, above(&up, c)),
                point(self.placements, c),
            );
        }
    }

    // 24, of one node: has it two children, which are out of order?
    fn turned(self, node: u16) -> bool
        requires { Placeable self.forest.table.now self.placements.now node }
        ensures { T result ↔ Turned self.entry.forest.table.now self.entry.placements.now node }
    {
        let k = usize::from(node);
        let l = left(self.forest.table, k);
        let r = right(self.forest.table, k);
        let at = |k| point(self.placements, k);
        l != 0 && r != 0 && !in_order(at(k), at(l), at(r))
    }

    // 24: are the children of some node out of order?
    fn out_of_order(self) -> bool
        ensures { T result ↔ OutOfOrder self.entry.forest.table.now self.entry.placements.now }
    {
        self.forest.nodes.iter().any(|&node| self.turned(node))
    }

    // The first fault, of at most N nodes, with a list to work in. Not inlined: its lists would lie on the stack of the check beside those of the reading
    // (include/bt.h says how much stack there may be).
    #[inline(never)]
    fn judge_with<const N: usize>(self, abreast: &mut [u16]) -> Option<Fault>
        requires { (length self.forest.nodes.now ≤ N) × (N ≤ 4097) × (length self.forest.nodes.now ≤ length abreast.old) }
        ensures { FirstOf (conditions self.entry.forest.table.now self.entry.placements.now) (fault_number result) }
    {
        let mut lines = [0u64; N];
        let mut scratch = [0u64; N];
        let lines = &mut lines[..self.forest.nodes.len()];
        self.list_lines(lines);
        if let Some(fault) = judge_lines(lines, &mut scratch, abreast) {
            return Some(fault);
        }
        self.out_of_order().then_some(Fault::OutOfOrder)
    }

    // The first fault. Of few nodes by short lists: most of the time of a small table would go into clearing long ones.
    pub fn judge(self, abreast: &mut [u16]) -> Option<Fault>
        requires { length self.forest.nodes.now ≤ length abreast.old }
        ensures { FirstOf (conditions self.entry.forest.table.now self.entry.placements.now) (fault_number result) }
    {
        if self.forest.nodes.len() <= 512 {
            return self.judge_with::<512>(abreast);
        }
        self.judge_with::<4097>(abreast)
    }
}
