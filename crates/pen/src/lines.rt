// The lines of a table, by parent in the order of the chain, left first.
ghost use Rattle.std.specs.Prelude.{◌≡◌, List, ◌++◌, ◌<◌};
ghost use Rattle.table.specs.Table.{records, left_of, right_of};
ghost use Rattle.pen.specs.Lines.{line_to, lines as lines_of, line_at};
ghost use Rattle.pen.specs.inner.Steps.{after};

use records::forest::Forest;
use records::words::{left, right};
use std::ops::ControlFlow;

// A line by the records at its ends.
#[derive(Clone, Copy)]
pub struct Ends {
    pub parent: usize,
    pub child: usize,
}

// Passes the line from a parent to a child, where 0 is no line (`line_to`), with so many lines still to pass: breaks with the line that is
// sought, or goes on with how many more are to be passed.
fn along(parent: usize, child: usize, skip: u64) -> ControlFlow<Ends, u64>
    ensures { (rest : List Ends) → line_at (line_to parent child ++ rest) skip ≡ after result rest }
{
    if child == 0 {
        return ControlFlow::Continue(skip);
    }
    if skip == 0 {
        return ControlFlow::Break(Ends { parent, child });
    }
    ControlFlow::Continue(skip - 1)
}

// Passes the lines from a record to its children, left first.
fn around(table: &[u8], parent: usize, skip: u64) -> ControlFlow<Ends, u64>
    requires { parent < records table.now }
    ensures { (rest : List Ends) →
        line_at (line_to parent (left_of table.now parent) ++ (line_to parent (right_of table.now parent) ++ rest)) skip ≡ after result rest }
{
    let skip = along(parent, left(table, parent), skip)?;
    along(parent, right(table, parent), skip)
}

// The line of that number, from 0; none past the last.
pub fn line(forest: Forest<'_>, number: u64) -> Option<Ends>
    ensures { result ≡ line_at (lines_of forest.entry.table.now) number }
{
    let mut skip = number;
    for &node in forest.nodes {
        match around(forest.table, usize::from(node), skip) {
            ControlFlow::Break(ends) => return Some(ends),
            ControlFlow::Continue(left_over) => skip = left_over,
        }
    }
    None
}
