// Every spine of a drawing measured: left-side and right-side drawings in turn, through what hangs from their spines.
// "004" is document 004, "01" document 01.
ghost use Rattle.std.specs.Prelude.{◌≡◌};
ghost use Rattle.table.specs.Table.{Chained};
ghost use Rattle.roles.specs.inner.Sized.{Named};
ghost use Rattle.roles.specs.Chosen.{side_of};
ghost use Rattle.roles.specs.inner.Measured.{Measured};

use crate::Subtrees;
use crate::choosing::choose_roles;
use crate::role::role_at;
use crate::sides::Side;
use crate::survey::Survey;

// 004, Step 3; 01, step 3: a hung subtree, 0 for none (`Named`), for a drawing on the left side or on the right.
#[cycle(spines)]
fn measure_hung(
    subtrees: Subtrees<'_>,
    roles: &mut [u16; 4097],
    widest: &mut [u16; 4097],
    child: usize,
    side: Side,
) -> usize
    requires named { Named subtrees.table.now child }
    ensures { Measured subtrees.entry.table.now (side_of side) child
        roles.old widest.old roles.new widest.new result }
{
    if child == 0 {
        return 0;
    }
    measure_spine(subtrees, roles, widest, child, side)
}

// 004, Steps 2 to 4; 01, steps 1 to 3 and 7: a subtree for a drawing on the left side (004, Step 3(a) to (c)) or on the right (Step 3(d)): the roles of
// its spine first, then what hangs from it, then its W. A `while` follows the links of the spine, whose nodes stand in no list.
#[cycle(spines)]
#[tactic(auto, using(crate::proofs::Forks::named_within))]
pub fn measure_spine(
    subtrees: Subtrees<'_>,
    roles: &mut [u16; 4097],
    widest: &mut [u16; 4097],
    root: usize,
    side: Side,
) -> usize
    requires chained { Chained subtrees.table.now root }
    ensures { Measured subtrees.entry.table.now (side_of side) root
        roles.old widest.old roles.new widest.new result }
{
    choose_roles(subtrees, roles, root, side);
    let mut survey = Survey {
        at: root,
        widest: 0,
        reach: 0,
        turned: false,
    };
    while survey.at != 0 {
        let fork = subtrees.fork_at(survey.at, side);
        let role = role_at(roles, survey.at);
        let width = measure_hung(subtrees, roles, widest, fork.hung, role.hand());
        survey = survey.past(role, width, fork.spine);
    }
    // W is at most 37 by proof, so the number fits; `try_from`, and an `unwrap` that cannot fail, would be no plainer.
    widest[root] = survey.widest as u16;
    survey.width()
}
