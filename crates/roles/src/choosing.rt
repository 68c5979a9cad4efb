// The roles of a spine, chosen from the tree alone, before anything is placed (document 02, Paper 3). No other crate can name what is in here.
// "004" is document 004, "01" document 01; the steps of each have numbers of their own.
ghost use Rattle.std.specs.Prelude.{◌≡◌};
ghost use Rattle.table.specs.Table.{Chained};
ghost use Rattle.table.specs.Tree.{tree_at};
ghost use Rattle.layout.specs.Spine.{spine, knee, ordinary, switch, facing, roles as roles_of};
ghost use Rattle.roles.specs.Chosen.{side_of, with_roles};
ghost use Rattle.roles.specs.inner.Roles.{Runs, Follows, hand_of, role_of};

use crate::role::Role;
use crate::sides::Side;
use crate::{Fork, Subtrees};

// 004, Steps 2, 3(c) and (d); 01, steps 1, 2 and 7: the first node of a spine, and one after a switch, is a knee. Of each kind a function gives the role on
// a hand: a role that is a kind and a hand would hide document 01's six.
fn knee_on(hand: Side) -> Role
    ensures { (hand_of result ≡ side_of hand) × (role_of result ≡ knee) }
{
    match hand {
        Side::Left => Role::LeftKnee,
        Side::Right => Role::RightKnee,
    }
}

fn ordinary_on(hand: Side) -> Role
    ensures { (hand_of result ≡ side_of hand) × (role_of result ≡ ordinary) }
{
    match hand {
        Side::Left => Role::OrdinaryLeft,
        Side::Right => Role::OrdinaryRight,
    }
}

// A switch is named for the hand to which the spine goes over.
fn switch_on(hand: Side) -> Role
    ensures { (hand_of result ≡ side_of hand) × (role_of result ≡ switch) }
{
    match hand {
        Side::Left => Role::SwitchRight,
        Side::Right => Role::SwitchLeft,
    }
}

// 004, Step 3(a), (b) and (d); 01, steps 2 and 7: after a knee or an ordinary node, a switch where a child hangs on the hand's own side. Each case has a line
// of its own, where a wrong role can be tried (must-fail/switch_without_child).
#[tactic(auto, using(crate::proofs::Choices::near_runs, crate::proofs::Choices::far_runs))]
fn run_on(hand: Side, fork: Fork) -> Role
    ensures { Runs (side_of hand) fork result }
{
    if fork.hung == 0 {
        return ordinary_on(hand);
    }
    if !fork.side.is_far(hand) {
        return switch_on(hand);
    }
    ordinary_on(hand)
}

// 004, Step 3; 01, steps 2 and 7: the role of the spine node after one of role `before`.
fn role_after(before: Role, fork: Fork) -> Role
    ensures { Follows before fork result }
{
    if before.is_switch() {
        return knee_on(before.hand().other());
    }
    run_on(before.hand(), fork)
}

// 004, Steps 2 and 3; 01, steps 1, 2 and 7: keeps the role of every node of the spine from `root` on at the node's record, and nothing else. A `while`
// follows the links of the spine, whose nodes stand in no list.
#[tactic(auto, using(crate::proofs::Forks::named_within))]
pub fn choose_roles(subtrees: Subtrees<'_>, roles: &mut [u16; 4097], root: usize, side: Side)
    requires chained { Chained subtrees.table.now root }
    ensures { roles.new ≡ with_roles (side_of side)
        (roles_of (spine (facing (side_of side) (tree_at subtrees.entry.table.now root)))) roles.old }
{
    let first = subtrees.fork_at(root, side);
    let mut role = knee_on(side);
    roles[root] = u16::from(role);
    let mut at = first.spine;
    while at != 0 {
        let fork = subtrees.fork_at(at, side);
        role = role_after(role, fork);
        roles[at] = u16::from(role);
        at = fork.spine;
    }
}
