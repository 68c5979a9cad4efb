// The roles of spine nodes, and how the role that is kept for a node is read. Which role a node has is chosen elsewhere (choosing.rt).
ghost use Rattle.std.specs.Prelude.{◌≡◌, ◌<◌, get_or, length};
ghost use Rattle.table.specs.Table.{Side as SideOf};
ghost use Rattle.layout.specs.Spine.{Role as LayoutRole};
ghost use Rattle.layout.specs.inner.Width.{edge};
ghost use Rattle.roles.specs.Chosen.{side_of, code_of};
ghost use Rattle.roles.specs.inner.Roles.{is_knee, is_switch, hand_of, role_of};

use crate::sides::Side;

// Document 01's six roles; specs/inner/Roles gives the hand of each, and what it is on that hand.
#[derive(Clone, Copy)]
pub enum Role {
    LeftKnee,
    OrdinaryLeft,
    SwitchRight,
    RightKnee,
    OrdinaryRight,
    SwitchLeft,
}

impl Role {
    // The hand that it is on.
    pub fn hand(self) -> Side
        ensures { side_of result ≡ hand_of self }
    {
        match self {
            Role::LeftKnee | Role::OrdinaryLeft | Role::SwitchRight => Side::Left,
            Role::RightKnee | Role::OrdinaryRight | Role::SwitchLeft => Side::Right,
        }
    }

    pub fn is_knee(self) -> bool
        ensures { result ≡ is_knee (role_of self) }
    {
        matches!(self, Role::LeftKnee | Role::RightKnee)
    }

    pub fn is_switch(self) -> bool
        ensures { result ≡ is_switch (role_of self) }
    {
        matches!(self, Role::SwitchRight | Role::SwitchLeft)
    }

    // The column, from its hand's edge, where what hangs from a node of this role begins.
    pub fn edge(self) -> usize
        ensures { (result ≡ edge (role_of self)) × (result < 3) }
    {
        match self {
            Role::OrdinaryLeft | Role::OrdinaryRight => 2,
            _ => 1,
        }
    }
}

// The number by which a role is kept. The lists of roles hold numbers, since a caller lends them, used before for other numbers (no heap).
impl From<Role> for u16 {
    ghost from_gives = { λ role n. n ≡ code_of (hand_of role) (role_of role) };

    fn from(role: Role) -> u16 {
        match role {
            Role::LeftKnee => 0,
            Role::OrdinaryLeft => 1,
            Role::SwitchRight => 2,
            Role::RightKnee => 3,
            Role::OrdinaryRight => 4,
            Role::SwitchLeft => 5,
        }
    }
}

// The role that is kept at a record. No `TryFrom`: only numbers of roles are kept (`at_bound`).
pub fn role_at(roles: &[u16], at: usize) -> Role
    requires at_in_bounds { at < length roles.now }
    requires at_bound { get_or roles.now at 0 < 6 }
    ensures { get_or roles.now at 0 ≡ code_of (hand_of result) (role_of result) }
{
    match roles[at] {
        0 => Role::LeftKnee,
        1 => Role::OrdinaryLeft,
        2 => Role::SwitchRight,
        3 => Role::RightKnee,
        4 => Role::OrdinaryRight,
        _ => Role::SwitchLeft,
    }
}

// The hand that a node is on, by the role that is kept at its record.
pub fn hand_at(roles: &[u16], at: usize) -> Side
    requires at_in_bounds { at < length roles.now }
    requires at_bound { get_or roles.now at 0 < 6 }
    ensures { (a : SideOf) (o : LayoutRole) → get_or roles.now at 0 ≡ code_of a o → side_of result ≡ a }
{
    role_at(roles, at).hand()
}
