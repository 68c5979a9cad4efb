// The two sides: on which a drawing stands, on which a child hangs, and the hand that a spine node is on.
ghost use Rattle.std.specs.Prelude.{◌≡◌};
ghost use Rattle.layout.specs.Spine.{opposite};
ghost use Rattle.layout.specs.inner.Held.{far};
ghost use Rattle.roles.specs.Chosen.{side_of};

#[derive(Clone, Copy, PartialEq, Eq)]
pub enum Side {
    Left,
    Right,
}

impl Side {
    pub fn other(self) -> Side
        ensures { side_of result ≡ opposite (side_of self) }
    {
        match self {
            Side::Left => Side::Right,
            Side::Right => Side::Left,
        }
    }

    // 004, Step 6(d); 01, step 7: whether what hangs on this side is on the far side of a hand, which for the left hand is the right.
    #[tactic(auto, using(crate::proofs::Choices::far_apart))]
    pub fn is_far(self, hand: Side) -> bool
        ensures { result ≡ far (side_of hand) (side_of self) }
    {
        self != hand
    }
}
