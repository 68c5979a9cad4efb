// A survey of a spine: its W, and how wide its drawing will be. "004" is document 004, "01" document 01.
ghost use Rattle.std.specs.Prelude.{◌≡◌, cond, ◌+◌, ◌<◌};
ghost use Rattle.roles.specs.inner.Measured.{Longer};

use crate::role::Role;

// The node that the survey is at; of those before it, the greatest width of what hangs from them, the columns that they take
// if the spine does not turn, and whether it turned: both to the end, since the definition `Longer` goes on with both.
#[derive(Clone, Copy)]
pub struct Survey {
    pub at: usize,
    pub widest: usize,
    pub reach: usize,
    pub turned: bool,
}

impl Survey {
    // 004, Step 4; 01, "W is the greatest width": past a node of the given role, from which a drawing of the given width hangs.
    pub fn past(self, role: Role, width: usize, next: usize) -> Survey
        requires { width < 65536 }
        ensures { Longer self role width next result }
    {
        Survey {
            at: next,
            widest: self.widest.max(width),
            reach: self.reach.max(role.edge() + width),
            turned: self.turned || role.is_switch(),
        }
    }

    // The width of the drawing, when the survey has ended.
    pub fn width(self) -> usize
        requires { self.widest < 65536 }
        ensures { result ≡ cond self.turned (self.widest + 3) self.reach }
    {
        if self.turned {
            return self.widest + 3;
        }
        self.reach
    }
}
