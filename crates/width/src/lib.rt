// The allowed width of a drawing of n nodes.
#![tactic(auto)]

ghost use Rattle.std.specs.Prelude.{◌≡◌, ◌<◌, ◌≤◌};
ghost use Rattle.width.specs.Allowed.{floor_log2, allowed_width};

// The greatest k with 2^k at most n, from the leading zeros of n, as document 01 asks (so not by std's `ilog2`).
fn floor_log2(n: u64) -> u32
    requires { 0 < n }
    ensures value { result ≡ floor_log2 n }
    ensures upper_bound { result ≤ 63 }
{
    63 - n.leading_zeros()
}

// The allowed width; 0 where there is none, as the definition `allowed_width` and the C interface have it.
// Promised beyond this contract (promises/specs/Promises): `OneFloor`, `AtMost37`.
#[tactic(auto, unfolding(crate::specs::Allowed::allowed_width))]
pub fn allowed_width(n: u64) -> u64
    ensures { result ≡ allowed_width n }
{
    if n == 0 || 4096 < n {
        return 0;
    }
    3 * u64::from(floor_log2(n)) + 1
}
