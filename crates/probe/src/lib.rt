// For tests/compare: are lines surely without a clash, as the check would ask it? A test, which promises nothing.
#![tactic(auto)]

use sort::sort;
use sweep::surely_clear;

// 1 if they are, 0 if not; 2 if they are too many, or a list to work in is too short: numbers, since C asks.
#[unsafe(no_mangle)]
pub extern "C" fn probe_clear(lines: &mut [u64], scratch: &mut [u64], abreast: &mut [u16]) -> u32 {
    let n = lines.len();
    if n > 4097 || scratch.len() < n || abreast.len() < n {
        return 2;
    }
    sort(lines, scratch, 32);
    u32::from(surely_clear(lines, scratch, abreast))
}
