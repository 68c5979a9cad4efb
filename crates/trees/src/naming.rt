// How often the records are named as children, and the roots: the head's, and in chain order the others that none names.
ghost use Rattle.std.specs.Prelude.{◌≡◌, ◌+◌, ◌<◌, length, get_or, set};
ghost use Rattle.table.specs.Table.{root_of, chain as chainOf};
ghost use Rattle.chains.specs.inner.Listing.{Listed};
ghost use Rattle.trees.specs.inner.Steps.{Tallied, RootList};

use chains::ROOM;

// One more link to record k, if the tally has room for it.
pub fn tick(tally: &mut [u16], k: usize)
    requires { get_or tally.old k 0 < 65535 }
    ensures { tally.new ≡ set tally.old k (get_or tally.old k 0 + 1) }
{
    if k < tally.len() {
        tally[k] += 1;
    }
}

// Lists the roots, the head's first, in a lent list (no heap). Answers how many they are; None if the head's root is named, or a node more than once. What
// chain has to list is asked of it as in `strays`.
#[tactic(auto, using(crate::proofs::Roots::note_named, crate::proofs::Roots::note_twice, crate::proofs::Roots::note_inside, crate::proofs::Roots::nodes_few))]
pub fn list_roots(
    table: &[u8],
    chain: &[u16],
    root: usize,
    tally: &[u16; ROOM],
    roots: &mut [u16; ROOM],
) -> Option<usize>
    requires listed { Listed table.now (chainOf table.now) chain.now }
    requires root_value { root ≡ root_of table.now }
    requires root_bound { root < 4097 }
    requires tallied { Tallied table.now tally.now }
    ensures { RootList table.now result roots.new }
{
    if tally[root] != 0 {
        return None;
    }
    // Both numbers that are cast fit: `u16::try_from`, with an unwrap that cannot fail, is no plainer.
    roots[0] = root as u16;
    let mut count = 1;
    // By places: a must-fail edit takes the place i for the record k that stands there.
    for i in 0..chain.len() {
        let k = usize::from(chain[i]);
        if 1 < tally[k] {
            return None;
        }
        if k != root && tally[k] == 0 {
            roots[count] = k as u16;
            count += 1;
        }
    }
    Some(count)
}
