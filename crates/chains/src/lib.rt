// Causes 3 and 8: the walks along the chain and along the free records.
#![tactic(auto)]

ghost use Rattle.std.specs.Prelude.{◌≡◌, ◌||◌, not, ◌<◌, eqb, length, get_or};
ghost use Rattle.table.specs.Lists.{any, member};
ghost use Rattle.table.specs.Table.{records, trail, chain as chainOf, free as freeOf};
ghost use Rattle.table.specs.Refusal.{occupied, bad_free};
ghost use Rattle.chains.specs.inner.Listing.{Shaped, Blank, Listed, Marked, Walked};

use access::words::{left, next, right, tag};

// The numbers in a list with a place for each record's number, the head's too: one more than the most nodes.
pub const ROOM: usize = 4097;

// Lists the records from `first` on, each named by the next of the one before, and marks them and zero. Answers how many it met; None if it was broken
// off, at a record beyond the last or met twice. The list and the marks are lent (no heap); marks are numbers, since their list is lent again for the roots.
pub fn walk(
    table: &[u8],
    first: usize,
    list: &mut [u16; ROOM],
    mark: &mut [u16; ROOM],
) -> Option<usize>
    requires shaped { Shaped table.now }
    requires first_bound { first < 65536 }
    requires blank { Blank mark.old }
    ensures { Walked table.now (trail table.now first) result list.new mark.new }
{
    let records = table.len() / 8;
    mark[0] = 1;
    let mut at = first;
    let mut count = 0;
    // The walk goes by the records' own links, so there is no list to iterate over.
    while at != 0 {
        if records <= at || mark[at] != 0 {
            return None;
        }
        mark[at] = 1;
        // It fits: `u16::try_from`, with an unwrap that cannot fail, is no plainer.
        list[count] = at as u16;
        count += 1;
        at = next(table, at);
    }
    Some(count)
}

// Whether record k is marked: no mark stands past the last. Two tests, as the clause has them: no plainer by `get`.
pub fn marked(mark: &[u16], k: usize) -> bool
    ensures { result ≡ not (eqb (get_or mark.now k 0) 0) }
{
    k < mark.len() && mark[k] != 0
}

// Whether a word of record k other than next is not zero.
#[tactic(auto, unfolding(table::specs::Refusal::occupied), using(std::proofs::lemmas::Bool::Decides::nat_tests))]
fn in_use(table: &[u8], k: usize) -> bool
    requires { k < records table.now }
    ensures { result ≡ occupied table.now k }
{
    left(table, k) != 0 || right(table, k) != 0 || tag(table, k) != 0
}

// Whether one of the free records is on the chain, or in use.
fn some_taken(table: &[u8], free: &[u16], mark: &[u16]) -> bool
    requires listed { Listed table.now (freeOf table.now) free.now }
    requires marked { Marked (chainOf table.now) mark.now }
    ensures { result ≡ any (λ k. member k (chainOf table.now) || occupied table.now k) (freeOf table.now) }
{
    free.iter().any(|&k| marked(mark, usize::from(k)) || in_use(table, usize::from(k)))
}

// Cause 8, from the marks of the chain.
pub fn spoiled(table: &[u8], mark: &[u16; ROOM]) -> bool
    requires shaped { Shaped table.now }
    requires marked { Marked (chainOf table.now) mark.now }
    ensures { result ≡ bad_free table.now }
{
    let first = right(table, 0);
    if first == 0 {
        return false;
    }
    let mut list = [0u16; ROOM];
    let mut met = [0u16; ROOM];
    match walk(table, first, &mut list, &mut met) {
        Some(count) => some_taken(table, &list[..count], mark),
        None => true,
    }
}
