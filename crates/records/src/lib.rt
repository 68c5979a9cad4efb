// Reading a table of records: the refusals, the chain, the nodes breadth first from the roots on, and the sizes of the subtrees. Passes on what reads
// and writes the words of a record.
#![tactic(auto)]

pub mod forest;

ghost use Rattle.std.specs.Prelude.{◌≡◌, cond, length, IfOk};
ghost use Rattle.table.specs.Table.{chain as chainOf};
ghost use Rattle.table.specs.Cause.{refused_by, number_or_0};
ghost use Rattle.table.specs.Refusal.{bad_length, bad_head, bad_free, bad_links, refusal};
ghost use Rattle.records.specs.inner.Reading.{Checked, Examined, TracedOf, ReadOf};
ghost use Rattle.chains.specs.inner.Listing.{Blank, Listed, Marked};
ghost use Rattle.trees.specs.inner.Steps.{Tallied};

use access::words::{next, tag};
pub use access::{words, writing};
use chains::{ROOM, spoiled, walk};
use table::Refusal;
use trees::grow;
use trees::links::strays;
use trees::reach::measure;

// Causes 1 and 2.
fn check_shape(table: &[u8]) -> Result<(), Refusal>
    ensures { refused_by result ≡ cond (bad_length table.now) 1 (cond (bad_head table.now) 2 0) }
{
    let bytes = table.len();
    if bytes == 0 || bytes % 8 != 0 || 32776 < bytes {
        return Err(Refusal::Length);
    }
    if tag(table, 0) != 0 {
        return Err(Refusal::Head);
    }
    Ok(())
}

// Causes 8 and 4, of a table whose chain is listed and marked; if neither holds, the tally has how often each record is named. Here and below the list that
// is filled is lent blank, as a new array is: no plainer where each function clears it, once more than needed.
fn check_links(
    table: &[u8],
    chain: &[u16],
    mark: &[u16; ROOM],
    tally: &mut [u16; ROOM],
) -> Result<(), Refusal>
    requires listed { Listed table.now (chainOf table.now) chain.now }
    requires marked { Marked (chainOf table.now) mark.now }
    requires blank { Blank tally.old }
    ensures value { refused_by result ≡ cond (bad_free table.now) 8 (cond (bad_links table.now) 4 0) }
    ensures tallied { IfOk result (λ _. Tallied table.now tally.new) }
{
    if spoiled(table, mark) {
        return Err(Refusal::FreeChain);
    }
    if strays(table, chain, mark, tally) {
        return Err(Refusal::Links);
    }
    Ok(())
}

// Causes 8, 4 and 5; if none holds, order lists the nodes breadth first.
fn check_trees(
    table: &[u8],
    chain: &[u16],
    mark: &mut [u16; ROOM],
    order: &mut [u16; ROOM],
) -> Result<(), Refusal>
    requires listed { Listed table.now (chainOf table.now) chain.now }
    requires marked { Marked (chainOf table.now) mark.old }
    requires blank { Blank order.old }
    ensures { Checked table.now result (length chain.now) order.new }
{
    check_links(table, chain, mark, order)?;
    if grow(table, chain, mark, order) {
        return Ok(());
    }
    Err(Refusal::Trees)
}

// Causes 1 to 5 and 8, from the bytes alone; or how many nodes there are, which chain then lists, and order breadth first. Both lists are lent, and the count
// is answered (no heap), here and in the next two.
pub fn examine(
    table: &[u8],
    chain: &mut [u16; ROOM],
    order: &mut [u16; ROOM],
) -> Result<usize, Refusal>
    requires blank { Blank order.old }
    ensures { Examined table.now result chain.new order.new }
{
    check_shape(table)?;
    let mut mark = [0u16; ROOM];
    let Some(nodes) = walk(table, next(table, 0), chain, &mut mark) else {
        return Err(Refusal::Chain);
    };
    check_trees(table, &chain[..nodes], &mut mark, order)?;
    Ok(nodes)
}

// The same, and cause 6, from the number of placements.
pub fn trace(
    table: &[u8],
    places: usize,
    chain: &mut [u16; ROOM],
    order: &mut [u16; ROOM],
) -> Result<usize, Refusal>
    requires blank { Blank order.old }
    ensures { TracedOf table.now places result chain.new order.new }
{
    let nodes = examine(table, chain, order)?;
    if places < 2 * (table.len() / 8) {
        return Err(Refusal::Placements);
    }
    Ok(nodes)
}

// The same as `trace`. Of an accepted table, sizes has the size of the subtree at each node, and 0 at 0, which is no child.
pub fn read(
    table: &[u8],
    places: usize,
    chain: &mut [u16; ROOM],
    order: &mut [u16; ROOM],
    sizes: &mut [u16; ROOM],
) -> Result<usize, Refusal>
    requires blank { Blank order.old }
    ensures { ReadOf table.now places result chain.new order.new sizes.new }
{
    sizes[0] = 0;
    let nodes = trace(table, places, chain, order)?;
    if nodes != 0 {
        measure(table, &order[..nodes], sizes);
    }
    Ok(nodes)
}

// Why a table with this many placements is refused, if it is.
// Promised beyond this contract (promises/specs/Promises): `ChainsWhole`, `TreesWhole`, `TreesOfTheChain`, `AcceptedFirst`, `RefusedFirst`,
// `FiveNarrowed`.
pub fn refusal_of(table: &[u8], places: usize) -> Option<Refusal>
    ensures { number_or_0 result ≡ refusal table.now places }
{
    let mut chain = [0u16; ROOM];
    let mut order = [0u16; ROOM];
    let traced = trace(table, places, &mut chain, &mut order);
    traced.err()
}
