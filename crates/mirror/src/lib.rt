// Left and right, and column and row, exchanged at listed records.
#![tactic(auto)]

ghost use Rattle.std.specs.Prelude.{◌≡◌, ℕ, ◌+◌, ◌*◌, ◌<◌, T, length};
ghost use Rattle.table.specs.Lists.{member};
ghost use Rattle.table.specs.Table.{records};
ghost use Rattle.mirror.specs.Exchanged.{exchange_links, exchange_point, each};

use placements::{point, set_point};
use records::words::{left, right};
use records::writing::set_word;

// Left and right of record k.
fn exchange_links(table: &mut [u8], k: usize)
    requires { k < records table.old }
    ensures { table.new ≡ exchange_links k table.old }
{
    let l = left(table, k);
    let r = right(table, k);
    set_word(table, k, 1, r);
    set_word(table, k, 2, l);
}

// Column and row of record k.
fn exchange_point(placements: &mut [u16], k: usize)
    requires { 2 * k + 1 < length placements.old }
    ensures { placements.new ≡ exchange_point k placements.old }
{
    let old = point(placements, k);
    set_point(placements, k, usize::from(old.row), usize::from(old.column));
}

// Left and right of the listed records. One function for this and the next, over the step and the type of a slice's items, would be longer than both.
pub fn exchange_table(table: &mut [u8], list: &[u16])
    requires { (k : ℕ) → T (member k list.now) → k < records table.old }
    ensures { table.new ≡ each exchange_links list.now table.old }
{
    for &k in list {
        exchange_links(table, usize::from(k));
    }
}

// Column and row of the listed records.
pub fn exchange_placements(placements: &mut [u16], list: &[u16])
    requires { (k : ℕ) → T (member k list.now) → 2 * k + 1 < length placements.old }
    ensures { placements.new ≡ each exchange_point list.now placements.old }
{
    for &k in list {
        exchange_point(placements, usize::from(k));
    }
}
