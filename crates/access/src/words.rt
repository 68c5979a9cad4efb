// The words of a table's records (`table`, specs/Table).
ghost use Rattle.std.specs.Prelude.{◌≡◌, ◌<◌};
ghost use Rattle.table.specs.Table.{records, word as word_of, next_of, left_of, right_of, tag_of};

// Word j of record k. Each function here asks for a k below `records table`, as an index of a slice has its bound: a value of record and table, built
// for one read, is no plainer. The word is a number, since the definitions `word` and `with_word` speak of one.
pub fn word(table: &[u8], k: usize, j: usize) -> usize
    requires { (k < records table.now) × (j < 4) }
    ensures { (result ≡ word_of table.now k j) × (result < 65536) }
{
    let at = 8 * k + 2 * j;
    usize::from(u16::from_le_bytes([table[at], table[at + 1]]))
}

// The four words by the papers' names: no plainer with a number at each call. 0 for none is the C interface's, and so `next_of`, `left_of` and `right_of`
// have it.
pub fn next(table: &[u8], k: usize) -> usize
    requires { k < records table.now }
    ensures { (result ≡ next_of table.now k) × (result < 65536) }
{
    word(table, k, 0)
}

pub fn left(table: &[u8], k: usize) -> usize
    requires { k < records table.now }
    ensures { (result ≡ left_of table.now k) × (result < 65536) }
{
    word(table, k, 1)
}

pub fn right(table: &[u8], k: usize) -> usize
    requires { k < records table.now }
    ensures { (result ≡ right_of table.now k) × (result < 65536) }
{
    word(table, k, 2)
}

pub fn tag(table: &[u8], k: usize) -> usize
    requires { k < records table.now }
    ensures { (result ≡ tag_of table.now k) × (result < 65536) }
{
    word(table, k, 3)
}
