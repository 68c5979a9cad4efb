// Writing: a word of a record (`table`, specs/Writing), and a copy of a table.
ghost use Rattle.std.specs.Prelude.{◌≡◌, ◌++◌, ◌≤◌, ◌<◌, length, drop};
ghost use Rattle.table.specs.Table.{records};
ghost use Rattle.table.specs.Writing.{with_word};

// Sets word j of record k, whose bound is that of an index, as in `words`: a value of record and table, built for one write, is no plainer.
pub fn set_word(table: &mut [u8], k: usize, j: usize, n: usize)
    requires k_bound { (k < records table.old) × (j < 4) }
    requires n_bound { n < 65536 }
    ensures { table.new ≡ with_word k j n table.old }
{
    let at = 8 * k + 2 * j;
    // It fits: `u16::try_from`, with an unwrap that cannot fail, is no plainer.
    let [low, high] = (n as u16).to_le_bytes();
    table[at] = low;
    table[at + 1] = high;
}

// Copies a table to the first bytes of a buffer, whose other bytes are kept. The clause says the whole buffer, which a call of std's `copy_from_slice` for
// its front would leave to each caller.
pub fn copy(table: &[u8], buffer: &mut [u8])
    requires { length table.now ≤ length buffer.old }
    ensures { buffer.new ≡ table.now ++ drop (length table.now) buffer.old }
{
    buffer[..table.len()].copy_from_slice(table);
}
