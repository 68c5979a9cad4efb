// What the calls that hang, hold and cut leave of a table, and what any list of them keeps of an accepted one. The statements are in specs, the proofs in
// proofs; two are told of the running code as well.
#![tactic(auto)]

ghost use Rattle.std.specs.Prelude.{◌≡◌};
ghost use Rattle.table.specs.Cause.{refused_by};
ghost use Rattle.hanging.specs.Hanging.{hang_refusal, after_hang};

use hanging::{cut, hang, hang_held, hold};
use table::Refusal;

// Hangs a leaf, and cuts it off again: every byte is as it was. Or says why it could not be hung.
pub fn hang_and_cut(table: &mut [u8], parent: u16, side: u8, tag: u16) -> Result<(), Refusal>
    ensures value { refused_by result ≡ hang_refusal table.old parent side }
    ensures table_unchanged { table.new ≡ table.old }
{
    let leaf = hang(table, parent, side, tag)?;
    cut(table, leaf)
}

// Holds a place, and hangs there what was held: the bytes that hang leaves. Or says why it could not be hung.
pub fn hold_and_hang(table: &mut [u8], parent: u16, side: u8, tag: u16) -> Result<(), Refusal>
    ensures value { refused_by result ≡ hang_refusal table.old parent side }
    ensures table_after { table.new ≡ after_hang table.old parent side tag }
{
    let leaf = hold(table, parent, side)?;
    hang_held(table, parent, side, tag, leaf)
}
