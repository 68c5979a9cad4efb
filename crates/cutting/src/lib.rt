// Cutting a leaf off a tree of a table.
#![tactic(auto)]

pub mod find;

ghost use Rattle.std.specs.Prelude.{◌≡◌, ◌<◌};
ghost use Rattle.table.specs.Cause.{refused_by};
ghost use Rattle.table.specs.Table.{records};
ghost use Rattle.records.specs.inner.Reading.{Nodes};
ghost use Rattle.cutting.specs.Cutting.{no_leaf, cut_refusal, holder, hook, cut_out, after_cut};

use crate::find::namer_of;
use records::examine;
use records::forest::Forest;
use records::words::{left, next, right};
use records::writing::set_word;
use table::Refusal;

// Cause 9 of cutting.
fn no_leaf(forest: Forest<'_>, node: u16) -> bool
    ensures { result ≡ no_leaf forest.entry.table.now node }
{
    let Forest { table, nodes } = forest;
    if !nodes.contains(&node) {
        return true;
    }
    let k = usize::from(node);
    left(table, k) != 0 || right(table, k) != 0 || (k == left(table, 0) && 1 < nodes.len())
}

// A record, and the word of it that names a leaf: a number, as the definition `hook` has it.
#[derive(Clone, Copy)]
struct Hook {
    holder: usize,
    slot: usize,
}

// The record and its word that name k: its parent's link, or the head's; of the root of another tree, which none names, its own left.
fn hook_of(forest: Forest<'_>, k: usize) -> Hook
    requires k_bound { k < records forest.table.now }
    ensures holder_value { (result.holder ≡ holder forest.entry.table.now k) × (result.holder < records forest.entry.table.now) }
    ensures slot_value { (result.slot ≡ hook forest.entry.table.now k) × (result.slot < 3) }
{
    let on_right = namer_of(forest, 2, k);
    if on_right != 0 {
        return Hook {
            holder: on_right,
            slot: 2,
        };
    }
    let on_left = namer_of(forest, 1, k);
    if on_left != 0 {
        return Hook {
            holder: on_left,
            slot: 1,
        };
    }
    if k != left(forest.table, 0) {
        return Hook { holder: k, slot: 1 };
    }
    Hook { holder: 0, slot: 1 }
}

// Takes the leaf k out of the chain and out of the link that names it, and puts it first among the free records, its other words zero.
// It takes table and nodes apart, since it writes to the table, which a `Forest` only reads.
#[tactic(auto, using(table::proofs::Accepted::records_bounds))]
fn cut_leaf(table: &mut [u8], nodes: &[u16], k: usize)
    requires nodes { Nodes table.old nodes.now }
    requires k_bound { k < records table.old }
    ensures { table.new ≡ cut_out table.old k }
{
    let forest = Forest { table, nodes };
    let before = namer_of(forest, 0, k);
    let hook = hook_of(forest, k);
    let follower = next(table, k);
    let free = right(table, 0);
    set_word(table, before, 0, follower);
    set_word(table, hook.holder, hook.slot, 0);
    set_word(table, k, 0, free);
    set_word(table, 0, 2, k);
    set_word(table, k, 1, 0);
    set_word(table, k, 2, 0);
    set_word(table, k, 3, 0);
}

// Cuts a leaf off a tree of a table, or says why it cannot be cut. The table is kept on a refusal.
// Promised beyond this contract (promises/specs/Promises): `CutsALeaf`, `CutsTheLast`, `CutRestores`, `CallsConserve`, `NeverTaken`, `OffChainCut`,
// `OffChainAfter`.
pub fn cut(table: &mut [u8], node: u16) -> Result<(), Refusal>
    ensures value { refused_by result ≡ cut_refusal table.old node }
    ensures table_after { table.new ≡ after_cut table.old node }
{
    let mut chain = [0u16; 4097];
    let mut order = [0u16; 4097];
    let count = examine(table, &mut chain, &mut order)?;
    let nodes = &chain[..count];
    if no_leaf(Forest { table, nodes }, node) {
        return Err(Refusal::Place);
    }
    cut_leaf(table, nodes, usize::from(node));
    Ok(())
}
