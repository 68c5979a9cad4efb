// The lines of the text: a refusal's, a plan's, and a line a node.
ghost use Rattle.std.specs.Prelude.{◌≡◌, ◌++◌, ◌+◌, ◌*◌, ◌<◌, ◌≤◌, length};
ghost use Rattle.table.specs.Table.{records, chain};
ghost use Rattle.table.specs.Cause.{number_of};
ghost use Rattle.table.specs.Refusal.{refusal as refusalOf};
ghost use Rattle.text.specs.Text.{plan_line, node_line, node_lines, refused_line};
ghost use Rattle.fields.specs.inner.Put.{HasRoom, Put};

use drawing::Plan;
use fields::Writer;
use placements::point;
use records::words::{next, tag};
use table::Refusal;

// A refusal's line.
pub fn put_refusal(refusal: Refusal, writer: &mut Writer<'_>)
    requires { HasRoom 24 writer.old }
    ensures put { Put (refused_line (number_of refusal)) writer.old writer.new }
    ensures upper_bound { writer.new.at ≤ length writer.old.out.now }
{
    writer.put_word(b"refused");
    writer.put_fields(&[u16::from(refusal)]);
}

// The line of node k. That its number and its tag are words is proved, so `try_from` and an `unwrap` would be no plainer than the casts.
// Table, placements and writer stand by themselves, since `refusal` asks of two and `HasRoom` of the third: a struct built in `write_text` alone is no plainer.
fn put_node(table: &[u8], placements: &[u16], k: usize, writer: &mut Writer<'_>)
    requires k_bound { (k < records table.now) × (k < 65536) }
    requires k_in_bounds { 2 * k + 1 < length placements.now }
    requires room { HasRoom 24 writer.old }
    ensures put { Put (node_line table.now placements.now k) writer.old writer.new }
    ensures upper_bound { writer.new.at ≤ writer.old.at + 24 }
{
    let place = point(placements, k);
    writer.put_decimal(k as u16);
    writer.put_fields(&[place.column, place.row, tag(table, k) as u16]);
}

// The lines of the nodes, in chain order: by the chain's own links, as they stand in no list.
fn put_nodes(table: &[u8], placements: &[u16], nodes: u16, writer: &mut Writer<'_>)
    requires placements_value { refusalOf table.now (length placements.now) ≡ 0 }
    requires nodes_value { nodes ≡ length (chain table.now) }
    requires room { HasRoom (24 * nodes) writer.old }
    ensures put { Put (node_lines table.now placements.now (chain table.now))
        writer.old writer.new }
    ensures upper_bound { writer.new.at ≤ length writer.old.out.now }
{
    let mut k = next(table, 0);
    for _ in 0..nodes {
        put_node(table, placements, k, writer);
        k = next(table, k);
    }
}

// A plan's line and those of its nodes.
pub fn put_plan(table: &[u8], placements: &[u16], plan: Plan, writer: &mut Writer<'_>)
    requires placements_value { refusalOf table.now (length placements.now) ≡ 0 }
    requires nodes_value { plan.nodes ≡ length (chain table.now) }
    requires room { HasRoom 98328 writer.old }
    ensures put { Put (plan_line plan ++ node_lines table.now placements.now (chain table.now))
        writer.old writer.new }
    ensures upper_bound { writer.new.at ≤ length writer.old.out.now }
{
    writer.put_word(b"plan");
    writer.put_fields(&[plan.nodes, plan.width, plan.height]);
    put_nodes(table, placements, plan.nodes, writer);
}
