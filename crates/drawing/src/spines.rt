// The spines of a drawing, which placing draws (place.rt). In a file of its own, since the definitions of the contracts in place.rt speak of it.
ghost use Rattle.std.specs.Prelude.{◌*◌, ◌≤◌, length};
ghost use Rattle.table.specs.Table.{records};

use roles::Subtrees;

// What placing only reads: an accepted table with the sizes of its subtrees, and the roles and W of the spines, listed by record; and the points, which it
// stores, two numbers for each record.
#[derive(Drop)]
pub struct Spines<'a> {
    pub subtrees: Subtrees<'a>,
    pub roles: &'a [u16; 4097],
    pub widest: &'a [u16; 4097],
    pub points: &'a mut [u16],
    pub ghost enough: { 2 * records subtrees.table.now ≤ length points.now },
}
