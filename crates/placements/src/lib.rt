// The point of a record, read and written among the placements: a column and a row for each record, in one list, as the C interface lends it.
#![tactic(auto)]

ghost use Rattle.std.specs.Prelude.{◌≡◌, ◌+◌, ◌*◌, ◌<◌, length};
ghost use Rattle.placements.specs.Placements.{point_of, with_point};

use segment::Point;

// The point of record k.
pub fn point(placements: &[u16], k: usize) -> Point
    requires { 2 * k + 1 < length placements.now }
    ensures { result ≡ point_of placements.now k }
{
    Point {
        column: placements[2 * k],
        row: placements[2 * k + 1],
    }
}

// Sets the point of record k. That the casts lose no bits is proved, so `try_from` and an `unwrap` would be no plainer.
pub fn set_point(placements: &mut [u16], k: usize, column: usize, row: usize)
    requires k_in_bounds { 2 * k + 1 < length placements.old }
    requires column_bound { (column < 65536) × (row < 65536) }
    ensures { placements.new ≡ with_point k column row placements.old }
{
    let place = 2 * k;
    placements[place] = column as u16;
    placements[place + 1] = row as u16;
}
