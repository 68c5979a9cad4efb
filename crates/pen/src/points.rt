// The points that the pen goes to.
ghost use Rattle.std.specs.Prelude.{◌≡◌, ◌+◌, ◌*◌, ◌^◌, ◌<◌, length};
ghost use Rattle.pen.specs.Quarter.{quarter_of};
ghost use Rattle.pen.specs.Strokes.{pen_at};

use placements::point;

// A point in millimetres: how far it is to the right of column 0, and how far below row 0.
#[derive(Clone, Copy)]
pub struct PenPoint {
    pub x: f64,
    pub y: f64,
}

// A column or a row times the pitch: the coordinate in quarter millimetres.
fn product(place: u16, pitch: u8) -> u32
    ensures { (result ≡ place * pitch) × (result < 2 ^ 24) }
{
    u32::from(place) * u32::from(pitch)
}

// Divided by 4, without rounding.
fn quarter(product: u32) -> f64
    requires { product < 2 ^ 24 }
    ensures { result ≡ (quarter_of product).float }
{
    f64::from(product) / 4.0
}

// A coordinate, from a column or a row.
fn coordinate(place: u16, pitch: u8) -> f64
    ensures { result ≡ (quarter_of (place * pitch)).float }
{
    quarter(product(place, pitch))
}

// The pen point of a column and a row, apart as in the definition `pen_at`.
fn point_of(column: u16, row: u16, pitch: u8) -> PenPoint
    ensures { result ≡ record { x = (quarter_of (column * pitch)).float; y = (quarter_of (row * pitch)).float } }
{
    PenPoint {
        x: coordinate(column, pitch),
        y: coordinate(row, pitch),
    }
}

// The pen point of record k.
pub fn pen_at(placements: &[u16], pitch: u8, k: usize) -> PenPoint
    requires { 2 * k + 1 < length placements.now }
    ensures { result ≡ pen_at placements.now pitch k }
{
    let at = point(placements, k);
    point_of(at.column, at.row, pitch)
}
