// The unit coefficients: what `compute_r` yields at factor 1.0, by which `change_d` multiplies the table of any other factor. One table
// serves the orders 1 to 5: that of an order is its first order + 1 rows and columns. Entry (i, j), row i and column j, is at i * 6 + j.
#![tactic(auto)]

ghost use Rattle.std.specs.Prelude.{◌≡◌};
ghost use Rattle.unit.specs.Unit.{unit_r};

// A product of a negative number and +0 leaves it, and a product with a positive number keeps it.
const MINUS_ZERO: f64 = -0.0;

// Stays flat: `add_scaled` of bdf's rescale adds rows of any width that stand in one slice, and this table's are among them.
const UNIT_R: [f64; 36] = [
    // row 0
    1.0, 1.0, 1.0, 1.0, 1.0, 1.0,
    // row 1
    0.0, -1.0, -2.0, -3.0, -4.0, -5.0,
    // row 2
    0.0, MINUS_ZERO, 1.0, 3.0, 6.0, 10.0,
    // row 3
    0.0, MINUS_ZERO, 0.0, -1.0, -4.0, -10.0,
    // row 4
    0.0, MINUS_ZERO, 0.0, MINUS_ZERO, 1.0, 5.0,
    // row 5
    0.0, MINUS_ZERO, 0.0, MINUS_ZERO, 0.0, -1.0,
];

// The table whole.
pub fn unit_r() -> [f64; 36]
    ensures { result ≡ unit_r }
{
    UNIT_R
}
