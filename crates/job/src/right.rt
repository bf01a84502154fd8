// The right side of a job, y' = A y.
ghost use Rattle.std.specs.Prelude.{◌≡◌, ◌*◌, ◌<◌, ◌≤◌, length};
ghost use Rattle.job.specs.Types.{max_n};
ghost use Rattle.job.specs.Right.{sized_of, row_sum, right_of, right_side_of};

use matrix::MAX_N;

// More components than MAX_N, or lengths that do not fit one another.
#[derive(Clone, Copy, Debug, PartialEq, Eq)]
pub struct WrongLength;

// Writes A y to dy, with n the length of y. An error where n is above MAX_N, A not n² long or dy not n: then nothing is written.
pub fn right_side(a: &[f64], y: &[f64], dy: &mut [f64]) -> Result<(), WrongLength>
    ensures { (result, dy.new) ≡ right_side_of a.now y.now dy.old }
{
    if !sized(y.len(), a.len(), dy.len()) {
        return Err(WrongLength);
    }
    rows(a, y, dy);
    Ok(())
}

fn sized(n: usize, cells: usize, places: usize) -> bool
    ensures { result ≡ sized_of n cells places }
{
    n <= MAX_N && cells == n * n && places == n
}

fn rows(a: &[f64], y: &[f64], dy: &mut [f64])
    requires { (length y.now ≤ max_n) × ((length a.now ≡ length y.now * length y.now) × (length dy.old ≡ length y.now)) }
    ensures { dy.new ≡ right_of a.now y.now dy.old }
{
    for (i, slope) in dy.iter_mut().enumerate() {
        *slope = row_sum(a, y, i);
    }
}

// Row i of A times y: from +0, upward by column.
fn row_sum(a: &[f64], y: &[f64], i: usize) -> f64
    requires { (i < length y.now) × ((length y.now ≤ max_n) × (length a.now ≡ length y.now * length y.now)) }
    ensures { result ≡ row_sum a.now y.now i }
{
    let n = y.len();
    let mut sum = 0.0;
    for (c, value) in y.iter().enumerate() {
        sum += a[i * n + c] * *value;
    }
    sum
}
