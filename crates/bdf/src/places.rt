// The workspace's places: the Rust's vectors one after the other in one lent slice. The Jacobian (n * n) and the
// factored matrix (n * n) come first, by rows; then 33 rows of n, each area named by its first row.
ghost use Rattle.std.specs.Prelude.{◌≡◌, ◌+◌, ◌*◌, ◌<◌, ◌≤◌};
ghost use Rattle.std.specs.Prelude.{List, ℕ, Float};
ghost use Rattle.loops.specs.Loop.{loop};
ghost use Rattle.matrix.specs.Size.{max_n};
ghost use Rattle.rules.specs.laws.Ready.{Room};
ghost use Rattle.rules.specs.Places.{row as row_of, get as get_of, put as put_of, jac as jac_of, lu as lu_of, put_lu};

// Stays ws and n side by side: in one struct 70 functions would have to say that reference and n stay, and 41 that n is the state's, to save Room in 48.
// Rows stay numbers: D[k] is row k, and an order or a sum of it says which.
// D[k] is row k, for k from 0 to 7; the Rust's scratch_change, rows 8 to 13, is a local array here.
pub(crate) const PSI: usize = 14;

pub(crate) const SCALE: usize = 15;

pub(crate) const Y_PREDICT: usize = 16;

pub(crate) const Y_NEW: usize = 17;

pub(crate) const DELTA: usize = 18;

pub(crate) const RHS: usize = 19;

pub(crate) const Y: usize = 20;

pub(crate) const F0: usize = 21;

pub(crate) const F1: usize = 22;

pub(crate) const Y1: usize = 23;

pub(crate) const RTOL: usize = 24;

pub(crate) const ATOL: usize = 25;
// The step's coefficients: 7 numbers for each component in turn.
pub(crate) const CONT: usize = 26;

pub(crate) const ROWS: usize = 33;

// Where row v begins.
pub(crate) fn row(n: usize, v: usize) -> usize
    requires { (n ≤ max_n) × (v ≤ 33) }
    ensures { result ≡ row_of n v }
{
    n * n + n * n + v * n
}

// Element i of the vector at row v.
pub(crate) fn get(ws: &[f64], n: usize, v: usize, i: usize) -> f64
    requires { Room n ws.now × (v < 33) × (i < n) }
    ensures { result ≡ get_of n ws.now v i }
{
    ws[n * n + n * n + v * n + i]
}

pub(crate) fn put(ws: &mut [f64], n: usize, v: usize, i: usize, x: f64)
    requires { Room n ws.old × (v < 33) × (i < n) }
    ensures { ws.new ≡ put_of n ws.old v i x }
{
    ws[n * n + n * n + v * n + i] = x;
}

// Entry (r, c) of the Jacobian.
pub(crate) fn jac(ws: &[f64], n: usize, r: usize, c: usize) -> f64
    requires { Room n ws.now × (r < n) × (c < n) }
    ensures { result ≡ jac_of n ws.now r c }
{
    ws[r * n + c]
}

// Entry (r, c) of the matrix to be factored.
pub(crate) fn get_lu(ws: &[f64], n: usize, r: usize, c: usize) -> f64
    requires { Room n ws.now × (r < n) × (c < n) }
    ensures { result ≡ lu_of n ws.now r c }
{
    ws[n * n + r * n + c]
}

pub(crate) fn put_lu(ws: &mut [f64], n: usize, r: usize, c: usize, x: f64)
    requires { Room n ws.old × (r < n) × (c < n) }
    ensures { ws.new ≡ put_lu n ws.old r c x }
{
    ws[n * n + r * n + c] = x;
}

// Row v takes f at each component in turn, of the vectors as they are then.
pub(crate) fn set_row<F: Fn(&[f64], usize) -> f64>(ws: &mut [f64], n: usize, v: usize, f: F)
    requires room { Room n ws.old × (v < 33) }
    requires callable { (w : _) (i : ℕ) → Room n w.now → i < n → F.pre f w i }
    ensures { (g : List Float → ℕ → Float) → ((w : _) (i : ℕ) (x : Float) → F.post f w i x → x ≡ g w.now i) → ws.new ≡ loop 0 n (λ i w. put_of n w v i (g w i)) ws.old }
{
    for i in 0..n {
        let x = f(ws, i);
        put(ws, n, v, i, x);
    }
}
