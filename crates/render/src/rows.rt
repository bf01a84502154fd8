// Samples, one after another.
ghost use Rattle.std.specs.Prelude.{◌≡◌, ◌+◌, ◌*◌, ◌<◌, ◌≤◌, ◌^◌, length};
ghost use Rattle.matrix.specs.Size.{max_n};
ghost use Rattle.render.specs.Sampled.{rows};

use crate::grid::Notice;
use crate::times::time_of;
use interpolation::interpolate;

// `count` samples from k on, n numbers each, from the beginning of `out`.
// Stays a count beside the slice, and a loop over numbers: without components a sample is empty, and the slice tells neither.
pub(crate) fn write_rows(
    notice: Notice,
    n: usize,
    cont: &[f64],
    k: u64,
    count: usize,
    out: &mut [f64],
)
    requires { (n ≤ max_n) × ((length cont.now ≡ 7 * n) × ((count * n ≤ length out.old) × (0 < count → k + count ≤ 2 ^ 53))) }
    ensures { out.new ≡ rows notice n cont.now k count out.old }
{
    for i in 0..count {
        let a = i * n;
        let e = a + n;
        let t = time_of(k + i as u64);
        let _ = interpolate(t, &mut out[a..e], cont, notice.start, notice.h);
    }
}
