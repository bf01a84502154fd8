// `hinit`, cut where it asks its one derivative, and what `solve` makes of its guess.
ghost use Rattle.std.specs.Prelude.{◌≡◌, ◌+◌, ◌*◌, ◌<◌, ◌≤◌};
ghost use Rattle.rules.specs.laws.Ready.{Room};
ghost use Rattle.rules.specs.Starting.{sk as sk_of, squares as squares_of, raw_guess, first_guess, guess as guess_of, euler as euler_of, second as second_of, h1 as h1_of, final_guess, hinit as hinit_of, within_span};

use crate::places::{ATOL, F0, F1, RTOL, Y, Y1, get, set_row};

fn sk(ws: &[f64], n: usize, i: usize) -> f64
    requires { Room n ws.now × (i < n) }
    ensures { result ≡ sk_of n ws.now i }
{
    get(ws, n, ATOL, i) + get(ws, n, RTOL, i) * number::abs(get(ws, n, Y, i))
}

fn squares(ws: &[f64], n: usize, v: usize) -> f64
    requires { Room n ws.now × (v < 33) }
    ensures { result ≡ squares_of n v ws.now }
{
    (0..n).fold(0.0, |sum, i| {
        let t = get(ws, n, v, i) / sk(ws, n, i);
        sum + t * t
    })
}

// The first guess before it is bounded.
fn raw_guess(dnf: f64, dny: f64) -> f64
    ensures { result ≡ raw_guess dnf dny }
{
    if dnf <= 1e-10 || dny <= 1e-10 {
        1.0e-6
    } else {
        roots::sqrt(dny / dnf) * 0.01
    }
}

fn first_guess(dnf: f64, dny: f64, hmax: f64, posneg: f64) -> f64
    ensures { result ≡ first_guess dnf dny hmax posneg }
{
    let most = number::abs(hmax);
    let h = raw_guess(dnf, dny);
    let c = if h > most { most } else { h };
    number::abs(c) * number::signum(posneg)
}

pub(crate) fn guess(ws: &[f64], n: usize, hmax: f64, posneg: f64) -> f64
    requires { Room n ws.now }
    ensures { result ≡ guess_of n hmax posneg ws.now }
{
    first_guess(squares(ws, n, F0), squares(ws, n, Y), hmax, posneg)
}

pub(crate) fn euler(ws: &mut [f64], n: usize, h: f64)
    requires { Room n ws.old }
    ensures { ws.new ≡ euler_of n h ws.old }
{
    set_row(ws, n, Y1, |ws, i| get(ws, n, Y, i) + h * get(ws, n, F0, i));
}

fn second(ws: &[f64], n: usize) -> f64
    requires { Room n ws.now }
    ensures { result ≡ second_of n ws.now }
{
    (0..n).fold(0.0, |sum, i| {
        let df = (get(ws, n, F1, i) - get(ws, n, F0, i)) / sk(ws, n, i);
        sum + df * df
    })
}

// The step that the derivatives allow.
fn h1(der12: f64, size: f64) -> f64
    ensures { result ≡ h1_of der12 size }
{
    if der12 <= 1.0e-15 {
        number::max(1.0e-6, size * 1.0e-3)
    } else {
        0.01 / der12
    }
}

fn final_guess(sum: f64, dnf: f64, h: f64, hmax: f64, posneg: f64) -> f64
    ensures { result ≡ final_guess sum dnf h hmax posneg }
{
    let size = number::abs(h);
    let der2 = roots::sqrt(sum) / size;
    let der12 = number::max(number::abs(der2), roots::sqrt(dnf));
    let least = number::min(
        number::min(number::min(size, 100.0 * size), h1(der12, size)),
        number::abs(hmax),
    );
    number::abs(least) * number::signum(posneg)
}

pub(crate) fn hinit(ws: &[f64], n: usize, hmax: f64, posneg: f64) -> f64
    requires { Room n ws.now }
    ensures { result ≡ hinit_of n hmax posneg ws.now }
{
    let h = guess(ws, n, hmax, posneg);
    final_guess(second(ws, n), squares(ws, n, F0), h, hmax, posneg)
}

pub(crate) fn within_span(g: f64, x: f64, xend: f64, direction: f64) -> f64
    ensures { result ≡ within_span g x xend direction }
{
    let max_h = number::abs(xend - x);
    if number::abs(g) > max_h {
        number::abs(max_h * direction)
    } else {
        number::abs(g)
    }
}
