// The choice of order and step after enough equal steps.
ghost use Rattle.std.specs.Prelude.{◌≡◌, ◌+◌, ◌*◌, ◌<◌, ◌≤◌, false};
ghost use Rattle.std.specs.Float.{inf};
ghost use Rattle.rules.specs.laws.Ready.{Room};
ghost use Rattle.rules.specs.State.{left};
ghost use Rattle.roots.specs.Roots.{inverse_root};
ghost use Rattle.bdf.specs.Order.{place_of};
ghost use Rattle.rules.specs.Order.{error_at, err_m, err_p, best_of, new_order, step_factor, choice_of};

use crate::judge::weigh;
use crate::norm::rhs_norm;
use crate::tables::error_const;
use rules::stages::Choice;

pub(crate) fn infinity() -> f64
    ensures { result ≡ inf false }
{
    f64::from_bits(0x7ff0_0000_0000_0000)
}

fn error_at(ws: &mut [f64], n: usize, k: usize, v: usize) -> f64
    requires { Room n ws.old × (k ≤ 5) × (v < 33) }
    ensures { left result ws.new ≡ error_at n k v ws.old }
{
    weigh(ws, n, error_const(k), v);
    rhs_norm(ws, n)
}

pub(crate) fn err_m(ws: &mut [f64], n: usize, order: usize) -> f64
    requires { Room n ws.old × (order ≤ 5) }
    ensures { left result ws.new ≡ err_m n order ws.old }
{
    if 1 < order {
        error_at(ws, n, order - 1, order)
    } else {
        infinity()
    }
}

pub(crate) fn err_p(ws: &mut [f64], n: usize, order: usize) -> f64
    requires { Room n ws.old × (order ≤ 5) }
    ensures { left result ws.new ≡ err_p n order ws.old }
{
    if order < 5 {
        error_at(ws, n, order + 1, order + 2)
    } else {
        infinity()
    }
}

// x to the power -1 / k, for a k that is not refused.
pub(crate) fn factor(k: usize, x: f64) -> f64
    requires { (1 ≤ k) × (k ≤ 7) }
    ensures { result ≡ inverse_root k x }
{
    roots::inverse_root(k, x).unwrap_or(0.0)
}

// Where the order with the greatest factor lies.
#[derive(Clone, Copy)]
enum Way {
    Down,
    Stay,
    Up,
}

fn best(a: f64, b: f64, c: f64) -> Way
    ensures { place_of result ≡ best_of a b c }
{
    if b < a {
        if c < a { Way::Down } else { Way::Up }
    } else if c < b {
        Way::Stay
    } else {
        Way::Up
    }
}

// An order stays a number: the state that a caller hands in holds it so, and is checked there.
fn new_order(order: usize, best: Way) -> usize
    requires { order ≤ 5 }
    ensures { result ≡ new_order order (place_of best) }
{
    match best {
        Way::Down if 1 < order => order - 1,
        Way::Up if order < 5 => order + 1,
        _ => order,
    }
}

fn step_factor(safety: f64, a: f64, b: f64, c: f64) -> f64
    ensures { result ≡ step_factor safety a b c }
{
    let most = number::max(number::max(number::max(0.0, a), b), c);
    number::min(safety * most, 10.0)
}

pub(crate) fn choose(order: usize, safety: f64, m: f64, e: f64, p: f64) -> Choice
    requires { (1 ≤ order) × (order ≤ 5) }
    ensures { result ≡ choice_of order safety m e p }
{
    let a = factor(order, m);
    let b = factor(order + 1, e);
    let c = factor(order + 2, p);
    Choice {
        order: new_order(order, best(a, b, c)),
        factor: step_factor(safety, a, b, c),
    }
}
