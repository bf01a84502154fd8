// The coefficients of the formulas of order 0 to 5 (index k), as the loops at the head of `solve` compute them: constants here,
// with the same bits.
ghost use Rattle.std.specs.Prelude.{◌≡◌, ◌≤◌};
ghost use Rattle.loops.specs.Cell.{at};
ghost use Rattle.rules.specs.Tables.{max_order, gammas, alphas, error_consts};

const GAMMA: [f64; 6] = [
    0.0,
    1.0,
    1.5,
    1.8333333333333333,
    2.083333333333333,
    2.283333333333333,
];

const ALPHA: [f64; 6] = [
    0.0,
    1.185,
    1.6666666666666667,
    1.9842166666666667,
    2.1697916666666663,
    2.283333333333333,
];

const ERROR_CONST: [f64; 6] = [
    1.0,
    0.315,
    0.16666666666666666,
    0.09911666666666669,
    0.11354166666666668,
    0.16666666666666666,
];

pub(crate) fn gamma(k: usize) -> f64
    requires { k ≤ max_order }
    ensures { result ≡ at gammas k }
{
    GAMMA[k]
}

pub(crate) fn alpha(k: usize) -> f64
    requires { k ≤ max_order }
    ensures { result ≡ at alphas k }
{
    ALPHA[k]
}

pub(crate) fn error_const(k: usize) -> f64
    requires { k ≤ max_order }
    ensures { result ≡ at error_consts k }
{
    ERROR_CONST[k]
}
