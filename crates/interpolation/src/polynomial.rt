// `BDF::interpolate`: the polynomial of an accepted step, evaluated at any xi from the coefficients of its notice.
ghost use Rattle.std.specs.Prelude.{◌≡◌, ◌+◌, ◌*◌, ◌≤◌, ◌<◌, length};
ghost use Rattle.interpolation.specs.Interpolate.{order_of, x_factor, product_at, products as products_of, sum_at, evaluated, says, said_of, interpolation};

use matrix::MAX_N;

// Why `interpolate` refuses. A refusal changes nothing.
#[derive(Clone, Copy)]
pub enum InterpolationError {
    // Refusal 1: there are more than MAX_N components.
    TooMany,
    // Refusal 13: the coefficients are not 7 for each component.
    WrongLength,
}

// The order that a mark stands for; a NaN's is 0.
fn order_of(mark: f64) -> usize
    ensures { result ≡ order_of mark }
{
    if mark.is_nan() {
        return 0;
    }
    if mark < 1.5 {
        1
    } else if mark < 2.5 {
        2
    } else if mark < 3.5 {
        3
    } else if mark < 4.5 {
        4
    } else {
        5
    }
}

// A place xi in a step of length h, with its sign, that ended at x_new.
#[derive(Clone, Copy)]
struct Within {
    xi: f64,
    x_new: f64,
    h: f64,
}

impl Within {
    fn factor(self, k: usize) -> f64
        requires { k < 5 }
        ensures { result ≡ x_factor self.xi self.x_new self.h k }
    {
        let denom = self.h * (k as f64 + 1.0);
        let t_shift = self.x_new - self.h * k as f64;
        (self.xi - t_shift) / denom
    }

    fn products<const ORDER: usize>(self) -> [f64; 5]
        requires { ORDER ≤ 5 }
        ensures { result ≡ products_of self.xi self.x_new self.h ORDER }
    {
        let mut p = [0.0; 5];
        for k in 0..ORDER {
            let factor = self.factor(k);
            let product = product_at(&p, k, factor);
            p[k] = product;
        }
        p
    }
}

fn product_at(p: &[f64; 5], k: usize, factor: f64) -> f64
    requires { k < 5 }
    ensures { result ≡ product_at p.now k factor }
{
    if k == 0 { factor } else { p[k - 1] * factor }
}

fn sum_at<const ORDER: usize>(cont: &[f64], p: &[f64; 5], i: usize) -> f64
    requires { (ORDER ≤ 5) × (i * 7 + 7 ≤ length cont.now) }
    ensures { result ≡ sum_at cont.now p.now ORDER i }
{
    let base = i * 7;
    let mut sum = cont[base];
    for k in 0..ORDER {
        sum += cont[base + 1 + k] * p[k];
    }
    sum
}

// yi at that place by the polynomial of an order. Where the order is a constant the compiler unrolls the loops over it and keeps the
// products in registers: with a variable in its place the whole takes twice the time.
fn values_of_order<const ORDER: usize>(yi: &mut [f64], cont: &[f64], place: Within)
    requires { (ORDER ≤ 5) × (length cont.now ≡ 7 * length yi.old) }
    ensures { yi.new ≡ evaluated cont.now (products_of place.xi place.x_new place.h ORDER) ORDER yi.old }
{
    let p = place.products::<ORDER>();
    // Stays an index: of a slice that is written through `iter_mut` a proof knows the length and no number.
    for i in 0..yi.len() {
        let sum = sum_at::<ORDER>(cont, &p, i);
        yi[i] = sum;
    }
}

fn values_at(yi: &mut [f64], cont: &[f64], place: Within, order: usize)
    requires { (order ≤ 5) × (length cont.now ≡ 7 * length yi.old) }
    ensures { yi.new ≡ evaluated cont.now (products_of place.xi place.x_new place.h order) order yi.old }
{
    match order {
        5 => values_of_order::<5>(yi, cont, place),
        4 => values_of_order::<4>(yi, cont, place),
        3 => values_of_order::<3>(yi, cont, place),
        2 => values_of_order::<2>(yi, cont, place),
        1 => values_of_order::<1>(yi, cont, place),
        _ => values_of_order::<0>(yi, cont, place),
    }
}

// yi at xi, from the coefficients, the true start and the signed step of a notice.
pub fn interpolate(
    xi: f64,
    yi: &mut [f64],
    cont: &[f64],
    xold: f64,
    h: f64,
) -> Result<(), InterpolationError>
    ensures { says (said_of result) yi.new ≡ interpolation xi yi.old cont.now xold h }
{
    let n = yi.len();
    if n > MAX_N {
        return Err(InterpolationError::TooMany);
    }
    if cont.len() != 7 * n {
        return Err(InterpolationError::WrongLength);
    }
    if h == 0.0 || n == 0 {
        return Ok(());
    }
    let order = order_of(cont[6]);
    let x_new = xold + h;
    values_at(yi, cont, Within { xi, x_new, h }, order);
    Ok(())
}
