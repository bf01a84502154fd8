// Whether a guess is the inverse root, or the pattern below it, by one product that keeps its upper 64 bits. It may be unsure, and is seldom.
// The middle m between the two is tested: of m^k * n that product gives h, with an error of at most 3 * k, where p stands for the limit. The
// middle above has m + 2 for m, and its power is more by 2 * k / m of it at least; so both neighbouring middles are judged by h and p too.
ghost use Rattle.std.specs.Prelude.{◌*◌, ◌^◌, ◌≤◌, ◌<◌, IfSome};
ghost use Rattle.roots.specs.Scaled.{Asked};
ghost use Rattle.roots.specs.Quick.{High, Near, LimitIs, IsPlaced, IsSettled};

use crate::bits::{HIDDEN, INFINITY_BITS};
use crate::units::{Units, units_of};

const HALF: u64 = 0x1_0000_0000;

// The upper 64 bits of u * v, or at most 3 less: the product of the lower halves and what the middle ones carry are left out.
fn high(u: u64, v: u64) -> u64
    ensures { High u v result }
{
    let u0 = u % HALF;
    let u1 = u / HALF;
    let v0 = v % HALF;
    let v1 = v / HALF;
    u1 * v1 + u1 * v0 / HALF + u0 * v1 / HALF
}

// m^k * n, the factors 10 places up and n 11 so that each fills 64 bits, without its 64 * k lower bits.
fn upper(m: u64, k: usize, n: u64) -> u64
    requires { (m < 2 ^ 54) × (n < 2 ^ 53) }
    ensures { Near ((m * 2 ^ 10) ^ k * (n * 2 ^ 11)) k result }
{
    let factor = m * 1024;
    let mut h = n * 2048;
    for _ in 0..k {
        h = high(h, factor);
    }
    h
}

// The limit that such an upper part is held to, for a middle of q places and an x of g, where it has a place in 64 bits.
fn limit(k: u64, q: u64, g: u64) -> Option<u64>
    requires { (k ≤ 7) × (q < 2046) × (g < 2046) }
    ensures { IfSome result (λ p. (p < 2 ^ 64) × LimitIs k q g p) }
{
    let have = 1021 * k + 1085;
    let used = q * k + g;
    if used <= have && have - used < 64 {
        Some(1 << (have - used))
    } else {
        None
    }
}

// Where the limit p lies: above the tested middle and below the next one, or below it and above the one before.
#[derive(Clone, Copy)]
enum Place {
    Above,
    Below,
}

// On which side p lies is a coin toss, so gap and room are chosen by value, and the place is told once, at the end: a branch at the beginning
// would be guessed wrong every other time.
fn place_of(h: u64, p: u64, slack: u64, reach: u64) -> Option<Place>
    ensures { IsPlaced h p slack reach result }
{
    let gap = p.abs_diff(h);
    if reach <= gap {
        return None;
    }
    let room = if p < h { reach - gap } else { gap };
    if room < slack {
        return None;
    }
    Some(if p < h { Place::Below } else { Place::Above })
}

// The inverse root, where it is b or the pattern below and the upper parts tell so.
pub(crate) fn settle(k: usize, x: Units, b: u64) -> Option<u64>
    requires { Asked k x.digits x.places }
    ensures { IsSettled k x.digits x.places result }
{
    if b <= HIDDEN || INFINITY_BITS <= b {
        return None;
    }
    let r = units_of(b - 1);
    if r.digits <= HIDDEN {
        return None;
    }
    let power = k as u64;
    let p = limit(power, r.places, x.places)?;
    let middle = 2 * r.digits + 1;
    let h = upper(middle, k, x.digits);
    let reach = 2 * power * (p / (middle + 2 * power));
    match place_of(h, p, 3 * power, reach)? {
        Place::Above => Some(b),
        Place::Below => Some(b - 1),
    }
}
