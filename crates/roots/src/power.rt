// Whether m^k * n is at most a power of two, exactly, for an m of 54 bits, an n of 53 and k up to 7. A whole number is fourteen
// digits to the base 2^31, the lowest first: 434 bits, where such a product has at most 431.
ghost use Rattle.std.specs.Prelude.{◌≡◌, true, false, ◌*◌, ◌^◌, ◌≤◌, ◌<◌, leb, ltb};
ghost use Rattle.loops.specs.Choice.{when◌then◌else◌};
ghost use Rattle.roots.specs.Numeral.{numeral, Row, base, room};

use std::cmp::Ordering;

const BASE: u64 = 2147483648;

// a times m, in place. m has two digits, so each new digit takes two products and what was carried.
fn times(a: &mut [u64; 14], m: u64)
    requires { (m < 2 ^ 54) × Row a.old × (numeral base a.old 14 * m < room) }
    ensures { Row a.new × (numeral base a.new 14 ≡ numeral base a.old 14 * m) }
{
    let low = m % BASE;
    let high = m / BASE;
    let mut carry: u64 = 0;
    let mut last: u64 = 0;
    // Stays an index: of a row that is written through `iter_mut` a proof knows the length and no digit.
    for i in 0..14 {
        let digit = a[i];
        let sum = digit * low + last * high + carry;
        a[i] = sum % BASE;
        carry = sum / BASE;
        last = digit;
    }
}

// Whether x is at most y at its highest digit, which decides, or is equal there and at most y below it.
fn not_above(x: u64, y: u64, below: bool) -> bool
    ensures { result ≡ (when ltb x y then true else when ltb y x then false else below) }
{
    match x.cmp(&y) {
        Ordering::Less => true,
        Ordering::Greater => false,
        Ordering::Equal => below,
    }
}

// Whether a is at most b.
fn at_most(a: &[u64; 14], b: &[u64; 14]) -> bool
    requires { Row a.now × Row b.now }
    ensures { result ≡ leb (numeral base a.now 14) (numeral base b.now 14) }
{
    let mut so_far = true;
    for i in 0..14 {
        so_far = not_above(a[i], b[i], so_far);
    }
    so_far
}

// Whether m^k * n is at most 2^t.
pub(crate) fn at_most_power(m: u64, k: usize, n: u64, t: u64) -> bool
    requires { (m < 2 ^ 54) × (n < 2 ^ 53) × (k ≤ 7) }
    ensures { result ≡ leb (m ^ k * n) (2 ^ t) }
{
    if 434 <= t {
        return true;
    }
    let mut product = [0u64; 14];
    product[0] = n % BASE;
    product[1] = n / BASE;
    for _ in 0..k {
        times(&mut product, m);
    }
    let mut power = [0u64; 14];
    let place = (t / 31) as usize;
    power[place] = 1 << (t % 31);
    at_most(&product, &power)
}
