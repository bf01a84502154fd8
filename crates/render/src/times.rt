// The times k / 48000: of a k, and the first k from an x on and past it.
ghost use Rattle.std.specs.Prelude.{◌≡◌, true, ◌≤◌, ◌^◌};
ghost use Rattle.render.specs.Times.{time_of, within, first_from, first_past};

// Samples a second.
const RATE: f64 = 48000.0;

// The quotient is rounded once: k itself is exact.
#[tactic(auto, unfolding(crate::specs::Times::time_of))]
pub(crate) fn time_of(k: u64) -> f64
    requires { k ≤ 2 ^ 53 }
    ensures { result ≡ time_of k }
{
    k as f64 / RATE
}

// The least k whose time is not below x, by halving: it is needed at a run's first notice alone.
pub(crate) fn first_from(x: f64) -> u64
    ensures { result ≡ first_from x }
{
    let mut lo: u64 = 0;
    let mut width: u64 = 4294967296;
    for _ in 0..32u32 {
        width /= 2;
        if time_of(lo + (width - 1)) < x {
            lo += width;
        }
    }
    lo
}

// 2^52: what is added to it is rounded to a whole number.
const WHOLE: f64 = 4503599627370496.0;

// The least k whose time lies above x, by arithmetic: the whole number nearest to x * 48000 is at most 2 below it.
pub(crate) fn first_past(x: f64) -> u64
    requires { within x ≡ true }
    ensures { result ≡ first_past x }
{
    if x < 0.0 {
        return 0;
    }
    let guess = (x * RATE + WHOLE) as u64 - 4503599627370496;
    if time_of(guess + 1) <= x {
        return guess + 2;
    }
    if time_of(guess) <= x {
        return guess + 1;
    }
    guess
}
