// The whole number nearest to the square root of n * 2^52, for an n from 2^52 to 2^54 - 2: a guess and its neighbours are
// tested, and where all fail there is a search by halves. So whatever the guess, the answer is right.
ghost use Rattle.std.specs.Prelude.{◌≡◌, true, ◌+◌, ◌*◌, ◌^◌, ◌≤◌, ◌<◌, ltb};
ghost use Rattle.roots.specs.WholeRoot.{NearestWhole};

use crate::bits::HIDDEN;

// Whether m lies at or below that number: (2 m - 1)^2 < 4 n * 2^52.
// With m in halves of 27 and 26 bits its square is high * 2^52 + low, low being below 2^53, and no product is too long.
fn reached(m: u64, n: u64) -> bool
    requires { (m ≤ 2 ^ 53 + 1) × (n < 2 ^ 54) }
    ensures { result ≡ ltb (m * m) (n * 2 ^ 52 + m) }
{
    let h = m / 0x400_0000;
    let l = m % 0x400_0000;
    let p = h * l;
    let high = h * h + p / 0x200_0000;
    let low = p % 0x200_0000 * 0x800_0000 + l * l;
    high + (low + (3 * HIDDEN - m)) / HIDDEN < n + 3
}

// Whether m is that number.
fn is_root(m: u64, n: u64) -> bool
    requires { (m ≤ 2 ^ 53) × (n < 2 ^ 54) }
    ensures { result ≡ true → NearestWhole n m }
{
    reached(m, n) && !reached(m + 1, n)
}

// That number, where m is a guess at it.
pub(crate) fn whole_root(n: u64, m: u64) -> u64
    requires { (2 ^ 52 ≤ n) × (n + 2 ≤ 2 ^ 54) × (m < 2 ^ 53) }
    ensures { NearestWhole n result }
{
    if is_root(m, n) {
        return m;
    }
    if is_root(m + 1, n) {
        return m + 1;
    }
    if 0 < m && is_root(m - 1, n) {
        return m - 1;
    }
    search(n)
}

// That number lies at or above lo, and below hi.
fn search(n: u64) -> u64
    requires { (2 ^ 52 ≤ n) × (n + 2 ≤ 2 ^ 54) }
    ensures { NearestWhole n result }
{
    let mut lo = HIDDEN;
    let mut hi = 2 * HIDDEN;
    while lo + 1 < hi {
        let mid = (lo + hi) / 2;
        if reached(mid, n) {
            lo = mid;
        } else {
            hi = mid;
        }
    }
    lo
}
