// The square root and the inverse k-th root of a double, to the bit.
#![tactic(auto)]

mod bits;
mod inverse;
mod power;
mod root_curve;
mod root_guess;
mod root_quick;
mod root_test;
mod sqrt_guess;
mod square_root;
mod units;
mod whole_root;

pub use inverse::inverse_root;
pub use square_root::sqrt;

// Why `inverse_root` refuses: k is not from 1 to 7.
#[derive(Clone, Copy)]
pub struct KOutside;
