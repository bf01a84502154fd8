// The numbers that lines have for refusals.
use crate::solver::Refusal;
use interpolation::InterpolationError;
use matrix::{LuError, SolveError};
use roots::KOutside;

pub(crate) trait Numbered: Copy {
    fn number(self) -> u64;
}

impl Numbered for Refusal {
    fn number(self) -> u64 {
        lines::number_of(self)
    }
}

impl Numbered for KOutside {
    fn number(self) -> u64 {
        14
    }
}

impl Numbered for LuError {
    fn number(self) -> u64 {
        match self {
            LuError::WrongSize => 14,
            LuError::Singular => 15,
        }
    }
}

impl Numbered for SolveError {
    fn number(self) -> u64 {
        match self {
            SolveError::WrongSize => 14,
            SolveError::PivotOutside => 16,
        }
    }
}

impl Numbered for InterpolationError {
    fn number(self) -> u64 {
        match self {
            InterpolationError::TooMany => 1,
            InterpolationError::WrongLength => 13,
        }
    }
}
