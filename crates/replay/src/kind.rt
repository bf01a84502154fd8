// The kinds of cases, and the word that stands for each in front of one.

#[derive(Clone, Copy)]
pub(crate) enum Kind {
    Run,
    SquareRoot,
    InverseRoot,
    Decomposition,
    Solution,
    Interpolation,
}

// A word that names no kind of case.
#[derive(Clone, Copy)]
pub(crate) struct UnknownKind;

impl TryFrom<u64> for Kind {
    type Error = UnknownKind;

    fn try_from(word: u64) -> Result<Self, UnknownKind> {
        match word {
            0 => Ok(Kind::Run),
            1 => Ok(Kind::SquareRoot),
            2 => Ok(Kind::InverseRoot),
            3 => Ok(Kind::Decomposition),
            4 => Ok(Kind::Solution),
            5 => Ok(Kind::Interpolation),
            _ => Err(UnknownKind),
        }
    }
}
