// The numbers that stand in lines: of a status, of a refusal.
ghost use Rattle.std.specs.Prelude.{◌≡◌};
ghost use Rattle.lines.specs.Types.{number_of};
ghost use Rattle.lines.specs.Lines.{status_of};

use rules::types::{Refusal, Status};

// The number of a refusal by the solver, as docs/RULES.md has it.
// Stays a match: a refusal may hold values, so it has no number by `as`, and its type is another crate's, so `From` for it is not ours to write.
#[tactic(auto, unfolding(rules::specs::Refusals::number_of))]
pub fn number_of(why: Refusal) -> u64
    ensures { result ≡ number_of why }
{
    match why {
        Refusal::TooManyComponents => 1,
        Refusal::WorkspaceShort => 2,
        Refusal::QuestionShort => 3,
        Refusal::ToleranceShort => 4,
        Refusal::NegativeTolerance {
            kind: _,
            index: _,
            value: _,
        } => 5,
        Refusal::NoSteps => 6,
        Refusal::LimitTooLarge => 7,
        Refusal::ZeroFirstStep {
            value: _,
            direction: _,
        } => 8,
        Refusal::Damaged => 9,
        Refusal::HasEnded => 10,
        Refusal::WrongReply => 11,
        Refusal::SliceShort => 12,
    }
}

// Stays a match: `as u64` would take the number from the order in which another crate lists the cases.
pub(crate) fn status(s: Status) -> u64
    ensures { result ≡ status_of s }
{
    match s {
        Status::Success => 0,
        Status::UserInterrupt => 1,
        Status::NeedLargerNMax => 2,
        Status::StepSizeTooSmall => 3,
    }
}
