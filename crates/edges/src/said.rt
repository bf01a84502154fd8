// What a run said, as a line tells it.
use rules::types::{Answer, Turn};
use std::fmt;

// An answer: a letter, with the number of a refusal.
#[derive(Clone, Copy)]
pub(crate) struct Said(pub Answer);

impl fmt::Display for Said {
    fn fmt<W: fmt::Write>(&self, f: &mut fmt::Formatter<W>) -> fmt::Result {
        match self.0 {
            Answer::Derivative(_) => write!(f, "D"),
            Answer::Jacobian(_) => write!(f, "J"),
            Answer::Start(_) => write!(f, "I"),
            Answer::Step { .. } => write!(f, "S"),
            Answer::End { .. } => write!(f, "E"),
            Answer::Refused(why) => {
                let number = lines::number_of(why);
                write!(f, "R {number}")
            }
        }
    }
}

// The end of a run: status, h, total, accepted, rejected, ode, jac, lu, start. What is no end is told as any answer.
#[derive(Clone, Copy)]
pub(crate) struct End(pub Turn);

impl fmt::Display for End {
    fn fmt<W: fmt::Write>(&self, f: &mut fmt::Formatter<W>) -> fmt::Result {
        let answer = self.0.answer;
        let said = Said(answer);
        write!(f, "{said}")?;
        if let Answer::End { status, h } = answer {
            let number = status as u64;
            let bits = text::bits(h);
            write!(f, " {number} {bits:016X}")?;
            let steps = self.0.run.at.steps;
            let evals = self.0.run.at.evals;
            write!(f, " {} {} {}", steps.total, steps.accepted, steps.rejected)?;
            write!(
                f,
                " {} {} {} {}",
                evals.ode, evals.jac, evals.lu, evals.start
            )?;
        }
        Ok(())
    }
}
