// How many components a run has, and with it how many numbers its calls take.
ghost use Rattle.std.specs.Prelude.{◌≤◌};

use rules::types::Answer;

#[derive(Clone, Copy)]
pub(crate) struct Size {
    pub n: usize,
    ghost few: { n ≤ 32 },
}

impl Size {
    // So much workspace is just enough.
    pub(crate) fn room(self) -> usize
        ensures { result ≤ 3104 }
    {
        (2 * self.n + 33) * self.n
    }

    // So long a question slice is just enough.
    pub(crate) fn questions(self) -> usize
        ensures { result ≤ 256 }
    {
        8 * self.n
    }

    // How many numbers the reply to an answer must bring, where a start is modified and other notices are not.
    pub(crate) fn wanted(self, answer: Answer) -> usize
        ensures { result ≤ 1024 }
    {
        match answer {
            Answer::Derivative(_) | Answer::Start(_) => self.n,
            Answer::Jacobian(_) => self.n * self.n,
            _ => 0,
        }
    }
}
