// What a stage of a run says: its answer, and the place that awaits the reply to it.
ghost use Rattle.std.specs.Prelude.{◌≡◌};
ghost use Rattle.rules.specs.Attempt.{end as end_of};
ghost use Rattle.bdf.specs.Said.{turn_of};

use rules::types::{Answer, Awaited, Progress, Status};

// A stage that may be rejected gives an Option of it: None, and another attempt is to be tried from the state that it left.
#[derive(Clone, Copy)]
pub(crate) struct Said {
    pub answer: Answer,
    pub awaited: Awaited,
}

pub(crate) fn end(status: Status, p: &Progress) -> Said
    ensures { turn_of result p.now ≡ end_of status p.now }
{
    let h = p.span.direction * p.pace.h;
    Said {
        answer: Answer::End { status, h },
        awaited: Awaited::Ended,
    }
}
