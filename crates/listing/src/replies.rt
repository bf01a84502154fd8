// What is replied to the solver: A y to a question for the derivative, A to one for the Jacobian, Continue to a notice.
ghost use Rattle.std.specs.Prelude.{◌≡◌, ◌*◌, ◌≤◌, length, take};
ghost use Rattle.matrix.specs.Size.{max_n};
ghost use Rattle.rules.specs.Answers.{is_question_or_notice};
ghost use Rattle.rules.specs.State.{after};
ghost use Rattle.listing.specs.Replies.{reply_to, values_for};
ghost use Rattle.listing.specs.Replies.{replied as replied_of};

use bdf::resume;
use bdf::types::{Answer, Reply, Turn};
use matrix::MAX_N;

// Whether a run waits for a reply.
pub(crate) fn waits(answer: Answer) -> bool
    ensures { result ≡ is_question_or_notice answer }
{
    !matches!(answer, Answer::End { .. } | Answer::Refused(_))
}

// The reply to an answer and its values, over n components. They stand in A or in `slope`.
fn reply_to<'a>(
    answer: Answer,
    n: usize,
    a: &'a [f64],
    q: &[f64],
    slope: &'a mut [f64; MAX_N],
) -> (Reply, &'a [f64])
    requires { (n ≤ max_n) × ((length a.now ≡ max_n * max_n) × (length q.now ≡ 8 * max_n)) }
    ensures { (result.0 ≡ reply_to answer) × (result.1.now ≡ values_for (take (n * n) a.now) (take n q.now) answer) }
{
    match answer {
        Answer::Derivative(_) => {
            // The lengths are those of n components, so that it is written whole.
            let _ = job::right_side(&a[..n * n], &q[..n], &mut slope[..n]);
            (Reply::Values, &slope[..n])
        }
        Answer::Jacobian(_) => (Reply::Values, &a[..n * n]),
        _ => (Reply::Continue, &[]),
    }
}

// The run's next answer. A forged state of more components than are served is refused, whatever is replied.
pub(crate) fn replied(
    turn: &mut Turn,
    a: &[f64],
    slope: &mut [f64; MAX_N],
    ws: &mut [f64],
    q: &mut [f64],
)
    requires { (length a.now ≡ max_n * max_n) × (length q.old ≡ 8 * max_n) }
    ensures { after turn.new ws.new q.new ≡ replied_of a.now (after turn.old ws.old q.old) }
{
    let n = turn.run.at.n.min(MAX_N);
    let (reply, values) = reply_to(turn.answer, n, a, q, slope);
    turn.answer = resume(&mut turn.run, reply, values, ws, q);
}
