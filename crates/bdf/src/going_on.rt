// Going on: the checks on what is handed back, in their order, then the run to its next answer.
ghost use Rattle.std.specs.Prelude.{◌≡◌, ◌+◌, ◌*◌, ◌<◌, ◌≤◌, false, length};
ghost use Rattle.matrix.specs.Size.{max_n};
ghost use Rattle.rules.specs.laws.Ready.{Handed};
ghost use Rattle.rules.specs.State.{after, turn};
ghost use Rattle.rules.specs.Replies.{awaits_newton, is_ended, word_wants, values_want, wants};
ghost use Rattle.bdf.specs.Said.{turn_of};
ghost use Rattle.rules.specs.GoOn.{pivot_outside, limits_damaged, steps_damaged, counters_damaged, damaged_above0, damaged as damaged_of, count_checked, go_checked, go_within, go_on_of};

use crate::places::{ROWS, row};
use crate::run::run;
use crate::said::Said;
use matrix::MAX_N;
use rules::types::{Answer, Awaited, Progress, Refusal, Reply, Run, Turn};

fn pivot_outside(n: usize, pivot: &[usize]) -> bool
    requires { (1 ≤ n) × (n ≤ length pivot.now) }
    ensures { result ≡ pivot_outside n pivot.now }
{
    for &k in &pivot[..n - 1] {
        if n <= k {
            return true;
        }
    }
    false
}

fn limits_damaged(p: &Progress) -> bool
    ensures { result ≡ limits_damaged p.now }
{
    !(1..=1000000).contains(&p.limits.steps) || !(1..=64).contains(&p.limits.newton)
}

// The sum of accepted and rejected could wrap in a forged state: their difference from the total cannot.
fn steps_damaged(p: &Progress) -> bool
    ensures { result ≡ steps_damaged p.now }
{
    p.limits.steps < p.steps.total
        || p.steps.total < p.steps.rejected
        || p.steps.total - p.steps.rejected < p.steps.accepted
}

// The bounds of the steps come first, so that those computed from them cannot wrap.
fn counters_damaged(p: &Progress) -> bool
    requires { limits_damaged p.now ≡ false }
    ensures { result ≡ counters_damaged p.now }
{
    if steps_damaged(p) {
        return true;
    }
    let jacobians = 2 + p.steps.total;
    let derivatives = 2 + p.limits.newton * p.steps.total + p.steps.accepted;
    p.steps.accepted < p.pace.equal_steps
        || p.steps.total < p.evals.lu
        || jacobians < p.evals.jac
        || derivatives < p.evals.ode
        || 1 < p.evals.start
}

fn awaits_newton(w: Awaited) -> bool
    ensures { result ≡ awaits_newton w }
{
    matches!(w, Awaited::NewtonDerivative)
}

fn is_ended(w: Awaited) -> bool
    ensures { result ≡ is_ended w }
{
    matches!(w, Awaited::Ended)
}

fn damaged_above_0(w: Awaited, p: &Progress) -> bool
    requires { (1 ≤ p.now.n) × (p.now.n ≤ max_n) }
    ensures { result ≡ damaged_above0 w p.now }
{
    !(1..=5).contains(&p.order)
        || limits_damaged(p)
        || pivot_outside(p.n, &p.pivot)
        || counters_damaged(p)
        || awaits_newton(w) && p.limits.newton <= p.newton.iters
}

fn damaged(w: Awaited, p: &Progress) -> bool
    ensures { result ≡ damaged_of w p.now }
{
    if MAX_N < p.n {
        return true;
    }
    if p.n == 0 {
        return !is_ended(w);
    }
    damaged_above_0(w, p)
}

fn word(n: usize, r: Reply) -> Option<usize>
    ensures { result ≡ word_wants n r }
{
    match r {
        Reply::Values => None,
        Reply::Continue | Reply::Interrupt => Some(0),
        Reply::Modified(_) => Some(n),
    }
}

fn values(count: usize, r: Reply) -> Option<usize>
    ensures { result ≡ values_want count r }
{
    match r {
        Reply::Values => Some(count),
        Reply::Continue | Reply::Interrupt | Reply::Modified(_) => None,
    }
}

fn wanted(n: usize, w: Awaited, r: Reply) -> Option<usize>
    requires { n ≤ max_n }
    ensures { result ≡ wants n w r }
{
    match w {
        Awaited::StartNotice | Awaited::StepNotice | Awaited::Ended => word(n, r),
        Awaited::FirstJacobian
        | Awaited::ModifiedStartJacobian
        | Awaited::FailedJacobian
        | Awaited::ModifiedStepJacobian
        | Awaited::OrderJacobian => values(n * n, r),
        _ => values(n, r),
    }
}

fn count_checked(
    v: Option<usize>,
    n: usize,
    given: usize,
    room: usize,
    questions: usize,
) -> Result<(), Refusal>
    requires { n ≤ max_n }
    ensures { result ≡ count_checked v n given room questions }
{
    let count = v.ok_or(Refusal::WrongReply)?;
    if room < row(n, ROWS) || questions < 8 * n || given < count {
        return Err(Refusal::SliceShort);
    }
    Ok(())
}

fn go_checked(
    w: Awaited,
    p: &Progress,
    r: Reply,
    given: usize,
    room: usize,
    questions: usize,
) -> Result<(), Refusal>
    ensures { result ≡ go_checked w p.now r given room questions }
{
    if damaged(w, p) {
        return Err(Refusal::Damaged);
    }
    if is_ended(w) {
        return Err(Refusal::HasEnded);
    }
    let v = wanted(p.n, w, r);
    count_checked(v, p.n, given, room, questions)
}

// The run from the reply to its next answer, on the needed places alone.
fn go_within(
    w: Awaited,
    p: &mut Progress,
    reply: Reply,
    values: &[f64],
    ws: &mut [f64],
    q: &mut [f64],
) -> Said
    requires { Handed w p.old reply values.now ws.old q.old }
    ensures { after (turn_of result p.new) ws.new q.new ≡ go_within w p.old reply values.now ws.old q.old }
{
    let need = row(p.n, ROWS);
    run(&mut ws[..need], q, w, p, reply, values)
}

// The same as `go_on`, of a run that is lent: no copy of it is made. A refusal leaves it as it was.
pub fn resume(run: &mut Run, reply: Reply, values: &[f64], ws: &mut [f64], q: &mut [f64]) -> Answer
    ensures { after (turn result run.new.awaited run.new.at) ws.new q.new ≡ go_on_of run.old reply values.now ws.old q.old }
{
    let w = run.awaited;
    match go_checked(w, &run.at, reply, values.len(), ws.len(), q.len()) {
        Err(why) => Answer::Refused(why),
        Ok(()) => {
            let said = go_within(w, &mut run.at, reply, values, ws, q);
            run.awaited = said.awaited;
            said.answer
        }
    }
}

pub fn go_on(run: Run, reply: Reply, values: &[f64], ws: &mut [f64], q: &mut [f64]) -> Turn
    ensures { after result ws.new q.new ≡ go_on_of run reply values.now ws.old q.old }
{
    let mut run = run;
    let answer = resume(&mut run, reply, values, ws, q);
    Turn { answer, run }
}
