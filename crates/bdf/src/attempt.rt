// The main loop: attempts until one says something.
ghost use Rattle.std.specs.Prelude.{◌≡◌, ◌+◌, ◌*◌, ◌<◌, ◌≤◌, length};
ghost use Rattle.rules.specs.laws.Ready.{Room, Sane, Ready};
ghost use Rattle.rules.specs.State.{left, after};
ghost use Rattle.bdf.specs.Said.{turn_of, tried};
ghost use Rattle.rules.specs.Attempt.{told, says, halved, newton_start, must_factor, refactored, attempt_at, unless_stuck, fitted, fitted_attempt, attempt as attempt_of};

use crate::aim::{aim, changed, rescale_d, to_hmax, to_hmin};
use crate::factor::factor;
use crate::moves::{copy, fill, load};
use crate::places::{DELTA, Y_NEW, Y_PREDICT, row};
use crate::predict::{predict, psi, rescale};
use crate::said::{Said, end};
use rules::types::{Answer, Awaited, Newton, Pace, Progress, Status};

pub(crate) const MIN_POSITIVE: f64 = 2.2250738585072014e-308;

// The vector at row v into the question slice.
pub(crate) fn tell(q: &mut [f64], ws: &[f64], n: usize, v: usize)
    requires { Room n ws.now × (v < 33) × (n ≤ length q.old) }
    ensures { q.new ≡ told n v ws.now q.old }
{
    load(q, ws, row(n, v), 0, n);
}

// A rejection that halves the step.
pub(crate) fn halve(ws: &mut [f64], p: &mut Progress)
    requires { Room p.old.n ws.old × Sane p.old }
    ensures { left p.new ws.new ≡ halved p.old ws.old }
{
    rescale_d(ws, p.n, p.order, 0.5);
    p.pace = changed(p.pace.h * 0.5);
    p.steps.rejected += 1;
}

fn newton_start(ws: &mut [f64], q: &mut [f64], p: &mut Progress) -> Said
    requires { Ready p.old ws.old q.old }
    ensures { after (says (turn_of result p.new)) ws.new q.new ≡ newton_start p.old ws.old q.old }
{
    copy(ws, row(p.n, Y_PREDICT), row(p.n, Y_NEW), p.n);
    fill(ws, row(p.n, DELTA), p.n, 0.0);
    tell(q, ws, p.n, Y_NEW);
    p.newton = Newton::default();
    Said {
        answer: Answer::Derivative(p.aim.x_new),
        awaited: Awaited::NewtonDerivative,
    }
}

fn must_factor(p: &Progress) -> bool
    ensures { result ≡ must_factor p.now }
{
    let c = p.aim.c;
    !p.pace.lu_is_current || number::abs(c - p.current_c) / number::max(number::abs(c), 1.0) > 0.1
}

fn refactor(ws: &mut [f64], q: &mut [f64], p: &mut Progress) -> Option<Said>
    requires { Ready p.old ws.old q.old × (p.old.evals.lu < p.old.steps.total) }
    ensures { after (tried result p.new) ws.new q.new ≡ refactored p.old ws.old q.old }
{
    let regular = factor(ws, p.n, p.aim.c, &mut p.pivot);
    p.evals.lu += 1;
    if regular {
        p.pace.lu_is_current = true;
        p.current_c = p.aim.c;
        return Some(newton_start(ws, q, p));
    }
    halve(ws, p);
    None
}

fn attempt_at(ws: &mut [f64], q: &mut [f64], p: &mut Progress) -> Option<Said>
    requires { Ready p.old ws.old q.old × (p.old.evals.lu < p.old.steps.total) }
    ensures { after (tried result p.new) ws.new q.new ≡ attempt_at p.old ws.old q.old }
{
    predict(ws, p.n, p.order);
    rescale(ws, p.n, Y_PREDICT);
    psi(ws, p.n, p.order);
    if must_factor(p) {
        return refactor(ws, q, p);
    }
    Some(newton_start(ws, q, p))
}

fn unless_stuck(ws: &mut [f64], q: &mut [f64], p: &mut Progress) -> Option<Said>
    requires { Ready p.old ws.old q.old × (p.old.steps.total < p.old.limits.steps) }
    ensures { after (tried result p.new) ws.new q.new ≡ unless_stuck p.old ws.old q.old }
{
    if p.x + 0.1 * number::abs(p.aim.h_signed) == p.x {
        return Some(end(Status::StepSizeTooSmall, p));
    }
    p.steps.total += 1;
    attempt_at(ws, q, p)
}

fn fit(ws: &mut [f64], p: &Progress) -> Pace
    requires { Room p.now.n ws.old × Sane p.now }
    ensures { left result ws.new ≡ fitted p.now ws.old }
{
    let pace = to_hmax(ws, p.n, p.order, p.span.hmax, p.pace);
    to_hmin(ws, p.n, p.order, p.span.hmin, pace)
}

fn fitted_attempt(ws: &mut [f64], q: &mut [f64], p: &mut Progress) -> Option<Said>
    requires { Ready p.old ws.old q.old × (p.old.steps.total < p.old.limits.steps) }
    ensures { after (tried result p.new) ws.new q.new ≡ fitted_attempt p.old ws.old q.old }
{
    p.pace = fit(ws, p);
    let Some((pace, aim)) = aim(ws, p) else {
        return Some(end(Status::Success, p));
    };
    p.pace = pace;
    p.aim = aim;
    unless_stuck(ws, q, p)
}

pub(crate) fn attempt(ws: &mut [f64], q: &mut [f64], p: &mut Progress) -> Option<Said>
    requires { Ready p.old ws.old q.old }
    ensures { after (tried result p.new) ws.new q.new ≡ attempt_of p.old ws.old q.old }
{
    if p.limits.steps <= p.steps.total {
        return Some(end(Status::NeedLargerNMax, p));
    }
    if p.pace.h < MIN_POSITIVE {
        return Some(end(Status::StepSizeTooSmall, p));
    }
    fitted_attempt(ws, q, p)
}
