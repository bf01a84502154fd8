// What follows a Newton derivative's reply.
ghost use Rattle.std.specs.Prelude.{◌≡◌, ◌+◌, ◌*◌, ◌<◌, ◌≤◌, length, ◌==◌};
ghost use Rattle.rules.specs.laws.Ready.{Room, Sane, Ready, Awake, Judging};
ghost use Rattle.rules.specs.State.{left, after};
ghost use Rattle.bdf.specs.Said.{turn_of, tried};
ghost use Rattle.rules.specs.Attempt.{rejected, says};
ghost use Rattle.rules.specs.Step.{error_fails, error_factor, error_rejected, step_accepted, judged, newton_failed, newton_again, iterated as iterated_of, newton_replied};

use crate::aim::rescale_d;
use crate::attempt::tell;
use crate::judge::{accept, safety, weigh};
use crate::moves::load;
use crate::newton::{advance, converged, correct, gave_up};
use crate::norm::rhs_norm;
use crate::order::factor;
use crate::places::{CONT, DELTA, Y, Y_NEW, Y_PREDICT, row};
use crate::predict::rescale;
use crate::said::Said;
use crate::tables::error_const;
use rules::types::{Answer, Awaited, Progress};

fn error_fails(guarded: usize, norm: f64) -> bool
    ensures { result ≡ error_fails (guarded == 1) norm }
{
    norm > 1.0 || guarded == 1 && norm.is_nan()
}

// Only a guarded run comes here with a norm that is NaN.
fn error_factor(order: usize, safety: f64, norm: f64) -> f64
    requires { order ≤ 5 }
    ensures { result ≡ error_factor order safety norm }
{
    if norm.is_nan() {
        return 0.5;
    }
    number::max(safety * factor(order + 1, norm), 0.2)
}

// The factoring is kept.
fn error_rejected(ws: &mut [f64], p: &mut Progress, safety: f64, norm: f64)
    requires { Room p.old.n ws.old × Sane p.old }
    ensures { left (rejected p.new) ws.new ≡ error_rejected p.old safety norm ws.old }
{
    let factor = error_factor(p.order, safety, norm);
    rescale_d(ws, p.n, p.order, factor);
    p.pace.h *= factor;
    p.pace.equal_steps = 0;
    p.steps.rejected += 1;
}

fn step_accepted(ws: &mut [f64], q: &mut [f64], p: &mut Progress, safety: f64, norm: f64) -> Said
    requires { Ready p.old ws.old q.old × Judging p.old }
    ensures { after (says (turn_of result p.new)) ws.new q.new ≡ step_accepted p.old safety norm ws.old q.old }
{
    accept(ws, p.n, p.order);
    tell(q, ws, p.n, Y);
    load(q, ws, row(p.n, CONT), p.n, 7 * p.n);
    p.steps.accepted += 1;
    p.x = p.aim.x_new;
    p.pace.equal_steps += 1;
    p.newton.safety = safety;
    p.newton.error_norm = norm;
    Said {
        answer: Answer::Step {
            old: p.aim.x_new - p.aim.h_signed,
            new: p.aim.x_new,
            start: p.aim.x_start,
            h: p.aim.h_signed,
        },
        awaited: Awaited::StepNotice,
    }
}

fn judge(ws: &mut [f64], q: &mut [f64], p: &mut Progress) -> Option<Said>
    requires { Ready p.old ws.old q.old × Judging p.old × (p.old.newton.iters ≤ 64) }
    ensures { after (tried result p.new) ws.new q.new ≡ judged p.old ws.old q.old }
{
    rescale(ws, p.n, Y_NEW);
    weigh(ws, p.n, error_const(p.order), DELTA);
    let norm = rhs_norm(ws, p.n);
    let s = safety(p.limits.newton, p.newton.iters);
    if error_fails(p.limits.guarded, norm) {
        error_rejected(ws, p, s, norm);
        return None;
    }
    Some(step_accepted(ws, q, p, s, norm))
}

fn newton_failed(ws: &[f64], q: &mut [f64], p: &Progress) -> Said
    requires { Room p.now.n ws.now × (8 * p.now.n ≤ length q.old) }
    ensures { after (says (turn_of result p.now)) ws.now q.new ≡ newton_failed p.now ws.now q.old }
{
    tell(q, ws, p.n, Y_PREDICT);
    Said {
        answer: Answer::Jacobian(p.aim.x_new),
        awaited: Awaited::FailedJacobian,
    }
}

fn newton_again(ws: &[f64], q: &mut [f64], p: &mut Progress, norm: f64) -> Said
    requires { Room p.old.n ws.now × (8 * p.old.n ≤ length q.old) × (p.old.newton.iters ≤ 64) }
    ensures { after (says (turn_of result p.new)) ws.now q.new ≡ newton_again p.old norm ws.now q.old }
{
    tell(q, ws, p.n, Y_NEW);
    p.newton.iters += 1;
    p.newton.prev = norm;
    Said {
        answer: Answer::Derivative(p.aim.x_new),
        awaited: Awaited::NewtonDerivative,
    }
}

fn iterated(ws: &mut [f64], q: &mut [f64], p: &mut Progress, norm: f64) -> Option<Said>
    requires { Ready p.old ws.old q.old × Judging p.old × (p.old.newton.iters < p.old.limits.newton) }
    ensures { after (tried result p.new) ws.new q.new ≡ iterated_of p.old norm ws.old q.old }
{
    let tol = p.span.newton_tol;
    if converged(tol, p.newton.iters, p.newton.prev, norm) {
        return judge(ws, q, p);
    }
    if gave_up(tol, p.limits.newton, p.newton.iters, p.newton.prev, norm) {
        return Some(newton_failed(ws, q, p));
    }
    Some(newton_again(ws, q, p, norm))
}

pub(crate) fn newton_replied(
    ws: &mut [f64],
    q: &mut [f64],
    p: &mut Progress,
    values: &[f64],
) -> Option<Said>
    requires { Ready p.old ws.old q.old × Awake p.old × (p.old.n ≤ length values.now) × (p.old.newton.iters < p.old.limits.newton) }
    ensures { after (tried result p.new) ws.new q.new ≡ newton_replied p.old values.now ws.old q.old }
{
    correct(ws, p.n, p.aim.c, &p.pivot, values);
    let norm = rhs_norm(ws, p.n);
    advance(ws, p.n);
    p.evals.ode += 1;
    iterated(ws, q, p, norm)
}
