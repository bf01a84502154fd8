// A run from one reply to the next answer, by the place at which it waited.
ghost use Rattle.std.specs.Prelude.{◌≡◌, ◌+◌, ◌*◌, ◌≤◌, length};
ghost use Rattle.rules.specs.laws.Ready.{Room, Ready, Awake, Enough, Answered};
ghost use Rattle.rules.specs.State.{left, after, turn};
ghost use Rattle.rules.specs.Places.{y};
ghost use Rattle.rules.specs.Attempt.{told};
ghost use Rattle.bdf.specs.Said.{turn_of, left_over, Prepared};
ghost use Rattle.rules.specs.Reply.{first_difference, differences as differences_of, started, hinit_asks, first_step, hinit_replied, modified as modified_of, restarted as restarted_of, jacobian_stored, outdated as outdated_of, chosen as chosen_of, ordered as ordered_of, stepped as stepped_of, newton_turn, failed_turn, start_noticed, step_noticed, first_derivative, first_jacobian, restart_jacobian, step_jacobian, order_jacobian, replied as replied_of};

use crate::aim::{changed, rescale_d};
use crate::attempt::{MIN_POSITIVE, halve, tell};
use crate::moves::{copy, fill, load};
use crate::order::{choose, err_m, err_p};
use crate::places::{F0, F1, Y, Y1, get, row, set_row};
use crate::said::{Said, end};
use crate::starting::{euler, guess, hinit, within_span};
use crate::step::newton_replied;
use rules::stages::Choice;
use rules::types::{Answer, Awaited, Progress, Reply, Status};

// A question about the state, at x and y.
fn ask(ws: &[f64], q: &mut [f64], answer: Answer, awaited: Awaited, p: &Progress) -> Said
    requires { Room p.now.n ws.now × (8 * p.now.n ≤ length q.old) }
    ensures { after (turn_of result p.now) ws.now q.new ≡ after (turn answer awaited p.now) ws.now (told p.now.n y ws.now q.old) }
{
    tell(q, ws, p.n, Y);
    Said { answer, awaited }
}

fn first_difference(ws: &mut [f64], n: usize, h: f64, direction: f64)
    requires { Room n ws.old }
    ensures { ws.new ≡ first_difference n h direction ws.old }
{
    set_row(ws, n, 1, |ws, i| get(ws, n, F0, i) * h * direction);
}

fn differences(ws: &mut [f64], n: usize, h: f64, direction: f64)
    requires { Room n ws.old }
    ensures { ws.new ≡ differences_of n h direction ws.old }
{
    fill(ws, row(n, 2), 6 * n, 0.0);
    copy(ws, row(n, Y), row(n, 0), n);
    first_difference(ws, n, h, direction);
}

fn start(ws: &mut [f64], q: &mut [f64], p: &mut Progress, h_abs: f64) -> Said
    requires { Room p.old.n ws.old × (8 * p.old.n ≤ length q.old) }
    ensures { after (turn_of result p.new) ws.new q.new ≡ started p.old h_abs ws.old q.old }
{
    let h = number::min(h_abs, number::max(p.span.hmax, MIN_POSITIVE));
    differences(ws, p.n, h, p.span.direction);
    tell(q, ws, p.n, Y);
    p.pace = changed(h);
    Said {
        answer: Answer::Start(p.x),
        awaited: Awaited::StartNotice,
    }
}

fn hinit_asks(ws: &mut [f64], q: &mut [f64], p: &mut Progress) -> Said
    requires { Room p.old.n ws.old × (8 * p.old.n ≤ length q.old) }
    ensures { after (turn_of result p.new) ws.new q.new ≡ hinit_asks p.old ws.old q.old }
{
    let h = guess(ws, p.n, p.span.hmax, p.span.direction);
    euler(ws, p.n, h);
    tell(q, ws, p.n, Y1);
    p.evals.start = 1;
    Said {
        answer: Answer::Derivative(p.x + h),
        awaited: Awaited::StartDerivative,
    }
}

fn first_step(ws: &mut [f64], q: &mut [f64], p: &mut Progress) -> Said
    requires { Room p.old.n ws.old × (8 * p.old.n ≤ length q.old) }
    ensures { after (turn_of result p.new) ws.new q.new ≡ first_step p.old p.old.span.first_step ws.old q.old }
{
    match p.span.first_step {
        None => hinit_asks(ws, q, p),
        Some(h) => start(ws, q, p, number::abs(h)),
    }
}

fn hinit_replied(ws: &mut [f64], q: &mut [f64], p: &mut Progress, values: &[f64]) -> Said
    requires { Room p.old.n ws.old × (8 * p.old.n ≤ length q.old) × (p.old.n ≤ length values.now) }
    ensures { after (turn_of result p.new) ws.new q.new ≡ hinit_replied p.old values.now ws.old q.old }
{
    load(ws, values, 0, row(p.n, F1), p.n);
    let g = hinit(ws, p.n, p.span.hmax, p.span.direction);
    let h = within_span(g, p.x, p.span.xend, p.span.direction);
    start(ws, q, p, h)
}

fn modified(
    ws: &mut [f64],
    q: &mut [f64],
    awaited: Awaited,
    p: &mut Progress,
    x: f64,
    values: &[f64],
) -> Said
    requires { Room p.old.n ws.old × (8 * p.old.n ≤ length q.old) × (p.old.n ≤ length values.now) }
    ensures { after (turn_of result p.new) ws.new q.new ≡ modified_of awaited p.old x values.now ws.old q.old }
{
    load(ws, values, 0, row(p.n, Y), p.n);
    p.x = x;
    ask(ws, q, Answer::Derivative(p.x), awaited, p)
}

// The derivative at a modified state; `awaited` is the place after it.
fn restarted(
    ws: &mut [f64],
    q: &mut [f64],
    awaited: Awaited,
    p: &mut Progress,
    values: &[f64],
) -> Said
    requires { Ready p.old ws.old q.old × Awake p.old × (p.old.n ≤ length values.now) }
    ensures { after (turn_of result p.new) ws.new q.new ≡ restarted_of awaited p.old values.now ws.old q.old }
{
    load(ws, values, 0, row(p.n, F0), p.n);
    differences(ws, p.n, p.pace.h, p.span.direction);
    p.evals.ode += 1;
    p.order = 1;
    p.pace.equal_steps = 0;
    ask(ws, q, Answer::Jacobian(p.x), awaited, p)
}

// The Jacobian's reply is stored and counted.
fn jacobian(ws: &mut [f64], p: &mut Progress, values: &[f64])
    requires { Room p.old.n ws.old × Awake p.old × (p.old.n * p.old.n ≤ length values.now) }
    ensures { left p.new ws.new ≡ jacobian_stored p.old values.now ws.old }
{
    load(ws, values, 0, 0, p.n * p.n);
    p.evals.jac += 1;
}

fn outdated(p: &mut Progress)
    ensures { p.new ≡ outdated_of p.old }
{
    p.pace.lu_is_current = false;
}

fn chosen(ws: &mut [f64], q: &mut [f64], p: &mut Progress, c: Choice) -> Option<Said>
    requires { Ready p.old ws.old q.old × (1 ≤ c.order) × (c.order ≤ 5) }
    ensures { Prepared result p.new ws.new q.new × (left_over result p.new ws.new q.new ≡ chosen_of p.old c ws.old q.old) }
{
    rescale_d(ws, p.n, c.order, c.factor);
    let before = p.order;
    p.order = c.order;
    p.pace = changed(p.pace.h * c.factor);
    if c.order == before {
        return None;
    }
    Some(ask(ws, q, Answer::Jacobian(p.x), Awaited::OrderJacobian, p))
}

fn ordered(ws: &mut [f64], q: &mut [f64], p: &mut Progress) -> Option<Said>
    requires { Ready p.old ws.old q.old }
    ensures { Prepared result p.new ws.new q.new × (left_over result p.new ws.new q.new ≡ ordered_of p.old ws.old q.old) }
{
    let m = err_m(ws, p.n, p.order);
    let a = err_p(ws, p.n, p.order);
    let c = choose(p.order, p.newton.safety, m, p.newton.error_norm, a);
    chosen(ws, q, p, c)
}

// After a step's notice: the end, another order, or the next attempt.
fn stepped(ws: &mut [f64], q: &mut [f64], p: &mut Progress) -> Option<Said>
    requires { Ready p.old ws.old q.old }
    ensures { Prepared result p.new ws.new q.new × (left_over result p.new ws.new q.new ≡ stepped_of p.old ws.old q.old) }
{
    if p.span.direction * (p.x - p.span.xend) >= 0.0 {
        return Some(end(Status::Success, p));
    }
    if p.order < p.pace.equal_steps {
        return ordered(ws, q, p);
    }
    None
}

fn failed_turn(ws: &mut [f64], q: &mut [f64], p: &mut Progress, values: &[f64]) -> Option<Said>
    requires { Ready p.old ws.old q.old × Awake p.old × (p.old.n * p.old.n ≤ length values.now) }
    ensures { Prepared result p.new ws.new q.new × (left_over result p.new ws.new q.new ≡ failed_turn p.old values.now ws.old q.old) }
{
    jacobian(ws, p, values);
    halve(ws, p);
    None
}

fn start_noticed(
    ws: &mut [f64],
    q: &mut [f64],
    p: &mut Progress,
    reply: Reply,
    values: &[f64],
) -> Option<Said>
    requires { Ready p.old ws.old q.old × Enough p.old reply values.now }
    ensures { Prepared result p.new ws.new q.new × (left_over result p.new ws.new q.new ≡ start_noticed p.old reply values.now ws.old q.old) }
{
    match reply {
        Reply::Continue => None,
        Reply::Interrupt => Some(end(Status::UserInterrupt, p)),
        Reply::Modified(x) => Some(modified(ws, q, Awaited::ModifiedStartDerivative, p, x, values)),
        Reply::Values => None,
    }
}

fn step_noticed(
    ws: &mut [f64],
    q: &mut [f64],
    p: &mut Progress,
    reply: Reply,
    values: &[f64],
) -> Option<Said>
    requires { Ready p.old ws.old q.old × Enough p.old reply values.now }
    ensures { Prepared result p.new ws.new q.new × (left_over result p.new ws.new q.new ≡ step_noticed p.old reply values.now ws.old q.old) }
{
    match reply {
        Reply::Continue => stepped(ws, q, p),
        Reply::Interrupt => Some(end(Status::UserInterrupt, p)),
        Reply::Modified(x) => Some(modified(ws, q, Awaited::ModifiedStepDerivative, p, x, values)),
        Reply::Values => stepped(ws, q, p),
    }
}

fn first_derivative(ws: &mut [f64], q: &mut [f64], p: &mut Progress, values: &[f64]) -> Said
    requires { Ready p.old ws.old q.old × Awake p.old × (p.old.n ≤ length values.now) }
    ensures { after (turn_of result p.new) ws.new q.new ≡ first_derivative p.old values.now ws.old q.old }
{
    load(ws, values, 0, row(p.n, F0), p.n);
    p.evals.ode += 1;
    ask(ws, q, Answer::Jacobian(p.x), Awaited::FirstJacobian, p)
}

fn first_jacobian(ws: &mut [f64], q: &mut [f64], p: &mut Progress, values: &[f64]) -> Said
    requires { Ready p.old ws.old q.old × Awake p.old × (p.old.n * p.old.n ≤ length values.now) }
    ensures { after (turn_of result p.new) ws.new q.new ≡ first_jacobian p.old values.now ws.old q.old }
{
    jacobian(ws, p, values);
    first_step(ws, q, p)
}

fn restart_jacobian(ws: &mut [f64], q: &mut [f64], p: &mut Progress, values: &[f64]) -> Option<Said>
    requires { Ready p.old ws.old q.old × Awake p.old × (p.old.n * p.old.n ≤ length values.now) }
    ensures { Prepared result p.new ws.new q.new × (left_over result p.new ws.new q.new ≡ restart_jacobian p.old values.now ws.old q.old) }
{
    jacobian(ws, p, values);
    outdated(p);
    None
}

fn step_jacobian(ws: &mut [f64], q: &mut [f64], p: &mut Progress, values: &[f64]) -> Option<Said>
    requires { Ready p.old ws.old q.old × Awake p.old × (p.old.n * p.old.n ≤ length values.now) }
    ensures { Prepared result p.new ws.new q.new × (left_over result p.new ws.new q.new ≡ step_jacobian p.old values.now ws.old q.old) }
{
    jacobian(ws, p, values);
    outdated(p);
    stepped(ws, q, p)
}

fn order_jacobian(ws: &mut [f64], q: &mut [f64], p: &mut Progress, values: &[f64]) -> Option<Said>
    requires { Ready p.old ws.old q.old × Awake p.old × (p.old.n * p.old.n ≤ length values.now) }
    ensures { Prepared result p.new ws.new q.new × (left_over result p.new ws.new q.new ≡ order_jacobian p.old values.now ws.old q.old) }
{
    jacobian(ws, p, values);
    None
}

pub(crate) fn replied(
    ws: &mut [f64],
    q: &mut [f64],
    w: Awaited,
    p: &mut Progress,
    reply: Reply,
    values: &[f64],
) -> Option<Said>
    requires { Ready p.old ws.old q.old × Awake p.old × Answered w p.old reply values.now }
    ensures { Prepared result p.new ws.new q.new × (left_over result p.new ws.new q.new ≡ replied_of w p.old reply values.now ws.old q.old) }
{
    match w {
        Awaited::FirstDerivative => Some(first_derivative(ws, q, p, values)),
        Awaited::FirstJacobian => Some(first_jacobian(ws, q, p, values)),
        Awaited::StartDerivative => Some(hinit_replied(ws, q, p, values)),
        Awaited::StartNotice => start_noticed(ws, q, p, reply, values),
        Awaited::ModifiedStartDerivative => {
            Some(restarted(ws, q, Awaited::ModifiedStartJacobian, p, values))
        }
        Awaited::ModifiedStartJacobian => restart_jacobian(ws, q, p, values),
        Awaited::NewtonDerivative => newton_replied(ws, q, p, values),
        Awaited::FailedJacobian => failed_turn(ws, q, p, values),
        Awaited::StepNotice => step_noticed(ws, q, p, reply, values),
        Awaited::ModifiedStepDerivative => {
            Some(restarted(ws, q, Awaited::ModifiedStepJacobian, p, values))
        }
        Awaited::ModifiedStepJacobian => step_jacobian(ws, q, p, values),
        Awaited::OrderJacobian => order_jacobian(ws, q, p, values),
        Awaited::Ended => Some(end(Status::UserInterrupt, p)),
    }
}
