// The beginning: past the checks, what `solve` computes before its first derivative, and the first question.
ghost use Rattle.std.specs.Prelude.{◌≡◌, ◌+◌, ◌*◌, ◌<◌, ◌≤◌, true, length};
ghost use Rattle.rules.specs.laws.Ready.{Room};
ghost use Rattle.rules.specs.State.{after, turn};
ghost use Rattle.rules.specs.declared.types.Awaited.TheVariants.{Ended};
ghost use Rattle.rules.specs.Places.{need as need_of};
ghost use Rattle.rules.specs.Checks.{reaches as reaches_of};
ghost use Rattle.rules.specs.Begin.{derived_tol, newton_tol_val, span_of, fresh as fresh_of, kept as kept_of, nothing as nothing_of, begin_ws, ask_first, begin_run, begin_of};
ghost use Rattle.matrix.specs.Size.{max_n};

use crate::attempt::tell;
use crate::checks::checked;
use crate::moves::{fill, load};
use crate::places::{ATOL, ROWS, RTOL, Y, row};
use crate::predict::EPSILON;
use crate::tolerance::{Bound, Tolerances};
use matrix::MAX_N;
use rules::settings::BDF;
use rules::types::{
    Aim, Answer, Awaited, Evals, Limits, Newton, Pace, Progress, Refusal, Run, Span, Status, Steps,
    Tolerance, Turn,
};

fn derived_tol(rtol_min: f64) -> f64
    ensures { result ≡ derived_tol rtol_min }
{
    number::max(
        10.0 * EPSILON / rtol_min,
        number::min(roots::sqrt(rtol_min), 0.03),
    )
}

fn newton_tol(given: Option<f64>, rtol_min: f64) -> f64
    ensures { result ≡ newton_tol_val given rtol_min }
{
    let t = given.unwrap_or(derived_tol(rtol_min));
    if t <= 0.0 { 1e-9 } else { t }
}

fn span(s: BDF, x0: f64, xend: f64, rtol_min: f64) -> Span
    ensures { result ≡ span_of s x0 xend rtol_min }
{
    Span {
        xend,
        direction: number::signum(xend - x0),
        hmax: number::abs(s.max_step.unwrap_or(number::abs(xend - x0))),
        hmin: number::abs(s.min_step.unwrap_or(0.0)),
        newton_tol: newton_tol(s.newton_tol, rtol_min),
        first_step: s.first_step,
    }
}

fn fresh(n: usize, limits: Limits, span: Span, x: f64) -> Progress
    ensures { result ≡ fresh_of n limits span x }
{
    Progress {
        n,
        limits,
        span,
        evals: Evals::new(),
        steps: Steps::new(),
        order: 1,
        x,
        pace: Pace::default(),
        aim: Aim::default(),
        current_c: 0.0,
        newton: Newton::default(),
        pivot: [0; MAX_N],
    }
}

fn nothing(answer: Answer) -> Turn
    ensures { result ≡ turn answer Ended nothing_of }
{
    let limits = Limits {
        steps: 1,
        newton: 1,
        guarded: 0,
    };
    Turn {
        answer,
        run: Run {
            awaited: Awaited::Ended,
            at: fresh(0, limits, Span::default(), 0.0),
        },
    }
}

fn lay(ws: &mut [f64], y0: &[f64], t: Tolerances)
    requires { Room (length y0.now) ws.old × (reaches_of t.relative.by t.relative.values.now (length y0.now) ≡ true) × (reaches_of t.absolute.by t.absolute.values.now (length y0.now) ≡ true) }
    ensures { ws.new ≡ begin_ws (length y0.now) y0.now t.entry.relative.by t.entry.relative.values.now t.entry.absolute.by t.entry.absolute.values.now ws.old }
{
    let n = y0.len();
    fill(ws, 0, row(n, ROWS), 0.0);
    load(ws, y0, 0, row(n, Y), n);
    t.relative.lay(ws, row(n, RTOL), n);
    t.absolute.lay(ws, row(n, ATOL), n);
}

// The workspace laid out, and the first derivative asked.
fn ask_first(ws: &mut [f64], q: &mut [f64], y0: &[f64], t: Tolerances, p: Progress) -> Turn
    requires { (p.n ≡ length y0.now) × Room (length y0.now) ws.old × (8 * length y0.now ≤ length q.old) × (reaches_of t.relative.by t.relative.values.now (length y0.now) ≡ true) × (reaches_of t.absolute.by t.absolute.values.now (length y0.now) ≡ true) }
    ensures { after result ws.new q.new ≡ ask_first p y0.now t.entry.relative.by t.entry.relative.values.now t.entry.absolute.by t.entry.absolute.values.now ws.old q.old }
{
    lay(ws, y0, t);
    tell(q, ws, p.n, Y);
    Turn {
        answer: Answer::Derivative(p.x),
        run: Run {
            awaited: Awaited::FirstDerivative,
            at: p,
        },
    }
}

// What a run keeps from its beginning on.
fn kept(settings: BDF, n: usize, x0: f64, xend: f64, relative: Bound) -> Progress
    requires { reaches_of relative.by relative.values.now n ≡ true }
    ensures { result ≡ kept_of settings n x0 xend relative.entry.by relative.entry.values.now }
{
    let rtol_min = number::max(relative.least(n), EPSILON);
    let limits = Limits {
        steps: settings.max_steps,
        newton: settings.newton_maxiter.max(1),
        guarded: usize::from(settings.guarded),
    };
    fresh(n, limits, span(settings, x0, xend, rtol_min), x0)
}

// What a beginning that passed its checks does, on the needed places alone.
fn begin_run(
    settings: BDF,
    x0: f64,
    y0: &[f64],
    xend: f64,
    t: Tolerances,
    ws: &mut [f64],
    q: &mut [f64],
) -> Turn
    requires { (1 ≤ length y0.now) × (length y0.now ≤ max_n) × (need_of (length y0.now) ≤ length ws.old) × (8 * length y0.now ≤ length q.old) × (reaches_of t.relative.by t.relative.values.now (length y0.now) ≡ true) × (reaches_of t.absolute.by t.absolute.values.now (length y0.now) ≡ true) }
    ensures { after result ws.new q.new ≡ begin_run settings x0 y0.now xend t.entry.relative.by t.entry.relative.values.now t.entry.absolute.by t.entry.absolute.values.now ws.old q.old }
{
    let n = y0.len();
    let p = kept(settings, n, x0, xend, t.relative);
    let need = row(n, ROWS);
    ask_first(&mut ws[..need], q, y0, t, p)
}

pub fn begin(
    settings: BDF,
    x0: f64,
    y0: &[f64],
    xend: f64,
    rtol: Tolerance,
    rtols: &[f64],
    atol: Tolerance,
    atols: &[f64],
    ws: &mut [f64],
    q: &mut [f64],
) -> Turn
    ensures { after result ws.new q.new ≡ begin_of settings x0 y0.now xend rtol rtols.now atol atols.now ws.old q.old }
{
    let n = y0.len();
    if MAX_N < n {
        return nothing(Answer::Refused(Refusal::TooManyComponents));
    }
    if n == 0 {
        return nothing(Answer::End {
            status: Status::Success,
            h: 0.0,
        });
    }
    let direction = number::signum(xend - x0);
    let t = Tolerances {
        relative: Bound {
            by: rtol,
            values: rtols,
        },
        absolute: Bound {
            by: atol,
            values: atols,
        },
    };
    match checked(settings, n, direction, t, ws.len(), q.len()) {
        Err(why) => nothing(Answer::Refused(why)),
        Ok(()) => begin_run(settings, x0, y0, xend, t, ws, q),
    }
}
