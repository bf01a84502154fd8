// Forged states: a run's state with one of the bounds of damage crossed by one, or just met.
// A state crosses no other bound besides: what the change itself would break is changed with it. So no damage hides another;
// but for a Newton limit of 0 while a Newton derivative is awaited, where no count is below it.
ghost use Rattle.std.specs.Prelude.{◌≤◌};

use rules::types::{Awaited, Evals, Progress, Refusal, Run, Steps};
use std::fmt;

// What is forged; from `Accepted` on T, A and m are those of docs/RULES.md. Those from AcceptedMax on have only one of the two sides.
#[derive(Clone, Copy, PartialEq, Eq)]
pub(crate) enum Forgery {
    Size,
    NoSize,
    LowOrder,
    HighOrder,
    LowStepLimit,
    HighStepLimit,
    LowNewtonLimit,
    HighNewtonLimit,
    Pivot,
    Total,
    Accepted,
    Rejected,
    EqualSteps,
    Factorings,
    Jacobians,
    Derivatives,
    Start,
    NewtonCount,
    AcceptedMax,
    RejectedMax,
    OtherCount,
    LastPivot,
    NotNumbers,
    Nothing,
}

// The two sides of a bound of damage.
#[derive(Clone, Copy, PartialEq, Eq)]
pub(crate) enum Side {
    // Crossed by one: the state is damaged.
    Beyond,
    // Just met: it is not.
    At,
}

impl Side {
    pub(crate) const BOTH: [Side; 2] = [Side::Beyond, Side::At];

    // How far beyond the bound.
    fn by(self) -> usize
        ensures { result ≤ 1 }
    {
        usize::from(self == Side::Beyond)
    }
}

impl Forgery {
    pub(crate) const ALL: [Forgery; 24] = [
        Forgery::Size,
        Forgery::NoSize,
        Forgery::LowOrder,
        Forgery::HighOrder,
        Forgery::LowStepLimit,
        Forgery::HighStepLimit,
        Forgery::LowNewtonLimit,
        Forgery::HighNewtonLimit,
        Forgery::Pivot,
        Forgery::Total,
        Forgery::Accepted,
        Forgery::Rejected,
        Forgery::EqualSteps,
        Forgery::Factorings,
        Forgery::Jacobians,
        Forgery::Derivatives,
        Forgery::Start,
        Forgery::NewtonCount,
        Forgery::AcceptedMax,
        Forgery::RejectedMax,
        Forgery::OtherCount,
        Forgery::LastPivot,
        Forgery::NotNumbers,
        Forgery::Nothing,
    ];

    // What going on must answer where the reply's kind does not suit; nothing where this state has no such forgery.
    pub(crate) fn expected(self, side: Side, run: &Run) -> Option<Refusal> {
        if !self.applies(side, run) {
            return None;
        }
        Some(match side {
            Side::Beyond => Refusal::Damaged,
            Side::At if self == Forgery::NoSize || has_ended(run) => Refusal::HasEnded,
            Side::At => Refusal::WrongReply,
        })
    }

    fn applies(self, side: Side, run: &Run) -> bool {
        let at = side == Side::At;
        match self {
            Forgery::NoSize => at || !has_ended(run),
            Forgery::Pivot => 1 < run.at.n,
            Forgery::NewtonCount => awaits_newton(run),
            Forgery::OtherCount => at && !awaits_newton(run),
            Forgery::AcceptedMax | Forgery::RejectedMax => !at,
            Forgery::LastPivot | Forgery::NotNumbers | Forgery::Nothing => at,
            _ => true,
        }
    }

    // The forged state. Without components a state is damaged unless it has ended.
    pub(crate) fn forged(self, side: Side, run: Run) -> Run {
        let mut forged = run;
        if self == Forgery::NoSize && side == Side::At {
            forged.awaited = Awaited::Ended;
        }
        self.change(&mut forged.at, side);
        forged
    }

    fn change(self, p: &mut Progress, side: Side) {
        let by = side.by();
        match self {
            Forgery::Size => p.n = 32 + by,
            Forgery::NoSize => p.n = 0,
            Forgery::LowOrder => p.order = 1 - by,
            Forgery::HighOrder => p.order = 5 + by,
            Forgery::LowStepLimit => {
                uncount(p);
                p.limits.steps = 1 - by;
            }
            Forgery::HighStepLimit => p.limits.steps = 1000000 + by,
            Forgery::LowNewtonLimit => {
                p.newton.iters = 0;
                p.evals.ode = 0;
                p.limits.newton = 1 - by;
            }
            Forgery::HighNewtonLimit => p.limits.newton = 64 + by,
            Forgery::Pivot => turn_pivot(p, side),
            Forgery::LastPivot => set_pivot(p, p.n.wrapping_sub(1), p.n),
            Forgery::NotNumbers => lose_numbers(p),
            _ => self.change_count(p, side),
        }
    }

    // A run's counters are far from where these wrap.
    fn change_count(self, p: &mut Progress, side: Side) {
        let by = side.by();
        let steps = p.steps;
        let total = steps.total;
        match self {
            Forgery::Total => p.steps.total = p.limits.steps.wrapping_add(by),
            Forgery::Accepted => p.steps.accepted = total
                .wrapping_sub(steps.rejected)
                .wrapping_add(by),
            Forgery::Rejected => p.steps.rejected = total
                .wrapping_sub(steps.accepted)
                .wrapping_add(by),
            Forgery::EqualSteps => p.pace.equal_steps = steps.accepted.wrapping_add(by),
            Forgery::Factorings => p.evals.lu = total.wrapping_add(by),
            Forgery::Jacobians => p.evals.jac = total.wrapping_add(2 + by),
            Forgery::Derivatives => p.evals.ode = most_derivatives(p).wrapping_add(by),
            Forgery::Start => p.evals.start = 1 + by,
            Forgery::NewtonCount => p.newton.iters = p.limits.newton.wrapping_sub(1 - by),
            Forgery::OtherCount => p.newton.iters = p.limits.newton,
            Forgery::AcceptedMax => {
                p.evals.ode = 0;
                p.steps.rejected = 1;
                p.steps.accepted = usize::MAX;
            }
            Forgery::RejectedMax => p.steps.rejected = usize::MAX,
            _ => {}
        }
    }
}

fn has_ended(run: &Run) -> bool {
    matches!(run.awaited, Awaited::Ended)
}

fn awaits_newton(run: &Run) -> bool {
    matches!(run.awaited, Awaited::NewtonDerivative)
}

// As before the first attempt, so that no limit is too low for what is counted.
fn uncount(p: &mut Progress) {
    p.steps = Steps::new();
    p.evals = Evals::new();
    p.pace.equal_steps = 0;
}

// One of the first n - 1 pivots, another from derivative to derivative.
fn turn_pivot(p: &mut Progress, side: Side) {
    if p.n > 1 {
        set_pivot(p, p.evals.ode % (p.n - 1), p.n - 1 + side.by());
    }
}

fn set_pivot(p: &mut Progress, i: usize, row: usize) {
    if let Some(pivot) = p.pivot.get_mut(i) {
        *pivot = row;
    }
}

// 2 + mT + A; past the limits, which no run is, nothing is asked for.
fn most_derivatives(p: &Progress) -> usize {
    let m = p.limits.newton;
    let total = p.steps.total;
    if 64 < m || 1000000 < total {
        return 0;
    }
    (2 + m * total).wrapping_add(p.steps.accepted)
}

// Every number of the state is NaN, and its guard is turned.
fn lose_numbers(p: &mut Progress) {
    let nan = 0.0 / 0.0;
    p.limits.guarded = if p.limits.guarded == 1 { 0 } else { 1 };
    p.span.xend = nan;
    p.span.direction = nan;
    p.span.hmax = nan;
    p.span.hmin = nan;
    p.span.newton_tol = nan;
    p.span.first_step = Some(nan);
    p.x = nan;
    p.pace.h = nan;
    p.aim.h_signed = nan;
    p.aim.x_start = nan;
    p.aim.x_new = nan;
    p.aim.c = nan;
    p.current_c = nan;
    p.newton.prev = nan;
    p.newton.safety = nan;
    p.newton.error_norm = nan;
}

// The names: what is damaged stands before the stroke, and what is not behind it.
impl fmt::Display for Forgery {
    fn fmt<W: fmt::Write>(&self, f: &mut fmt::Formatter<W>) -> fmt::Result {
        f.write_str(match self {
            Forgery::Size => "n 33 / 32",
            Forgery::NoSize => "n 0, not ended / ended",
            Forgery::LowOrder => "order 0 / 1",
            Forgery::HighOrder => "order 6 / 5",
            Forgery::LowStepLimit => "step limit 0 / 1",
            Forgery::HighStepLimit => "step limit 1000001 / 1000000",
            Forgery::LowNewtonLimit => "Newton limit 0 / 1",
            Forgery::HighNewtonLimit => "Newton limit 65 / 64",
            Forgery::Pivot => "one of n - 1 pivots n / n - 1",
            Forgery::Total => "T limit + 1 / limit",
            Forgery::Accepted => "A T - rejected + 1 / T - rejected",
            Forgery::Rejected => "rejected T - A + 1 / T - A",
            Forgery::EqualSteps => "equal steps A + 1 / A",
            Forgery::Factorings => "factorings T + 1 / T",
            Forgery::Jacobians => "Jacobians 3 + T / 2 + T",
            Forgery::Derivatives => "derivatives 3 + mT + A / 2 + mT + A",
            Forgery::Start => "start 2 / 1",
            Forgery::NewtonCount => "Newton count m / m - 1",
            Forgery::AcceptedMax => "A 2^64 - 1, rejected 1 /",
            Forgery::RejectedMax => "rejected 2^64 - 1 /",
            Forgery::OtherCount => "/ Newton count m, no Newton derivative awaited",
            Forgery::LastPivot => "/ n-th pivot n",
            Forgery::NotNumbers => "/ NaN",
            Forgery::Nothing => "/ as it was",
        })
    }
}
