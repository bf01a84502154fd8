// What goes in and what comes back: the settings, the questions and replies, and the state of a run.
ghost use Rattle.std.specs.Prelude.{◌≡◌};
ghost use Rattle.rules.specs.Statuses.{is_success_of, reached_of};
ghost use Rattle.rules.specs.Counters.{no_evals, no_steps};

use matrix::MAX_N;

// One number for every component, or one each in a slice that is lent beside it.
#[derive(Clone, Copy)]
pub enum Tolerance {
    Scalar(f64),
    Vector,
}

#[derive(Clone, Copy, PartialEq, Eq)]
pub enum Status {
    Success,
    UserInterrupt,
    NeedLargerNMax,
    StepSizeTooSmall,
}

impl Status {
    // As the Rust has it: true for Success, and for UserInterrupt too. So true does not say that the run came to xend, for the
    // caller may have broken it off; ask `reached`.
    pub fn is_success(self) -> bool
        ensures { result ≡ is_success_of self }
    {
        matches!(self, Status::Success | Status::UserInterrupt)
    }

    // Whether the run came to xend: true for Success alone. This is the question to ask.
    pub fn reached(self) -> bool
        ensures { result ≡ reached_of self }
    {
        self == Status::Success
    }
}

// Which of the two tolerances is negative.
#[derive(Clone, Copy)]
pub enum Kind {
    Relative,
    Absolute,
}

// Why a call did nothing, in the order of checking. specs/ gives each case its number.
#[derive(Clone, Copy)]
pub enum Refusal {
    TooManyComponents,
    WorkspaceShort,
    QuestionShort,
    ToleranceShort,
    NegativeTolerance {
        kind: Kind,
        index: usize,
        value: f64,
    },
    NoSteps,
    LimitTooLarge,
    ZeroFirstStep {
        value: f64,
        direction: f64,
    },
    Damaged,
    HasEnded,
    WrongReply,
    SliceShort,
}

// What the caller says to the last answer; values stand in a slice that is lent beside it.
#[derive(Clone, Copy)]
pub enum Reply {
    Values,
    Continue,
    Interrupt,
    Modified(f64),
}

// What a run says: a question, a notice, its end, or a refusal.
#[derive(Clone, Copy)]
pub enum Answer {
    Derivative(f64),
    Jacobian(f64),
    Start(f64),
    Step {
        old: f64,
        new: f64,
        start: f64,
        h: f64,
    },
    End {
        status: Status,
        h: f64,
    },
    Refused(Refusal),
}

// The place in `solve` at which the run waits for a reply.
#[derive(Clone, Copy)]
pub enum Awaited {
    FirstDerivative,
    FirstJacobian,
    StartDerivative,
    StartNotice,
    ModifiedStartDerivative,
    ModifiedStartJacobian,
    NewtonDerivative,
    FailedJacobian,
    StepNotice,
    ModifiedStepDerivative,
    ModifiedStepJacobian,
    OrderJacobian,
    Ended,
}

// What bounds the attempts: max_steps, the Newton limit with 0 already read as 1, and 1 where the run is guarded, otherwise 0.
// Stays a number: `go_on` answers on every state, one whose `guarded` is 2 too (unguarded, by `is_guarded`), which a bool would exclude.
#[derive(Clone, Copy)]
pub struct Limits {
    pub steps: usize,
    pub newton: usize,
    pub guarded: usize,
}

// What stays as the beginning computed it.
#[derive(Clone, Copy, Default)]
pub struct Span {
    pub xend: f64,
    pub direction: f64,
    pub hmax: f64,
    pub hmin: f64,
    pub newton_tol: f64,
    pub first_step: Option<f64>,
}

// As in the Rust, and beside it `start`: 1 once the automatic start has asked its derivative, which `ode` does not count.
#[derive(Clone, Copy, Default)]
pub struct Evals {
    pub ode: usize,
    pub jac: usize,
    pub lu: usize,
    pub start: usize,
}

impl Evals {
    // Nothing evaluated yet.
    pub fn new() -> Self
        ensures { result ≡ no_evals }
    {
        Evals::default()
    }
}

#[derive(Clone, Copy, Default)]
pub struct Steps {
    pub total: usize,
    pub accepted: usize,
    pub rejected: usize,
}

impl Steps {
    // Nothing attempted yet.
    pub fn new() -> Self
        ensures { result ≡ no_steps }
    {
        Steps::default()
    }
}

// current_h, n_equal_steps and lu_is_current of the Rust.
#[derive(Clone, Copy, Default)]
pub struct Pace {
    pub h: f64,
    pub equal_steps: usize,
    pub lu_is_current: bool,
}

// Where the attempt under way leads.
#[derive(Clone, Copy, Default)]
pub struct Aim {
    pub h_signed: f64,
    pub x_start: f64,
    pub x_new: f64,
    pub c: f64,
}

// The Newton iteration under way, and what its end left for the order's choice. `prev` counts once iters is above 0.
// Stays beside its count: an Option would say again what iters says, and in a state that was forged the two could contradict each other.
#[derive(Clone, Copy, Default)]
pub struct Newton {
    pub iters: usize,
    pub prev: f64,
    pub safety: f64,
    pub error_norm: f64,
}

#[derive(Clone, Copy)]
pub struct Progress {
    pub n: usize,
    pub limits: Limits,
    pub span: Span,
    pub evals: Evals,
    pub steps: Steps,
    pub order: usize,
    pub x: f64,
    pub pace: Pace,
    pub aim: Aim,
    pub current_c: f64,
    pub newton: Newton,
    pub pivot: [usize; MAX_N],
}

// A run's state: it goes into every call by value and comes back.
#[derive(Clone, Copy)]
pub struct Run {
    pub awaited: Awaited,
    pub at: Progress,
}

#[derive(Clone, Copy)]
pub struct Turn {
    pub answer: Answer,
    pub run: Run,
}
