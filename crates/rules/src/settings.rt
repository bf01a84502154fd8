// The solver's settings, with the Rust's names and defaults; and `guarded`, which the Rust has not.
ghost use Rattle.std.specs.Prelude.{◌≡◌};
ghost use Rattle.rules.specs.Settings.{defaults};

#[derive(Clone, Copy)]
pub struct BDF {
    pub max_steps: usize,
    pub max_step: Option<f64>,
    pub min_step: Option<f64>,
    pub newton_maxiter: usize,
    pub newton_tol: Option<f64>,
    pub first_step: Option<f64>,
    // Not the Rust's (02 §8): an error norm that is NaN rejects its attempt, where the Rust lets it pass.
    pub guarded: bool,
}

impl BDF {
    pub fn new() -> Self
        ensures { result ≡ defaults }
    {
        BDF {
            max_steps: 100000,
            max_step: None,
            min_step: None,
            newton_maxiter: 4,
            newton_tol: None,
            first_step: None,
            guarded: false,
        }
    }
}
