// How many components a run has, and how many numbers of its slices that makes.
ghost use Rattle.std.specs.Prelude.{◌≤◌};

// As many as the solver takes. More of them it refuses: then it asks nothing, and no number of them is wanted.
#[derive(Clone, Copy)]
pub(crate) struct Components {
    count: usize,
    ghost few: { count ≤ 32 },
}

impl Components {
    pub(crate) fn new(n: usize) -> Self {
        Components { count: n.min(32) }
    }

    // A state, a derivative: one number each.
    pub(crate) fn state(self) -> usize
        ensures { result ≤ 32 }
    {
        self.count
    }

    // A Jacobian.
    pub(crate) fn cells(self) -> usize
        ensures { result ≤ 1024 }
    {
        self.count * self.count
    }

    // A step's state, with its coefficients behind it.
    pub(crate) fn step(self) -> usize
        ensures { result ≤ 256 }
    {
        8 * self.count
    }
}
