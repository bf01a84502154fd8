// The runs on whose states the forgeries are tried: of y_i' = -r_i y_i, from 0 to 10.
use crate::size::Size;
use rules::settings::BDF;

// The rates are rate, 2 rate, 3 rate, .., and the Jacobian that is handed in is slope times the true one.
#[derive(Clone, Copy)]
pub(crate) struct Case {
    pub size: Size,
    pub rate: f64,
    pub slope: f64,
    pub tolerance: f64,
    pub modifies: bool,
    pub first_step: Option<f64>,
}

// From small to full size; one run with Jacobians that are wrong, so that Newton fails, one whose notices are now and then answered by
// a modification, and one whose first step is given and which is guarded.
pub(crate) const CASES: [Case; 5] = [
    Case {
        size: Size { n: 1 },
        rate: 1.0,
        slope: 1.0,
        tolerance: 1e-12,
        modifies: false,
        first_step: None,
    },
    Case {
        size: Size { n: 2 },
        rate: 50.0,
        slope: 1.0,
        tolerance: 1e-9,
        modifies: true,
        first_step: None,
    },
    Case {
        size: Size { n: 2 },
        rate: 4.0,
        slope: -1.0,
        tolerance: 1e-5,
        modifies: false,
        first_step: None,
    },
    Case {
        size: Size { n: 4 },
        rate: 3.0,
        slope: 1.0,
        tolerance: 1e-11,
        modifies: false,
        first_step: Some(1e-4),
    },
    Case {
        size: Size { n: 32 },
        rate: 2.0,
        slope: 1.0,
        tolerance: 1e-2,
        modifies: false,
        first_step: None,
    },
];

impl Case {
    // The Rust's settings but for the first step: where it is given the run is guarded too. No error norm is NaN here, so the guard
    // changes nothing.
    pub(crate) fn settings(&self) -> BDF {
        BDF {
            first_step: self.first_step,
            guarded: self.first_step.is_some(),
            ..BDF::new()
        }
    }
}
