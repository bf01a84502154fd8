// Reading a packed job, its numbers as doubles.
ghost use Rattle.std.specs.Prelude.{◌≡◌};
ghost use Rattle.job.specs.Reading.{first_step_of, job_of, reading_of, read_of, settings_of};

use crate::form;
use crate::form::{Form, ReadError};
use crate::packed::CELLS;
use matrix::MAX_N;
use rules::settings::BDF;

// What a job file holds beside y0 and A, which go to lent arrays.
#[derive(Clone, Copy)]
pub struct Job {
    pub n: usize,
    pub max_steps: usize,
    pub newton_maxiter: usize,
    pub x0: f64,
    pub xend: f64,
    // None is the automatic start.
    pub first_step: Option<f64>,
    pub rtol: f64,
    pub atol: f64,
}

// y0 goes to the first n places of `y0`, A by rows to the first n² of `a`. The other places stay, and a refusal changes none.
pub fn read(s: &[u8], y0: &mut [f64; MAX_N], a: &mut [f64; CELLS]) -> Result<Job, ReadError>
    ensures { (reading_of result, y0.new, a.new) ≡ read_of s.now y0.old a.old }
{
    Ok(job_of(form::placed(s, y0, a)?))
}

// The job that a form means: each number by its bits.
fn job_of(f: Form) -> Job
    ensures { result ≡ job_of f }
{
    Job {
        n: f.n,
        max_steps: f.max_steps,
        newton_maxiter: f.newton_maxiter,
        x0: text::double(f.x0),
        xend: text::double(f.xend),
        first_step: first_step(f),
        rtol: text::double(f.rtol),
        atol: text::double(f.atol),
    }
}

fn first_step(f: Form) -> Option<f64>
    ensures { result ≡ first_step_of f }
{
    if f.automatic {
        None
    } else {
        Some(text::double(f.first_step))
    }
}

// The solver's settings for a job: those that it does not name are unset, and no job is guarded.
pub fn settings(job: Job) -> BDF
    ensures { result ≡ settings_of job }
{
    BDF {
        max_steps: job.max_steps,
        newton_maxiter: job.newton_maxiter,
        first_step: job.first_step,
        ..BDF::new()
    }
}
