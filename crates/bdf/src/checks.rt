// The checks of a beginning, in their order.
ghost use Rattle.std.specs.Prelude.{◌≡◌, ◌≤◌, true};
ghost use Rattle.matrix.specs.Size.{max_n};
ghost use Rattle.rules.specs.Checks.{reaches as reaches_of, negative as negative_of, zero_step, limited as limited_of, tolerances_checked, checked as checked_of};

use crate::places::{ROWS, row};
use crate::tolerance::Tolerances;
use rules::settings::BDF;
use rules::types::{Kind, Refusal};

fn negative(t: Tolerances, n: usize) -> Result<(), Refusal>
    requires { (reaches_of t.relative.by t.relative.values.now n ≡ true) × (reaches_of t.absolute.by t.absolute.values.now n ≡ true) }
    ensures { result ≡ negative_of t.entry.relative.by t.entry.relative.values.now t.entry.absolute.by t.entry.absolute.values.now n 0 }
{
    for i in 0..n {
        let relative = t.relative.entry(i);
        if relative < 0.0 {
            return Err(Refusal::NegativeTolerance {
                kind: Kind::Relative,
                index: i,
                value: relative,
            });
        }
        let absolute = t.absolute.entry(i);
        if absolute < 0.0 {
            return Err(Refusal::NegativeTolerance {
                kind: Kind::Absolute,
                index: i,
                value: absolute,
            });
        }
    }
    Ok(())
}

fn zero_step(first: Option<f64>, direction: f64) -> Result<(), Refusal>
    ensures { result ≡ zero_step first direction }
{
    match first {
        Some(value) if value == 0.0 => Err(Refusal::ZeroFirstStep { value, direction }),
        _ => Ok(()),
    }
}

fn limited(s: BDF, direction: f64) -> Result<(), Refusal>
    ensures { result ≡ limited_of s direction }
{
    if s.max_steps == 0 {
        return Err(Refusal::NoSteps);
    }
    if 1000000 < s.max_steps || 64 < s.newton_maxiter {
        return Err(Refusal::LimitTooLarge);
    }
    zero_step(s.first_step, direction)
}

fn tolerances_checked(s: BDF, n: usize, direction: f64, t: Tolerances) -> Result<(), Refusal>
    ensures { result ≡ tolerances_checked s n direction t.entry.relative.by t.entry.relative.values.now t.entry.absolute.by t.entry.absolute.values.now }
{
    if !t.relative.reaches(n) || !t.absolute.reaches(n) {
        return Err(Refusal::ToleranceShort);
    }
    negative(t, n)?;
    limited(s, direction)
}

pub(crate) fn checked(
    s: BDF,
    n: usize,
    direction: f64,
    t: Tolerances,
    room: usize,
    questions: usize,
) -> Result<(), Refusal>
    requires { n ≤ max_n }
    ensures { result ≡ checked_of s n direction t.entry.relative.by t.entry.relative.values.now t.entry.absolute.by t.entry.absolute.values.now room questions }
{
    let need = row(n, ROWS);
    if room < need {
        return Err(Refusal::WorkspaceShort);
    }
    let asks = 8 * n;
    if questions < asks {
        return Err(Refusal::QuestionShort);
    }
    tolerances_checked(s, n, direction, t)
}
