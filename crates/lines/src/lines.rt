// The lines that a job's run prints. Each is put on the page whole, or not begun where the page has no room for it.
ghost use Rattle.std.specs.Prelude.{◌≡◌, ◌∷◌, ◌+◌, ◌*◌, ◌-◌, ◌^◌, ◌≤◌, min};
ghost use Rattle.text.specs.Digits.{places_of};
ghost use Rattle.text.specs.Page.{puts, seen, SamePage};
ghost use Rattle.lines.specs.Lines.{line, hexes, start_line, step_line, end_line, refusal_line};

use crate::fields;
use rules::types::{Evals, Status, Steps};
use text::Page;

// `I`: x and y at the start.
pub fn start_line(page: &mut Page, x: f64, y: &[f64])
    ensures put { seen page.new ≡ puts (start_line x y.now) (seen page.old) }
    ensures same { SamePage page.old page.new }
{
    state_line(page, b'I', x, y);
}

// `S`: the new x of a step, and y there.
pub fn step_line(page: &mut Page, x: f64, y: &[f64])
    ensures put { seen page.new ≡ puts (step_line x y.now) (seen page.old) }
    ensures same { SamePage page.old page.new }
{
    state_line(page, b'S', x, y);
}

fn state_line(page: &mut Page, letter: u8, x: f64, y: &[f64])
    ensures put { seen page.new ≡ puts (line letter (hexes (x ∷ y.now))) (seen page.old) }
    ensures same { SamePage page.old page.new }
{
    if page.has_room(state_length(y.len())) {
        fields::state(page, letter, x, y);
    } else {
        page.close();
    }
}

// `E`: how the run ended, its last h, and its counters.
pub fn end_line(page: &mut Page, status: Status, h: f64, steps: Steps, evals: Evals)
    ensures put { seen page.new ≡ puts (end_line status h steps evals) (seen page.old) }
    ensures same { SamePage page.old page.new }
{
    if page.has_room(end_length(steps, evals)) {
        fields::end(page, status, h, steps, evals);
    } else {
        page.close();
    }
}

// `R`: the number of a refusal.
pub fn refusal_line(page: &mut Page, number: u64)
    ensures put { seen page.new ≡ puts (refusal_line number) (seen page.old) }
    ensures same { SamePage page.old page.new }
{
    if page.has_room(3 + places(number)) {
        fields::refusal(page, number);
    } else {
        page.close();
    }
}

// A letter, x, n values of y and the line's end: 17 bytes for each double with the space before it. No page is as long as the
// greatest number, which stands for all above it.
fn state_length(n: usize) -> usize
    ensures { result ≡ min (19 + 17 * n) (2 ^ 64 - 1) }
{
    n.saturating_mul(17).saturating_add(19)
}

// Letter, status, h and the line's end are 21 bytes; then the seven counters.
fn end_length(steps: Steps, evals: Evals) -> usize
    ensures { result ≡ 21 + (3 + places_of steps.total + places_of steps.accepted + places_of steps.rejected) + (4 + places_of evals.ode + places_of evals.jac + places_of evals.lu + places_of evals.start) }
{
    let of_steps = three(steps.total, steps.accepted, steps.rejected);
    let of_evals = three(evals.ode, evals.jac, evals.lu);
    21 + of_steps + of_evals + 1 + places(evals.start as u64)
}

// Three counts, each after a space.
fn three(a: usize, b: usize, c: usize) -> usize
    ensures { (result ≡ 3 + places_of a + places_of b + places_of c) × (result ≤ 63) }
{
    3 + places(a as u64) + places(b as u64) + places(c as u64)
}

#[tactic(auto, using(text::specs::laws::DigitLaws::places_at_most_20))]
fn places(n: u64) -> usize
    ensures { (result ≡ places_of n) × (result ≤ 20) }
{
    text::places(n)
}
