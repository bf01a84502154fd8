// The size of a step: between its bounds, and cut where it would lead past the end.
ghost use Rattle.std.specs.Prelude.{◌≡◌, ◌+◌, ◌*◌, ◌<◌, ◌≤◌};
ghost use Rattle.rules.specs.laws.Ready.{Room};
ghost use Rattle.rules.specs.State.{left, changed as changed_of};
ghost use Rattle.rules.specs.Attempt.{rescaled_d, to_hmax, to_hmin, aim_at, cut_at_end, aimed};

use crate::places::row;
use crate::rescale::change_d;
use crate::tables::alpha;
use rules::types::{Aim, Pace, Progress};

// The pace after a change of the step size.
pub(crate) fn changed(h: f64) -> Pace
    ensures { result ≡ changed_of h }
{
    Pace {
        h,
        equal_steps: 0,
        lu_is_current: false,
    }
}

// change_d on the rows of D.
pub(crate) fn rescale_d(ws: &mut [f64], n: usize, order: usize, factor: f64)
    requires { Room n ws.old × (1 ≤ order) × (order ≤ 5) }
    ensures { ws.new ≡ rescaled_d n order factor ws.old }
{
    let from = row(n, 0);
    let to = row(n, 8);
    change_d(&mut ws[from..to], n, order, factor);
}

pub(crate) fn to_hmax(ws: &mut [f64], n: usize, order: usize, hmax: f64, pace: Pace) -> Pace
    requires { Room n ws.old × (1 ≤ order) × (order ≤ 5) }
    ensures { left result ws.new ≡ to_hmax n order hmax pace ws.old }
{
    let h = pace.h;
    if h > hmax {
        rescale_d(ws, n, order, hmax / h);
        return changed(hmax);
    }
    pace
}

pub(crate) fn to_hmin(ws: &mut [f64], n: usize, order: usize, hmin: f64, pace: Pace) -> Pace
    requires { Room n ws.old × (1 ≤ order) × (order ≤ 5) }
    ensures { left result ws.new ≡ to_hmin n order hmin pace ws.old }
{
    let h = pace.h;
    if h < hmin && hmin > 0.0 {
        rescale_d(ws, n, order, number::max(hmin / h, 1.0));
        return changed(hmin);
    }
    pace
}

fn aim_of(direction: f64, order: usize, x: f64, h: f64) -> Aim
    requires { order ≤ 5 }
    ensures { result ≡ aim_at direction order x h }
{
    let h_signed = direction * h;
    Aim {
        h_signed,
        x_start: x,
        x_new: x + h_signed,
        c: h_signed / alpha(order),
    }
}

fn cut_at_end(ws: &mut [f64], p: &Progress) -> Option<(Pace, Aim)>
    requires { Room p.now.n ws.old × (1 ≤ p.now.order) × (p.now.order ≤ 5) }
    ensures { left result ws.new ≡ cut_at_end p.now ws.old }
{
    let step_to_end = number::abs(p.span.xend - p.x);
    if step_to_end == 0.0 {
        return None;
    }
    let factor = step_to_end / p.pace.h;
    rescale_d(ws, p.n, p.order, factor);
    let h = p.pace.h * factor;
    Some((changed(h), aim_of(p.span.direction, p.order, p.x, h)))
}

pub(crate) fn aim(ws: &mut [f64], p: &Progress) -> Option<(Pace, Aim)>
    requires { Room p.now.n ws.old × (1 ≤ p.now.order) × (p.now.order ≤ 5) }
    ensures { left result ws.new ≡ aimed p.now ws.old }
{
    let a = aim_of(p.span.direction, p.order, p.x, p.pace.h);
    if p.span.direction * (a.x_new - p.span.xend) > 0.0 {
        return cut_at_end(ws, p);
    }
    Some((p.pace, a))
}
