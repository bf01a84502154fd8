// The lines, put field by field: a letter, each field after a space, the line's end.
ghost use Rattle.std.specs.Prelude.{◌≡◌, List, [], ◌∷◌, ℕ, map};
ghost use Rattle.text.specs.Digits.{decimal, hexadecimal};
ghost use Rattle.text.specs.Page.{puts, seen, SamePage};
ghost use Rattle.lines.specs.Lines.{hexes, status_fields, end_fields};
ghost use Rattle.lines.specs.Fields.{puts_fields, puts_line};

use crate::numbers;
use rules::types::{Evals, Status, Steps};
use text::Page;

pub(crate) fn state(page: &mut Page, letter: u8, x: f64, y: &[f64])
    ensures put { seen page.new ≡ puts_line letter (hexes (x ∷ y.now)) (seen page.old) }
    ensures same { SamePage page.old page.new }
{
    page.put_byte(letter);
    field(page, x);
    fields(page, y);
    page.put_byte(b'\n');
}

pub(crate) fn end(page: &mut Page, status: Status, h: f64, steps: Steps, evals: Evals)
    ensures put { seen page.new ≡ puts_line 69 (end_fields status h steps evals) (seen page.old) }
    ensures same { SamePage page.old page.new }
{
    page.put_byte(b'E');
    ended(page, status, h);
    let Steps {
        total,
        accepted,
        rejected,
    } = steps;
    fields(page, &[total as u64, accepted as u64, rejected as u64]);
    let Evals {
        ode,
        jac,
        lu,
        start,
    } = evals;
    fields(page, &[ode as u64, jac as u64, lu as u64, start as u64]);
    page.put_byte(b'\n');
}

pub(crate) fn refusal(page: &mut Page, number: u64)
    ensures put { seen page.new ≡ puts_line 82 (decimal number ∷ []) (seen page.old) }
    ensures same { SamePage page.old page.new }
{
    page.put_byte(b'R');
    field(page, number);
    page.put_byte(b'\n');
}

fn ended(page: &mut Page, status: Status, h: f64)
    ensures put { seen page.new ≡ puts_fields (status_fields status h) (seen page.old) }
    ensures same { SamePage page.old page.new }
{
    field(page, numbers::status(status));
    field(page, h);
}

// What a field may hold.
trait Value: Copy {
    ghost text: { Self → List ℕ };

    fn put(self, page: &mut Page)
        ensures put { seen page.new ≡ puts (text self) (seen page.old) }
        ensures same { SamePage page.old page.new };
}

impl Value for u64 {
    ghost text = { decimal };

    fn put(self, page: &mut Page) {
        page.put_count(self);
    }
}

impl Value for f64 {
    ghost text = { hexadecimal };

    fn put(self, page: &mut Page) {
        page.put_double(self);
    }
}

fn field<F: Value>(page: &mut Page, x: F)
    ensures put { seen page.new ≡ puts_fields (F.text x ∷ []) (seen page.old) }
    ensures same { SamePage page.old page.new }
{
    page.put_byte(b' ');
    x.put(page);
}

fn fields<F: Value>(page: &mut Page, xs: &[F])
    ensures put { seen page.new ≡ puts_fields (map F.text xs.now) (seen page.old) }
    ensures same { SamePage page.old page.new }
{
    for x in xs {
        field(page, *x);
    }
}
