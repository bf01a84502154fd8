// Lines of text, onto a page that was made roomy before each of them: a line has its place unless a write failed.
use crate::numbered::Numbered;
use text::Page;

// Room for any line. The longest has the factors of 33 rows: 1,089 doubles of 17 bytes, and 33 counts of at most 21.
pub(crate) const LINE: usize = 20480;

// What a field can hold.
pub(crate) trait Field: Copy {
    fn put(self, page: &mut Page);
}

impl Field for f64 {
    fn put(self, page: &mut Page) {
        page.put_double(self);
    }
}

impl Field for u64 {
    fn put(self, page: &mut Page) {
        page.put_count(self);
    }
}

impl Field for usize {
    fn put(self, page: &mut Page) {
        page.put_count(self as u64);
    }
}

// A line's next fields, each after a space.
pub(crate) fn put<T: Field>(page: &mut Page, fields: &[T]) {
    for field in fields {
        page.put_byte(b' ');
        field.put(page);
    }
}

// A refusal by its number: `R 14`.
pub(crate) fn refusal<E: Numbered>(page: &mut Page, why: E) {
    page.put_byte(b'R');
    put(page, &[why.number()]);
}

// The line of a leaf: its numbers, of which the first has no space before it.
pub(crate) fn numbers_line(page: &mut Page, xs: &[f64]) {
    if let [first, rest @ ..] = xs {
        page.put_double(*first);
        put(page, rest);
    }
    page.put_byte(b'\n');
}
