// What the stages of a run hand to one another: the definitions speak of them, no caller meets them.
// The order of the next steps, and what their size is multiplied by.
#[derive(Clone, Copy)]
pub struct Choice {
    pub order: usize,
    pub factor: f64,
}
