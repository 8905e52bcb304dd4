// One fibre's bytes in its ring: where in it the oldest lies, and how many wait.
#[derive(Clone, Copy)]
pub struct Queue {
    pub start: usize,
    pub level: usize,
}
