/// An alternative by its goal and its number.
#[derive(Clone, Copy, Drop)]
pub struct Way {
    pub goal: u32,
    pub k: usize,
}
