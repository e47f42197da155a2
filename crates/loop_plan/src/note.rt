/// A goal that fell, and how far its value is below 'no plan'. The least value is greatest.
#[derive(Clone, Copy, PartialEq, Eq, PartialOrd, Ord, Drop)]
pub struct Note {
    pub below: u64,
    pub goal: u32,
}
