/// How far a run goes.
#[derive(Clone, Copy)]
pub struct Limits {
    /// The most trees of which no two are alike.
    pub memo: u32,
    pub rounds: u32,
    pub goals: u32,
}

/// What an option limits.
#[derive(Clone, Copy)]
pub enum Quantity {
    Memo,
    Rounds,
    Goals,
}
