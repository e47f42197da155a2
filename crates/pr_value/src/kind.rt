/// The types of properties. A cost is a number.
#[derive(Clone, Copy, PartialEq, Eq, Hash)]
pub enum Kind {
    Num,
    Truth,
    Symbol,
    Set,
    List,
    Cost,
}
