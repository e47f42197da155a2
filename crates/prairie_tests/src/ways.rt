ghost use Rattle.std.specs.Prelude.{◌≡◌, ◌≤◌, drop, min};
ghost use Rattle.pr_value.specs.Capped.{cap};
ghost use Rattle.prairie_tests.specs.Ways.{join, joined};

use pr_value::{CAP, Items};

/// How an alternative's cost comes from a number and its inputs' costs, up to the cap.
#[derive(Clone, Copy)]
pub enum Kind {
    Sum,
    Least,
    Product,
}

/// An alternative. An input that is not past its goal counts as the goal behind it.
#[derive(Drop)]
pub struct Way {
    pub kind: Kind,
    pub from: u64,
    pub inputs: Items<u32>,
}

fn join(kind: Kind, total: u64, cost: u64) -> u64
    ensures { result ≡ join kind total cost }
{
    match kind {
        Kind::Sum => total.saturating_add(cost).min(CAP),
        Kind::Least => total.min(cost).min(CAP),
        Kind::Product => total.saturating_mul(cost).min(CAP),
    }
}

pub fn joined(kind: Kind, from: u64, costs: &[u64]) -> u64
    ensures { result ≡ joined kind (min from cap) costs.now }
{
    let mut total = from.min(CAP);
    for cost in costs {
        total = join(kind, total, *cost);
    }
    total
}
