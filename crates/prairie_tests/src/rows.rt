use crate::ways::{Kind, Way};
use pr_value::Items;
use std::alloc::Global;
use std::process::Abort;

pub type Row<'a> = (Kind, u64, &'a [u32]);

/// The alternatives of one goal.
pub fn ways(rt: &impl Abort, alloc: Global, rows: &[Row]) -> Items<Way> {
    let mut ways = Items::new(alloc);
    for (kind, from, inputs) in rows {
        let way = Way {
            kind: *kind,
            from: *from,
            inputs: Items::from_slice(alloc, inputs).expect(rt, "memory"),
        };
        ways.push(way).expect(rt, "memory");
    }
    ways
}

/// Goals with these alternatives.
pub fn goals_of(rt: &impl Abort, alloc: Global, rows: &[&[Row]]) -> Items<Items<Way>> {
    let mut goals = Items::new(alloc);
    for row in rows {
        goals.push(ways(rt, alloc, row)).expect(rt, "memory");
    }
    goals
}
