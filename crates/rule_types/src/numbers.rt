ghost use Rattle.std.specs.Prelude.{◌≡◌, ◌==◌, ℕ, true, IfOk, OnOk, if◌then◌else◌};
ghost use Rattle.std.specs.BTreeSet.{contains};
ghost use Rattle.std.specs.Ordering.{nat_cmp};
ghost use Rattle.rule_types.specs.Conditions.{has_number};

use pr_value::Memory;
use std::alloc::Global;
use std::collections::BTreeSet;

/// Numbers, each of which is found by a binary search.
#[derive(Drop)]
pub struct Numbers<'a> {
    given: &'a [u64],
    known: BTreeSet<u64>,
    ghost all: { (n : ℕ) → contains nat_cmp known n ≡ has_number given.now n },
}

#[tactic(auto, using(crate::proofs::NumberLaws::number_laws))]
fn put(number: u64, set: &mut BTreeSet<u64>) -> Result<(), Memory>
    ensures { OnOk result ((n : ℕ) → contains nat_cmp set.new n ≡
        (if n == number then true else contains nat_cmp set.old n)) }
{
    set.insert(number)?;
    Ok(())
}

// The set of these numbers.
fn set_of(alloc: Global, numbers: &[u64]) -> Result<BTreeSet<u64>, Memory>
    ensures { IfOk result (λ set. (n : ℕ) → contains nat_cmp set n ≡ has_number numbers.now n) }
{
    let mut set = BTreeSet::new(alloc);
    for number in numbers {
        put(*number, &mut set)?;
    }
    Ok(set)
}

impl<'a> Numbers<'a> {
    pub fn new(alloc: Global, given: &'a [u64]) -> Result<Numbers<'a>, Memory>
        ensures { IfOk result (λ numbers. numbers.given.now ≡ given.now) }
    {
        let known = set_of(alloc, given)?;
        Ok(Numbers { given, known })
    }

    pub fn has(&self, number: u64) -> bool
        ensures { result ≡ has_number self.now.given.now number }
    {
        self.known.contains(&number)
    }
}
