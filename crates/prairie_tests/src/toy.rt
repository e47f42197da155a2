ghost use Rattle.std.specs.Prelude.{◌≡◌, ◌<◌, IsTrue};
ghost use Rattle.std.specs.List.{All};

use derivation::{Label, Log, Steps, Terms};
use pr_value::Memory;
use std::alloc::Global;

/// One rule, which turns the label 1 at a root into 2 over the same input.
#[derive(Drop)]
pub struct Toy;

impl Steps<u64> for Toy {
    ghost use Rattle.prairie_tests.specs.Toy.{toy_step};

    ghost stepped = { λ _. toy_step };

    fn step(
        &self,
        alloc: Global,
        rule: usize,
        terms: &mut Terms<u64>,
        node: usize,
    ) -> Result<Option<usize>, Memory> {
        if rule != 0 {
            return Ok(None);
        }
        terms.sound();
        if *terms.label(node) != 1 {
            return Ok(None);
        }
        let inputs = Vec::from_slice(alloc, terms.inputs(node))?;
        let made = terms.add(alloc, 2, inputs.as_slice())?;
        Ok(Some(made))
    }

    fn copy(&self, _alloc: Global) -> Result<Toy, Memory> {
        Ok(Toy)
    }
}

fn are_below(inputs: &[usize], count: usize) -> bool
    ensures { IsTrue result → All (λ n. n < count) inputs.now }
{
    inputs.iter().all(|n| *n < count)
}

/// The number of a label over terms that are there, or 0.
pub fn term(alloc: Global, terms: &mut Terms<u64>, label: u64, inputs: &[usize]) -> usize {
    if !are_below(inputs, terms.count()) {
        return 0;
    }
    match terms.add(alloc, label, inputs) {
        Ok(n) => n,
        Err(_) => 0,
    }
}

/// The log of `3(1(0), 2(0))`.
pub fn toy_log(alloc: Global) -> Result<Log<u64, Toy>, Memory> {
    let mut terms = Terms::new(alloc);
    let leaf = term(alloc, &mut terms, 0, &[]);
    let one = term(alloc, &mut terms, 1, &[leaf]);
    let two = term(alloc, &mut terms, 2, &[leaf]);
    let query = term(alloc, &mut terms, 3, &[one, two]);
    if query >= terms.count() {
        return Err(Memory);
    }
    Log::new(alloc, terms, Toy, query)
}
