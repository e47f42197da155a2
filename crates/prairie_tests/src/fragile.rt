ghost use Rattle.std.specs.Cmp.{decided, partial_equiv_from_equiv};
ghost use Rattle.std.specs.Hash.{same_Alike};
ghost use Rattle.prairie_tests.specs.Fragile.{same_fragile, same_fragile-Decides, hashed_fragile};

use derivation::{Label, Steps, Terms};
use pr_value::Memory;
use std::alloc::Global;
use std::hash::{Hash, Hasher};

/// A number as a label, of which there is no copy from 100 on.
#[derive(Drop)]
pub struct Fragile {
    pub value: u64,
}

impl PartialEq for Fragile {
    ghost eq = { same_fragile };

    ghost laws = { partial_equiv_from_equiv (decided same_fragile same_fragile-Decides) };

    fn eq(&self, other: &Fragile) -> bool {
        self.value == other.value
    }
}

impl Eq for Fragile {
    ghost laws = { decided same_fragile same_fragile-Decides };
}

impl Hash for Fragile {
    ghost hash_input = { hashed_fragile };

    ghost respects_eq = { (same_Alike hashed_fragile same_fragile-Decides).fed };

    fn hash<H: Hasher>(&self, state: &mut H) {
        self.value.hash(state);
    }
}

impl Label for Fragile {
    ghost use Rattle.std.specs.Prelude.{false};
    ghost use Rattle.prairie_tests.specs.Fragile.{same_fragile, same_fragile-equal};

    ghost same_view = { same_fragile };

    ghost on_edge = { λ _. false };

    ghost same_is = { same_fragile-equal };

    fn same(&self, other: &Fragile) -> bool {
        *self == *other
    }

    fn same_view(&self, other: &Fragile) -> bool {
        self.value == other.value
    }

    fn on_edge(&self) -> bool {
        false
    }

    fn copy(&self, _alloc: Global) -> Result<Fragile, Memory> {
        if self.value >= 100 {
            return Err(Memory);
        }
        Ok(Fragile { value: self.value })
    }
}

/// Each rule turns the label 1 at a root into 100 over the same inputs.
#[derive(Drop)]
pub struct Breaking;

impl Steps<Fragile> for Breaking {
    ghost use Rattle.prairie_tests.specs.Fragile.{fragile_step};

    ghost stepped = { λ _. fragile_step };

    fn step(
        &self,
        alloc: Global,
        _rule: usize,
        terms: &mut Terms<Fragile>,
        node: usize,
    ) -> Result<Option<usize>, Memory> {
        terms.sound();
        if terms.label(node).value != 1 {
            return Ok(None);
        }
        let inputs = Vec::from_slice(alloc, terms.inputs(node))?;
        let made = terms.add(alloc, Fragile { value: 100 }, inputs.as_slice())?;
        Ok(Some(made))
    }

    fn copy(&self, _alloc: Global) -> Result<Breaking, Memory> {
        Ok(Breaking)
    }
}
