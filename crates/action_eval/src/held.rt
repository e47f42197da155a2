// Values while an expression is evaluated.
ghost use Rattle.std.specs.Prelude.{◌≡◌, IfOk};

use pr_value::{Memory, Value};
use std::alloc::Global;
use std::marker::Model;

#[derive(Drop)]
enum Hold<'a> {
    Own(Value),
    Lent(&'a Value),
}

/// A value that was made, or one that an environment lends, which is not copied.
#[derive(Drop)]
pub struct Held<'a> {
    hold: Hold<'a>,
}

impl<'a> Model for Held<'a> {
    ghost use Rattle.pr_value.specs.declared.value.Value.{Value as AnyValue};
    ghost use Rattle.action_eval.specs.SeenHeld.{held_value};

    ghost Value = { AnyValue };

    ghost view = { λ h. held_value h.hold };
}

impl<'a> Held<'a> {
    pub fn own(value: Value) -> Held<'a>
        ensures { result ≡ value }
    {
        Held {
            hold: Hold::Own(value),
        }
    }

    pub fn lent(value: &'a Value) -> Held<'a>
        ensures { result ≡ value.now }
    {
        Held {
            hold: Hold::Lent(value),
        }
    }

    pub fn get(&self) -> &Value
        ensures { result.now ≡ self.now }
    {
        match &self.hold {
            Hold::Own(value) => value,
            Hold::Lent(value) => value,
        }
    }

    /// The same value: a copy of one that was made, or lent again.
    pub fn copy(&self, alloc: Global) -> Result<Held<'a>, Memory>
        ensures { IfOk result (λ h. h ≡ self.now) }
    {
        match &self.hold {
            Hold::Own(value) => Ok(Held::own(value.copy(alloc)?)),
            Hold::Lent(value) => Ok(Held::lent(value)),
        }
    }

    pub fn into_value(self, alloc: Global) -> Result<Value, Memory>
        ensures { IfOk result (λ v. v ≡ self.entry) }
    {
        match self.hold {
            Hold::Own(value) => Ok(value),
            Hold::Lent(value) => value.copy(alloc),
        }
    }
}
