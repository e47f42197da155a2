ghost use Rattle.std.specs.Cmp.{decided, partial_equiv_from_equiv};
ghost use Rattle.std.specs.Hash.{same_Alike};
ghost use Rattle.pr_value.specs.Values.{same_value};
ghost use Rattle.pr_value.specs.Hashed.{hashed_value};
ghost use Rattle.pr_value.specs.EqualityLaws.{same_value-Decides};

use crate::value::Value;
use std::hash::{Hash, Hasher};

/// Values are equal as `same` says.
impl PartialEq for Value {
    ghost eq = { same_value };

    ghost laws = { partial_equiv_from_equiv (decided same_value same_value-Decides) };

    fn eq(&self, other: &Value) -> bool {
        self.same(other)
    }
}

impl Eq for Value {
    ghost laws = { decided same_value same_value-Decides };
}

impl Hash for Value {
    ghost hash_input = { hashed_value };

    ghost respects_eq = { (same_Alike hashed_value same_value-Decides).fed };

    fn hash<H: Hasher>(&self, state: &mut H) {
        match self {
            Value::Num(n) => {
                0u8.hash(state);
                n.hash(state);
            }
            Value::Truth(b) => {
                1u8.hash(state);
                b.hash(state);
            }
            Value::Sym(s) => {
                2u8.hash(state);
                s.hash(state);
            }
            Value::Set(s) => {
                3u8.hash(state);
                s.hash(state);
            }
            Value::List(l) => {
                4u8.hash(state);
                l.hash(state);
            }
        }
    }
}
