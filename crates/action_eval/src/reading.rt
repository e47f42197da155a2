ghost use Rattle.std.specs.Prelude.{◌≡◌};
ghost use Rattle.descriptor_types.specs.Descriptors.{value_of};
ghost use Rattle.action_eval.specs.Builtins.{at};
ghost use Rattle.action_eval.specs.Meaning.{desc_in};
ghost use Rattle.action_eval.specs.SeenEnv.{seen_env};

use crate::env::Env;
use crate::held::Held;
use descriptor_types::Desc;
use pr_value::{Symbol, Value};

/// The value at a place, from 0; where there is none, 0.
fn value_at(desc: &Desc, place: usize) -> Held<'_>
    ensures { result ≡ at desc.now place }
{
    if place < desc.count() {
        Held::lent(desc.get(place))
    } else {
        Held::own(Value::Num(0))
    }
}

/// The value of a descriptor's property; 0 where there is none of that name.
pub fn read<'a>(desc: &Symbol, property: &Symbol, env: &'a Env<'a>) -> Held<'a>
    ensures { result ≡ value_of (seen_env env.now).layout property.now
        (desc_in (seen_env env.now).descs desc.now) }
{
    let Some(desc) = env.desc(desc) else {
        return Held::own(Value::Num(0));
    };
    let Some(place) = env.layout().find(property) else {
        return Held::own(Value::Num(0));
    };
    value_at(desc, place)
}
