ghost use Rattle.std.specs.Cmp.{decided, partial_equiv_from_equiv};
ghost use Rattle.std.specs.Hash.{same_Alike};
ghost use Rattle.std.specs.Prelude.{◌≡◌, ◌↔◌, ℕ, ◌<◌, ◌≤◌, List, true, Some, length, option_map, slice_get, slice_set, if◌then◌else◌, IsTrue, IfOk};
ghost use Rattle.pr_value.specs.Values.{default_of, has_kind, is_default};
ghost use Rattle.descriptor_types.specs.Descriptors.{plain, fits, only, asked_of, same_desc, hashed_desc};
ghost use Rattle.descriptor_types.specs.EqualityLaws.{same_desc-Decides};
ghost use Rattle.pr_value.specs.declared.property.Property.{Property};

use crate::layout::Layout;
use crate::mask::Mask;
use pr_value::{Kind, Memory, Value};
use std::alloc::Global;
use std::hash::{Hash, Hasher};
use std::marker::Model;

/// A value for each declared property, by its place. Where it fits a layout, numbers and costs are
/// at most 10^18.
#[derive(Drop)]
pub struct Desc {
    values: Vec<Value>,
}

impl Model for Desc {
    ghost use Rattle.std.specs.Prelude.{List};
    ghost use Rattle.pr_value.specs.declared.value.Value.{Value as AnyValue};

    ghost Value = { List AnyValue };

    ghost view = { λ d. d.values.items };
}

// The value, or the default of the kind where it is not seen.
fn seen_value(alloc: Global, seen: bool, kind: Kind, value: &Value) -> Result<Value, Memory>
    ensures { IfOk result (λ v. v ≡ (if seen then value.now else default_of kind)) }
{
    if seen {
        value.copy(alloc)
    } else {
        Value::default_of(alloc, kind)
    }
}

// The value that is wanted, where one is.
fn asked_value(alloc: Global, is_wanted: bool, wanted: &Value, own: &Value) -> Result<Value, Memory>
    ensures { IfOk result (λ v. v ≡ (if is_wanted then wanted.now else own.now)) }
{
    if is_wanted {
        wanted.copy(alloc)
    } else {
        own.copy(alloc)
    }
}

fn least(a: usize, b: usize, c: usize) -> usize
    ensures first { result ≤ a }
    ensures second { result ≤ b }
    ensures third { result ≤ c }
    ensures one { (n : ℕ) → n ≤ a → n ≤ b → n ≤ c → n ≤ result }
{
    a.min(b).min(c)
}

impl Desc {
    /// Each property at the default of its kind.
    pub fn plain(alloc: Global, layout: &Layout) -> Result<Desc, Memory>
        ensures { IfOk result (λ d. d ≡ plain layout.now) }
    {
        let mut values = Vec::with_capacity(alloc, layout.count())?;
        for property in layout.as_slice() {
            values.push(Value::default_of(alloc, property.kind)?)?;
        }
        Ok(Desc { values })
    }

    pub fn count(&self) -> usize
        ensures { result ≡ length self.now }
    {
        self.values.len()
    }

    /// The value of the property at a place, from 0.
    pub fn get(&self, p: usize) -> &Value
        requires { p < length self.now }
        ensures { slice_get self.now p ≡ Some result.now }
    {
        &self.values[p]
    }

    /// Sets the value of the property at a place. It takes no memory.
    pub fn set(&mut self, p: usize, v: Value)
        requires { p < length self.old }
        ensures value { self.new ≡ slice_set self.old p v }
        ensures fits { (l : List Property) (q : Property) → fits l self.old ≡ true
            → slice_get l p ≡ Some q → has_kind q.kind v ≡ true → fits l self.new ≡ true }
    {
        self.values[p] = v;
    }

    /// The descriptor with each property outside the mask at the default of its kind.
    #[tactic(auto, using(crate::proofs::StepLaws::made_laws))]
    pub fn view(&self, alloc: Global, layout: &Layout, seen: &Mask) -> Result<Desc, Memory>
        ensures { IfOk result (λ d. d ≡ only layout.now seen.now self.now) }
    {
        let places = least(layout.count(), seen.count(), self.count());
        let mut values = Vec::with_capacity(alloc, places)?;
        for p in 0..places {
            let value = seen_value(alloc, seen.on(p), layout.kind(p), self.get(p))?;
            values.push(value)?;
        }
        Ok(Desc { values })
    }

    /// The descriptor with the values of `wanted` at the properties of the mask.
    #[tactic(auto, using(crate::proofs::StepLaws::made_laws))]
    pub fn ask(&self, alloc: Global, physical: &Mask, wanted: &Desc) -> Result<Desc, Memory>
        ensures { IfOk result (λ d. d ≡ asked_of physical.now wanted.now self.now) }
    {
        let places = least(physical.count(), wanted.count(), self.count());
        let mut values = Vec::with_capacity(alloc, places)?;
        for p in 0..places {
            let value = asked_value(alloc, physical.on(p), wanted.get(p), self.get(p))?;
            values.push(value)?;
        }
        Ok(Desc { values })
    }

    /// Whether the value at a place is the default of its variant.
    pub fn is_default(&self, p: usize) -> bool
        requires { p < length self.now }
        ensures { option_map is_default (slice_get self.now p) ≡ Some result }
    {
        self.values[p].is_default()
    }

    /// Whether the descriptors are equal. It takes no memory.
    pub fn same(&self, other: &Desc) -> bool
        ensures value { result ≡ same_desc self.now other.now }
        ensures equal { IsTrue result ↔ (self.now ≡ other.now) }
    {
        self.values.as_slice() == other.values.as_slice()
    }

    /// Whether there is a value of its kind for each property of the layout, and no further one.
    #[tactic(auto, using(crate::proofs::StepLaws::test_laws))]
    pub fn fits(&self, layout: &Layout) -> bool
        ensures { result ≡ fits layout.now self.now }
    {
        if self.count() != layout.count() {
            return false;
        }
        for p in 0..self.count() {
            if !self.get(p).has_kind(layout.kind(p)) {
                return false;
            }
        }
        true
    }

    /// An equal descriptor.
    pub fn copy(&self, alloc: Global) -> Result<Desc, Memory>
        ensures { IfOk result (λ d. d ≡ self.now) }
    {
        let mut values = Vec::with_capacity(alloc, self.count())?;
        for value in self.values.as_slice() {
            values.push(value.copy(alloc)?)?;
        }
        Ok(Desc { values })
    }
}

impl PartialEq for Desc {
    ghost eq = { same_desc };

    ghost laws = { partial_equiv_from_equiv (decided same_desc same_desc-Decides) };

    fn eq(&self, other: &Desc) -> bool {
        self.same(other)
    }
}

impl Eq for Desc {
    ghost laws = { decided same_desc same_desc-Decides };
}

impl Hash for Desc {
    ghost hash_input = { hashed_desc };

    ghost respects_eq = { (same_Alike hashed_desc same_desc-Decides).fed };

    fn hash<H: Hasher>(&self, state: &mut H) {
        self.values.hash(state);
    }
}
