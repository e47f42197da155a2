ghost use Rattle.std.specs.Prelude.{◌≡◌, ◌↔◌, ◌≤◌, ℕ, List, All, IfOk, IsTrue, length, true};
ghost use Rattle.std.specs.List.{AllZip};
ghost use Rattle.action_eval.specs.Cost.{cost_of, is_over};
ghost use Rattle.action_eval.specs.SeenForms.{seen_form};

use pr_value::{Boxed, CAP, Memory, cap_add};
use std::alloc::Global;

/// A cost as a function of the costs of the inputs.
#[derive(Drop)]
pub enum CostForm {
    /// The same whatever the inputs cost; past 10^18 it counts as 10^18.
    Number(u64),
    /// The cost of the input at this place, from 0.
    Input(usize),
    Sum(Boxed<CostForm>, Boxed<CostForm>),
    /// The greater of two costs.
    Greater(Boxed<CostForm>, Boxed<CostForm>),
    /// The lesser of two costs.
    Lesser(Boxed<CostForm>, Boxed<CostForm>),
    /// The cost so many times.
    Multiple(u64, Boxed<CostForm>),
}

impl CostForm {
    /// The cost over the costs of the inputs, each 0 to 10^18. It takes no memory.
    pub fn value(&self, inputs: &[u64]) -> u64
        requires over { is_over (length inputs.now) (seen_form self.now) ≡ true }
        requires capped { All (λ c. c ≤ CAP) inputs.now }
        ensures value { result ≡ cost_of (seen_form self.now) inputs.now }
        ensures within { result ≤ CAP }
        ensures never_falls { (low : List ℕ) → AllZip (λ x y. x ≤ y) low inputs.now → cost_of (seen_form self.now) low ≤ result }
    {
        match self {
            CostForm::Number(number) => (*number).min(CAP),
            CostForm::Input(place) => inputs[*place],
            CostForm::Sum(a, b) => cap_add(a.get().value(inputs), b.get().value(inputs)),
            CostForm::Greater(a, b) => a.get().value(inputs).max(b.get().value(inputs)),
            CostForm::Lesser(a, b) => a.get().value(inputs).min(b.get().value(inputs)),
            CostForm::Multiple(number, a) => {
                number.saturating_mul(a.get().value(inputs)).min(CAP)
            }
        }
    }

    /// Whether the forms are equal. It takes no memory.
    pub fn same(&self, other: &CostForm) -> bool
        ensures { IsTrue result ↔ (seen_form self.now ≡ seen_form other.now) }
    {
        match (self, other) {
            (CostForm::Number(m), CostForm::Number(n)) => *m == *n,
            (CostForm::Input(i), CostForm::Input(j)) => *i == *j,
            (CostForm::Sum(a, b), CostForm::Sum(c, d)) => {
                a.get().same(c.get()) && b.get().same(d.get())
            }
            (CostForm::Greater(a, b), CostForm::Greater(c, d)) => {
                a.get().same(c.get()) && b.get().same(d.get())
            }
            (CostForm::Lesser(a, b), CostForm::Lesser(c, d)) => {
                a.get().same(c.get()) && b.get().same(d.get())
            }
            (CostForm::Multiple(m, a), CostForm::Multiple(n, b)) => {
                *m == *n && a.get().same(b.get())
            }
            _ => false,
        }
    }

    /// An equal form.
    #[cycle(copy)]
    pub fn copy(&self, alloc: Global) -> Result<CostForm, Memory>
        ensures { IfOk result (λ f. f ≡ self.now) }
    {
        match self {
            CostForm::Number(number) => Ok(CostForm::Number(*number)),
            CostForm::Input(place) => Ok(CostForm::Input(*place)),
            CostForm::Sum(a, b) => {
                Ok(CostForm::Sum(copied(alloc, a.get())?, copied(alloc, b.get())?))
            }
            CostForm::Greater(a, b) => {
                Ok(CostForm::Greater(copied(alloc, a.get())?, copied(alloc, b.get())?))
            }
            CostForm::Lesser(a, b) => {
                Ok(CostForm::Lesser(copied(alloc, a.get())?, copied(alloc, b.get())?))
            }
            CostForm::Multiple(number, a) => {
                Ok(CostForm::Multiple(*number, copied(alloc, a.get())?))
            }
        }
    }
}

// A copy in memory of its own.
#[cycle(copy)]
fn copied(alloc: Global, form: &CostForm) -> Result<Boxed<CostForm>, Memory>
    ensures { IfOk result (λ f. f ≡ form.now) }
{
    boxed(alloc, form.copy(alloc)?)
}

/// The form in memory of its own.
pub fn boxed(alloc: Global, form: CostForm) -> Result<Boxed<CostForm>, Memory>
    ensures { IfOk result (λ f. f ≡ form) }
{
    Ok(Boxed::new(alloc, form)?)
}
