ghost use Rattle.std.specs.Prelude.{◌≡◌, ◌↔◌, Bool, true, IfOk, IsTrue};

use pr_value::Memory;
use std::alloc::Global;
use std::hash::Hash;

/// A label of a tree. Labels that are equal by `==` are the same label.
pub trait Label: Eq + Hash {
    ghost same_view: { Self → Self → Bool };

    ghost on_edge: { Self → Bool };

    /// Whether two labels are equal. It agrees with `==`.
    fn same(&self, other: &Self) -> bool
        ensures { IsTrue result ↔ (self.now ≡ other.now) };

    /// Whether two labels look the same to what stands above them.
    fn same_view(&self, other: &Self) -> bool
        ensures { result ≡ same_view self.now other.now };

    /// Whether the label only changes how its one input is seen.
    fn on_edge(&self) -> bool
        ensures { result ≡ on_edge self.now };

    /// The same label again.
    fn copy(&self, alloc: Global) -> Result<Self, Memory>
        ensures { IfOk result (λ c. c ≡ self.now) };

    ghost same_is: { (a b : Self) → Self.PartialEq.eq a b ≡ true → a ≡ b };
}

/// A number as a label: it is its own view, and on no edge.
impl Label for u64 {
    ghost use Rattle.std.specs.Prelude.{ℕ, false, nat_eq};
    ghost use Rattle.derivation.specs.Numbers.{nat_eq_is};

    ghost same_view = { nat_eq };

    ghost on_edge = { λ _. false };

    ghost same_is = { nat_eq_is };

    fn same(&self, other: &u64) -> bool {
        *self == *other
    }

    fn same_view(&self, other: &u64) -> bool {
        *self == *other
    }

    fn on_edge(&self) -> bool {
        false
    }

    fn copy(&self, _alloc: Global) -> Result<u64, Memory> {
        Ok(*self)
    }
}
