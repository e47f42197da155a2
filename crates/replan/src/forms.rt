ghost use Rattle.std.specs.Prelude.{◌≡◌, ℕ, Bool, true};
ghost use Rattle.best_plan.specs.Moves.{IsAlternative};
ghost use Rattle.replan.specs.Alike.{AreAlike};

use best_plan::Moves;

/// Moves whose alternatives can be compared across tables of moves.
pub trait Forms: Moves {
    /// Whether an alternative has the form of one of other moves.
    ghost same_form: { Self → ℕ → ℕ → Self → ℕ → ℕ → Bool };

    /// True only where both alternatives have as many inputs, and the same cost for all costs of
    /// inputs. It takes no memory.
    fn same_form(&self, goal: u32, k: usize, other: &Self, other_goal: u32, other_k: usize) -> bool
        requires alternative { IsAlternative (Self.graph self.now) goal k }
        requires other { IsAlternative (Self.graph other.now) other_goal other_k }
        ensures { result ≡ same_form self.now goal k other.now other_goal other_k };

    ghost alike: { (s t : Self) (g k h j : ℕ) → IsAlternative (Self.graph s) g k
        → IsAlternative (Self.graph t) h j → same_form s g k t h j ≡ true
        → AreAlike ((Self.graph s).alternative g k) ((Self.graph t).alternative h j) };
}
