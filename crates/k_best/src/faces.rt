ghost use Rattle.std.specs.Prelude.{◌≡◌, ℕ};
ghost use Rattle.best_plan.specs.Moves.{IsAlternative};

use best_plan::Moves;

/// Moves whose alternatives have faces: what is seen of an alternative. Alternatives of one goal
/// may have the same face.
pub trait Faces: Moves {
    ghost face: { Self → ℕ → ℕ → ℕ };

    /// What is seen of the alternative. It takes no memory.
    fn face(&self, goal: u32, k: usize) -> u32
        requires alternative { IsAlternative (Self.graph self.now) goal k }
        ensures { result ≡ face self.now goal k };
}
