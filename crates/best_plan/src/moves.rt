ghost use Rattle.std.specs.Prelude.{◌≡◌, ℕ, ◌+◌, ◌≤◌, ◌<◌, ◌↔◌, Bool, true, List, length, OnOk, slice_get, Some, Err};
ghost use Rattle.std.specs.List.{AllByRecursion};
ghost use Rattle.pr_value.specs.Capped.{cap};
ghost use Rattle.best_plan.specs.Moves.{Graph, Extends, IsAlternative, IsUnfolded, AreChoices, AreMoves, KeepsAnswers};

/// Why a goal was not unfolded.
#[derive(Clone, Copy, PartialEq, Eq, Debug)]
pub enum UnfoldError {
    /// There was not enough memory.
    Memory,
    /// There are more goals than are allowed.
    GoalsFull,
}

/// Goals with alternatives, which are listed when a goal is unfolded. Goals are numbered from 0,
/// and so are a goal's alternatives. Only `unfold` takes memory.
pub trait Choices {
    /// What is known of the goals.
    ghost graph: { Self → Graph };

    /// There are more goals than are allowed, if all are counted. No call changes this.
    ghost over: { Self → Type 0 };

    /// The second is what the first may become by unfolding.
    ghost later: { Self → Self → Type 0 };

    /// How many goals are there.
    fn goals(&self) -> u32
        ensures { result ≡ (graph self.now).goals };

    /// Whether the goal is there and its alternatives are listed.
    fn unfolded(&self, goal: u32) -> bool
        ensures { result ≡ (graph self.now).unfolded goal };

    /// Lists the goal's alternatives. After an error goals may have been added.
    fn unfold(&mut self, goal: u32) -> Result<(), UnfoldError>
        requires there { goal < (graph self.old).goals }
        ensures later { later self.old self.new }
        ensures unfolded { OnOk result ((graph self.new).unfolded goal ≡ true) }
        ensures full { result ≡ Err UnfoldError.GoalsFull → over self.old };

    /// How many alternatives the goal has.
    fn count(&self, goal: u32) -> usize
        requires unfolded { IsUnfolded (graph self.now) goal }
        ensures { result ≡ (graph self.now).count goal };

    /// How many inputs the alternative has, from 0 to 4.
    fn input_count(&self, goal: u32, k: usize) -> usize
        requires alternative { IsAlternative (graph self.now) goal k }
        ensures { result ≡ length ((graph self.now).alternative goal k).inputs };

    /// The goal that is the alternative's input at that place.
    fn input(&self, goal: u32, k: usize, i: usize) -> u32
        requires alternative { IsAlternative (graph self.now) goal k }
        requires place { i < length ((graph self.now).alternative goal k).inputs }
        ensures { slice_get ((graph self.now).alternative goal k).inputs i ≡ Some result };

    /// What the alternative costs where its inputs cost so much, from 0 to 10^18.
    fn cost(&self, goal: u32, k: usize, inputs: &[u64]) -> u64
        requires alternative { IsAlternative (graph self.now) goal k }
        requires each { length inputs.now ≡ length ((graph self.now).alternative goal k).inputs }
        requires capped { AllByRecursion (λ c. c ≤ cap) inputs.now }
        ensures { result ≡ ((graph self.now).alternative goal k).cost inputs.now };

    /// The alternatives keep their laws in every state.
    ghost lawful: { (s : Self) → AreChoices (graph s) };

    ghost same: { (s : Self) → later s s };

    ghost chain: { (s t u : Self) → later s t → later t u → later s u };

    /// Nothing that was known changes.
    ghost grows: { (s t : Self) → later s t → Extends (graph s) (graph t) };

    ghost steady: { (s t : Self) → later s t → over s ↔ over t };
}

/// Choices without loops, where it is settled which costs each goal reaches.
pub trait Moves: Choices {
    ghost rank: { Self → ℕ → ℕ };

    /// Which costs each goal reaches, unfolded or not.
    ghost reaches: { Self → ℕ → ℕ → Type 0 };

    /// A number that is greater than the rank of every input. It takes no memory.
    fn rank(&self, goal: u32) -> u32
        requires there { goal < (Self.graph self.now).goals }
        ensures { result ≡ rank self.now goal };

    /// They are a table of moves in every state.
    ghost ruled: { (s : Self) → AreMoves (Self.graph s) (rank s) (reaches s) };

    /// Unfolding changes no answer for a goal that was there.
    ghost settled: { (s t : Self) → Self.later s t
        → KeepsAnswers (Self.graph s) (rank s) (rank t) (reaches s) (reaches t) };
}
