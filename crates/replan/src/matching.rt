// Whether a goal of the new moves matches its place in the old.
ghost use Rattle.std.specs.Prelude.{◌≡◌, ℕ, ◌<◌, true, false, Some, None, IfSome, slice_get};
ghost use Rattle.std.specs.List.{AllZip};
ghost use Rattle.best_plan.specs.Moves.{IsAlternative, IsUnfolded};
ghost use Rattle.replan.specs.Carried.{Matches, KeptAs, place, flagged};

use crate::forms::Forms;

/// The goal's place, where the goal matches it.
pub fn matching<M: Forms>(
    old: &M,
    new: &M,
    places: &[Option<u32>],
    kept: &[bool],
    goal: u32,
) -> Option<u32>
    requires there { goal < (M.graph new.now).goals }
    ensures some { let form = λ (g k h j : ℕ). M.same_form new.now g k old.now h j in
        IfSome result (λ h. Matches (M.graph old.now) (M.graph new.now) form places.now
        (flagged kept.now) goal h) }
    ensures none { let form = λ (g k h j : ℕ). M.same_form new.now g k old.now h j in
        result ≡ None → (h : ℕ) → Matches (M.graph old.now) (M.graph new.now) form places.now
        (flagged kept.now) goal h → ⊥ }
{
    match place_of(places, goal) {
        Some(was) => {
            if is_match(old, new, places, kept, goal, was) {
                Some(was)
            } else {
                None
            }
        }
        None => None,
    }
}

fn place_of(places: &[Option<u32>], goal: u32) -> Option<u32>
    ensures { result ≡ place places.now goal }
{
    match places.get(goal as usize) {
        Some(place) => *place,
        None => None,
    }
}

fn flag_of(kept: &[bool], goal: u32) -> bool
    ensures { result ≡ flagged kept.now goal }
{
    match kept.get(goal as usize) {
        Some(flag) => *flag,
        None => false,
    }
}

/// Whether the goal matches that place.
fn is_match<M: Forms>(
    old: &M,
    new: &M,
    places: &[Option<u32>],
    kept: &[bool],
    goal: u32,
    was: u32,
) -> bool
    requires there { goal < (M.graph new.now).goals }
    requires place { place places.now goal ≡ Some was }
    ensures yes { let form = λ (g k h j : ℕ). M.same_form new.now g k old.now h j in
        result ≡ true → Matches (M.graph old.now) (M.graph new.now) form places.now
        (flagged kept.now) goal was }
    ensures no { let form = λ (g k h j : ℕ). M.same_form new.now g k old.now h j in
        result ≡ false → Matches (M.graph old.now) (M.graph new.now) form places.now
        (flagged kept.now) goal was → ⊥ }
{
    if was >= old.goals() || !old.unfolded(was) || !new.unfolded(goal) {
        return false;
    }
    if old.count(was) != new.count(goal) {
        return false;
    }
    for k in 0..new.count(goal) {
        if !new.same_form(goal, k, old, was, k) {
            return false;
        }
        if !inputs_match(old, new, places, kept, goal, was, k) {
            return false;
        }
    }
    true
}

/// Whether the inputs of the alternatives are kept, in order, as each other.
fn inputs_match<M: Forms>(
    old: &M,
    new: &M,
    places: &[Option<u32>],
    kept: &[bool],
    goal: u32,
    was: u32,
    k: usize,
) -> bool
    requires new { IsAlternative (M.graph new.now) goal k }
    requires old { IsAlternative (M.graph old.now) was k }
    ensures yes { result ≡ true → AllZip (KeptAs (flagged kept.now) places.now)
        ((M.graph new.now).alternative goal k).inputs ((M.graph old.now).alternative was k).inputs }
    ensures no { result ≡ false → AllZip (KeptAs (flagged kept.now) places.now)
        ((M.graph new.now).alternative goal k).inputs ((M.graph old.now).alternative was k).inputs
        → ⊥ }
{
    let n = new.input_count(goal, k);
    if n != old.input_count(was, k) {
        return false;
    }
    for i in 0..n {
        let input = new.input(goal, k, i);
        if !is_kept_as(places, kept, input, old.input(was, k, i)) {
            return false;
        }
    }
    true
}

fn is_kept_as(places: &[Option<u32>], kept: &[bool], goal: u32, was: u32) -> bool
    ensures yes { result ≡ true → KeptAs (flagged kept.now) places.now goal was }
    ensures no { result ≡ false → KeptAs (flagged kept.now) places.now goal was → ⊥ }
{
    if !flag_of(kept, goal) {
        return false;
    }
    match place_of(places, goal) {
        Some(place) => place == was,
        None => false,
    }
}
