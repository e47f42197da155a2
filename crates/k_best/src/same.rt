// Whether solutions show the same.
ghost use Rattle.std.specs.Prelude.{◌≡◌, ℕ, ◌<◌, length, map, true, false, slice_get, Some, IfOk};
ghost use Rattle.std.specs.List.{AllByRecursion};
ghost use Rattle.best_plan.specs.Moves.{IsAlternative};
ghost use Rattle.k_best.specs.Showings.{shown, shown_by};
ghost use Rattle.k_best.specs.Lists.{AreLabelled, label_at};

use crate::faces::Faces;
use crate::lists::Lists;
use best_plan::Solution;

fn same_labels(lists: &Lists, left: &[usize], right: &[usize]) -> bool
    ensures yes { let labels = lists.now.labels in
        result ≡ true → map (label_at labels) left.now ≡ map (label_at labels) right.now }
    ensures no { let labels = lists.now.labels in
        result ≡ false → map (label_at labels) left.now ≡ map (label_at labels) right.now → ⊥ }
{
    if left.len() != right.len() {
        return false;
    }
    for (i, at) in left.iter().enumerate() {
        if lists.label(*at) != lists.label(right[i]) {
            return false;
        }
    }
    true
}

/// Whether both show the same. The inputs of both have labels.
pub fn same<M: Faces>(moves: &M, lists: &Lists, left: &Solution, right: &Solution) -> bool
    requires left { IsAlternative (M.graph moves.now) left.now.goal left.now.k }
    requires right { IsAlternative (M.graph moves.now) right.now.goal right.now.k }
    requires labelled { AreLabelled (M.face moves.now) lists.now.solutions lists.now.labels }
    requires left_inputs { AllByRecursion (λ at. at < length lists.now.labels) left.now.inputs }
    requires right_inputs { AllByRecursion (λ at. at < length lists.now.labels) right.now.inputs }
    ensures yes { let seen = shown (M.face moves.now) lists.now.solutions in
        let f = M.face moves.now in
        result ≡ true → shown_by f seen left.now ≡ shown_by f seen right.now }
    ensures no { let seen = shown (M.face moves.now) lists.now.solutions in
        let f = M.face moves.now in
        result ≡ false → shown_by f seen left.now ≡ shown_by f seen right.now → ⊥ }
{
    if left.cost != right.cost {
        return false;
    }
    if moves.face(left.goal, left.k) != moves.face(right.goal, right.k) {
        return false;
    }
    same_labels(lists, left.inputs.as_slice(), right.inputs.as_slice())
}
