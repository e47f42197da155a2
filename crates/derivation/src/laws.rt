ghost use Rattle.std.specs.Prelude.{◌≡◌, ◌↔◌, true};
ghost use Rattle.derivation.specs.Laws.{ClosedLevelIsAll, AlikeAreJoined, FixedStayApart, CountDecides, LinesJoin};

use crate::label::Label;
use crate::steps::Steps;

/// What holds of joined trees whatever the labels and the steps are: once a level joins nothing
/// new, no later one does; trees that are met and alike are joined; a tree whose root no rule
/// touches is joined to trees that are alike alone; a list that has one of each kind of trees
/// tells how many there are; and lists of lines equate just what is joined.
pub fn joined_laws<L: Label, S: Steps<L>>(_steps: &S)
    ensures closed { ClosedLevelIsAll (S.stepped _steps.now) }
    ensures alike { AlikeAreJoined (S.stepped _steps.now) }
    ensures apart { FixedStayApart (S.stepped _steps.now) }
    ensures count { CountDecides (S.stepped _steps.now) }
    ensures lines { LinesJoin (S.stepped _steps.now) }
{}

/// Labels are equal by `==` exactly where they are the same.
pub fn label_laws<L: Label>(_label: &L)
    ensures { (a b : L) → (L.PartialEq.eq a b ≡ true) ↔ (a ≡ b) }
{}
