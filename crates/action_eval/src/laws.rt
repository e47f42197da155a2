ghost use Rattle.action_eval.specs.EnvLaws.{BindsSoundly, BindsLast, BindsInPlace, BindsInOrder, FoundFits, HasItsKind};

/// What binding does to an environment, and what is found and evaluated in one that is sound.
pub fn env_laws()
    ensures soundly { BindsSoundly }
    ensures last { BindsLast }
    ensures in_place { BindsInPlace }
    ensures in_order { BindsInOrder }
    ensures found { FoundFits }
    ensures kind { HasItsKind }
{}
