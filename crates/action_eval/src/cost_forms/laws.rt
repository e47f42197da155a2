// Laws of cost forms that no call states alone.
ghost use Rattle.action_eval.specs.CostLaws.{NeverFalls, AtMostCap};

/// A cost never falls where an input's cost rises, and is at most 10^18.
pub fn cost_laws()
    ensures never_falls { NeverFalls }
    ensures at_most_cap { AtMostCap }
{}
