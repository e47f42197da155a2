// What is known of a rule set that is accepted.
ghost use Rattle.rule_ast.specs.SeenRules.{seen_rules};
ghost use Rattle.rule_types.specs.AcceptedLaws.{AssignsCostsLast, AssignsPhysical, ChangesItsOwn, GivesCosts, HasArities, HasDistinctDescs, HasDistinctNames, HasKnownSides, HasNoCopies, HasOneCost, HasSoundNulls, HasSoundSides, IsWellTyped, IsWithinLimits, ReadsCostsLast};

use crate::accepted::Accepted;

impl Accepted {
    /// Helpers, initializers and rules are well typed, each over the names that it may use.
    pub fn type_laws(&self)
        ensures typed { IsWellTyped (seen_rules self.now.rules) }
    {}

    /// How many there are of each, and which names are distinct.
    pub fn name_laws(&self)
        ensures limits { IsWithinLimits (seen_rules self.now.rules) }
        ensures names { HasDistinctNames (seen_rules self.now.rules) }
        ensures descs { HasDistinctDescs (seen_rules self.now.rules) }
    {}

    /// Operators and algorithms take 1 to 4 inputs, and what stands on a side is declared and has
    /// as many as it takes.
    pub fn arity_laws(&self)
        ensures arities { HasArities (seen_rules self.now.rules) }
        ensures known { HasKnownSides (seen_rules self.now.rules) }
    {}

    /// The streams, the enforcers and the sizes of the sides of rules.
    pub fn side_laws(&self)
        ensures sides { HasSoundSides (seen_rules self.now.rules) }
    {}

    /// One property is the cost, and each I-rule ends with it: a form over the costs of its inputs.
    /// It is assigned and read nowhere else, and no I-rule copies a descriptor.
    pub fn cost_laws(&self)
        ensures one { HasOneCost (seen_rules self.now.rules) }
        ensures forms { GivesCosts (seen_rules self.now.rules) }
        ensures assigned { AssignsCostsLast (seen_rules self.now.rules) }
        ensures read { ReadsCostsLast (seen_rules self.now.rules) }
        ensures copies { HasNoCopies (seen_rules self.now.rules) }
    {}

    /// Which descriptors statements change, which properties of inputs and of right nodes they
    /// assign, and what rules to `Null` do behind their test.
    pub fn statement_laws(&self)
        ensures own { ChangesItsOwn (seen_rules self.now.rules) }
        ensures physical { AssignsPhysical (seen_rules self.now.rules) }
        ensures nulls { HasSoundNulls (seen_rules self.now.rules) }
    {}
}
