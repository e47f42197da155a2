use pr_value::Symbol;

/// Why a rule set is not accepted, in the order in which the conditions are asked.
#[derive(Clone, Copy, PartialEq, Eq)]
pub enum RefusalKind {
    /// More than 64 properties, or more than 255 operators, algorithms, helpers, T-rules or
    /// I-rules; named is the first past its limit.
    TooMany,
    /// A name that stands for something already: one of the properties, of the operators and
    /// algorithms, of the helpers and built-in functions, of the rules, or of one scope.
    TwoNames,
    /// No property is a cost. It names nothing.
    NoCost,
    /// A second property is a cost.
    TwoCosts,
    /// A name or a stream that is not declared, or that is declared as something else.
    UnknownName,
    /// An operator or algorithm that has not 1 to 4 inputs, or something with another number of
    /// inputs or arguments than it takes.
    WrongArity,
    /// A helper with a cost as a parameter or result.
    HelperCost,
    /// An expression or a statement that is not well typed, or a test that is no truth.
    WrongType,
    /// A stream that stands twice on a left side.
    LeftStreamTwice,
    /// An I-rule whose right streams are not its left streams, in their order.
    StreamOrder,
    /// A side with more than eight operators.
    TooManyNodes,
    /// An I-rule with more than one operator on its left side.
    LeftNotFlat,
    /// An I-rule with a whole copy.
    CopyPlace,
    /// A statement that changes another descriptor than that of a right node of a T-rule, of an
    /// I-rule's algorithm or its inputs, or the operator's own.
    AssignTarget,
    /// An I-rule with a statement behind the test that changes an input of the algorithm.
    InputInPost,
    /// The cost is assigned elsewhere than in the last statement of an I-rule, to the algorithm.
    CostAssigned,
    /// An I-rule that does not end with that statement.
    CostMissing,
    /// The cost is read elsewhere than of an input of the algorithm in that statement.
    CostRead,
    /// An I-rule whose cost has none of the forms that a cost may have.
    CostForm,
    /// A rule to `Null` that does anything else behind its test than to pass on the input's cost.
    NullForm,
    /// A T-rule with an enforcer on its left side.
    EnforcerLeft,
    /// A T-rule with an enforcer at the root of its right side.
    EnforcerRoot,
    /// A T-rule that assigns a physical property of a right node that is no enforcer.
    PhysicalInTRule,
    /// An I-rule that assigns a property of an input of the algorithm that is not physical.
    InputNotPhysical,
}

/// A condition that holds, and the name that is told with it.
#[derive(Drop)]
pub struct Refused {
    pub kind: RefusalKind,
    pub name: Symbol,
}
