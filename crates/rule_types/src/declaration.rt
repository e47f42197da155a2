use pr_value::Property;
use rule_ast::{Algorithm, Helper, IRule, Operator, TRule};

/// A declaration of a rule set, and those of its section that stand before it.
#[derive(Clone, Copy)]
pub enum Declaration<'a> {
    Property {
        before: &'a [Property],
        this: &'a Property,
    },
    Operator {
        before: &'a [Operator],
        this: &'a Operator,
    },
    Algorithm {
        before: &'a [Algorithm],
        this: &'a Algorithm,
    },
    Helper {
        before: &'a [Helper],
        this: &'a Helper,
    },
    TRule {
        before: &'a [TRule],
        this: &'a TRule,
    },
    IRule {
        before: &'a [IRule],
        this: &'a IRule,
    },
}
