// Conditions on where enforcers stand, and on where physical properties are assigned.
ghost use Rattle.std.specs.Prelude.{◌≡◌, map};
ghost use Rattle.rule_ast.specs.Seen.{seen_irule, seen_right};
ghost use Rattle.rule_ast.specs.SeenRules.{seen_rules};
ghost use Rattle.rule_types.specs.LaterConditions as spec;
ghost use Rattle.rule_types.specs.LaterConditions.{assigns_physical, assigns_unphysical, is_left_enforcer, is_plain_node};
ghost use Rattle.rule_types.specs.SeenDeclarations.{seen_declaration};

use crate::conditions::targets::is_input;
use crate::declaration::Declaration;
use crate::folds::Folds;
use crate::roles::Roles;
use crate::sides::{LeftQuestion, RightQuestion, any_left, any_right};
use crate::uses::{Use, UseQuestion, uses};
use pr_value::Symbol;
use rule_ast::{ImplIn, Right};

// An enforcer on a left side.
#[derive(Drop)]
struct LeftEnforcer<'a> {
    roles: &'a Roles<'a>,
}

impl LeftQuestion for LeftEnforcer<'_> {
    ghost asked = { λ q. is_left_enforcer (map seen_irule q.roles.now.rules.now.irules) };

    fn asks_operator(&self, op: &Symbol, _desc: &Symbol, _inputs: usize) -> bool {
        self.roles.is_enforcer(op)
    }

    fn asks_stream(&self, _number: u64, _desc: &Symbol) -> bool {
        false
    }
}

/// Whether the declaration is a T-rule with an enforcer on its left side.
pub fn enforcer_left(roles: &Roles, d: &Declaration) -> bool
    ensures { result
        ≡ spec.enforcer_left (seen_rules roles.now.rules.now) (seen_declaration d.now) }
{
    match d {
        Declaration::TRule { this, .. } => any_left(&this.left, &LeftEnforcer { roles }),
        _ => false,
    }
}

/// Whether the declaration is a T-rule with an enforcer at the root of its right side.
pub fn enforcer_root(roles: &Roles, d: &Declaration) -> bool
    ensures { result
        ≡ spec.enforcer_root (seen_rules roles.now.rules.now) (seen_declaration d.now) }
{
    match d {
        Declaration::TRule { this, .. } => roles.is_enforcer(&this.right.op),
        _ => false,
    }
}

// A node of this descriptor that is no enforcer.
#[derive(Drop)]
struct PlainNode<'a> {
    roles: &'a Roles<'a>,
    desc: &'a Symbol,
}

impl RightQuestion for PlainNode<'_> {
    ghost asked = { λ q. is_plain_node (map seen_irule q.roles.now.rules.now.irules) q.desc.now };

    fn asks_operator(&self, op: &Symbol, desc: &Symbol, _inputs: usize) -> bool {
        desc == self.desc && !self.roles.is_enforcer(op)
    }

    fn asks_stream(&self, _number: u64) -> bool {
        false
    }
}

// An assignment of a physical property to a node of this side that is no enforcer.
#[derive(Drop)]
struct AssignsPhysical<'a> {
    roles: &'a Roles<'a>,
    right: &'a Right,
}

impl UseQuestion for AssignsPhysical<'_> {
    ghost asked = { λ q. assigns_physical (map seen_irule q.roles.now.rules.now.irules)
        (seen_right q.right.now) };

    fn asks(&self, _folds: &Folds, used: &Use) -> bool {
        match used {
            Use::Assigning { desc, property } => {
                let node = PlainNode {
                    roles: self.roles,
                    desc,
                };
                self.roles.is_physical(property) && any_right(self.right, &node)
            }
            _ => false,
        }
    }
}

/// Whether the declaration is a T-rule that assigns a physical property of a node that is no
/// enforcer.
pub fn physical_in_trule(roles: &Roles, d: &Declaration) -> bool
    ensures { result
        ≡ spec.physical_in_trule (seen_rules roles.now.rules.now) (seen_declaration d.now) }
{
    match d {
        Declaration::TRule { this, .. } => {
            let question = AssignsPhysical {
                roles,
                right: &this.right,
            };
            uses(d, &question)
        }
        _ => false,
    }
}

// An assignment of a property that is not physical to one of these inputs.
#[derive(Drop)]
struct AssignsUnphysical<'a> {
    roles: &'a Roles<'a>,
    inputs: &'a [ImplIn],
}

impl UseQuestion for AssignsUnphysical<'_> {
    ghost asked = { λ q. assigns_unphysical (map seen_irule q.roles.now.rules.now.irules)
        q.inputs.now };

    fn asks(&self, _folds: &Folds, used: &Use) -> bool {
        match used {
            Use::Assigning { desc, property } => {
                is_input(self.inputs, desc) && !self.roles.is_physical(property)
            }
            _ => false,
        }
    }
}

/// Whether the declaration is an I-rule that assigns a property of an input of the algorithm that
/// is not physical.
pub fn input_not_physical(roles: &Roles, d: &Declaration) -> bool
    ensures { result
        ≡ spec.input_not_physical (seen_rules roles.now.rules.now) (seen_declaration d.now) }
{
    match d {
        Declaration::IRule { this, .. } => {
            let question = AssignsUnphysical {
                roles,
                inputs: this.right.inputs.as_slice(),
            };
            uses(d, &question)
        }
        _ => false,
    }
}
