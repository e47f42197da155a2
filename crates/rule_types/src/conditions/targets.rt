// Conditions on which descriptors statements change.
ghost use Rattle.std.specs.Prelude.{◌≡◌};
ghost use Rattle.pr_value.specs.SymbolSets.{contains};
ghost use Rattle.rule_ast.specs.Descs.{names_of};
ghost use Rattle.rule_types.specs.LaterConditions as spec;
ghost use Rattle.rule_types.specs.LaterConditions.{changes_another, changes_input, has_desc, is_copy};
ghost use Rattle.rule_types.specs.SeenDeclarations.{seen_declaration};

use crate::declaration::Declaration;
use crate::folds::Folds;
use crate::sides::{RightQuestion, any_right};
use crate::uses::{Use, UseQuestion, any_use_in_stmts, uses};
use pr_value::Symbol;
use rule_ast::ImplIn;

/// Whether the descriptor is that of one of these inputs.
pub fn is_input(inputs: &[ImplIn], desc: &Symbol) -> bool
    ensures { result ≡ contains (names_of inputs.now) desc.now }
{
    for input in inputs {
        if *desc == input.desc {
            return true;
        }
    }
    false
}

// A whole copy.
#[derive(Drop)]
struct IsCopy;

impl UseQuestion for IsCopy {
    ghost asked = { λ q. is_copy };

    fn asks(&self, _folds: &Folds, used: &Use) -> bool {
        matches!(used, Use::Copying { .. })
    }
}

/// Whether the declaration is an I-rule with a whole copy.
pub fn copy_place(d: &Declaration) -> bool
    ensures { result ≡ spec.copy_place (seen_declaration d.now) }
{
    match d {
        Declaration::IRule { .. } => uses(d, &IsCopy),
        _ => false,
    }
}

// A node of this descriptor.
#[derive(Drop)]
struct HasDesc<'a> {
    desc: &'a Symbol,
}

impl RightQuestion for HasDesc<'_> {
    ghost asked = { λ q. has_desc q.desc.now };

    fn asks_operator(&self, _op: &Symbol, desc: &Symbol, _inputs: usize) -> bool {
        desc == self.desc
    }

    fn asks_stream(&self, _number: u64) -> bool {
        false
    }
}

// Whether the statements of the declaration may change the descriptor.
fn is_target(d: &Declaration, desc: &Symbol) -> bool
    ensures { result ≡ spec.is_target (seen_declaration d.now) desc.now }
{
    match d {
        Declaration::Operator { this, .. } => this.own == *desc,
        Declaration::TRule { this, .. } => any_right(&this.right, &HasDesc { desc }),
        Declaration::IRule { this, .. } => {
            is_input(this.right.inputs.as_slice(), desc) || this.right.desc == *desc
        }
        _ => false,
    }
}

// A change of another descriptor than those that the statements may change.
#[derive(Drop)]
struct ChangesAnother<'a> {
    declaration: &'a Declaration<'a>,
}

impl UseQuestion for ChangesAnother<'_> {
    ghost asked = { λ q. changes_another (seen_declaration q.declaration.now) };

    fn asks(&self, _folds: &Folds, used: &Use) -> bool {
        match used {
            Use::Assigning { desc, .. } => !is_target(self.declaration, desc),
            Use::Copying { to, .. } => !is_target(self.declaration, to),
            _ => false,
        }
    }
}

/// Whether a statement changes another descriptor than it may.
pub fn assign_target(d: &Declaration) -> bool
    ensures { result ≡ spec.assign_target (seen_declaration d.now) }
{
    uses(d, &ChangesAnother { declaration: d })
}

// A change of one of these inputs.
#[derive(Drop)]
struct ChangesInput<'a> {
    inputs: &'a [ImplIn],
}

impl UseQuestion for ChangesInput<'_> {
    ghost asked = { λ q. changes_input q.inputs.now };

    fn asks(&self, _folds: &Folds, used: &Use) -> bool {
        match used {
            Use::Assigning { desc, .. } => is_input(self.inputs, desc),
            Use::Copying { to, .. } => is_input(self.inputs, to),
            _ => false,
        }
    }
}

/// Whether a statement behind the test of an I-rule changes an input of the algorithm.
pub fn input_in_post(d: &Declaration) -> bool
    ensures { result ≡ spec.input_in_post (seen_declaration d.now) }
{
    match d {
        Declaration::IRule { this, .. } => {
            let question = ChangesInput {
                inputs: this.right.inputs.as_slice(),
            };
            any_use_in_stmts(this.body.post.as_slice(), &question)
        }
        _ => false,
    }
}
