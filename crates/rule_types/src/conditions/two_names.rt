ghost use Rattle.std.specs.Prelude.{◌≡◌, ◌||◌, not, IfOk};
ghost use Rattle.pr_value.specs.Repeats.{are_distinct};
ghost use Rattle.pr_value.specs.SymbolSets.{contains, set_of};
ghost use Rattle.rule_ast.specs.SeenRules.{seen_rules};
ghost use Rattle.rule_types.specs.Conditions as spec;
ghost use Rattle.rule_types.specs.Conditions.{earlier_names, is_taken, scope_names};
ghost use Rattle.rule_types.specs.Declarations.{declared_name};
ghost use Rattle.rule_types.specs.SeenDeclarations.{seen_declaration};
ghost use Rattle.rule_types.specs.Uses as asking;

use crate::declaration::Declaration;
use crate::declared::{is_algorithm, is_helper, is_irule, is_operator, is_property, is_trule};
use crate::folds::{Folds, is_fold};
use crate::scope_names::scope_names;
use crate::uses::{Use, UseQuestion, uses};
use pr_value::{Memory, SymSet, Symbol, are_distinct, copy_symbols};
use rule_ast::{Rules, is_builtin};
use std::alloc::Global;

fn has_builtin_name(d: &Declaration) -> bool
    ensures { result ≡ spec.has_builtin_name (seen_declaration d.now) }
{
    match d {
        Declaration::Helper { this, .. } => is_builtin(this.name.as_slice()),
        _ => false,
    }
}

// Whether something of its group before it has the name.
fn is_second(rules: &Rules, d: &Declaration) -> bool
    ensures { result ≡ contains (earlier_names (seen_rules rules.now) (seen_declaration d.now))
        (declared_name (seen_declaration d.now)) }
{
    match d {
        Declaration::Property { before, this } => is_property(before, &this.name),
        Declaration::Operator { before, this } => is_operator(before, &this.name),
        Declaration::Algorithm { before, this } => {
            is_operator(rules.operators.as_slice(), &this.name) || is_algorithm(before, &this.name)
        }
        Declaration::Helper { before, this } => is_helper(before, &this.name),
        Declaration::TRule { before, this } => is_trule(before, &this.name),
        Declaration::IRule { before, this } => {
            is_trule(rules.trules.as_slice(), &this.name) || is_irule(before, &this.name)
        }
    }
}

// A fold that gives members one of these names, or that of a fold around it.
#[derive(Drop)]
struct Taken<'a> {
    names: &'a [Symbol],
    set: &'a SymSet,
    ghost same: { set.now ≡ set_of names.now },
}

impl Taken<'_> {
    fn has(&self, x: &Symbol) -> bool
        ensures { result ≡ contains self.now.names.now x.now }
    {
        self.set.contains(x)
    }
}

impl UseQuestion for Taken<'_> {
    ghost asked = { λ q. is_taken q.names.now };

    fn asks(&self, folds: &Folds, used: &Use) -> bool {
        match used {
            Use::Folding(x) => is_fold(folds, x) || self.has(x),
            _ => false,
        }
    }
}

// Whether one of these names stands twice, or is given once more by a fold.
fn repeats(alloc: Global, names: &[Symbol], d: &Declaration) -> Result<bool, Memory>
    ensures { IfOk result (λ b. b ≡ (not (are_distinct names.now)
        || asking.uses (is_taken names.now) (seen_declaration d.now))) }
{
    if !are_distinct(alloc, names)? {
        return Ok(true);
    }
    let set = SymSet::from_symbols(alloc, copy_symbols(alloc, names)?)?;
    let question = Taken { names, set: &set };
    Ok(uses(d, &question))
}

/// Whether the declaration gives a name that stands for something already.
pub fn two_names(alloc: Global, rules: &Rules, d: &Declaration) -> Result<bool, Memory>
    ensures { IfOk result (λ b. b ≡ spec.two_names (seen_rules rules.now) (seen_declaration d.now)) }
{
    if has_builtin_name(d) {
        return Ok(true);
    }
    if is_second(rules, d) {
        return Ok(true);
    }
    let names = scope_names(alloc, d)?;
    let found = repeats(alloc, names.as_slice(), d)?;
    Ok(found)
}
