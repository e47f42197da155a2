// The condition that a name or a stream is not declared, or is declared as something else.
ghost use Rattle.std.specs.Prelude.{◌≡◌, ◌||◌, ◌&&◌, not, map, IfOk};
ghost use Rattle.std.specs.List.{list_any};
ghost use Rattle.pr_value.specs.SymbolSets.{contains};
ghost use Rattle.rule_ast.specs.Seen.{seen_helper, seen_irule, seen_trule};
ghost use Rattle.rule_ast.specs.SeenRules.{seen_rules};
ghost use Rattle.rule_types.specs.Conditions as spec;
ghost use Rattle.rule_types.specs.Conditions.{has_number, is_unknown_function, is_unknown_left, is_unknown_right, is_unknown_use, property_names};
ghost use Rattle.rule_types.specs.Declarations.{param_names};
ghost use Rattle.rule_types.specs.SeenDeclarations.{seen_declaration};
ghost use Rattle.rule_types.specs.SeenUses.{seen_folds};

use crate::context::Context;
use crate::declaration::Declaration;
use crate::declared::{is_algorithm, is_helper, is_operator, is_property};
use crate::folds::{Folds, is_fold};
use crate::numbers::Numbers;
use crate::scopes::{descs_of, helpers_of, params_of};
use crate::sides::{LeftQuestion, RightQuestion, any_left, any_right};
use crate::uses::{Use, UseQuestion, uses};
use pr_value::{Memory, Property, Symbol};
use rule_ast::{
    AlgName, Helper, IRule, ImplIn, ImplSide, Rules, TRule, is_builtin, stream_numbers,
};
use std::alloc::Global;

// A use of what is not there.
#[derive(Drop)]
struct UnknownUse<'a> {
    properties: &'a [Property],
    helpers: &'a [Helper],
    context: &'a Context<'a>,
}

impl UnknownUse<'_> {
    fn lacks_desc(&self, d: &Symbol) -> bool
        ensures { result ≡ not (contains self.now.context.now.descs.now d.now) }
    {
        !self.context.has_desc(d)
    }

    fn lacks_function(&self, f: &Symbol) -> bool
        ensures { result ≡ is_unknown_function (map seen_helper self.now.helpers.now) f.now }
    {
        !is_builtin(f.as_slice()) && !is_helper(self.helpers, f)
    }

    fn lacks_variable(&self, folds: &Folds, x: &Symbol) -> bool
        ensures { result ≡ (not (contains (seen_folds folds.now) x.now)
            && not (contains (param_names self.now.context.now.vars.now) x.now)) }
    {
        !is_fold(folds, x) && !self.context.has_param(x)
    }

    fn lacks_read(&self, d: &Symbol, p: &Symbol) -> bool
        ensures { result ≡ (not (contains self.now.context.now.descs.now d.now)
            || not (contains (property_names self.now.properties.now) p.now)) }
    {
        self.lacks_desc(d) || !is_property(self.properties, p)
    }
}

impl UseQuestion for UnknownUse<'_> {
    ghost asked = { λ q. is_unknown_use q.properties.now (map seen_helper q.helpers.now)
        q.context.now.descs.now (param_names q.context.now.vars.now) };

    fn asks(&self, folds: &Folds, used: &Use) -> bool {
        match used {
            Use::Variable(x) => self.lacks_variable(folds, x),
            Use::Reading { desc, property } => self.lacks_read(desc, property),
            Use::Calling { function, .. } => self.lacks_function(function),
            Use::Folding(_) => false,
            Use::Assigning { desc, property } => self.lacks_read(desc, property),
            Use::Copying { to, from } => self.lacks_desc(to) || self.lacks_desc(from),
        }
    }
}

// Whether a statement or an expression of the declaration uses what is not there.
fn unknown_in_uses(alloc: Global, rules: &Rules, d: &Declaration) -> Result<bool, Memory>
    ensures { IfOk result
        (λ b. b ≡ spec.unknown_in_uses (seen_rules rules.now) (seen_declaration d.now)) }
{
    let descs = descs_of(alloc, d)?;
    let context = Context::new(alloc, descs.as_slice(), params_of(d))?;
    let question = UnknownUse {
        properties: rules.properties.as_slice(),
        helpers: helpers_of(rules, d),
        context: &context,
    };
    Ok(uses(d, &question))
}

// An operator of a left side that is not declared.
#[derive(Drop)]
struct UnknownLeft<'a> {
    rules: &'a Rules,
}

impl LeftQuestion for UnknownLeft<'_> {
    ghost asked = { λ q. is_unknown_left (seen_rules q.rules.now) };

    fn asks_operator(&self, op: &Symbol, _desc: &Symbol, _inputs: usize) -> bool {
        !is_operator(self.rules.operators.as_slice(), op)
    }

    fn asks_stream(&self, _number: u64, _desc: &Symbol) -> bool {
        false
    }
}

// An operator of a right side that is not declared, or a stream that the left side lacks.
#[derive(Drop)]
struct UnknownRight<'a> {
    rules: &'a Rules,
    numbers: &'a Numbers<'a>,
}

impl RightQuestion for UnknownRight<'_> {
    ghost asked = { λ q. is_unknown_right (seen_rules q.rules.now) q.numbers.now.given.now };

    fn asks_operator(&self, op: &Symbol, _desc: &Symbol, _inputs: usize) -> bool {
        !is_operator(self.rules.operators.as_slice(), op)
    }

    fn asks_stream(&self, number: u64) -> bool {
        !self.numbers.has(number)
    }
}

fn is_unknown_algorithm(rules: &Rules, name: &AlgName) -> bool
    ensures { result ≡ spec.is_unknown_algorithm (seen_rules rules.now) name.now }
{
    match name {
        AlgName::Named(name) => !is_algorithm(rules.algorithms.as_slice(), name),
        AlgName::Null => false,
    }
}

fn lacks_input(inputs: &[ImplIn], numbers: &Numbers) -> bool
    ensures { result
        ≡ list_any (λ i. not (has_number numbers.now.given.now i.number)) inputs.now }
{
    inputs.iter().any(|input| !numbers.has(input.number))
}

fn is_unknown_impl(rules: &Rules, numbers: &Numbers, side: &ImplSide) -> bool
    ensures { result
        ≡ spec.is_unknown_impl (seen_rules rules.now) numbers.now.given.now side.now }
{
    is_unknown_algorithm(rules, &side.alg) || lacks_input(side.inputs.as_slice(), numbers)
}

fn unknown_in_trule(alloc: Global, rules: &Rules, rule: &TRule) -> Result<bool, Memory>
    ensures { IfOk result
        (λ b. b ≡ spec.unknown_in_trule (seen_rules rules.now) (seen_trule rule.now)) }
{
    let streams = stream_numbers(alloc, &rule.left)?;
    let numbers = Numbers::new(alloc, streams.as_slice())?;
    let right = UnknownRight {
        rules,
        numbers: &numbers,
    };
    Ok(any_left(&rule.left, &UnknownLeft { rules }) || any_right(&rule.right, &right))
}

fn unknown_in_irule(alloc: Global, rules: &Rules, rule: &IRule) -> Result<bool, Memory>
    ensures { IfOk result
        (λ b. b ≡ spec.unknown_in_irule (seen_rules rules.now) (seen_irule rule.now)) }
{
    let streams = stream_numbers(alloc, &rule.left)?;
    let numbers = Numbers::new(alloc, streams.as_slice())?;
    Ok(
        any_left(&rule.left, &UnknownLeft { rules })
            || is_unknown_impl(rules, &numbers, &rule.right),
    )
}

fn unknown_in_sides(alloc: Global, rules: &Rules, d: &Declaration) -> Result<bool, Memory>
    ensures { IfOk result
        (λ b. b ≡ spec.unknown_in_sides (seen_rules rules.now) (seen_declaration d.now)) }
{
    match d {
        Declaration::TRule { this, .. } => unknown_in_trule(alloc, rules, this),
        Declaration::IRule { this, .. } => unknown_in_irule(alloc, rules, this),
        _ => Ok(false),
    }
}

/// Whether the declaration uses a name or a stream that is not declared.
pub fn unknown_name(alloc: Global, rules: &Rules, d: &Declaration) -> Result<bool, Memory>
    ensures { IfOk result
        (λ b. b ≡ spec.unknown_name (seen_rules rules.now) (seen_declaration d.now)) }
{
    if unknown_in_sides(alloc, rules, d)? {
        return Ok(true);
    }
    let unknown = unknown_in_uses(alloc, rules, d)?;
    Ok(unknown)
}
