// The enforcers and the physical properties of a rule set, each found by a binary search.
ghost use Rattle.std.specs.Prelude.{◌≡◌, ◌||◌, map, IfOk, OnOk};
ghost use Rattle.std.specs.List.{list_any};
ghost use Rattle.pr_value.specs.SymbolSets.{contains};
ghost use Rattle.pr_value.specs.Symbols as spec;
ghost use Rattle.rule_ast.specs.CostForms as costs;
ghost use Rattle.rule_ast.specs.Descs as descs;
ghost use Rattle.rule_ast.specs.Roles.{assigns, is_enforcer, is_null, is_physical, leads_to_null, passes_on};
ghost use Rattle.rule_ast.specs.Seen.{seen_irule, seen_stmt};

use pr_value::{Memory, SymSet, Symbol, copy_symbols};
use rule_ast::{AlgName, IRule, ImplIn, Rules, Stmt, cost_name, names_of};
use std::alloc::Global;

/// A rule set, with what its I-rules say of operators and properties.
#[derive(Drop)]
pub struct Roles<'a> {
    pub rules: &'a Rules,
    enforcers: SymSet,
    physical: SymSet,
    ghost all_enforcers: { (op : spec.Symbol) →
        contains enforcers op ≡ is_enforcer (map seen_irule rules.now.irules) op },
    ghost all_physical: { (p : spec.Symbol) →
        contains physical p ≡ is_physical (map seen_irule rules.now.irules) p },
}

/// Whether it is `Null`.
pub fn is_null(alg: &AlgName) -> bool
    ensures { result ≡ is_null alg.now }
{
    matches!(alg, AlgName::Null)
}

fn push_enforcer(alloc: Global, rule: &IRule, out: &mut Vec<Symbol>) -> Result<(), Memory>
    ensures { OnOk result ((op : spec.Symbol) → contains out.new.items op
        ≡ (contains out.old.items op || leads_to_null op (seen_irule rule.now))) }
{
    if is_null(&rule.right.alg) {
        out.push(rule.left.op.copy(alloc)?)?;
    }
    Ok(())
}

fn enforcer_names(alloc: Global, rules: &[IRule]) -> Result<Vec<Symbol>, Memory>
    ensures { IfOk result (λ names. (op : spec.Symbol) →
        contains names.items op ≡ is_enforcer (map seen_irule rules.now) op) }
{
    let mut names = Vec::new(alloc);
    for rule in rules {
        push_enforcer(alloc, rule, &mut names)?;
    }
    Ok(names)
}

// The operators from which a rule leads to `Null`.
fn enforcers_of(alloc: Global, rules: &[IRule]) -> Result<SymSet, Memory>
    ensures { IfOk result (λ set. (op : spec.Symbol) →
        contains set op ≡ is_enforcer (map seen_irule rules.now) op) }
{
    let names = enforcer_names(alloc, rules)?;
    let enforcers = SymSet::from_symbols(alloc, names)?;
    Ok(enforcers)
}

fn push_given(alloc: Global, s: &Stmt, inputs: &SymSet, out: &mut Vec<Symbol>) -> Result<(), Memory>
    ensures { OnOk result ((p : spec.Symbol) → contains out.new.items p
        ≡ (contains out.old.items p || assigns inputs.now p (seen_stmt s.now))) }
{
    match s {
        Stmt::Set { desc, property, .. } => {
            if inputs.contains(desc) {
                out.push(property.copy(alloc)?)?;
            }
            Ok(())
        }
        Stmt::Copy { .. } => Ok(()),
    }
}

fn push_all_given(
    alloc: Global,
    ss: &[Stmt],
    inputs: &SymSet,
    out: &mut Vec<Symbol>,
) -> Result<(), Memory>
    ensures { OnOk result ((p : spec.Symbol) → contains out.new.items p
        ≡ (contains out.old.items p || list_any (assigns inputs.now p) (map seen_stmt ss.now))) }
{
    for s in ss {
        push_given(alloc, s, inputs, out)?;
    }
    Ok(())
}

#[tactic(auto, using(crate::proofs::NameLaws::index_laws))]
fn inputs_of(alloc: Global, inputs: &[ImplIn]) -> Result<SymSet, Memory>
    ensures { IfOk result (λ set. (d : spec.Symbol) →
        contains set d ≡ contains (descs.names_of inputs.now) d) }
{
    let names = names_of(alloc, inputs)?;
    let set = SymSet::from_symbols(alloc, copy_symbols(alloc, names.as_slice())?)?;
    Ok(set)
}

fn push_passed(alloc: Global, rule: &IRule, out: &mut Vec<Symbol>) -> Result<(), Memory>
    ensures { OnOk result ((p : spec.Symbol) → contains out.new.items p
        ≡ (contains out.old.items p || passes_on p (seen_irule rule.now))) }
{
    if is_null(&rule.right.alg) {
        let inputs = inputs_of(alloc, rule.right.inputs.as_slice())?;
        push_all_given(alloc, rule.body.pre.as_slice(), &inputs, out)?;
        push_all_given(alloc, rule.body.post.as_slice(), &inputs, out)?;
    }
    Ok(())
}

fn physical_names(alloc: Global, rules: &[IRule]) -> Result<Vec<Symbol>, Memory>
    ensures { IfOk result (λ names. (p : spec.Symbol) →
        contains names.items p ≡ is_physical (map seen_irule rules.now) p) }
{
    let mut names = Vec::new(alloc);
    for rule in rules {
        push_passed(alloc, rule, &mut names)?;
    }
    Ok(names)
}

// The properties that a rule to `Null` assigns to its input.
fn physical_of(alloc: Global, rules: &[IRule]) -> Result<SymSet, Memory>
    ensures { IfOk result (λ set. (p : spec.Symbol) →
        contains set p ≡ is_physical (map seen_irule rules.now) p) }
{
    let names = physical_names(alloc, rules)?;
    let physical = SymSet::from_symbols(alloc, names)?;
    Ok(physical)
}

impl<'a> Roles<'a> {
    pub fn of(alloc: Global, rules: &'a Rules) -> Result<Roles<'a>, Memory>
        ensures { IfOk result (λ roles. roles.rules.now ≡ rules.now) }
    {
        let enforcers = enforcers_of(alloc, rules.irules.as_slice())?;
        let physical = physical_of(alloc, rules.irules.as_slice())?;
        Ok(Roles {
            rules,
            enforcers,
            physical,
        })
    }

    /// The name of the property that is the cost, or `-` where there is none.
    pub fn cost(&self) -> &'a [u8]
        ensures { result.now ≡ costs.cost_name self.now.rules.now.properties }
    {
        cost_name(self.rules.properties.as_slice())
    }

    /// Whether a rule leads from the operator to `Null`.
    pub fn is_enforcer(&self, op: &Symbol) -> bool
        ensures { result ≡ is_enforcer (map seen_irule self.now.rules.now.irules) op.now }
    {
        self.enforcers.contains(op)
    }

    /// Whether a rule to `Null` assigns the property to its input.
    pub fn is_physical(&self, property: &Symbol) -> bool
        ensures { result ≡ is_physical (map seen_irule self.now.rules.now.irules) property.now }
    {
        self.physical.contains(property)
    }
}
