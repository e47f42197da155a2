ghost use Rattle.std.specs.Prelude.{◌≡◌};
ghost use Rattle.std.specs.BTreeMap.{get};
ghost use Rattle.pr_value.specs.SymbolSets.{compare_symbols, contains, set_of};
ghost use Rattle.pr_value.specs.Symbols as spec;
ghost use Rattle.rule_ast.specs.Typing.{params_context, var_type};

use crate::param_types::types_of;
use pr_value::{Kind, Memory, Property, SymSet, Symbol, copy_symbols};
use rule_ast::{Helper, Param};
use std::alloc::Global;
use std::collections::BTreeMap;

/// The names that an expression may use: descriptors, and parameters with their kinds. Each is
/// found by a binary search.
#[derive(Drop)]
pub struct Context<'a> {
    pub descs: &'a [Symbol],
    pub vars: &'a [Param],
    known_descs: SymSet,
    types: BTreeMap<Symbol, Kind>,
    ghost all_descs: { known_descs ≡ set_of descs.now },
    ghost all_types: { (x : spec.Symbol) →
        get compare_symbols types x ≡ var_type (params_context vars.now).vars x },
}

impl<'a> Context<'a> {
    ghost use Rattle.std.specs.Prelude.{IfOk};
    ghost use Rattle.rule_types.specs.Contexts.{context_over, seen_context};
    ghost use Rattle.rule_types.specs.Declarations.{param_names};

    /// The first of several parameters of one name counts.
    pub fn new(alloc: Global, descs: &'a [Symbol], vars: &'a [Param]) -> Result<Context<'a>, Memory>
        ensures seen { IfOk result (λ c. seen_context c ≡ context_over descs.now vars.now) }
        ensures params { IfOk result (λ c. c.vars.now ≡ vars.now) }
    {
        let known_descs = SymSet::from_symbols(alloc, copy_symbols(alloc, descs)?)?;
        let types = types_of(alloc, vars)?;
        Ok(Context {
            descs,
            vars,
            known_descs,
            types,
        })
    }

    /// Whether the name is that of a descriptor.
    #[tactic(auto, using(crate::proofs::NameLaws::index_laws))]
    pub fn has_desc(&self, d: &Symbol) -> bool
        ensures { result ≡ contains self.now.descs.now d.now }
    {
        self.known_descs.contains(d)
    }

    /// Whether the name is that of a parameter.
    #[tactic(auto, using(crate::proofs::NameLaws::param_laws))]
    pub fn has_param(&self, x: &Symbol) -> bool
        ensures { result ≡ contains (param_names self.now.vars.now) x.now }
    {
        self.types.contains_key(x)
    }

    /// The type of a parameter.
    pub fn var_type(&self, x: &Symbol) -> Option<Kind>
        ensures { result ≡ var_type (params_context self.now.vars.now).vars x.now }
    {
        self.types.get(x).copied()
    }
}

/// What is the same for an expression and for its parts.
#[derive(Clone, Copy)]
pub struct Scope<'a> {
    pub properties: &'a [Property],
    pub helpers: &'a [Helper],
    pub context: &'a Context<'a>,
}
