// The types of parameters, by their names.
ghost use Rattle.std.specs.Prelude.{◌≡◌, Some, IfOk, OnOk, if◌then◌else◌};
ghost use Rattle.std.specs.BTreeMap.{get};
ghost use Rattle.std.specs.Str.{bytes_eq};
ghost use Rattle.pr_value.specs.SymbolSets.{compare_symbols};
ghost use Rattle.pr_value.specs.Symbols as spec;
ghost use Rattle.rule_ast.specs.Typing.{params_context, type_of_kind, var_type};

use pr_value::{Kind, Memory, Symbol};
use rule_ast::{Param, type_of_kind};
use std::alloc::Global;
use std::collections::BTreeMap;

#[tactic(auto, using(crate::proofs::NameLaws::index_laws))]
fn put(alloc: Global, param: &Param, types: &mut BTreeMap<Symbol, Kind>) -> Result<(), Memory>
    ensures { OnOk result ((x : spec.Symbol) → get compare_symbols types.new x ≡
        (if bytes_eq param.now.name x then Some (type_of_kind param.now.kind)
        else get compare_symbols types.old x)) }
{
    let name = param.name.copy(alloc)?;
    types.insert(name, type_of_kind(param.kind))?;
    Ok(())
}

/// The first parameter of a name decides, so the last is put first.
pub fn types_of(alloc: Global, params: &[Param]) -> Result<BTreeMap<Symbol, Kind>, Memory>
    ensures { IfOk result (λ types. (x : spec.Symbol) →
        get compare_symbols types x ≡ var_type (params_context params.now).vars x) }
{
    let mut types = BTreeMap::new(alloc);
    let mut place = params.len();
    'params: while place > 0 {
        place -= 1;
        put(alloc, &params[place], &mut types)?;
    }
    Ok(types)
}
