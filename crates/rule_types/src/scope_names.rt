ghost use Rattle.std.specs.Prelude.{◌≡◌, IfOk};
ghost use Rattle.rule_types.specs.Conditions as spec;
ghost use Rattle.rule_types.specs.SeenDeclarations.{seen_declaration};

use crate::declaration::Declaration;
use crate::scopes::{descs_of, params_of};
use pr_value::{Items, Memory, Symbol};
use std::alloc::Global;

/// The descriptors and the parameters of a declaration.
pub fn scope_names(alloc: Global, d: &Declaration) -> Result<Items<Symbol>, Memory>
    ensures { IfOk result (λ names. names ≡ spec.scope_names (seen_declaration d.now)) }
{
    let mut names = descs_of(alloc, d)?;
    let params = params_of(d);
    for param in params {
        let name = param.name.copy(alloc)?;
        names.push(name)?;
    }
    Ok(names)
}
