ghost use Rattle.std.specs.Prelude.{◌≡◌, [], ◌∷◌, map, option_map, option_and_then, if◌then◌else◌};
ghost use Rattle.std.specs.List.{list_all, zip};
ghost use Rattle.std.specs.Str.{bytes_eq};
ghost use Rattle.rule_ast.specs.Seen.{seen_helper};
ghost use Rattle.rule_ast.specs.Typing.{helper_result, helper_signature, call_type, signatures_of, type_of_kind, same_type, same_types};

use pr_value::{Kind, Symbol};
use rule_ast::{Helper, Param, builtin_result, is_builtin, same_type, type_of_kind};

// Whether the parameters are as many as the types, and each is of its own.
#[tactic(auto, using(rule_ast::proofs::KindLaws::kind_laws))]
fn takes(params: &[Param], types: &[Kind]) -> bool
    ensures { result ≡ same_types (map (λ p. type_of_kind p.kind) params.now) types.now }
{
    params.len() == types.len() && each_takes(params, types)
}

fn each_takes(params: &[Param], types: &[Kind]) -> bool
    ensures { result ≡ list_all (λ z. same_type (type_of_kind z.0.kind) z.1) (zip params.now types.now) }
{
    params
        .iter()
        .zip(types)
        .all(|(param, kind)| same_type(type_of_kind(param.kind), *kind))
}

// What the helper gives, or what earlier ones do where it has another name.
fn result_or(helper: &Helper, name: &Symbol, types: &[Kind], earlier: Option<Kind>) -> Option<Kind>
    ensures { result ≡ (if bytes_eq helper.now.name name.now
        then helper_result (helper_signature (seen_helper helper.now) ∷ []) name.now types.now
        else earlier) }
{
    if helper.name != *name {
        return earlier;
    }
    takes(helper.params.as_slice(), types).then_some(type_of_kind(helper.result))
}

// The latest helper of that name decides.
#[tactic(auto, using(crate::proofs::CallLaws::call_laws))]
fn helper_result(helpers: &[Helper], name: &Symbol, types: &[Kind]) -> Option<Kind>
    ensures { result ≡ helper_result (signatures_of (map seen_helper helpers.now)) name.now types.now }
{
    let mut found = None;
    for helper in helpers {
        found = result_or(helper, name, types, found);
    }
    found
}

fn named_type(helpers: &[Helper], name: &Symbol, types: &[Kind]) -> Option<Kind>
    ensures { result ≡ call_type (signatures_of (map seen_helper helpers.now)) name.now types.now }
{
    if is_builtin(name.as_slice()) {
        builtin_result(name.as_slice(), types)
    } else {
        helper_result(helpers, name, types)
    }
}

/// What a call gives, where its arguments have types.
pub fn call_type(helpers: &[Helper], name: &Symbol, types: Option<Vec<Kind>>) -> Option<Kind>
    ensures { result ≡ option_and_then (call_type (signatures_of (map seen_helper helpers.now)) name.now) (option_map (λ v. v.items) types) }
{
    let types = types?;
    named_type(helpers, name, types.as_slice())
}
