ghost use Rattle.std.specs.Prelude.{◌≡◌, option_map, if◌then◌else◌, None};
ghost use Rattle.std.specs.List.{find};
ghost use Rattle.std.specs.Option.{option_copied};
ghost use Rattle.std.specs.Str.{bytes_eq};
ghost use Rattle.pr_value.specs.SymbolSets.{contains};
ghost use Rattle.rule_ast.specs.Typing.{var_type, property_kind, type_of_kind};
ghost use Rattle.rule_types.specs.Scopes.{scope_context};

use crate::context::Scope;
use crate::folds::Folds;
use pr_value::{Kind, Property, Symbol};
use rule_ast::type_of_kind;

/// The type of a fold's name or a parameter.
pub fn var_type(scope: &Scope, folds: &Folds, x: &Symbol) -> Option<Kind>
    ensures { result ≡ var_type (scope_context scope.now folds.now).vars x.now }
{
    match folds {
        Folds::Outside => scope.context.var_type(x),
        Folds::Within { name, others } => {
            if **name == *x {
                Some(Kind::Symbol)
            } else {
                var_type(scope, others, x)
            }
        }
    }
}

fn property_named<'a>(properties: &'a [Property], name: &Symbol) -> Option<&'a Property>
    ensures { option_copied result ≡ find (λ p. bytes_eq p.name name.now) properties.now }
{
    properties.iter().find(|property| property.name == *name)
}

#[tactic(auto, using(crate::proofs::NameLaws::name_laws))]
pub fn property_kind(properties: &[Property], name: &Symbol) -> Option<Kind>
    ensures { result ≡ property_kind properties.now name.now }
{
    let property = property_named(properties, name)?;
    Some(property.kind)
}

/// The type of a descriptor's property.
pub fn read_type(scope: &Scope, desc: &Symbol, property: &Symbol) -> Option<Kind>
    ensures { result ≡ (if contains scope.now.context.now.descs.now desc.now
        then option_map type_of_kind (property_kind scope.now.properties.now property.now)
        else None) }
{
    if scope.context.has_desc(desc) {
        let kind = property_kind(scope.properties, property)?;
        Some(type_of_kind(kind))
    } else {
        None
    }
}
