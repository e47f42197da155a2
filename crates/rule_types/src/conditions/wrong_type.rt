ghost use Rattle.std.specs.Prelude.{◌≡◌, map, IfOk};
ghost use Rattle.std.specs.List.{list_all};
ghost use Rattle.rule_ast.specs.Seen.{seen_body, seen_expr, seen_helper, seen_stmt};
ghost use Rattle.rule_ast.specs.SeenRules.{seen_rules};
ghost use Rattle.rule_ast.specs.Typing as typing;
ghost use Rattle.rule_ast.specs.Typing.{is_type, is_typed_stmt, signatures_of, type_of};
ghost use Rattle.rule_types.specs.Conditions as spec;
ghost use Rattle.rule_types.specs.Contexts.{seen_context};
ghost use Rattle.rule_types.specs.SeenDeclarations.{seen_declaration};

use crate::context::{Context, Scope};
use crate::declaration::Declaration;
use crate::scopes::{descs_of, helpers_of, params_of};
use crate::statements::are_typed_stmts;
use crate::typing::type_of;
use pr_value::{Kind, Memory};
use rule_ast::{Body, Expr, Rules, Stmt, is_type, type_of_kind};
use std::alloc::Global;

// Whether the expression is of that type.
fn is_of_type(alloc: Global, scope: &Scope, kind: Kind, e: &Expr) -> Result<bool, Memory>
    ensures { IfOk result (λ b. b ≡ is_type kind (type_of scope.now.properties.now
        (signatures_of (map seen_helper scope.now.helpers.now))
        (seen_context scope.now.context.now) (seen_expr e.now))) }
{
    let found = type_of(alloc, scope.properties, scope.helpers, scope.context, e)?;
    Ok(is_type(kind, found))
}

fn are_typed_in(alloc: Global, scope: &Scope, ss: &[Stmt]) -> Result<bool, Memory>
    ensures { IfOk result (λ b. b ≡ list_all (is_typed_stmt scope.now.properties.now
        (signatures_of (map seen_helper scope.now.helpers.now))
        (seen_context scope.now.context.now)) (map seen_stmt ss.now)) }
{
    are_typed_stmts(alloc, scope.properties, scope.helpers, scope.context, ss)
}

fn is_typed_body(alloc: Global, scope: &Scope, body: &Body) -> Result<bool, Memory>
    ensures { IfOk result (λ b. b ≡ typing.is_typed_body scope.now.properties.now
        (signatures_of (map seen_helper scope.now.helpers.now))
        (seen_context scope.now.context.now) (seen_body body.now)) }
{
    let pre = are_typed_in(alloc, scope, body.pre.as_slice())?;
    let test = is_of_type(alloc, scope, Kind::Truth, &body.test)?;
    let post = are_typed_in(alloc, scope, body.post.as_slice())?;
    Ok(pre && test && post)
}

fn is_typed(alloc: Global, scope: &Scope, d: &Declaration) -> Result<bool, Memory>
    ensures { IfOk result (λ b. b ≡ spec.is_typed scope.now.properties.now
        (signatures_of (map seen_helper scope.now.helpers.now))
        (seen_context scope.now.context.now) (seen_declaration d.now)) }
{
    match d {
        Declaration::Property { .. } | Declaration::Algorithm { .. } => Ok(true),
        Declaration::Operator { this, .. } => are_typed_in(alloc, scope, this.init.as_slice()),
        Declaration::Helper { this, .. } => {
            is_of_type(alloc, scope, type_of_kind(this.result), &this.body)
        }
        Declaration::TRule { this, .. } => is_typed_body(alloc, scope, &this.body),
        Declaration::IRule { this, .. } => is_typed_body(alloc, scope, &this.body),
    }
}

/// Whether an expression or a statement of the declaration is not well typed.
pub fn wrong_type(alloc: Global, rules: &Rules, d: &Declaration) -> Result<bool, Memory>
    ensures { IfOk result
        (λ b. b ≡ spec.wrong_type (seen_rules rules.now) (seen_declaration d.now)) }
{
    let descs = descs_of(alloc, d)?;
    let context = Context::new(alloc, descs.as_slice(), params_of(d))?;
    let scope = Scope {
        properties: rules.properties.as_slice(),
        helpers: helpers_of(rules, d),
        context: &context,
    };
    let typed = is_typed(alloc, &scope, d)?;
    Ok(!typed)
}
