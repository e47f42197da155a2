// The table of the built-in functions, and look-ups in it.
ghost use Rattle.std.specs.Prelude.{◌≡◌, ◌&&◌, map, option_map};
ghost use Rattle.std.specs.List.{find, list_any};
ghost use Rattle.std.specs.Option.{option_copied};
ghost use Rattle.std.specs.Str.{bytes_eq};
ghost use Rattle.rule_ast.specs.SeenRows.{seen_row};
ghost use Rattle.rule_ast.specs.Typing as spec;
ghost use Rattle.rule_ast.specs.Typing.{same_types};

use crate::kinds::same_types;
use crate::table::{BUILTINS, Builtin, Row};
use pr_value::Kind;

fn is_in(table: &[Row], name: &[u8]) -> bool
    ensures { result ≡ list_any (λ s. bytes_eq s.0.now name.now) table.now }
{
    table.iter().any(|row| row.0 == name)
}

/// Whether the name is that of a built-in function.
#[tactic(auto, using(crate::proofs::BuiltinLaws::builtin_laws))]
pub fn is_builtin(name: &[u8]) -> bool
    ensures { result ≡ spec.is_builtin name.now }
{
    is_in(&BUILTINS, name)
}

fn named_in<'a>(table: &'a [Row], name: &[u8]) -> Option<&'a Row>
    ensures { option_copied result ≡ find (λ s. bytes_eq s.0.now name.now) table.now }
{
    table.iter().find(|row| row.0 == name)
}

#[tactic(auto, using(crate::proofs::BuiltinLaws::builtin_laws))]
fn function_in(table: &[Row], name: &[u8]) -> Option<Builtin>
    ensures { result ≡ spec.function_in (map seen_row table.now) name.now }
{
    let row = named_in(table, name)?;
    Some(row.1)
}

/// The built-in function of that name.
pub fn builtin_of(name: &[u8]) -> Option<Builtin>
    ensures { result ≡ spec.builtin_of name.now }
{
    function_in(&BUILTINS, name)
}

fn first_in<'a>(table: &'a [Row], name: &[u8], types: &[Kind]) -> Option<&'a Row>
    ensures { option_copied result ≡ find (λ s. bytes_eq s.0.now name.now && same_types s.2.now types.now) table.now }
{
    table
        .iter()
        .find(|row| row.0 == name && same_types(row.2, types))
}

#[tactic(auto, using(crate::proofs::BuiltinLaws::builtin_laws))]
fn result_in(table: &[Row], name: &[u8], types: &[Kind]) -> Option<Kind>
    ensures { result ≡ spec.result_in (map (λ r. r.signature) (map seen_row table.now)) name.now types.now }
{
    let row = first_in(table, name, types)?;
    Some(row.3)
}

/// What the built-in function of that name gives of arguments of these types.
pub fn builtin_result(name: &[u8], types: &[Kind]) -> Option<Kind>
    ensures { result ≡ spec.result_in spec.builtins name.now types.now }
{
    result_in(&BUILTINS, name, types)
}
