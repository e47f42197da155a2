// The nodes of a query, in the order of its text.
ghost use Rattle.std.specs.Prelude.{◌≡◌, ◌++◌, flat_map, map, IfOk, OnOk};
ghost use Rattle.query_build.specs.Refusals as spec;
ghost use Rattle.query_build.specs.SeenParts.{seen_part};
ghost use Rattle.rule_ast.specs.Seen.{seen_query};

use pr_value::{Memory, Symbol};
use rule_ast::{QueryText, Setting};
use std::alloc::Global;

/// A node of a query, without what stands below it.
#[derive(Clone, Copy)]
pub(crate) enum Part<'q> {
    File(&'q Symbol),
    /// An operator, and how many inputs it has.
    Operator {
        name: &'q Symbol,
        settings: &'q [Setting],
        inputs: usize,
    },
}

#[cycle(push_parts)]
fn push_parts<'q>(query: &'q QueryText, out: &mut Vec<Part<'q>>) -> Result<(), Memory>
    ensures { OnOk result (map seen_part out.new.items
        ≡ map seen_part out.old.items ++ spec.parts (seen_query query.now)) }
{
    match query {
        QueryText::File(name) => out.push(Part::File(name))?,
        QueryText::Node {
            op,
            settings,
            inputs,
        } => {
            out.push(Part::Operator {
                name: op,
                settings: settings.as_slice(),
                inputs: inputs.len(),
            })?;
            push_parts_of(inputs.as_slice(), out)?;
        }
    }
    Ok(())
}

#[cycle(push_parts)]
fn push_parts_of<'q>(queries: &'q [QueryText], out: &mut Vec<Part<'q>>) -> Result<(), Memory>
    ensures { OnOk result (map seen_part out.new.items ≡ map seen_part out.old.items
        ++ flat_map (λ q. spec.parts (seen_query q)) queries.now) }
{
    for query in queries {
        push_parts(query, out)?;
    }
    Ok(())
}

/// The nodes of a query, in the order of its text.
pub(crate) fn parts(alloc: Global, query: &QueryText) -> Result<Vec<Part<'_>>, Memory>
    ensures { IfOk result (λ ps. map seen_part ps.items ≡ spec.parts (seen_query query.now)) }
{
    let mut parts = Vec::new(alloc);
    push_parts(query, &mut parts)?;
    Ok(parts)
}
