// Copies of queries.
ghost use Rattle.std.specs.Prelude.{◌≡◌, IfOk};

use crate::copying::{Copied, copy_items};
use crate::query::{Literal, QueryText, Setting};
use pr_value::{Items, Memory};
use std::alloc::Global;

impl Copied for Literal {
    fn copy(&self, alloc: Global) -> Result<Literal, Memory> {
        match self {
            Literal::Number(number) => Ok(Literal::Number(*number)),
            Literal::Truth(truth) => Ok(Literal::Truth(*truth)),
            Literal::Sym(symbol) => Ok(Literal::Sym(symbol.copy(alloc)?)),
            Literal::SetOf(members) => Ok(Literal::SetOf(copy_items(alloc, members.as_slice())?)),
            Literal::ListOf(members) => Ok(Literal::ListOf(copy_items(alloc, members.as_slice())?)),
        }
    }
}

impl Copied for Setting {
    fn copy(&self, alloc: Global) -> Result<Setting, Memory> {
        Ok(Setting {
            property: self.property.copy(alloc)?,
            value: self.value.copy(alloc)?,
        })
    }
}

#[cycle(copy_query)]
fn copy_query(alloc: Global, query: &QueryText) -> Result<QueryText, Memory>
    ensures { IfOk result (λ copy. copy ≡ query.now) }
{
    match query {
        QueryText::File(name) => Ok(QueryText::File(name.copy(alloc)?)),
        QueryText::Node {
            op,
            settings,
            inputs,
        } => Ok(QueryText::Node {
            op: op.copy(alloc)?,
            settings: copy_items(alloc, settings.as_slice())?,
            inputs: copy_queries(alloc, inputs.as_slice())?,
        }),
    }
}

#[cycle(copy_query)]
fn copy_queries(alloc: Global, queries: &[QueryText]) -> Result<Items<QueryText>, Memory>
    ensures { IfOk result (λ copies. copies ≡ queries.now) }
{
    let mut copies = Items::new(alloc);
    for query in queries {
        copies.push(copy_query(alloc, query)?)?;
    }
    Ok(copies)
}

impl Copied for QueryText {
    fn copy(&self, alloc: Global) -> Result<QueryText, Memory> {
        copy_query(alloc, self)
    }
}
