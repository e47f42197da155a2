// What an expression reads of descriptors: one walk, and the questions that are asked on it.
ghost use Rattle.std.specs.Prelude.{◌≡◌, ◌&&◌, not, map};
ghost use Rattle.std.specs.Str.{bytes_eq};
ghost use Rattle.pr_value.specs.SymbolSets.{contains};
ghost use Rattle.rule_ast.specs.CostForms as costs;
ghost use Rattle.rule_ast.specs.Reads as spec;
ghost use Rattle.rule_ast.specs.Reads.{Question};
ghost use Rattle.rule_ast.specs.Seen.{seen_expr, exprs_of};

use crate::expr::Expr;
use pr_value::{Symbol, contains};

/// A question on a read of a descriptor's property.
pub trait ReadQuestion {
    ghost asked: { Self → Question };

    fn asks(&self, desc: &Symbol, property: &Symbol) -> bool
        ensures { result ≡ asked self.now desc.now property.now };
}

/// Whether the question holds of some read of the expression.
#[cycle(any_read)]
pub fn any_read<Q: ReadQuestion>(e: &Expr, question: &Q) -> bool
    ensures { result ≡ spec.any_read (Q.asked question.now) (seen_expr e.now) }
{
    match e {
        Expr::Number(_) | Expr::Truth(_) | Expr::Sym(_) | Expr::Var(_) => false,
        Expr::SetOf(members) => any_reads(members.as_slice(), question),
        Expr::ListOf(members) => any_reads(members.as_slice(), question),
        Expr::Read { desc, property } => question.asks(desc, property),
        Expr::Call { args, .. } => any_reads(args.as_slice(), question),
        Expr::Binary { left, right, .. } => {
            any_read(left.get(), question) || any_read(right.get(), question)
        }
        Expr::Fold { over, body, .. } => {
            any_read(over.get(), question) || any_read(body.get(), question)
        }
    }
}

#[cycle(any_read)]
fn any_reads<Q: ReadQuestion>(es: &[Expr], question: &Q) -> bool
    ensures { result ≡ spec.any_reads (Q.asked question.now) (exprs_of (map seen_expr es.now)) }
{
    for e in es {
        if any_read(e, question) {
            return true;
        }
    }
    false
}

// A read of this property.
#[derive(Drop)]
struct OfProperty<'a> {
    property: &'a [u8],
}

impl ReadQuestion for OfProperty<'_> {
    ghost asked = { λ q d p. bytes_eq p q.property.now };

    fn asks(&self, _desc: &Symbol, property: &Symbol) -> bool {
        property.as_slice() == self.property
    }
}

// A read of this property of another descriptor than these.
#[derive(Drop)]
struct OfAnother<'a> {
    property: &'a [u8],
    descs: &'a [Symbol],
}

impl ReadQuestion for OfAnother<'_> {
    ghost asked = { λ q d p. bytes_eq p q.property.now && not (contains q.descs.now d) };

    fn asks(&self, desc: &Symbol, property: &Symbol) -> bool {
        property.as_slice() == self.property && !contains(self.descs, desc)
    }
}

// A read of this property of this descriptor.
#[derive(Drop)]
struct OfBoth<'a> {
    desc: &'a Symbol,
    property: &'a Symbol,
}

impl ReadQuestion for OfBoth<'_> {
    ghost asked = { λ q d p. bytes_eq d q.desc.now && bytes_eq p q.property.now };

    fn asks(&self, desc: &Symbol, property: &Symbol) -> bool {
        desc == self.desc && property == self.property
    }
}

/// Whether the expression reads the property `cost` of a descriptor.
pub fn reads_cost(e: &Expr, cost: &[u8]) -> bool
    ensures { result ≡ costs.reads_cost cost.now (seen_expr e.now) }
{
    any_read(e, &OfProperty { property: cost })
}

/// Whether each read of the property `cost` is that of one of these descriptors.
pub fn reads_cost_of(e: &Expr, cost: &[u8], descs: &[Symbol]) -> bool
    ensures { result ≡ costs.reads_cost_of cost.now descs.now (seen_expr e.now) }
{
    let question = OfAnother {
        property: cost,
        descs,
    };
    !any_read(e, &question)
}

/// Whether the expression reads the property of the descriptor.
pub fn reads(e: &Expr, desc: &Symbol, property: &Symbol) -> bool
    ensures { result ≡ spec.reads desc.now property.now (seen_expr e.now) }
{
    any_read(e, &OfBoth { desc, property })
}
