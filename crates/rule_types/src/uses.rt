// What expressions, statements and declarations use by name: one walk, and a question at each use.
ghost use Rattle.std.specs.Prelude.{◌≡◌, [], map};
ghost use Rattle.std.specs.List.{list_any};
ghost use Rattle.rule_ast.specs.Seen.{seen_expr, exprs_of, seen_stmt, seen_body};
ghost use Rattle.rule_types.specs.SeenDeclarations.{seen_declaration};
ghost use Rattle.rule_types.specs.SeenUses.{seen_folds, seen_use};
ghost use Rattle.rule_types.specs.Uses as spec;
ghost use Rattle.rule_types.specs.Uses.{Question};

use crate::declaration::Declaration;
use crate::folds::Folds;
use pr_value::Symbol;
use rule_ast::{Body, Expr, Stmt};

/// A place at which names are used.
#[derive(Clone, Copy)]
pub enum Use<'a> {
    /// A parameter, or a name of a fold.
    Variable(&'a Symbol),
    /// A descriptor, and its property.
    Reading {
        desc: &'a Symbol,
        property: &'a Symbol,
    },
    /// A function, and how many arguments it is given.
    Calling {
        function: &'a Symbol,
        arguments: usize,
    },
    /// The name that a fold gives to members.
    Folding(&'a Symbol),
    /// The descriptor that changes, and its property.
    Assigning {
        desc: &'a Symbol,
        property: &'a Symbol,
    },
    /// The descriptor that changes, and that which is copied.
    Copying {
        to: &'a Symbol,
        from: &'a Symbol,
    },
}

/// A question on a use, and on the names of the folds in whose body it stands.
pub trait UseQuestion {
    ghost asked: { Self → Question };

    fn asks(&self, folds: &Folds, used: &Use) -> bool
        ensures { result ≡ asked self.now (seen_folds folds.now) (seen_use used.now) };
}

#[tactic(auto, using(crate::proofs::UseLaws::use_laws))]
fn count(args: &[Expr]) -> usize
    ensures { result ≡ spec.count (exprs_of (map seen_expr args.now)) }
{
    args.len()
}

/// Whether the question holds of some use in the expression, within the bodies of these folds.
#[cycle(any_use)]
pub fn any_use<Q: UseQuestion>(e: &Expr, folds: &Folds, question: &Q) -> bool
    ensures { result
        ≡ spec.any_use (Q.asked question.now) (seen_folds folds.now) (seen_expr e.now) }
{
    match e {
        Expr::Number(_) | Expr::Truth(_) | Expr::Sym(_) => false,
        Expr::SetOf(members) => any_uses(members.as_slice(), folds, question),
        Expr::ListOf(members) => any_uses(members.as_slice(), folds, question),
        Expr::Var(x) => question.asks(folds, &Use::Variable(x)),
        Expr::Read { desc, property } => question.asks(folds, &Use::Reading { desc, property }),
        Expr::Call { name, args } => {
            let calling = Use::Calling {
                function: name,
                arguments: count(args.as_slice()),
            };
            question.asks(folds, &calling) || any_uses(args.as_slice(), folds, question)
        }
        Expr::Binary { left, right, .. } => {
            any_use(left.get(), folds, question) || any_use(right.get(), folds, question)
        }
        Expr::Fold {
            name,
            over,
            body,
            ..
        } => {
            let within = Folds::Within {
                name,
                others: &*folds,
            };
            question.asks(folds, &Use::Folding(name))
                || any_use(over.get(), folds, question)
                || any_use(body.get(), &within, question)
        }
    }
}

#[cycle(any_use)]
fn any_uses<Q: UseQuestion>(es: &[Expr], folds: &Folds, question: &Q) -> bool
    ensures { result ≡ spec.any_uses (Q.asked question.now) (seen_folds folds.now)
        (exprs_of (map seen_expr es.now)) }
{
    for e in es {
        if any_use(e, folds, question) {
            return true;
        }
    }
    false
}

fn any_use_in<Q: UseQuestion>(s: &Stmt, question: &Q) -> bool
    ensures { result ≡ spec.any_use_in (Q.asked question.now) (seen_stmt s.now) }
{
    match s {
        Stmt::Set {
            desc,
            property,
            value,
        } => {
            question.asks(&Folds::Outside, &Use::Assigning { desc, property })
                || any_use(value, &Folds::Outside, question)
        }
        Stmt::Copy { to, from } => question.asks(&Folds::Outside, &Use::Copying { to, from }),
    }
}

/// Whether the question holds of some use in these statements.
pub fn any_use_in_stmts<Q: UseQuestion>(ss: &[Stmt], question: &Q) -> bool
    ensures { result ≡ list_any (spec.any_use_in (Q.asked question.now)) (map seen_stmt ss.now) }
{
    for s in ss {
        if any_use_in(s, question) {
            return true;
        }
    }
    false
}

fn any_use_in_body<Q: UseQuestion>(body: &Body, question: &Q) -> bool
    ensures { result ≡ spec.any_use_of (Q.asked question.now) (seen_body body.now) }
{
    any_use_in_stmts(body.pre.as_slice(), question)
        || any_use(&body.test, &Folds::Outside, question)
        || any_use_in_stmts(body.post.as_slice(), question)
}

/// Whether the question holds of some use in the declaration.
pub fn uses<Q: UseQuestion>(d: &Declaration, question: &Q) -> bool
    ensures { result ≡ spec.uses (Q.asked question.now) (seen_declaration d.now) }
{
    match d {
        Declaration::Property { .. } | Declaration::Algorithm { .. } => false,
        Declaration::Operator { this, .. } => any_use_in_stmts(this.init.as_slice(), question),
        Declaration::Helper { this, .. } => any_use(&this.body, &Folds::Outside, question),
        Declaration::TRule { this, .. } => any_use_in_body(&this.body, question),
        Declaration::IRule { this, .. } => any_use_in_body(&this.body, question),
    }
}
