ghost use Rattle.std.specs.Prelude.{◌≡◌};
ghost use Rattle.pr_value.specs.SymbolSets.{contains};
ghost use Rattle.rule_types.specs.SeenUses.{seen_folds};

use pr_value::Symbol;

/// The names of the folds in whose body an expression stands, the innermost first.
#[derive(Clone, Copy)]
pub enum Folds<'a> {
    Outside,
    Within {
        name: &'a Symbol,
        others: &'a Folds<'a>,
    },
}

/// Whether the name is that of one of the folds.
pub fn is_fold(folds: &Folds, x: &Symbol) -> bool
    ensures { result ≡ contains (seen_folds folds.now) x.now }
{
    match folds {
        Folds::Outside => false,
        Folds::Within { name, others } => *x == **name || is_fold(others, x),
    }
}
