ghost use Rattle.std.specs.Prelude.{Some};
ghost use Rattle.std.specs.Cmp.{partial_order_from_own_ties};
ghost use Rattle.std.specs.Cmp.Rules.{comparing};
ghost use Rattle.std.specs.Cmp.Lexicographic.{nat_list_cmp_total};
ghost use Rattle.std.specs.Ordering.{as_partial_cmp};
ghost use Rattle.std.proofs.Common.{rules};
ghost use Rattle.pr_value.specs.SymbolSets.{compare_symbols};

use crate::symbol::Symbol;
use std::cmp::Ordering;

/// Symbols are in the order of their bytes.
impl Ord for Symbol {
    ghost cmp = { compare_symbols };

    ghost total = { nat_list_cmp_total };

    ghost matches_partial_cmp = { Prim.search (comparing, rules) };

    ghost matches_eq = { Prim.search (comparing, rules) };

    fn cmp(&self, other: &Symbol) -> Ordering {
        self.as_slice().cmp(&other.as_slice())
    }
}

impl PartialOrd for Symbol {
    ghost partial_cmp = { as_partial_cmp compare_symbols };

    ghost laws = { partial_order_from_own_ties (Prim.search (comparing, rules)) (Prim.search (comparing, rules)) };

    fn partial_cmp(&self, other: &Symbol) -> Option<Ordering> {
        Some(self.cmp(other))
    }
}
