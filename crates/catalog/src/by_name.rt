ghost use Rattle.std.specs.Prelude.{◌≡◌, [], map, IfOk};
ghost use Rattle.std.specs.List.{find};
ghost use Rattle.std.specs.List.Sorted.{IsStrictlySortedBy};
ghost use Rattle.std.specs.Option.{option_copied};
ghost use Rattle.std.specs.Str.{bytes_eq};
ghost use Rattle.pr_value.specs.Symbols.{Symbol as Name};
ghost use Rattle.pr_value.specs.SymbolSets.{compare_symbols};

use pr_value::{Memory, Symbol};
use std::alloc::Global;
use std::cmp::Ordering;
use std::marker::Model;

/// What has a name.
pub(crate) trait Named: Drop {
    ghost name: { Self → Name };

    fn name(&self) -> &Symbol
        ensures { result.now ≡ name self.now };

    /// An equal item.
    fn copy(&self, alloc: Global) -> Result<Self, Memory>
        ensures { IfOk result (λ x. x ≡ self.now) };
}

/// Items with names, which differ and ascend by bytes.
#[derive(Drop)]
pub(crate) struct ByName<T: Named> {
    items: Vec<T>,
}

impl<T: Named> Model for ByName<T> {
    ghost use Rattle.std.specs.Prelude.{List, map};
    ghost use Rattle.std.specs.List.Sorted.{IsStrictlySortedBy};
    ghost use Rattle.pr_value.specs.SymbolSets.{compare_symbols};

    ghost Value = { List T };

    ghost view = { λ b. b.items.items };

    ghost invariant = { λ b. IsStrictlySortedBy compare_symbols (map T.name b.items.items) };
}

fn find_named<'a, T: Named>(items: &'a [T], name: &Symbol) -> Option<&'a T>
    requires { IsStrictlySortedBy compare_symbols (map T.name items.now) }
    ensures { option_copied result ≡ find (λ x. bytes_eq (T.name x) name.now) items.now }
{
    let compare = |item: &T| -> Ordering
        ensures { result ≡ compare_symbols (T.name item.now) name.entry.now }
    { item.name().cmp(name) };
    match items.binary_search_by(compare) {
        Ok(place) => Some(&items[place]),
        Err(_) => None,
    }
}

impl<T: Named> ByName<T> {
    pub(crate) fn new(alloc: Global) -> ByName<T>
        ensures { result ≡ [] }
    {
        ByName {
            items: Vec::new(alloc),
        }
    }

    pub(crate) fn from_sorted(items: Vec<T>) -> ByName<T>
        requires { IsStrictlySortedBy compare_symbols (map T.name items.items) }
        ensures { result ≡ items.items }
    {
        ByName { items }
    }

    pub(crate) fn get(&self, name: &Symbol) -> Option<&T>
        ensures { option_copied result ≡ find (λ x. bytes_eq (T.name x) name.now) self.now }
    {
        find_named(self.items.as_slice(), name)
    }

    /// An equal list.
    pub(crate) fn copy(&self, alloc: Global) -> Result<ByName<T>, Memory>
        ensures { IfOk result (λ b. b ≡ self.now) }
    {
        let mut items = Vec::with_capacity(alloc, self.items.len())?;
        for item in self.items.as_slice() {
            items.push(item.copy(alloc)?)?;
        }
        Ok(ByName { items })
    }
}
