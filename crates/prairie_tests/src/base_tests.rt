use catalog::{Catalog, FileEntry, read_catalog};
use descriptor_types::{Desc, Layout, Mask, Tree, push_views};
use pr_value::{
    Items, Kind, Property, SymList, SymSet, Symbol, SymbolError, Value, are_distinct,
    first_repeated,
};
use std::alloc::Global;
use std::process::Abort;

fn symbol(rt: &impl Abort, alloc: Global, name: &str) -> Symbol {
    Symbol::new(alloc, name.as_bytes()).expect(rt, "a symbol")
}

fn names_in(rt: &impl Abort, alloc: Global, names: &str) -> Vec<Symbol> {
    let mut made = Vec::new(alloc);
    for name in names.split_whitespace() {
        made.push(symbol(rt, alloc, name)).expect(rt, "memory");
    }
    made
}

fn check_repeated(rt: &impl Abort, alloc: Global, names: &str, place: Option<usize>) {
    let symbols = names_in(rt, alloc, names);
    let found = first_repeated(alloc, symbols.as_slice()).expect(rt, "memory");
    assert_eq!(rt; found, place, "{names}");
    let distinct = are_distinct(alloc, symbols.as_slice()).expect(rt, "memory");
    assert_eq!(rt; distinct, place.is_none(), "{names}");
}

#[test]
fn repeated_names_are_found(rt: HostRuntime) {
    for (names, place) in [
        ("", None),
        ("b a", None),
        ("a b b a", Some(2)),
        ("a a", Some(1)),
    ] {
        check_repeated(&rt, rt.alloc(), names, place);
    }
}

fn set_of(rt: &impl Abort, alloc: Global, names: &str) -> SymSet {
    SymSet::from_symbols(alloc, names_in(rt, alloc, names)).expect(rt, "memory")
}

/// The symbols `a` and `b`, and the dash.
fn dashed_set(rt: &impl Abort, alloc: Global) -> SymSet {
    let mut set = set_of(rt, alloc, "b a b");
    let dash = Symbol::dash(alloc).expect(rt, "memory");
    set.insert(dash).expect(rt, "memory");
    set
}

/// The symbols `b`, `a` and `b`, and the dash.
fn dashed_list(rt: &impl Abort, alloc: Global) -> SymList {
    let mut list = SymList::from_symbols(names_in(rt, alloc, "b a b"));
    let dash = Symbol::dash(alloc).expect(rt, "memory");
    list.push(dash).expect(rt, "memory");
    list
}

/// How many symbols are in either set, in both and in the first alone.
fn numbers(rt: &impl Abort, alloc: Global, set: &SymSet, other: &SymSet) -> (usize, usize, usize) {
    let union = set.union(alloc, other).expect(rt, "memory").len();
    let meet = set.meet(alloc, other).expect(rt, "memory").len();
    let minus = set.minus(alloc, other).expect(rt, "memory").len();
    (union, meet, minus)
}

#[test]
fn sets_are_joined_and_taken_away(rt: HostRuntime) {
    let alloc = rt.alloc();
    let set = dashed_set(&rt, alloc);
    let other = set_of(&rt, alloc, "a c");
    assert_eq!(rt; numbers(&rt, alloc, &set, &other), (4, 1, 2));
}

fn is_copied(rt: &impl Abort, alloc: Global, value: &Value) -> bool {
    let copy = value.copy(alloc).expect(rt, "memory");
    copy == *value
}

#[test]
fn sets_lists_and_values_are_copied(rt: HostRuntime) {
    let alloc = rt.alloc();
    let set = Value::Set(dashed_set(&rt, alloc));
    let list = Value::List(dashed_list(&rt, alloc));
    for value in [&Value::Num(7), &Value::Truth(true), &set, &list] {
        assert!(rt; is_copied(&rt, alloc, value));
    }
}

#[test]
fn a_default_is_one_and_a_number_is_no_symbol(rt: HostRuntime) {
    let alloc = rt.alloc();
    let value = Value::default_of(alloc, Kind::Symbol).expect(&rt, "memory");
    assert!(rt; value.is_default());
    match Symbol::new(alloc, b"9") {
        Err(error) => assert_eq!(rt; error, SymbolError::NotASymbol),
        Ok(_) => assert!(rt; false, "9 is no symbol"),
    }
}

fn layout(rt: &impl Abort, alloc: Global) -> Layout {
    let mut properties = Vec::new(alloc);
    for (name, kind) in [
        ("card", Kind::Num),
        ("order", Kind::Symbol),
        ("cost", Kind::Cost),
    ] {
        let name = symbol(rt, alloc, name);
        properties
            .push(Property { name, kind })
            .expect(rt, "memory");
    }
    let layout = Layout::of(alloc, properties.as_slice()).expect(rt, "memory");
    layout.copy(alloc).expect(rt, "memory")
}

#[test]
fn the_cost_has_a_place(rt: HostRuntime) {
    let layout = layout(&rt, rt.alloc());
    assert_eq!(rt; layout.cost_place(), Some(2));
}

fn second(rt: &impl Abort, alloc: Global) -> Mask {
    let mut mask = Mask::new(alloc);
    for on in [false, true, false] {
        mask.push(on).expect(rt, "memory");
    }
    mask.copy(alloc).expect(rt, "memory")
}

/// Nine of the order `a`.
fn nine(rt: &impl Abort, alloc: Global, layout: &Layout) -> Desc {
    let mut file = Desc::plain(alloc, layout).expect(rt, "memory");
    if file.count() == 3 {
        file.set(0, Value::Num(9));
        file.set(1, Value::Sym(symbol(rt, alloc, "a")));
    }
    file
}

/// An operator over the file `emp`, both of this descriptor.
fn over_emp(rt: &impl Abort, alloc: Global, file: &Desc) -> Tree {
    let mut inputs = Items::new(alloc);
    let name = symbol(rt, alloc, "emp");
    let desc = file.copy(alloc).expect(rt, "memory");
    inputs.push(Tree::File { name, desc }).expect(rt, "memory");
    let desc = file.copy(alloc).expect(rt, "memory");
    Tree::Node {
        op: 1,
        desc,
        inputs,
    }
}

/// What such a tree is once plain values are asked for.
fn asked(rt: &impl Abort, alloc: Global, layout: &Layout, seen: &Mask, file: &Desc) -> Tree {
    let wanted = Desc::plain(alloc, layout).expect(rt, "memory");
    let tree = over_emp(rt, alloc, file);
    let asked = tree.ask(alloc, seen, &wanted).expect(rt, "memory");
    asked.copy(alloc).expect(rt, "memory")
}

/// What is seen of the inputs of such a tree.
fn streams(
    rt: &impl Abort,
    alloc: Global,
    layout: &Layout,
    seen: &Mask,
    file: &Desc,
) -> Items<Desc> {
    let tree = asked(rt, alloc, layout, seen, file);
    let mut views = Items::new(alloc);
    push_views(alloc, layout, seen, tree.inputs(), &mut views).expect(rt, "memory");
    views
}

fn are_views(streams: &[Desc], view: &Desc, whole: &Desc) -> bool {
    streams.iter().all(|it| *it == *view && *it != *whole)
}

#[test]
fn a_rule_sees_inputs_by_their_views(rt: HostRuntime) {
    let alloc = rt.alloc();
    let layout = layout(&rt, alloc);
    let seen = second(&rt, alloc);
    let file = nine(&rt, alloc, &layout);
    let view = file.view(alloc, &layout, &seen).expect(&rt, "memory");
    let streams = streams(&rt, alloc, &layout, &seen, &file);
    assert_eq!(rt; streams.len(), 1);
    assert!(rt; are_views(streams.as_slice(), &view, &file));
}

fn catalog_copy(rt: &impl Abort, alloc: Global, text: &str) -> Catalog {
    let catalog = read_catalog(alloc, text.as_bytes()).expect(rt, "a catalog");
    catalog.copy(alloc).expect(rt, "memory")
}

/// Whether the file `emp` has seven rows.
fn has_seven(rt: &impl Abort, alloc: Global, catalog: &Catalog) -> bool {
    let card = symbol(rt, alloc, "card");
    let emp = symbol(rt, alloc, "emp");
    match catalog.file(&emp) {
        FileEntry::Listed(fields) => fields.get(&card) == Some(&Value::Num(7)),
        _ => false,
    }
}

/// Whether the table `t` is true at `a`.
fn finds_true(rt: &impl Abort, alloc: Global, catalog: &Catalog) -> bool {
    let table = symbol(rt, alloc, "t");
    let keys = names_in(rt, alloc, "a");
    catalog.lookup(&table, keys.as_slice()) == Some(&Value::Truth(true))
}

#[test]
fn a_catalog_is_copied(rt: HostRuntime) {
    let alloc = rt.alloc();
    let text =
        "{\"files\":{\"emp\":{\"card\":7}},\"tables\":{\"t\":[{\"keys\":[\"a\"],\"value\":true}]}}";
    let copy = catalog_copy(&rt, alloc, text);
    assert!(rt; has_seven(&rt, alloc, &copy));
    assert!(rt; finds_true(&rt, alloc, &copy));
}
