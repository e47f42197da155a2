use pr_value::Text;
use rule_ast::{Copied, Rules};
use rule_lex::tokens;
use rule_syntax::{print_rules, read_query, read_rules};
use std::alloc::Global;
use std::process::Abort;

const RULES: &str =
    "property order : symbol ; property cost : cost ; operator R ( A ) : D { D . order = A . order ; } algorithm F / 1 ; helper one ( s : set ) : list = [ 'a ] ; trule t : R ( R ( ? 1 : A ) : B ) : D => R ( ? 1 ) : E pre { } test any ( x in { 'a } : ( x == 'a ) ) post { } irule i : R ( ? 1 : A ) : D => Null ( ? 1 : B ) : E pre { B . order = D . order ; } test true post { E . cost = ( 1 + B . cost ) ; }";

fn read(rt: &impl Abort, alloc: Global) -> Rules {
    let tokens = tokens(alloc, RULES.as_bytes()).expect(rt, "tokens");
    read_rules(alloc, &tokens).expect(rt, "rules")
}

#[test]
fn a_copy_of_rules_prints_as_they_do(rt: HostRuntime) {
    let alloc = rt.alloc();
    let copy = read(&rt, alloc).copy(alloc).expect(&rt, "memory");
    let mut out = Text::new(alloc);
    print_rules(alloc, &copy, &mut out).expect(&rt, "memory");
    assert_eq!(rt; out.as_slice(), RULES.as_bytes());
}

#[test]
fn a_query_is_copied(rt: HostRuntime) {
    let alloc = rt.alloc();
    let text = "R{order = 'a, cost = 1}(file emp)";
    let tokens = tokens(alloc, text.as_bytes()).expect(&rt, "tokens");
    let query = read_query(alloc, &tokens).expect(&rt, "a query");
    let copy = query.copy(alloc).expect(&rt, "memory");
    let printed = format!(in alloc; "{copy:?}").expect(&rt, "memory");
    let wanted = format!(in alloc; "{query:?}").expect(&rt, "memory");
    assert_eq!(rt; printed, wanted);
}
