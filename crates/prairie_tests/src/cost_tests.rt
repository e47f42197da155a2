use action_eval::CostForm;
use pr_value::Boxed;
use std::alloc::Global;
use std::process::Abort;

fn boxed(rt: &impl Abort, alloc: Global, form: CostForm) -> Boxed<CostForm> {
    Boxed::new(alloc, form).expect(rt, "memory")
}

/// The cost of the first input and three times that of the second.
fn weighted(rt: &impl Abort, alloc: Global) -> CostForm {
    let second = boxed(rt, alloc, CostForm::Input(1));
    let thrice = boxed(rt, alloc, CostForm::Multiple(3, second));
    CostForm::Sum(boxed(rt, alloc, CostForm::Input(0)), thrice)
}

#[test]
fn a_form_of_cost_is_copied(rt: HostRuntime) {
    let alloc = rt.alloc();
    let form = weighted(&rt, alloc);
    let copy = form.copy(alloc).expect(&rt, "memory");
    assert!(rt; copy.same(&form), "the same form");
    assert!(rt; !copy.same(&CostForm::Input(0)), "and no other");
}
