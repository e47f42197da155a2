use pr_value::Text;
use trial_gen::{Summary, make, push_summary};

const CATALOG: &str =
    "{\"files\":{\"f1\":{\"card\":38,\"files\":{\"set\":[\"f1\"]},\"index\":\"k\"},\"f2\":{\"card\":75,\"files\":{\"set\":[\"f2\"]},\"index\":\"-\"}},\"tables\":{\"card\":[{\"keys\":[\"f1\"],\"value\":38},{\"keys\":[\"f2\"],\"value\":75}]}}";

#[test]
fn a_trial_of_two_files_has_its_texts(rt: HostRuntime) {
    let trial = make(rt.alloc(), 2).expect(&rt, "memory");
    assert_eq!(rt; trial.catalog.as_slice(), CATALOG.as_bytes());
    assert_eq!(rt;
        trial.query.as_slice(),
        "JOIN(RET(file f1), RET(file f2))".as_bytes()
    );
    assert_eq!(rt; trial.rules.as_slice().len(), 2036);
}

#[test]
fn a_summary_has_a_line_for_each_number(rt: HostRuntime) {
    let summary = Summary {
        files: 1,
        classes: 2,
        expressions: 3,
        unfolded: 4,
        reachable: 5,
        cost: 38,
    };
    let mut out = Text::new(rt.alloc());
    push_summary(rt.alloc(), summary, &mut out).expect(&rt, "memory");
    let wanted =
        "files 1\nclasses 2\nexpressions 3\ngoals unfolded 4\ngoals reachable 5\ncost 38\n";
    assert_eq!(rt; out.as_slice(), wanted.as_bytes());
}
