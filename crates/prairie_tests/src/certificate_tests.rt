use bound_certificate::{CertDesc, Certificate, read_certificate, write_certificate};
use pr_value::{CAP, Symbol, Text, Value, is_name, number_in};
use std::alloc::Global;
use std::process::Abort;

const SPELLED: &str =
    "{\"format\":1,\"verdict\":7,\"nodes\":[{\"file\":\"emp\"},{\"op\":\"RET\",\"set\":{\"order\":\"-\",\"on\":{\"set\":[\"b\",\"a\",\"b\"]}},\"in\":[0]}],\"lines\":[{\"left\":1,\"right\":1,\"by\":\"query\"},{\"left\":1,\"right\":1,\"by\":\"rule\",\"of\":0,\"rule\":\"t\"}],\"line\":0,\"plan\":[{\"file\":\"emp\"},{\"rule\":\"is\",\"in\":[0]}],\"classes\":[[{\"file\":\"emp\"}],[{\"op\":\"RET\",\"set\":{},\"in\":[0]}]],\"root\":1,\"goals\":[{\"class\":0,\"ask\":{},\"bound\":0},{\"class\":1,\"ask\":{\"order\":[\"a\"]},\"bound\":\"no plan\"}]}";

/// The same, as it is written.
const PLACED: &str =
    "{\"classes\":[[{\"file\":4}],[{\"in\":[0],\"op\":1,\"set\":[]}]],\"format\":2,\"goals\":[{\"ask\":[],\"bound\":0,\"class\":0},{\"ask\":[[7,{\"list\":[2]}]],\"bound\":\"no plan\",\"class\":1}],\"line\":0,\"lines\":[{\"by\":\"query\",\"left\":1,\"right\":1},{\"by\":\"rule\",\"left\":1,\"of\":0,\"right\":1,\"rule\":8}],\"names\":[\"-\",\"RET\",\"a\",\"b\",\"emp\",\"is\",\"on\",\"order\",\"t\"],\"nodes\":[{\"file\":4},{\"in\":[0],\"op\":1,\"set\":[[6,{\"set\":[2,3]}],[7,{\"sym\":0}]]}],\"plan\":[{\"file\":4},{\"in\":[0],\"rule\":5}],\"root\":1,\"verdict\":7}";

fn read(rt: &impl Abort, alloc: Global, text: &str) -> Certificate {
    read_certificate(alloc, text.as_bytes()).expect(rt, "a certificate")
}

fn check_written(rt: &impl Abort, alloc: Global, text: &str) {
    let mut out = Text::new(alloc);
    write_certificate(alloc, &read(rt, alloc, text), &mut out).expect(rt, "memory");
    assert_eq!(rt; out.as_slice(), PLACED.as_bytes());
}

#[test]
fn a_certificate_of_the_first_format_is_written_in_the_second(rt: HostRuntime) {
    check_written(&rt, rt.alloc(), SPELLED);
}

#[test]
fn a_certificate_of_the_second_format_is_written_as_it_was(rt: HostRuntime) {
    check_written(&rt, rt.alloc(), PLACED);
}

fn put(rt: &impl Abort, alloc: Global, desc: &mut CertDesc, name: &str, n: u64) {
    let name = Symbol::new(alloc, name.as_bytes()).expect(rt, "a symbol");
    if is_name(name.as_slice()) && n <= CAP {
        desc.put(name, Value::Num(n)).expect(rt, "memory");
    }
}

#[test]
fn a_descriptor_has_its_fields_by_name(rt: HostRuntime) {
    let alloc = rt.alloc();
    let mut desc = CertDesc::new(alloc);
    for (name, n) in [("b", 1), ("a", 2), ("b", 3), ("-", 4)] {
        put(&rt, alloc, &mut desc, name, n);
    }
    let mut printed = Vec::new(alloc);
    for i in 0..desc.count() {
        let name = desc.name(i).as_slice().first().copied();
        let number = number_in(desc.value(i));
        let field = format!(in alloc; "{name:?} {number}").expect(&rt, "memory");
        printed.push(field).expect(&rt, "memory");
    }
    let printed = format!(in alloc; "{printed:?}").expect(&rt, "memory");
    assert_eq!(rt; printed.as_str(), "[\"Some(97) 2\", \"Some(98) 3\"]");
}
