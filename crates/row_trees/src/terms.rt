// The terms of trees in rows.
use crate::trees::{push_digits, push_values};
use derivation::Terms;
use pr_value::Text;
use query_tree::TreeLabel;
use row_texts::trouble::Trouble;
use rule_ast::Rules;
use std::alloc::Global;

/// A line for each term: its number, its label with what rules see of it, and its inputs' numbers.
pub fn push_terms(
    alloc: Global,
    rules: &Rules,
    terms: &Terms<TreeLabel>,
    out: &mut Text,
) -> Result<(), Trouble> {
    for number in 0..terms.count() {
        push_digits(alloc, number as u64, out)?;
        out.push_bytes(b" ")?;
        push_label(alloc, rules, terms.label(number), out)?;
        for input in terms.inputs(number) {
            out.push_bytes(b" #")?;
            push_digits(alloc, *input as u64, out)?;
        }
        out.push_bytes(b"\n")?;
    }
    Ok(())
}

fn push_label(
    alloc: Global,
    rules: &Rules,
    label: &TreeLabel,
    out: &mut Text,
) -> Result<(), Trouble> {
    match label {
        TreeLabel::File { name, .. } => {
            out.push_bytes(b"file ")?;
            out.push_bytes(name.as_slice())?;
        }
        TreeLabel::Node { op, enforcer, .. } => {
            if *enforcer {
                out.push_bytes(b"enforcer ")?;
            }
            match rules.operators.as_slice().get(*op) {
                Some(operator) => out.push_bytes(operator.name.as_slice())?,
                None => out.push_bytes(b"?")?,
            }
        }
    }
    push_values(alloc, rules, label.view(), out)
}
