// The texts of trees, descriptors and cost forms in rows.
use action_eval::CostForm;
use descriptor_types::{Desc, Tree};
use pr_value::Text;
use row_texts::trouble::Trouble;
use rule_ast::Rules;
use std::alloc::Global;

/// A line for each node, a node before its inputs: its name, and what of its descriptor is not a
/// default.
#[cycle(push_tree)]
pub fn push_tree(
    alloc: Global,
    rules: &Rules,
    tree: &Tree,
    depth: usize,
    out: &mut Text,
) -> Result<(), Trouble> {
    for _ in 0..depth {
        out.push_bytes(b"  ")?;
    }
    match tree {
        Tree::File { name, desc } => {
            out.push_bytes(b"file ")?;
            out.push_bytes(name.as_slice())?;
            push_values(alloc, rules, desc, out)?;
            out.push_bytes(b"\n")?;
        }
        Tree::Node { op, desc, inputs } => {
            match rules.operators.as_slice().get(*op) {
                Some(operator) => out.push_bytes(operator.name.as_slice())?,
                None => out.push_bytes(b"?")?,
            }
            push_values(alloc, rules, desc, out)?;
            out.push_bytes(b"\n")?;
            push_trees(
                alloc,
                rules,
                inputs.as_slice(),
                depth.saturating_add(1),
                out,
            )?;
        }
    }
    Ok(())
}

#[cycle(push_tree)]
fn push_trees(
    alloc: Global,
    rules: &Rules,
    trees: &[Tree],
    depth: usize,
    out: &mut Text,
) -> Result<(), Trouble> {
    for tree in trees {
        push_tree(alloc, rules, tree, depth, out)?;
    }
    Ok(())
}

/// ` P=V` for each property whose value is not a default.
pub fn push_values(
    alloc: Global,
    rules: &Rules,
    desc: &Desc,
    out: &mut Text,
) -> Result<(), Trouble> {
    for (place, property) in rules.properties.as_slice().iter().enumerate() {
        if place < desc.count() && !desc.is_default(place) {
            out.push_bytes(b" ")?;
            out.push_bytes(property.name.as_slice())?;
            out.push_bytes(b"=")?;
            desc.get(place).print(alloc, out)?;
        }
    }
    Ok(())
}

/// The form with the inputs' costs as `#0`, `#1` and so on.
pub fn push_form(alloc: Global, form: &CostForm, out: &mut Text) -> Result<(), Trouble> {
    match form {
        CostForm::Number(number) => push_digits(alloc, *number, out)?,
        CostForm::Input(place) => {
            out.push_bytes(b"#")?;
            push_digits(alloc, *place as u64, out)?;
        }
        CostForm::Sum(a, b) => {
            out.push_bytes(b"(")?;
            push_form(alloc, a.get(), out)?;
            out.push_bytes(b" + ")?;
            push_form(alloc, b.get(), out)?;
            out.push_bytes(b")")?;
        }
        CostForm::Greater(a, b) => {
            out.push_bytes(b"max(")?;
            push_form(alloc, a.get(), out)?;
            out.push_bytes(b", ")?;
            push_form(alloc, b.get(), out)?;
            out.push_bytes(b")")?;
        }
        CostForm::Lesser(a, b) => {
            out.push_bytes(b"min(")?;
            push_form(alloc, a.get(), out)?;
            out.push_bytes(b", ")?;
            push_form(alloc, b.get(), out)?;
            out.push_bytes(b")")?;
        }
        CostForm::Multiple(number, a) => {
            out.push_bytes(b"(")?;
            push_digits(alloc, *number, out)?;
            out.push_bytes(b" * ")?;
            push_form(alloc, a.get(), out)?;
            out.push_bytes(b")")?;
        }
    }
    Ok(())
}

/// The digits of a number.
pub fn push_digits(alloc: Global, number: u64, out: &mut Text) -> Result<(), Trouble> {
    let digits = number.to_string(alloc)?;
    out.push_bytes(digits.as_bytes())?;
    Ok(())
}
