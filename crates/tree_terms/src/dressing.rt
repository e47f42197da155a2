// Labels with their views.
ghost use Rattle.std.specs.Prelude.{◌≡◌, None, map, IfOk};
ghost use Rattle.descriptor_types.specs.Labels.{file, operator};
ghost use Rattle.enforcer_find.specs.Enforcers.{has_null};
ghost use Rattle.property_classes.specs.Classes.{classes_of};
ghost use Rattle.tree_terms.specs.Equality as spec;
ghost use Rattle.tree_terms.specs.TreeLabels.{dressed_label};
ghost use Rattle.rule_ast.specs.Roles.{is_enforcer};
ghost use Rattle.rule_ast.specs.Seen.{seen_irule};
ghost use Rattle.rule_ast.specs.SeenRules.{seen_rules};
ghost use Rattle.rule_types.specs.Conditions.{refused_by};

use crate::labels::TreeLabel;
use descriptor_types::{Desc, Layout};
use enforcer_find::Enforcers;
use pr_value::{Memory, Symbol};
use property_classes::Classes;
use rule_ast::Rules;
use rule_types::Accepted;
use std::alloc::Global;

/// What labels are made with: accepted rules, with the layout and the classes of their properties,
/// and their enforcers.
#[derive(Clone, Copy)]
pub struct Dressing<'a> {
    pub rules: &'a Rules,
    pub layout: &'a Layout,
    pub classes: &'a Classes,
    pub enforcers: &'a Enforcers,
    pub ghost accepted: { refused_by (seen_rules rules.now) ≡ None },
    pub ghost laid_out: { layout.now ≡ rules.now.properties },
    pub ghost classed: { classes.now ≡ classes_of (seen_rules rules.now) },
    pub ghost found: { map has_null enforcers.now
        ≡ map (λ o. is_enforcer (map seen_irule rules.now.irules) o.name) rules.now.operators },
}

impl<'a> Dressing<'a> {
    /// What labels of an accepted rule set are made with.
    pub fn new(a: &'a Accepted, c: &'a Classes, enforcers: &'a Enforcers) -> Dressing<'a>
        requires classes { c.now ≡ classes_of (seen_rules a.now.rules) }
        requires enforcers { map has_null enforcers.now
            ≡ map (λ o. is_enforcer (map seen_irule a.now.rules.irules) o.name)
            a.now.rules.operators }
        ensures { result.rules.now ≡ a.now.rules }
    {
        Dressing {
            rules: a.rules(),
            layout: a.layout(),
            classes: c,
            enforcers,
        }
    }
}

/// Whether the operator of that number is an enforcer.
fn enforces(dressing: &Dressing, op: usize) -> bool
    ensures { result ≡ spec.enforces (seen_rules dressing.now.rules.now) op }
{
    if op < dressing.rules.operators.len() {
        dressing.enforcers.is_enforcer(op)
    } else {
        false
    }
}

/// The label of a file with that descriptor: with the view of it.
pub fn file_label(
    alloc: Global,
    dressing: &Dressing,
    name: Symbol,
    desc: Desc,
) -> Result<TreeLabel, Memory>
    ensures { IfOk result
        (λ l. l ≡ dressed_label (seen_rules dressing.now.rules.now) (file name desc)) }
{
    let view = desc.view(alloc, dressing.layout, dressing.classes.seen())?;
    Ok(TreeLabel::File { name, desc, view })
}

/// The label of an operator, by its place of declaration from 0, with that descriptor: with the view
/// of it, and whether the operator is an enforcer.
pub fn node_label(
    alloc: Global,
    dressing: &Dressing,
    op: usize,
    desc: Desc,
) -> Result<TreeLabel, Memory>
    ensures { IfOk result
        (λ l. l ≡ dressed_label (seen_rules dressing.now.rules.now) (operator op desc)) }
{
    let view = desc.view(alloc, dressing.layout, dressing.classes.seen())?;
    let enforcer = enforces(dressing, op);
    Ok(TreeLabel::Node {
        op,
        desc,
        view,
        enforcer,
    })
}
