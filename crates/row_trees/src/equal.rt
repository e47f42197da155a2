// Rows of what T-rules make on terms, and of the classes that a memo merges by them.
ghost use Rattle.std.specs.Prelude.{◌≡◌};
ghost use Rattle.descriptor_types.specs.Labels.{seen_tree};
ghost use Rattle.property_classes.specs.Classes.{classes_of};
ghost use Rattle.rule_trees.specs.Trees.{IsTree};
ghost use Rattle.rule_ast.specs.SeenRules.{seen_rules};

use crate::steps::Under;
use crate::trees::push_digits;
use derivation::{Label, Log, PushError, Reason, Steps, Term, Terms};
use descriptor_types::Tree;
use memo::{Counts, Memo, MemoError};
use pr_value::Text;
use query_tree::{TreeLabel, TreeSteps, add_tree};
use row_texts::trouble::Trouble;
use std::alloc::Global;

/// The term of what the T-rule of that number makes of the tree's term, if anything.
pub fn stepped_term(
    alloc: Global,
    under: &Under<'_>,
    number: usize,
    tree: &Tree,
    terms: &mut Terms<TreeLabel>,
) -> Result<Option<usize>, Trouble>
    requires classes { under.now.classes.now ≡ classes_of (seen_rules under.now.accepted.now.rules) }
    requires tree { IsTree (seen_rules under.now.accepted.now.rules) under.now.catalog.now
        (seen_tree tree.now) }
{
    let node = add_tree(alloc, under.accepted, under.classes, tree, terms)?;
    let steps = TreeSteps::new(alloc, under.accepted, under.classes, under.catalog)?;
    step_at(alloc, &steps, number, terms, node)
}

/// The term of what a copy of the steps makes of a term by the rule of that number, if anything.
fn step_at<L: Label + Drop, S: Steps<L> + Drop>(
    alloc: Global,
    steps: &S,
    number: usize,
    terms: &mut Terms<L>,
    node: usize,
) -> Result<Option<usize>, Trouble> {
    if node >= terms.count() {
        return Ok(None);
    }
    let copy = steps.copy(alloc)?;
    Ok(copy.step(alloc, number, terms, node)?)
}

/// The counts of a memo of the tree, before and after what the T-rule of that number makes of it,
/// over parts of the tree, is of the root's class, and the depth of a line that equates the two.
pub fn push_merged(
    alloc: Global,
    under: &Under<'_>,
    number: usize,
    tree: &Tree,
    out: &mut Text,
) -> Result<(), Trouble>
    requires classes { under.now.classes.now ≡ classes_of (seen_rules under.now.accepted.now.rules) }
    requires tree { IsTree (seen_rules under.now.accepted.now.rules) under.now.catalog.now
        (seen_tree tree.now) }
{
    let steps = TreeSteps::new(alloc, under.accepted, under.classes, under.catalog)?;
    push_by(alloc, under, &steps, number, tree, out)
}

/// The same of a memo by a copy of the steps.
fn push_by<S: Steps<TreeLabel> + Drop>(
    alloc: Global,
    under: &Under<'_>,
    steps: &S,
    number: usize,
    tree: &Tree,
    out: &mut Text,
) -> Result<(), Trouble>
    requires classes { under.now.classes.now ≡ classes_of (seen_rules under.now.accepted.now.rules) }
    requires tree { IsTree (seen_rules under.now.accepted.now.rules) under.now.catalog.now
        (seen_tree tree.now) }
{
    let mut terms = Terms::new(alloc);
    let query = add_tree(alloc, under.accepted, under.classes, tree, &mut terms)?;
    push_in_memo(alloc, terms, steps, query, number, out)
}

/// The same of a memo of the query's term.
fn push_in_memo<L: Label + Drop, S: Steps<L> + Drop>(
    alloc: Global,
    terms: Terms<L>,
    steps: &S,
    query: usize,
    number: usize,
    out: &mut Text,
) -> Result<(), Trouble> {
    let log = log_of(alloc, terms, steps, query)?;
    let mut memo = Memo::new(alloc, log)?;
    push_before_and_after(alloc, &mut memo, number, out)
}

/// A log of the query's term, without lines, by a copy of the steps.
fn log_of<L: Label + Drop, S: Steps<L> + Drop>(
    alloc: Global,
    terms: Terms<L>,
    steps: &S,
    query: usize,
) -> Result<Log<L, S>, Trouble> {
    if query >= terms.count() {
        return Err(Trouble::Memory);
    }
    let copy = steps.copy(alloc)?;
    Ok(Log::new(alloc, terms, copy, query)?)
}

/// The term at the right of a line.
fn right_term<L: Label + Drop, S: Steps<L>>(
    memo: &Memo<L, S>,
    line: usize,
) -> Option<(usize, &Term<L>)> {
    let log = memo.log();
    if line >= log.count() {
        return None;
    }
    let right = log.line(line).right;
    Some((right, log.terms().at(right)?))
}

/// A memo that is not spoilt fails only where memory is wanting.
fn lacking(_error: MemoError) -> Trouble {
    Trouble::Memory
}

fn push_counts(alloc: Global, counts: Counts, out: &mut Text) -> Result<(), Trouble> {
    push_digits(alloc, counts.classes as u64, out)?;
    out.push_bytes(b" classes, ")?;
    push_digits(alloc, counts.expressions as u64, out)?;
    out.push_bytes(b" expressions\n")?;
    Ok(())
}

fn push_before_and_after<L: Label + Drop, S: Steps<L>>(
    alloc: Global,
    memo: &mut Memo<L, S>,
    number: usize,
    out: &mut Text,
) -> Result<(), Trouble> {
    push_counts(alloc, memo.counts(), out)?;
    match rule_line(alloc, memo, number)? {
        Some(line) => push_after(alloc, memo, line, out),
        None => {
            out.push_bytes(b"none\n")?;
            Ok(())
        }
    }
}

/// The line of what the T-rule of that number makes of the query, if anything.
fn rule_line<L: Label + Drop, S: Steps<L>>(
    alloc: Global,
    memo: &mut Memo<L, S>,
    number: usize,
) -> Result<Option<usize>, Trouble> {
    let rule = Reason::Rule {
        of: 0,
        rule: number,
    };
    match memo.push(alloc, rule) {
        Ok(line) => Ok(Some(line)),
        Err(PushError::BadReason) => Ok(None),
        Err(PushError::Memory) => Err(Trouble::Memory),
    }
}

fn push_after<L: Label + Drop, S: Steps<L>>(
    alloc: Global,
    memo: &mut Memo<L, S>,
    line: usize,
    out: &mut Text,
) -> Result<(), Trouble> {
    let equal = merge(alloc, memo, line)?;
    push_counts(alloc, memo.counts(), out)?;
    push_depth(alloc, memo, equal, out)
}

fn push_depth<L: Label + Drop, S: Steps<L>>(
    alloc: Global,
    memo: &Memo<L, S>,
    line: usize,
    out: &mut Text,
) -> Result<(), Trouble> {
    let log = memo.log();
    if line < log.count() {
        out.push_bytes(b"equal at depth ")?;
        push_digits(alloc, log.line(line).depth as u64, out)?;
        out.push_bytes(b"\n")?;
    }
    Ok(())
}

/// Makes what a line has at its right, over parts of the query, one with the query.
fn merge<L: Label + Drop, S: Steps<L>>(
    alloc: Global,
    memo: &mut Memo<L, S>,
    line: usize,
) -> Result<usize, Trouble> {
    let root = memo.log().query();
    let (right, class) = add_right(alloc, memo, line)?;
    memo.join(alloc, root, class, line).map_err(lacking)?;
    memo.settle(alloc).map_err(lacking)?;
    let equal = memo.equate(alloc, root, right).map_err(lacking)?;
    Ok(equal)
}

/// The term at the right of a line, and the class that it is added to.
fn add_right<L: Label + Drop, S: Steps<L>>(
    alloc: Global,
    memo: &mut Memo<L, S>,
    line: usize,
) -> Result<(usize, usize), Trouble> {
    let Some((right, term)) = right_term(memo, line) else {
        return Err(Trouble::Misshapen("a line of the memo"));
    };
    let label = term.label.copy(alloc)?;
    let inputs = Vec::from_slice(alloc, term.inputs.as_slice())?;
    let class = memo
        .add(alloc, label, inputs.as_slice(), line)
        .map_err(lacking)?;
    Ok((right, class))
}
