ghost use Rattle.std.specs.Prelude.{◌≡◌, ◌≢◌, ◌≤◌, [], IfOk};
ghost use Rattle.pr_outside.specs.Counts.{one_more};
ghost use Rattle.prairie_top.specs.Outcome.{PlanComes, RulesComes, CatalogComes, TaskComes, Comes, PutsOnce, Ends};
ghost use Rattle.prairie_top.specs.Tasks.{seen_task};
ghost use Rattle.descriptor_types.specs.Labels.{seen_tree};
ghost use Rattle.property_classes.specs.Classes.{classes_of};
ghost use Rattle.rule_trees.specs.Trees.{IsTree};
ghost use Rattle.rule_ast.specs.SeenRules.{seen_rules};
ghost use Rattle.prairie_words.specs.Seen.{seen_names};
ghost use Rattle.prairie_top.specs.Stages.{IsDecided, IsStopped};

use crate::messages::{push_fault, push_refusal};
use crate::reading::{Built, Under};
use crate::source::{CATALOG_LIMIT, TEXT_LIMIT, source};
use crate::stage::Stop;
use crate::status::Status;
use crate::task::{Task, task_of};
use catalog::Catalog;
use descriptor_types::Tree;
use plan_form::plan_text;
use plan_search::best_plan;
use pr_outside::{Name, PutError, Shelf, Sink};
use pr_value::{Memory, Text};
use prairie_words::Names;
use property_classes::Classes;
use rule_types::Accepted;
use std::alloc::Global;

const USAGE: &[u8] =
    b"usage: plan RULES CATALOG QUERY, certify RULES CATALOG QUERY, check RULES CATALOG QUERY CERTIFICATE, p2v RULES, trial NUMBER\n";

const MEMORY: &[u8] = b"memory\n";

/// Answers the words: reads the texts that they name from the shelf, each whole before the next,
/// plans the query, and puts the text of the answer in one piece.
pub fn run<F: Shelf, K: Sink>(alloc: Global, words: &[Name], shelf: &mut F, out: &mut K) -> Status
    ensures answer { Ends words.now
        (record {
          held = F.held shelf.old;
          sure = F.sure shelf.old;
          before = F.faults shelf.old;
          after = F.faults shelf.new;
        })
        (record {
          written_before = K.written out.old;
          written_after = K.written out.new;
          before = K.faults out.old;
          after = K.faults out.new;
        })
        result }
    ensures held { F.held shelf.new ≡ F.held shelf.old }
    ensures sure { F.sure shelf.new ≡ F.sure shelf.old }
    ensures counted { F.faults shelf.old ≤ F.faults shelf.new }
    ensures counted_puts { K.faults out.old ≤ K.faults out.new }
    ensures once { K.puts out.new ≡ one_more (K.puts out.old) }
{
    let mut text = Text::new(alloc);
    match answer(alloc, words, shelf, &mut text) {
        Ok(came) => put(alloc, came, text.as_slice(), out),
        Err(Memory) => put(alloc, Status::Memory, MEMORY, out),
    }
}

/// Puts the text of an answer, and says how the run ends.
fn put<K: Sink>(alloc: Global, came: Status, text: &[u8], out: &mut K) -> Status
    requires { came ≢ Status.WriteFault }
    ensures counted { K.faults out.old ≤ K.faults out.new }
    ensures once { K.puts out.new ≡ one_more (K.puts out.old) }
    ensures put { PutsOnce
        (record {
          written_before = K.written out.old;
          written_after = K.written out.new;
          before = K.faults out.old;
          after = K.faults out.new;
        }) came text.now result }
{
    match out.put(alloc, text) {
        Ok(()) => came,
        Err(PutError::Failed) => Status::WriteFault,
        Err(PutError::Memory) => Status::Memory,
    }
}

/// What the words come to, with its text.
fn answer<F: Shelf>(
    alloc: Global,
    words: &[Name],
    shelf: &mut F,
    text: &mut Text,
) -> Result<Status, Memory>
    requires { text.old ≡ [] }
    ensures held { F.held shelf.new ≡ F.held shelf.old }
    ensures sure { F.sure shelf.new ≡ F.sure shelf.old }
    ensures counted { F.faults shelf.old ≤ F.faults shelf.new }
    ensures comes { IfOk result
        (λ came.
        Comes words.now
        (record {
          held = F.held shelf.old;
          sure = F.sure shelf.old;
          before = F.faults shelf.old;
          after = F.faults shelf.new;
        }) came text.new) }
{
    match task_of(words) {
        Some(task) => {
            let came = task_answer(alloc, &task, shelf, text)?;
            Ok(came)
        }
        None => {
            text.push_bytes(USAGE)?;
            Ok(Status::Usage)
        }
    }
}

/// What a task comes to.
fn task_answer<F: Shelf>(
    alloc: Global,
    task: &Task<'_>,
    shelf: &mut F,
    text: &mut Text,
) -> Result<Status, Memory>
    requires empty { text.old ≡ [] }
    ensures held { F.held shelf.new ≡ F.held shelf.old }
    ensures sure { F.sure shelf.new ≡ F.sure shelf.old }
    ensures counted { F.faults shelf.old ≤ F.faults shelf.new }
    ensures comes { IfOk result
        (λ came. TaskComes (seen_task task.now)
        (record {
          held = F.held shelf.old;
          sure = F.sure shelf.old;
          before = F.faults shelf.old;
          after = F.faults shelf.new;
        }) came text.new) }
{
    planned(alloc, &task.names, shelf, text)
}

/// The answer where a text is not had.
fn stopped(
    alloc: Global,
    word: &[u8],
    name: &Name,
    stop: Stop,
    text: &mut Text,
) -> Result<Status, Memory>
    requires { text.old ≡ [] }
    ensures { IfOk result (λ came. IsStopped word.now name.now stop came text.new) }
{
    match stop {
        Stop::Refused(refusal) => {
            push_refusal(alloc, word, refusal, text)?;
            Ok(Status::Refused)
        }
        Stop::Failed => {
            push_fault(name, text)?;
            Ok(Status::ReadFault)
        }
        Stop::Memory => Err(Memory),
    }
}

/// What `plan` comes to.
fn planned<F: Shelf>(
    alloc: Global,
    names: &Names<'_>,
    shelf: &mut F,
    text: &mut Text,
) -> Result<Status, Memory>
    requires empty { text.old ≡ [] }
    ensures held { F.held shelf.new ≡ F.held shelf.old }
    ensures sure { F.sure shelf.new ≡ F.sure shelf.old }
    ensures counted { F.faults shelf.old ≤ F.faults shelf.new }
    ensures comes { IfOk result (λ came. PlanComes (seen_names names.now)
        (record {
          held = F.held shelf.old;
          sure = F.sure shelf.old;
          before = F.faults shelf.old;
          after = F.faults shelf.new;
        }) came text.new) }
{
    match source::<F, (), Accepted>(alloc, shelf, names.rules, TEXT_LIMIT, &()) {
        Ok(accepted) => with_rules(alloc, &accepted, names, shelf, text),
        Err(stop) => stopped(alloc, b"rules", names.rules, stop, text),
    }
}

/// What `plan` comes to once the rules are read.
fn with_rules<F: Shelf>(
    alloc: Global,
    accepted: &Accepted,
    names: &Names<'_>,
    shelf: &mut F,
    text: &mut Text,
) -> Result<Status, Memory>
    requires empty { text.old ≡ [] }
    ensures held { F.held shelf.new ≡ F.held shelf.old }
    ensures sure { F.sure shelf.new ≡ F.sure shelf.old }
    ensures counted { F.faults shelf.old ≤ F.faults shelf.new }
    ensures comes { IfOk result
        (λ came. RulesComes (seen_rules accepted.now.rules) (seen_names names.now)
        (record {
          held = F.held shelf.old;
          sure = F.sure shelf.old;
          before = F.faults shelf.old;
          after = F.faults shelf.new;
        }) came text.new) }
{
    let classes = Classes::of(alloc, &accepted.rules)?;
    let came = with_classes(alloc, accepted, &classes, names, shelf, text)?;
    Ok(came)
}

/// The same, once the classes of the properties are known.
fn with_classes<F: Shelf>(
    alloc: Global,
    accepted: &Accepted,
    classes: &Classes,
    names: &Names<'_>,
    shelf: &mut F,
    text: &mut Text,
) -> Result<Status, Memory>
    requires classes { classes.now ≡ classes_of (seen_rules accepted.now.rules) }
    requires empty { text.old ≡ [] }
    ensures held { F.held shelf.new ≡ F.held shelf.old }
    ensures sure { F.sure shelf.new ≡ F.sure shelf.old }
    ensures counted { F.faults shelf.old ≤ F.faults shelf.new }
    ensures comes { IfOk result
        (λ came. RulesComes (seen_rules accepted.now.rules) (seen_names names.now)
        (record {
          held = F.held shelf.old;
          sure = F.sure shelf.old;
          before = F.faults shelf.old;
          after = F.faults shelf.new;
        }) came text.new) }
{
    match source::<F, (), Catalog>(alloc, shelf, names.catalog, CATALOG_LIMIT, &()) {
        Ok(catalog) => with_catalog(
            alloc,
            &Under {
                accepted,
                classes,
                catalog: &catalog,
            },
            names,
            shelf,
            text,
        ),
        Err(stop) => stopped(alloc, b"catalog", names.catalog, stop, text),
    }
}

/// What `plan` comes to once the rules and the catalog are read.
fn with_catalog<F: Shelf>(
    alloc: Global,
    under: &Under<'_>,
    names: &Names<'_>,
    shelf: &mut F,
    text: &mut Text,
) -> Result<Status, Memory>
    requires empty { text.old ≡ [] }
    ensures held { F.held shelf.new ≡ F.held shelf.old }
    ensures sure { F.sure shelf.new ≡ F.sure shelf.old }
    ensures counted { F.faults shelf.old ≤ F.faults shelf.new }
    ensures comes { IfOk result
        (λ came.
        CatalogComes (seen_rules under.now.accepted.now.rules) under.now.catalog.now
        (seen_names names.now)
        (record {
          held = F.held shelf.old;
          sure = F.sure shelf.old;
          before = F.faults shelf.old;
          after = F.faults shelf.new;
        }) came text.new) }
{
    match source::<F, Under<'_>, Built>(alloc, shelf, names.query, TEXT_LIMIT, under) {
        Ok(built) => decided(alloc, under, &built.tree, text),
        Err(stop) => stopped(alloc, b"query", names.query, stop, text),
    }
}

/// A best plan of the tree, or that there is none.
fn decided(alloc: Global, under: &Under<'_>, tree: &Tree, text: &mut Text) -> Result<Status, Memory>
    requires empty { text.old ≡ [] }
    requires tree { IsTree (seen_rules under.now.accepted.now.rules) under.now.catalog.now
        (seen_tree tree.now) }
    ensures { IfOk result
        (λ came. IsDecided (seen_rules under.now.accepted.now.rules) under.now.catalog.now
        (seen_tree tree.now) came text.new) }
{
    match best_plan(alloc, under.accepted, under.classes, under.catalog, tree)? {
        Some(plan) => {
            plan_text(alloc, under.accepted, &plan, text)?;
            Ok(Status::Done)
        }
        None => {
            text.push_bytes(b"no plan\n")?;
            Ok(Status::NoPlan)
        }
    }
}
