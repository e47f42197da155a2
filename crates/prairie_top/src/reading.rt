// From texts to accepted rule sets, catalogs and queries with their trees, or why they are refused.
ghost use Rattle.std.specs.Prelude.{◌≡◌, [], ⊤, Decides, IfOk};
ghost use Rattle.descriptor_types.specs.Labels.{seen_tree};
ghost use Rattle.rule_syntax.specs.Levels.{IsRules, IsQuery};
ghost use Rattle.rule_ast.specs.Seen.{seen_query};
ghost use Rattle.rule_ast.specs.SeenRules.{seen_rules};
ghost use Rattle.rule_syntax.specs.Tokens.{Text as SeenText};
ghost use Rattle.prairie_top.specs.Reading.{HasNoTokens, Reads, IsRefusedText, rules_grammar, query_grammar, ReadsCatalog, IsRefusedCatalog};
ghost use Rattle.prairie_top.specs.Stages.{IsReading, ArePlaced, IsOfTokens, IsAccepting, IsBuilt, of_accept_error, of_query_refusal};
ghost use Rattle.property_classes.specs.Classes.{classes_of};

use crate::source::FromText;
use crate::stage::{Refusal, TextError};
use catalog::{Catalog, CatalogError, read_catalog};
use descriptor_types::Tree;
use pr_value::{Memory, Tokens};
use property_classes::Classes;
use query_tree::{QueryRefusal, build};
use rule_ast::{QueryText, Rules};
use rule_lex::{LexError, tokens};
use rule_syntax::{SyntaxError, read_query, read_rules};
use rule_types::{AcceptError, Accepted, accept};
use std::alloc::Global;

/// The tokens of a text, or why it has none.
fn tokens_of(alloc: Global, text: &[u8]) -> Result<Tokens, TextError>
    ensures { IsReading ArePlaced HasNoTokens text.now result }
{
    match tokens(alloc, text) {
        Ok(ts) => Ok(ts),
        Err(LexError::BadByte { at }) => Err(TextError::Refused(Refusal::BadByte { at })),
        Err(LexError::NumberTooBig { at }) => Err(TextError::Refused(Refusal::NumberTooBig { at })),
        Err(LexError::NameTooLong { at }) => Err(TextError::Refused(Refusal::NameTooLong { at })),
        Err(LexError::Memory) => Err(TextError::Memory),
    }
}

fn is_without_trules(rules: &Rules) -> bool
    ensures { Decides result ((seen_rules rules.now).trules ≡ []) }
{
    rules.trules.as_slice().is_empty()
}

/// The rule set as one that is accepted, where it has no T-rule.
fn accepted(alloc: Global, rules: Rules) -> Result<Accepted, TextError>
    ensures { IsAccepting rules_grammar (λ a. seen_rules a.rules) (seen_rules rules) result }
{
    match accept(alloc, rules) {
        Ok(accepted) => {
            if !is_without_trules(accepted.rules()) {
                return Err(TextError::Refused(Refusal::Unbuilt));
            }
            Ok(accepted)
        }
        Err(back) => {
            let (_, error) = back;
            Err(not_accepted(error))
        }
    }
}

fn not_accepted(error: AcceptError) -> TextError
    ensures { result ≡ of_accept_error error }
{
    match error {
        AcceptError::Refused { kind, name } => {
            TextError::Refused(Refusal::NotAccepted { kind, name })
        }
        AcceptError::Memory => TextError::Memory,
    }
}

/// The rule set of these tokens, where it is accepted and has no T-rule.
fn rules_of(alloc: Global, ts: &Tokens) -> Result<Accepted, TextError>
    ensures { IsOfTokens rules_grammar (λ a. seen_rules a.rules) ts.now result }
{
    match read_rules(alloc, ts) {
        Ok(rules) => accepted(alloc, rules),
        Err(SyntaxError::BadSyntax { at }) => Err(TextError::Refused(Refusal::BadSyntax { at })),
        Err(SyntaxError::TooDeep { at }) => Err(TextError::Refused(Refusal::TooDeep { at })),
        Err(SyntaxError::Memory) => Err(TextError::Memory),
    }
}

/// A query with its tree.
#[derive(Drop)]
pub struct Built {
    pub query: QueryText,
    pub tree: Tree,
}

/// The query of these tokens, where it builds a tree.
fn query_of(alloc: Global, under: &Under<'_>, ts: &Tokens) -> Result<Built, TextError>
    ensures read { IsOfTokens
        (query_grammar (seen_rules under.now.accepted.now.rules) under.now.catalog.now)
        (λ b. seen_query b.query) ts.now result }
    ensures sound { IfOk result
        (λ b. IsBuilt (seen_rules under.now.accepted.now.rules) under.now.catalog.now
        (seen_query b.query) (seen_tree b.tree)) }
{
    match read_query(alloc, ts) {
        Ok(query) => with_tree(alloc, under, query),
        Err(SyntaxError::BadSyntax { at }) => Err(TextError::Refused(Refusal::BadSyntax { at })),
        Err(SyntaxError::TooDeep { at }) => Err(TextError::Refused(Refusal::TooDeep { at })),
        Err(SyntaxError::Memory) => Err(TextError::Memory),
    }
}

/// The query with its tree, where it builds one.
fn with_tree(alloc: Global, under: &Under<'_>, query: QueryText) -> Result<Built, TextError>
    ensures accepting { IsAccepting
        (query_grammar (seen_rules under.now.accepted.now.rules) under.now.catalog.now)
        (λ b. seen_query b.query) (seen_query query) result }
    ensures sound { IfOk result
        (λ b. IsBuilt (seen_rules under.now.accepted.now.rules) under.now.catalog.now
        (seen_query b.query) (seen_tree b.tree)) }
{
    match build(alloc, under.accepted, under.classes, under.catalog, &query) {
        Ok(tree) => Ok(Built { query, tree }),
        Err(refusal) => Err(not_built(refusal)),
    }
}

fn not_built(refusal: QueryRefusal) -> TextError
    ensures { result ≡ of_query_refusal refusal }
{
    match refusal {
        QueryRefusal::TooManyNodes => TextError::Refused(Refusal::TooManyNodes),
        QueryRefusal::UnknownOperator { name } => {
            TextError::Refused(Refusal::UnknownOperator { name })
        }
        QueryRefusal::UnknownFile { name } => TextError::Refused(Refusal::UnknownFile { name }),
        QueryRefusal::Arity { name } => TextError::Refused(Refusal::Arity { name }),
        QueryRefusal::UnknownProperty { name } => {
            TextError::Refused(Refusal::UnknownProperty { name })
        }
        QueryRefusal::WrongType { name } => TextError::Refused(Refusal::WrongType { name }),
        QueryRefusal::Memory => TextError::Memory,
    }
}

impl FromText<()> for Accepted {
    ghost reads = { λ _ a. Reads rules_grammar (seen_rules a.rules) };

    ghost refuses = { λ _. IsRefusedText rules_grammar };

    ghost sound = { λ _ _. ⊤ };

    fn from_text(alloc: Global, _context: &(), text: &[u8]) -> Result<Accepted, TextError> {
        match tokens_of(alloc, text) {
            Ok(ts) => rules_of(alloc, &ts),
            Err(error) => Err(error),
        }
    }
}

impl FromText<()> for Catalog {
    ghost reads = { λ _. ReadsCatalog };

    ghost refuses = { λ _. IsRefusedCatalog };

    ghost sound = { λ _ _. ⊤ };

    fn from_text(alloc: Global, _context: &(), text: &[u8]) -> Result<Catalog, TextError> {
        match read_catalog(alloc, text) {
            Ok(catalog) => Ok(catalog),
            Err(CatalogError::NotJson) => Err(TextError::Refused(Refusal::NotJson)),
            Err(CatalogError::BadShape { part }) => {
                Err(TextError::Refused(Refusal::BadShape { part }))
            }
            Err(CatalogError::Memory) => Err(TextError::Memory),
        }
    }
}

/// What a query is read under.
#[derive(Clone, Copy)]
pub struct Under<'a> {
    pub accepted: &'a Accepted,
    pub classes: &'a Classes,
    pub catalog: &'a Catalog,
    pub ghost classed: { classes.now ≡ classes_of (seen_rules accepted.now.rules) },
}

impl<'a> FromText<Under<'a>> for Built {
    ghost reads = { λ u b. Reads (query_grammar (seen_rules u.accepted.now.rules) u.catalog.now) (seen_query b.query) };

    ghost refuses = { λ u. IsRefusedText (query_grammar (seen_rules u.accepted.now.rules) u.catalog.now) };

    ghost sound = { λ u b. IsBuilt (seen_rules u.accepted.now.rules) u.catalog.now (seen_query b.query) (seen_tree b.tree) };

    fn from_text(alloc: Global, under: &Under<'a>, text: &[u8]) -> Result<Built, TextError> {
        match tokens_of(alloc, text) {
            Ok(ts) => query_of(alloc, under, &ts),
            Err(error) => Err(error),
        }
    }
}
