// The printer of a rule set.
ghost use Rattle.std.specs.Prelude.{◌≡◌, ◌++◌, OnOk, OnErr};
ghost use Rattle.rule_ast.specs.Seen.{seen_trule, seen_irule};
ghost use Rattle.rule_ast.specs.SeenRules.{seen_rules};
ghost use Rattle.pr_value.specs.TokenTexts.{spaced};
ghost use Rattle.rule_syntax.specs.Tokens.{tokens_of, trule_tokens, irule_tokens};

use crate::printing::lists::{Printed, push_all};
use crate::printing::parts::push_body;
use crate::printing::sides::{push_impl, push_left, push_right};
use crate::printing::spaced::push_spaced;
use crate::printing::tokens::{begin, push_mark};
use pr_value::{Items, Mark, Memory, Text, Token};
use rule_ast::{IRule, Rules, TRule};
use std::alloc::Global;

impl Printed for TRule {
    ghost spelling = { λ r. trule_tokens (seen_trule r) };

    fn print(&self, alloc: Global, tokens: &mut Items<Token>) -> Result<(), Memory> {
        begin(alloc, b"trule", &self.name, tokens)?;
        push_mark(Mark::Colon, tokens)?;
        push_left(alloc, &self.left, tokens)?;
        push_mark(Mark::Arrow, tokens)?;
        push_right(alloc, &self.right, tokens)?;
        push_body(alloc, &self.body, tokens)?;
        Ok(())
    }
}

impl Printed for IRule {
    ghost spelling = { λ r. irule_tokens (seen_irule r) };

    fn print(&self, alloc: Global, tokens: &mut Items<Token>) -> Result<(), Memory> {
        begin(alloc, b"irule", &self.name, tokens)?;
        push_mark(Mark::Colon, tokens)?;
        push_left(alloc, &self.left, tokens)?;
        push_mark(Mark::Arrow, tokens)?;
        push_impl(alloc, &self.right, tokens)?;
        push_body(alloc, &self.body, tokens)?;
        Ok(())
    }
}

fn push_rules(alloc: Global, rules: &Rules, tokens: &mut Items<Token>) -> Result<(), Memory>
    ensures { OnOk result (tokens.new ≡ tokens.old ++ tokens_of (seen_rules rules.now)) }
{
    push_all(alloc, rules.properties.as_slice(), tokens)?;
    push_all(alloc, rules.operators.as_slice(), tokens)?;
    push_all(alloc, rules.algorithms.as_slice(), tokens)?;
    push_all(alloc, rules.helpers.as_slice(), tokens)?;
    push_all(alloc, rules.trules.as_slice(), tokens)?;
    push_all(alloc, rules.irules.as_slice(), tokens)?;
    Ok(())
}

/// Appends the rule set's text, with one blank between tokens. The text is unchanged after an error.
pub fn print_rules(alloc: Global, rules: &Rules, out: &mut Text) -> Result<(), Memory>
    ensures ok { OnOk result (out.new ≡ out.old ++ spaced (tokens_of (seen_rules rules.now))) }
    ensures err { OnErr result (out.new ≡ out.old) }
{
    let mut tokens = Items::new(alloc);
    push_rules(alloc, rules, &mut tokens)?;
    let mut text = Text::new(alloc);
    push_spaced(alloc, tokens.as_slice(), &mut text)?;
    out.push_bytes(text.as_slice())
}
