// The printers of the sides of rules.
ghost use Rattle.std.specs.Prelude.{◌≡◌, ◌++◌, map, OnOk};
ghost use Rattle.rule_ast.specs.Seen.{seen_left, seen_left_in, seen_right, seen_right_in};
ghost use Rattle.rule_syntax.specs.Tokens as text;
ghost use Rattle.rule_syntax.specs.Tokens.{commas, left_tokens, right_tokens, impl_in_tokens, impl_tokens};

use crate::printing::lists::{Printed, push_listed};
use crate::printing::tokens::{
    close_side, open_call, push_comma, push_desc, push_mark, push_name, push_number, push_word,
};
use pr_value::{Items, Mark, Memory, Symbol, Token};
use rule_ast::{AlgName, ImplIn, ImplSide, Left, LeftIn, Right, RightIn};
use std::alloc::Global;

/// `?number`
fn push_stream(number: u64, tokens: &mut Items<Token>) -> Result<(), Memory>
    ensures { OnOk result (tokens.new ≡ tokens.old ++ (text.m Mark.Question ++ text.num number)) }
{
    push_mark(Mark::Question, tokens)?;
    push_number(number, tokens)?;
    Ok(())
}

/// `?number : desc`
fn push_named_stream(
    alloc: Global,
    number: u64,
    desc: &Symbol,
    tokens: &mut Items<Token>,
) -> Result<(), Memory>
    ensures { OnOk result (tokens.new ≡ tokens.old ++ (text.m Mark.Question ++ text.num number ++ text.m Mark.Colon ++ text.name desc.now)) }
{
    push_stream(number, tokens)?;
    push_desc(alloc, desc, tokens)?;
    Ok(())
}

#[cycle(push_left)]
pub fn push_left(alloc: Global, left: &Left, tokens: &mut Items<Token>) -> Result<(), Memory>
    ensures { OnOk result (tokens.new ≡ tokens.old ++ left_tokens (seen_left left.now)) }
{
    open_call(alloc, &left.op, tokens)?;
    push_left_ins(alloc, left.inputs.as_slice(), tokens)?;
    close_side(alloc, &left.desc, tokens)?;
    Ok(())
}

/// The inputs of an operator on a left side, with commas between.
#[cycle(push_left)]
fn push_left_ins(alloc: Global, inputs: &[LeftIn], tokens: &mut Items<Token>) -> Result<(), Memory>
    ensures { OnOk result (tokens.new ≡ tokens.old ++ commas (map (λ x. left_tokens (seen_left_in x)) inputs.now)) }
{
    for (i, input) in inputs.iter().enumerate() {
        push_comma(i, tokens)?;
        push_left_in(alloc, input, tokens)?;
    }
    Ok(())
}

#[cycle(push_left)]
fn push_left_in(alloc: Global, input: &LeftIn, tokens: &mut Items<Token>) -> Result<(), Memory>
    ensures { OnOk result (tokens.new ≡ tokens.old ++ left_tokens (seen_left_in input.now)) }
{
    match input {
        LeftIn::Node(left) => push_left(alloc, left, tokens)?,
        LeftIn::Stream { number, desc } => push_named_stream(alloc, *number, desc, tokens)?,
    }
    Ok(())
}

#[cycle(push_right)]
pub fn push_right(alloc: Global, right: &Right, tokens: &mut Items<Token>) -> Result<(), Memory>
    ensures { OnOk result (tokens.new ≡ tokens.old ++ right_tokens (seen_right right.now)) }
{
    open_call(alloc, &right.op, tokens)?;
    push_right_ins(alloc, right.inputs.as_slice(), tokens)?;
    close_side(alloc, &right.desc, tokens)?;
    Ok(())
}

/// The inputs of an operator on a right side, with commas between.
#[cycle(push_right)]
fn push_right_ins(
    alloc: Global,
    inputs: &[RightIn],
    tokens: &mut Items<Token>,
) -> Result<(), Memory>
    ensures { OnOk result (tokens.new ≡ tokens.old ++ commas (map (λ x. right_tokens (seen_right_in x)) inputs.now)) }
{
    for (i, input) in inputs.iter().enumerate() {
        push_comma(i, tokens)?;
        push_right_in(alloc, input, tokens)?;
    }
    Ok(())
}

#[cycle(push_right)]
fn push_right_in(alloc: Global, input: &RightIn, tokens: &mut Items<Token>) -> Result<(), Memory>
    ensures { OnOk result (tokens.new ≡ tokens.old ++ right_tokens (seen_right_in input.now)) }
{
    match input {
        RightIn::Node(right) => push_right(alloc, right, tokens)?,
        RightIn::Stream { number } => push_stream(*number, tokens)?,
    }
    Ok(())
}

impl Printed for ImplIn {
    ghost spelling = { impl_in_tokens };

    fn print(&self, alloc: Global, tokens: &mut Items<Token>) -> Result<(), Memory> {
        push_named_stream(alloc, self.number, &self.desc, tokens)?;
        Ok(())
    }
}

/// An algorithm's name, or `Null`.
fn push_alg(alloc: Global, alg: &AlgName, tokens: &mut Items<Token>) -> Result<(), Memory>
    ensures { OnOk result (tokens.new ≡ tokens.old ++ text.name (text.alg_name alg.now)) }
{
    match alg {
        AlgName::Named(name) => {
            push_name(alloc, name, tokens)?;
            Ok(())
        }
        AlgName::Null => {
            push_word(alloc, b"Null", tokens)?;
            Ok(())
        }
    }
}

pub fn push_impl(alloc: Global, side: &ImplSide, tokens: &mut Items<Token>) -> Result<(), Memory>
    ensures { OnOk result (tokens.new ≡ tokens.old ++ impl_tokens side.now) }
{
    push_alg(alloc, &side.alg, tokens)?;
    push_mark(Mark::OpenParen, tokens)?;
    push_listed(alloc, side.inputs.as_slice(), tokens)?;
    close_side(alloc, &side.desc, tokens)?;
    Ok(())
}
