// The printers of one token or two.
ghost use Rattle.std.specs.Prelude.{◌≡◌, ◌++◌, true, OnOk};
ghost use Rattle.pr_value.specs.Symbols.{is_symbol};
ghost use Rattle.rule_syntax.specs.Separators.{before_part};
ghost use Rattle.rule_syntax.specs.Tokens as text;

use pr_value::{Items, Kind, Mark, Memory, Symbol, Token};
use rule_ast::{BinOp, FoldKind};
use std::alloc::Global;

pub fn push_mark(mark: Mark, tokens: &mut Items<Token>) -> Result<(), Memory>
    ensures { OnOk result (tokens.new ≡ tokens.old ++ text.m mark) }
{
    tokens.push(Token::Mark(mark))?;
    Ok(())
}

pub fn push_name(alloc: Global, name: &Symbol, tokens: &mut Items<Token>) -> Result<(), Memory>
    ensures { OnOk result (tokens.new ≡ tokens.old ++ text.name name.now) }
{
    let name = name.copy(alloc)?;
    tokens.push(Token::Name(name))?;
    Ok(())
}

pub fn push_quoted(alloc: Global, symbol: &Symbol, tokens: &mut Items<Token>) -> Result<(), Memory>
    ensures { OnOk result (tokens.new ≡ tokens.old ++ text.quoted symbol.now) }
{
    let symbol = symbol.copy(alloc)?;
    tokens.push(Token::Quoted(symbol))?;
    Ok(())
}

pub fn push_number(number: u64, tokens: &mut Items<Token>) -> Result<(), Memory>
    ensures { OnOk result (tokens.new ≡ tokens.old ++ text.num number) }
{
    tokens.push(Token::Number(number))?;
    Ok(())
}

/// Puts a word of the grammar behind the tokens. It is a symbol, so only memory can fail.
pub fn push_word(alloc: Global, word: &[u8], tokens: &mut Items<Token>) -> Result<(), Memory>
    requires { is_symbol word.now ≡ true }
    ensures { OnOk result (tokens.new ≡ tokens.old ++ text.name word.now) }
{
    match Symbol::new(alloc, word) {
        Ok(name) => {
            tokens.push(Token::Name(name))?;
            Ok(())
        }
        Err(_) => Err(Memory),
    }
}

fn kind_word(kind: Kind) -> &'static [u8]
    ensures same { result.now ≡ text.kind_name kind }
    ensures symbol { is_symbol result.now ≡ true }
{
    match kind {
        Kind::Num => b"num",
        Kind::Truth => b"truth",
        Kind::Symbol => b"symbol",
        Kind::Set => b"set",
        Kind::List => b"list",
        Kind::Cost => b"cost",
    }
}

fn push_kind_name(alloc: Global, kind: Kind, tokens: &mut Items<Token>) -> Result<(), Memory>
    ensures { OnOk result (tokens.new ≡ tokens.old ++ text.name (text.kind_name kind)) }
{
    let word = kind_word(kind);
    push_word(alloc, word, tokens)?;
    Ok(())
}

/// `: kind`
pub fn push_kind(alloc: Global, kind: Kind, tokens: &mut Items<Token>) -> Result<(), Memory>
    ensures { OnOk result (tokens.new ≡ tokens.old ++ (text.m Mark.Colon ++ text.name (text.kind_name kind))) }
{
    push_mark(Mark::Colon, tokens)?;
    push_kind_name(alloc, kind, tokens)?;
    Ok(())
}

/// `: desc`
pub fn push_desc(alloc: Global, desc: &Symbol, tokens: &mut Items<Token>) -> Result<(), Memory>
    ensures { OnOk result (tokens.new ≡ tokens.old ++ (text.m Mark.Colon ++ text.name desc.now)) }
{
    push_mark(Mark::Colon, tokens)?;
    push_name(alloc, desc, tokens)?;
    Ok(())
}

fn truth_word(truth: bool) -> &'static [u8]
    ensures same { result.now ≡ text.truth_name truth }
    ensures symbol { is_symbol result.now ≡ true }
{
    match truth {
        true => b"true",
        false => b"false",
    }
}

pub fn push_truth(alloc: Global, truth: bool, tokens: &mut Items<Token>) -> Result<(), Memory>
    ensures { OnOk result (tokens.new ≡ tokens.old ++ text.name (text.truth_name truth)) }
{
    let word = truth_word(truth);
    push_word(alloc, word, tokens)?;
    Ok(())
}

fn fold_word(fold: FoldKind) -> &'static [u8]
    ensures same { result.now ≡ text.fold_name fold }
    ensures symbol { is_symbol result.now ≡ true }
{
    match fold {
        FoldKind::Sum => b"sum",
        FoldKind::Product => b"product",
        FoldKind::Any => b"any",
        FoldKind::All => b"all",
        FoldKind::Keep => b"keep",
    }
}

pub fn push_fold_name(
    alloc: Global,
    fold: FoldKind,
    tokens: &mut Items<Token>,
) -> Result<(), Memory>
    ensures { OnOk result (tokens.new ≡ tokens.old ++ text.name (text.fold_name fold)) }
{
    let word = fold_word(fold);
    push_word(alloc, word, tokens)?;
    Ok(())
}

/// The mark of an operator between two expressions.
pub fn binop_mark(op: BinOp) -> Mark
    ensures { result ≡ text.binop_mark op }
{
    match op {
        BinOp::Add => Mark::Plus,
        BinOp::Sub => Mark::Minus,
        BinOp::Mul => Mark::Times,
        BinOp::Div => Mark::Slash,
        BinOp::Equal => Mark::Equal,
        BinOp::NotEqual => Mark::NotEqual,
        BinOp::Less => Mark::Less,
        BinOp::LessEqual => Mark::LessEqual,
        BinOp::Greater => Mark::Greater,
        BinOp::GreaterEqual => Mark::GreaterEqual,
        BinOp::And => Mark::AndAnd,
        BinOp::Or => Mark::OrOr,
    }
}

/// The comma before the part at this place of a list, which its first part has not.
pub fn push_comma(place: usize, tokens: &mut Items<Token>) -> Result<(), Memory>
    ensures { OnOk result (tokens.new ≡ tokens.old ++ before_part place (text.m Mark.Comma)) }
{
    if place == 0 {
        return Ok(());
    }
    push_mark(Mark::Comma, tokens)?;
    Ok(())
}

/// `name (`
pub fn open_call(alloc: Global, name: &Symbol, tokens: &mut Items<Token>) -> Result<(), Memory>
    ensures { OnOk result (tokens.new ≡ tokens.old ++ (text.name name.now ++ text.m Mark.OpenParen)) }
{
    push_name(alloc, name, tokens)?;
    push_mark(Mark::OpenParen, tokens)?;
    Ok(())
}

/// `) : desc`
pub fn close_side(alloc: Global, desc: &Symbol, tokens: &mut Items<Token>) -> Result<(), Memory>
    ensures { OnOk result (tokens.new ≡ tokens.old ++ (text.m Mark.CloseParen ++ (text.m Mark.Colon ++ text.name desc.now))) }
{
    push_mark(Mark::CloseParen, tokens)?;
    push_desc(alloc, desc, tokens)?;
    Ok(())
}

/// `word name`
pub fn begin(
    alloc: Global,
    word: &[u8],
    name: &Symbol,
    tokens: &mut Items<Token>,
) -> Result<(), Memory>
    requires { is_symbol word.now ≡ true }
    ensures { OnOk result (tokens.new ≡ tokens.old ++ (text.name word.now ++ text.name name.now)) }
{
    push_word(alloc, word, tokens)?;
    push_name(alloc, name, tokens)?;
    Ok(())
}
