// The readers of the settings of a query.
ghost use Rattle.std.specs.Prelude.{◌≡◌, refl};
ghost use Rattle.rule_syntax.specs.Reading.{Gives, quoted_at};
ghost use Rattle.rule_syntax.specs.ReadingQuery as reading;

use crate::reading::lists::{Parts, closed, filled};
use crate::reading::stop::Stop;
use crate::reading::tokens::{known, mark, name, next_is_mark, quoted, truth_of};
use pr_value::{CAP, Items, Mark, Symbol, Token};
use rule_ast::{Literal, Setting};
use std::alloc::Global;

/// Settings between braces, or none without braces.
pub fn optional_settings(alloc: Global, ts: &[Token]) -> Result<(Items<Setting>, &[Token]), Stop>
    ensures { Gives (λ x. (x.0, x.1.now)) result (reading.settings_at ts.now) }
{
    if !next_is_mark(Mark::OpenBrace, ts) {
        return Ok((Items::new(alloc), ts));
    }
    let rest = mark(Mark::OpenBrace, ts)?;
    filled::<Settings>(alloc, Mark::CloseBrace, rest)
}

fn literal(alloc: Global, ts: &[Token]) -> Result<(Literal, &[Token]), Stop>
    ensures { Gives (λ x. (x.0, x.1.now)) result (reading.literal_at ts.now) }
{
    match ts {
        [Token::Number(n), rest @ ..] => {
            if *n > CAP {
                return Err(Stop::Bad { left: ts.len() });
            }
            Ok((Literal::Number(*n), rest))
        }
        [Token::Name(s), rest @ ..] => match truth_of(s) {
            Some(truth) => Ok((Literal::Truth(truth), rest)),
            None => Err(Stop::Bad { left: ts.len() }),
        },
        [Token::Quoted(s), rest @ ..] => {
            known(s);
            Ok((Literal::Sym(s.copy(alloc)?), rest))
        }
        [Token::Mark(Mark::OpenBrace), rest @ ..] => {
            let (members, rest) = closed::<Symbols>(alloc, Mark::CloseBrace, rest)?;
            Ok((Literal::SetOf(members), rest))
        }
        [Token::Mark(Mark::OpenBracket), rest @ ..] => {
            let (members, rest) = closed::<Symbols>(alloc, Mark::CloseBracket, rest)?;
            Ok((Literal::ListOf(members), rest))
        }
        _ => Err(Stop::Bad { left: ts.len() }),
    }
}

/// `property = literal`
struct Settings;

impl Parts for Settings {
    ghost use Rattle.rule_ast.specs.declared.query.Setting.{Setting};

    type Part = Setting;

    ghost Seen = { Setting };

    ghost seen = { λ x. x };

    ghost all_seen = { λ xs. xs };

    ghost reads = { reading.setting_at };

    fn read(alloc: Global, ts: &[Token]) -> Result<(Setting, &[Token]), Stop> {
        let (property, rest) = name(alloc, ts)?;
        let rest = mark(Mark::Assign, rest)?;
        let (value, rest) = literal(alloc, rest)?;
        Ok((Setting { property, value }, rest))
    }

    ghost none = { refl };

    ghost one_more = { λ xs x. refl };
}

/// The symbols of a set or list.
struct Symbols;

impl Parts for Symbols {
    ghost use Rattle.pr_value.specs.Symbols.{Symbol};

    type Part = Symbol;

    ghost Seen = { Symbol };

    ghost seen = { λ x. x };

    ghost all_seen = { λ xs. xs };

    ghost reads = { quoted_at };

    fn read(alloc: Global, ts: &[Token]) -> Result<(Symbol, &[Token]), Stop> {
        quoted(alloc, ts)
    }

    ghost none = { refl };

    ghost one_more = { λ xs x. refl };
}
