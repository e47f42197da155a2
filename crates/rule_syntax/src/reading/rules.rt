// The reader of a rule set.
ghost use Rattle.std.specs.Prelude.{◌≡◌, ◌≢◌, [], ◌∷◌, IfOk, IfErr, map, refl};
ghost use Rattle.std.proofs.lemmas.List.{map-append};
ghost use Rattle.pr_value.specs.Placed.{tokens_in};
ghost use Rattle.rule_syntax.specs.Levels.{most_levels, IsRules};
ghost use Rattle.rule_syntax.specs.Places.{IsAtPlace};
ghost use Rattle.rule_syntax.specs.Reading.{Gives};
ghost use Rattle.rule_syntax.specs.ReadingRules as reading;
ghost use Rattle.rule_ast.specs.Seen.{seen_trule, seen_irule};
ghost use Rattle.rule_ast.specs.SeenRules.{seen_rules};
ghost use Rattle.rule_ast.specs.Syntax as syntax;

use crate::error::SyntaxError;
use crate::reading::expr::LEVELS;
use crate::reading::lists::{Parts, section};
use crate::reading::parts::{Algorithms, Helpers, Operators, Properties, body};
use crate::reading::sides::{impl_side, left, right};
use crate::reading::stop::{Stop, refusal};
use crate::reading::tokens::{mark, name, word};
use pr_value::{Mark, Token, Tokens};
use rule_ast::{IRule, Rules, TRule};
use std::alloc::Global;

/// `trule name : left => right body`
struct TRules;

impl Parts for TRules {
    type Part = TRule;

    ghost Seen = { syntax.TRule };

    ghost seen = { seen_trule };

    ghost all_seen = { map seen_trule };

    ghost reads = { reading.trule_at most_levels };

    fn read(alloc: Global, ts: &[Token]) -> Result<(TRule, &[Token]), Stop> {
        let rest = word(b"trule", ts)?;
        let (name, rest) = name(alloc, rest)?;
        let rest = mark(Mark::Colon, rest)?;
        let (left, rest) = left(alloc, LEVELS, rest)?;
        let rest = mark(Mark::Arrow, rest)?;
        let (right, rest) = right(alloc, LEVELS, rest)?;
        let (body, rest) = body(alloc, rest)?;
        Ok((
            TRule {
                name,
                left,
                right,
                body,
            },
            rest,
        ))
    }

    ghost none = { refl };

    ghost one_more = { λ xs x. map-append seen_trule xs (x ∷ []) };
}

/// `irule name : left => right body`
struct IRules;

impl Parts for IRules {
    type Part = IRule;

    ghost Seen = { syntax.IRule };

    ghost seen = { seen_irule };

    ghost all_seen = { map seen_irule };

    ghost reads = { reading.irule_at most_levels };

    fn read(alloc: Global, ts: &[Token]) -> Result<(IRule, &[Token]), Stop> {
        let rest = word(b"irule", ts)?;
        let (name, rest) = name(alloc, rest)?;
        let rest = mark(Mark::Colon, rest)?;
        let (left, rest) = left(alloc, LEVELS, rest)?;
        let rest = mark(Mark::Arrow, rest)?;
        let (right, rest) = impl_side(alloc, rest)?;
        let (body, rest) = body(alloc, rest)?;
        Ok((
            IRule {
                name,
                left,
                right,
                body,
            },
            rest,
        ))
    }

    ghost none = { refl };

    ghost one_more = { λ xs x. map-append seen_irule xs (x ∷ []) };
}

/// The six sections, with nothing behind them.
fn whole(alloc: Global, ts: &[Token]) -> Result<Rules, Stop>
    ensures { Gives seen_rules result (reading.rules_at most_levels ts.now) }
{
    let (properties, rest) = section::<Properties>(alloc, b"property", ts)?;
    let (operators, rest) = section::<Operators>(alloc, b"operator", rest)?;
    let (algorithms, rest) = section::<Algorithms>(alloc, b"algorithm", rest)?;
    let (helpers, rest) = section::<Helpers>(alloc, b"helper", rest)?;
    let (trules, rest) = section::<TRules>(alloc, b"trule", rest)?;
    let (irules, rest) = section::<IRules>(alloc, b"irule", rest)?;
    if !rest.is_empty() {
        return Err(Stop::Bad { left: rest.len() });
    }
    Ok(Rules {
        properties,
        operators,
        algorithms,
        helpers,
        trules,
        irules,
    })
}

/// The rule set with these tokens.
pub fn read_rules(alloc: Global, tokens: &Tokens) -> Result<Rules, SyntaxError>
    ensures found { IfOk result (λ r. IsRules (seen_rules r) (tokens_in tokens.now)) }
    ensures only { IfOk result (λ r. (s : syntax.Rules) → IsRules s (tokens_in tokens.now) → s ≡ seen_rules r) }
    ensures refused { IfErr result (λ e. e ≢ SyntaxError.Memory → (s : syntax.Rules) → IsRules s (tokens_in tokens.now) → ⊥) }
    ensures place { IfErr result (IsAtPlace tokens.now.placed tokens.now.end) }
{
    match whole(alloc, tokens.as_slice()) {
        Ok(rules) => Ok(rules),
        Err(stop) => Err(refusal(tokens, stop)),
    }
}
