ghost use Rattle.std.specs.Prelude.{◌≡◌, ◌+◌, ◌<◌, ◌≤◌, true, min, MatchOption};
ghost use Rattle.std.specs.List.{prefix_len, list_all};
ghost use Rattle.pr_value.specs.Symbols as symbols;
ghost use Rattle.pr_value.specs.Capped.{cap};
ghost use Rattle.rule_lex.specs.Lexemes.{value_from};
ghost use Rattle.rule_lex.specs.Runs.{IsRun};

use pr_value::{CAP, is_digit, is_word_byte};

fn word_length(text: &[u8]) -> usize
    ensures { result ≡ prefix_len symbols.is_word_byte text.now }
{
    let mut length = 0;
    for b in text {
        if !is_word_byte(*b) {
            return length;
        }
        length += 1;
    }
    length
}

fn digits_length(text: &[u8]) -> usize
    ensures { result ≡ prefix_len symbols.is_digit text.now }
{
    let mut length = 0;
    for b in text {
        if !is_digit(*b) {
            return length;
        }
        length += 1;
    }
    length
}

/// The letters and digits that the text begins with, and what stands behind them.
pub fn word_at(text: &[u8]) -> (&[u8], &[u8])
    ensures { IsRun symbols.is_word_byte text.now result.0.now result.1.now }
{
    text.split_at(word_length(text))
}

/// The digits that the text begins with, and what stands behind them.
pub fn digits_at(text: &[u8]) -> (&[u8], &[u8])
    ensures { IsRun symbols.is_digit text.now result.0.now result.1.now }
{
    text.split_at(digits_length(text))
}

// The value of the digits, or `CAP + 1` where it is more.
fn capped_value(digits: &[u8]) -> u64
    requires { list_all symbols.is_digit digits.now ≡ true }
    ensures { result ≡ min (value_from 0 digits.now) (cap + 1) }
{
    let mut value: u64 = 0;
    for b in digits {
        value = (10 * value + u64::from(*b - b'0')).min(CAP + 1);
    }
    value
}

/// The value of the digits, where it is at most `CAP`.
pub fn value_of(digits: &[u8]) -> Option<u64>
    requires { list_all symbols.is_digit digits.now ≡ true }
    ensures { MatchOption result (cap < value_from 0 digits.now) (λ v. (v ≡ value_from 0 digits.now) × (v ≤ cap)) }
{
    let value = capped_value(digits);
    if value <= CAP { Some(value) } else { None }
}
