ghost use Rattle.std.specs.Prelude.{◌≡◌, ◌∷◌, ◌++◌, [], codes, OnOk, OnErr, IfOk};
ghost use Rattle.std.specs.Fmt.{decimal};
ghost use Rattle.std.specs.List.{flat_map};
ghost use Rattle.pr_value.specs.Values.{symbol_text, symbols_text, truth_text};

use crate::memory::Memory;
use crate::symbol::Symbol;
use crate::text::Text;
use std::alloc::Global;
use std::string::ToString;

/// Appends a number's decimal digits.
pub fn push_number(alloc: Global, n: u64, out: &mut Text) -> Result<(), Memory>
    ensures ok { OnOk result (out.new ≡ out.old ++ decimal n) }
    ensures err { OnErr result (out.new ≡ out.old) }
{
    let digits = n.to_string(alloc)?;
    out.push_bytes(digits.as_bytes())
}

pub fn push_truth(truth: bool, out: &mut Text) -> Result<(), Memory>
    ensures ok { OnOk result (out.new ≡ out.old ++ truth_text truth) }
    ensures err { OnErr result (out.new ≡ out.old) }
{
    if truth {
        out.push_bytes(b"true")
    } else {
        out.push_bytes(b"false")
    }
}

/// Appends a quote and the symbol's bytes.
pub fn push_quoted(alloc: Global, symbol: &Symbol, out: &mut Text) -> Result<(), Memory>
    ensures ok { OnOk result (out.new ≡ out.old ++ symbol_text symbol.now) }
    ensures err { OnErr result (out.new ≡ out.old) }
{
    let mut text = Text::new(alloc);
    quote(symbol, &mut text)?;
    out.push_bytes(text.as_slice())
}

fn quote(symbol: &Symbol, out: &mut Text) -> Result<(), Memory>
    ensures { OnOk result (out.new ≡ out.old ++ symbol_text symbol.now) }
{
    out.push_bytes(b"'")?;
    out.push_bytes(symbol.as_slice())?;
    Ok(())
}

// Appends each symbol behind a comma.
fn quote_others(symbols: &[Symbol], out: &mut Text) -> Result<(), Memory>
    ensures { OnOk result (out.new ≡ out.old ++ flat_map (λ s. codes ", " ++ symbol_text s) symbols.now) }
{
    for symbol in symbols {
        out.push_bytes(b", ")?;
        quote(symbol, out)?;
    }
    Ok(())
}

fn quote_all(symbols: &[Symbol], out: &mut Text) -> Result<(), Memory>
    ensures { OnOk result (out.new ≡ out.old ++ symbols_text symbols.now) }
{
    match symbols.split_first() {
        Some((first, others)) => {
            quote(first, out)?;
            quote_others(others, out)
        }
        None => Ok(()),
    }
}

/// The symbols with commas between, and brackets round them.
pub fn text_of_symbols(
    alloc: Global,
    opening: &[u8],
    symbols: &[Symbol],
    closing: &[u8],
) -> Result<Text, Memory>
    ensures { IfOk result (λ t. t ≡ opening.now ++ symbols_text symbols.now ++ closing.now) }
{
    let mut text = Text::new(alloc);
    text.push_bytes(opening)?;
    quote_all(symbols, &mut text)?;
    text.push_bytes(closing)?;
    Ok(text)
}
