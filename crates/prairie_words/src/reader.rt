ghost use Rattle.std.specs.Prelude.{◌≡◌, option_map, map};
ghost use Rattle.prairie_words.specs.Meaning as meaning;
ghost use Rattle.prairie_words.specs.Reading as reading;
ghost use Rattle.prairie_words.specs.Seen.{seen_state, seen_found};

use crate::files::Files;
use crate::limits::Quantity;
use crate::numbers::number_up_to;
use crate::settings::Settings;
use pr_outside::Name;

/// What the next word is to be.
#[derive(Clone, Copy)]
pub enum Expects {
    /// A file word, an option or `--`.
    Any,
    /// The number of an option.
    Number(Quantity),
    /// A file word, behind `--`.
    Files,
}

/// What is found among words: file words and settings.
#[derive(Clone, Copy)]
pub struct Found<'a> {
    pub files: Files<'a>,
    pub settings: Settings,
}

#[derive(Clone, Copy)]
struct State<'a> {
    next: Expects,
    files: Files<'a>,
    settings: Settings,
}

/// What the words behind a command's name hold, where each is a file word, an option or `--`, each
/// option stands at most once, and no more than four are file words.
pub fn found_in(words: &[Name]) -> Option<Found<'_>>
    ensures { option_map seen_found result ≡ reading.found_from reading.start words.now }
{
    let mut state = State {
        next: Expects::Any,
        files: Files::None,
        settings: Settings::new(),
    };
    for word in words {
        state = taken(state, word)?;
    }
    ended(state)
}

fn ended(state: State<'_>) -> Option<Found<'_>>
    ensures { option_map seen_found result ≡ reading.ended (seen_state state.entry) }
{
    match state.next {
        Expects::Number(_) => None,
        _ => Some(Found {
            files: state.files,
            settings: state.settings,
        }),
    }
}

fn taken<'a>(state: State<'a>, word: &'a Name) -> Option<State<'a>>
    ensures { option_map seen_state result ≡ reading.taken (seen_state state.entry) word.now }
{
    match state.next {
        Expects::Any => any_taken(state, word),
        Expects::Number(quantity) => limit_taken(state, quantity, word.as_str()),
        Expects::Files => file_taken(state, word),
    }
}

fn any_taken<'a>(state: State<'a>, word: &'a Name) -> Option<State<'a>>
    ensures { option_map seen_state result ≡ reading.any_taken (seen_state state.entry) word.now }
{
    if is_option(word.as_str()) {
        option_taken(state, word.as_str())
    } else {
        file_taken(state, word)
    }
}

fn file_taken<'a>(state: State<'a>, word: &'a Name) -> Option<State<'a>>
    ensures { option_map seen_state result ≡ reading.file_taken (seen_state state.entry) word.now }
{
    let files = state.files.with(word)?;
    Some(State { files, ..state })
}

fn option_taken<'a>(state: State<'a>, word: &str) -> Option<State<'a>>
    ensures { option_map seen_state result
        ≡ reading.option_taken (seen_state state.entry) word.now }
{
    if word == "--" {
        return Some(State {
            next: Expects::Files,
            ..state
        });
    }
    if word == "--certificate" {
        let settings = state.settings.with_certificate()?;
        return Some(State { settings, ..state });
    }
    limit_option(state, word)
}

fn limit_option<'a>(state: State<'a>, word: &str) -> Option<State<'a>>
    ensures { option_map seen_state result
        ≡ reading.limit_option (seen_state state.entry) word.now }
{
    match word.split_once('=') {
        Some((name, number)) => limit_taken(state, quantity_of(name)?, number),
        None => {
            let quantity = quantity_of(word)?;
            Some(State {
                next: Expects::Number(quantity),
                ..state
            })
        }
    }
}

fn limit_taken<'a>(state: State<'a>, quantity: Quantity, number: &str) -> Option<State<'a>>
    ensures { option_map seen_state result
        ≡ reading.limit_taken (seen_state state.entry) quantity number.now }
{
    let number = number_up_to(greatest(quantity), number)?;
    let settings = state.settings.with_limit(quantity, number)?;
    Some(State {
        next: Expects::Any,
        settings,
        ..state
    })
}

fn greatest(quantity: Quantity) -> u32
    ensures { result ≡ meaning.greatest quantity }
{
    match quantity {
        Quantity::Memo => 400_000,
        Quantity::Rounds => 256,
        Quantity::Goals => 400_000,
    }
}

/// The quantity that the option of this name limits.
fn quantity_of(name: &str) -> Option<Quantity>
    ensures { result ≡ reading.quantity_of name.now }
{
    if name == "--memo" {
        return Some(Quantity::Memo);
    }
    if name == "--rounds" {
        return Some(Quantity::Rounds);
    }
    if name == "--goals" {
        return Some(Quantity::Goals);
    }
    None
}

/// Whether a word begins with `-` and is not `-` alone.
fn is_option(word: &str) -> bool
    ensures { result ≡ meaning.is_option word.now }
{
    word.len() > 1 && word.as_bytes().first().copied() == Some(b'-')
}
