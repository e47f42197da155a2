ghost use Rattle.std.specs.Prelude.{◌≡◌, option_map, MatchOption, Some, None};
ghost use Rattle.prairie_words.specs.Commands as commands;
ghost use Rattle.prairie_words.specs.Meaning.{Means};
ghost use Rattle.prairie_words.specs.Reading as reading;
ghost use Rattle.prairie_words.specs.Seen.{seen_command, seen_names, seen_files, seen_found};

use crate::command::{Command, Names};
use crate::files::Files;
use crate::limits::Limits;
use crate::numbers::number_up_to;
use crate::reader::{Found, found_in};
use crate::settings::Settings;
use pr_outside::Name;

/// The command that the words mean, where they mean one.
pub fn command_of(words: &[Name]) -> Option<Command<'_>>
    ensures { MatchOption result ((c : commands.Command) → Means words.now c → ⊥)
        (λ c. Means words.now (seen_command c)) }
{
    meaning(words)
}

fn meaning(words: &[Name]) -> Option<Command<'_>>
    ensures { option_map seen_command result ≡ reading.meaning words.now }
{
    let (name, behind) = words.split_first()?;
    let found = found_in(behind)?;
    named(name.as_str(), found)
}

/// The command of this name, where its file words and options are those that were found.
fn named<'a>(name: &str, found: Found<'a>) -> Option<Command<'a>>
    ensures { option_map seen_command result
        ≡ reading.command_in name.now (seen_found found.entry) }
{
    match name {
        "plan" => plan(found),
        "certify" => certify(found),
        "check" => check(found),
        "p2v" => p2v(found),
        "trial" => trial(found),
        "migrate" => migrate(found),
        "loops" => loops(found),
        "best" => best(found),
        "replan" => replan(found),
        "rows" => rows(found),
        _ => None,
    }
}

fn plan(found: Found<'_>) -> Option<Command<'_>>
    ensures { option_map seen_command result ≡ reading.plan_in (seen_found found.entry) }
{
    let names = three(found.files)?;
    let limits = limits_alone(found.settings)?;
    Some(Command::Plan { names, limits })
}

fn certify(found: Found<'_>) -> Option<Command<'_>>
    ensures { option_map seen_command result ≡ reading.certify_in (seen_found found.entry) }
{
    let names = three(found.files)?;
    let limits = limits_alone(found.settings)?;
    Some(Command::Certify { names, limits })
}

fn check(found: Found<'_>) -> Option<Command<'_>>
    ensures { option_map seen_command result ≡ reading.check_in (seen_found found.entry) }
{
    if !is_unset(found.settings) {
        return None;
    }
    match found.files {
        Files::Four(rules, catalog, query, certificate) => Some(Command::Check {
            names: Names {
                rules,
                catalog,
                query,
            },
            certificate,
        }),
        _ => None,
    }
}

fn p2v(found: Found<'_>) -> Option<Command<'_>>
    ensures { option_map seen_command result ≡ reading.p2v_in (seen_found found.entry) }
{
    if !is_unset(found.settings) {
        return None;
    }
    let rules = one(found.files)?;
    Some(Command::P2v { rules })
}

fn trial(found: Found<'_>) -> Option<Command<'_>>
    ensures { option_map seen_command result ≡ reading.trial_in (seen_found found.entry) }
{
    if !is_unset(found.settings) {
        return None;
    }
    let number = one(found.files)?;
    let number = number_up_to(8, number.as_str())?;
    Some(Command::Trial { number })
}

fn migrate(found: Found<'_>) -> Option<Command<'_>>
    ensures { option_map seen_command result ≡ reading.migrate_in (seen_found found.entry) }
{
    if !is_unset(found.settings) {
        return None;
    }
    let certificate = one(found.files)?;
    Some(Command::Migrate { certificate })
}

fn loops(found: Found<'_>) -> Option<Command<'_>>
    ensures { option_map seen_command result ≡ reading.loops_in (seen_found found.entry) }
{
    let names = three(found.files)?;
    Some(Command::Loops {
        names,
        limits: found.settings.limits(),
        certificate: found.settings.certificate,
    })
}

fn best(found: Found<'_>) -> Option<Command<'_>>
    ensures { option_map seen_command result ≡ reading.best_in (seen_found found.entry) }
{
    match found.files {
        Files::Four(count, rules, catalog, query) => {
            let count = number_up_to(16, count.as_str())?;
            let limits = limits_alone(found.settings)?;
            Some(Command::Best {
                count,
                names: Names {
                    rules,
                    catalog,
                    query,
                },
                limits,
            })
        }
        _ => None,
    }
}

fn replan(found: Found<'_>) -> Option<Command<'_>>
    ensures { option_map seen_command result ≡ reading.replan_in (seen_found found.entry) }
{
    match found.files {
        Files::Four(rules, catalog, query, edits) => {
            let limits = limits_alone(found.settings)?;
            Some(Command::Replan {
                names: Names {
                    rules,
                    catalog,
                    query,
                },
                edits,
                limits,
            })
        }
        _ => None,
    }
}

fn rows(found: Found<'_>) -> Option<Command<'_>>
    ensures { option_map seen_command result ≡ reading.rows_in (seen_found found.entry) }
{
    if !is_unset(found.settings) {
        return None;
    }
    match found.files {
        Files::Two(tables, query) => Some(Command::Rows { tables, query }),
        _ => None,
    }
}

fn one(files: Files<'_>) -> Option<&Name>
    ensures { option_map (λ w. w.now) result ≡ reading.one_in (seen_files files.entry) }
{
    match files {
        Files::One(word) => Some(word),
        _ => None,
    }
}

fn three(files: Files<'_>) -> Option<Names<'_>>
    ensures { option_map seen_names result ≡ reading.three_in (seen_files files.entry) }
{
    match files {
        Files::Three(rules, catalog, query) => Some(Names {
            rules,
            catalog,
            query,
        }),
        _ => None,
    }
}

/// The limits, where no certificate is asked for.
fn limits_alone(settings: Settings) -> Option<Limits>
    ensures { result ≡ reading.limits_alone settings }
{
    if settings.certificate {
        return None;
    }
    Some(settings.limits())
}

/// Whether no option is given.
fn is_unset(settings: Settings) -> bool
    ensures { result ≡ reading.is_unset settings }
{
    settings.memo.is_none()
        && settings.rounds.is_none()
        && settings.goals.is_none()
        && !settings.certificate
}
