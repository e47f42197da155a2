ghost use Rattle.std.specs.Prelude.{◌≡◌, option_map, MatchOption};
ghost use Rattle.prairie_words.specs.Meaning.{Means};
ghost use Rattle.prairie_words.specs.Seen.{seen_command};
ghost use Rattle.prairie_top.specs.Tasks.{command_of, task_in, seen_task};
ghost use Rattle.prairie_top.specs.Tasks as tasks;

use pr_outside::Name;
use prairie_words::{Command, Limits, Names, command_of, meaning_laws};

/// What the words ask for, of the commands that are built: `plan`. A second one makes this an enum.
#[derive(Drop)]
pub struct Task<'a> {
    pub names: Names<'a>,
    pub limits: Limits,
}

/// What the words ask for, where they mean a command that is built.
pub fn task_of(words: &[Name]) -> Option<Task<'_>>
    ensures { MatchOption result
        ((task : tasks.Task) → Means words.now (command_of task) → ⊥)
        (λ task. Means words.now (command_of (seen_task task))) }
{
    meaning_laws();
    let command = command_of(words)?;
    built(command)
}

fn built(command: Command<'_>) -> Option<Task<'_>>
    ensures { option_map seen_task result ≡ task_in (seen_command command.entry) }
{
    match command {
        Command::Plan { names, limits } => Some(Task { names, limits }),
        Command::Certify { .. } => None,
        Command::Check { .. } => None,
        Command::P2v { .. } => None,
        Command::Trial { .. } => None,
        Command::Migrate { .. } => None,
        Command::Loops { .. } => None,
        Command::Best { .. } => None,
        Command::Replan { .. } => None,
        Command::Rows { .. } => None,
    }
}
