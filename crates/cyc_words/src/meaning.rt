// What a line means, by what clap finds in it.
ghost use Rattle.std.specs.Prelude.{◌≡◌, ◌<◌, ◌^◌, ℕ, Some, map, IfOk};
ghost use Rattle.clap.specs.Words.{found_of, rows_of, subcommand_rows_of};
ghost use Rattle.cyc_words.specs.Words.{HasMeaning, argument_in, found_meaning, meaning_of_line, subcommand_meaning};

use crate::command::cyclist_command;
use crate::tasks::Task;
use clap::ArgMatches;
use clap::error::ErrorKind;
use cyc_basics::memory::OutOfMemory;
use std::alloc::Global;

// The number of an argument, whose range clap has seen to.
fn number_of(matches: &ArgMatches<'_>, id: &str) -> Option<u32>
    ensures { (low high n : ℕ) → high < 2 ^ 32
        → argument_in low high id.now (rows_of (found_of matches.now)) ≡ Some n → result ≡ Some n }
{
    matches.get_one(id)
}

fn task_of_subcommand(name: &str, matches: &ArgMatches<'_>) -> Option<Task>
    requires { HasMeaning (Some (name.now, rows_of (found_of matches.now))) }
    ensures { result ≡ subcommand_meaning name.now (rows_of (found_of matches.now)) }
{
    match name {
        "check" => Some(Task::Check),
        "prove" => Some(Task::Prove(number_of(matches, "depth")?)),
        "ring" => Some(Task::Ring(number_of(matches, "K")?)),
        "upgrade" => Some(Task::Upgrade),
        "sat" => Some(Task::Sat),
        "model" => Some(Task::Model),
        "disprove" => Some(Task::Disprove(number_of(matches, "cells")?)),
        "fo" => Some(Task::FirstOrderProve(number_of(matches, "depth")?)),
        "fo-check" => Some(Task::FirstOrderCheck),
        _ => None,
    }
}

fn task_of_matches(matches: &ArgMatches<'_>) -> Option<Task>
    requires { HasMeaning (subcommand_rows_of matches.now) }
    ensures { result ≡ found_meaning (subcommand_rows_of matches.now) }
{
    match matches.subcommand() {
        Some((name, found)) => task_of_subcommand(name, found),
        None => None,
    }
}

// What a line, the program's name first, asks for.
pub fn task_of_line(alloc: Global, line: &[&str]) -> Result<Option<Task>, OutOfMemory>
    ensures { IfOk result (λ task. task ≡ meaning_of_line (map (λ s. s.now) line.now)) }
{
    let command = cyclist_command(alloc)?;
    match command.try_get_matches_from(line) {
        Ok(matches) => Ok(task_of_matches(&matches)),
        Err(error) => match error.kind() {
            ErrorKind::OutOfMemory => Err(OutOfMemory),
            _ => Ok(None),
        },
    }
}
