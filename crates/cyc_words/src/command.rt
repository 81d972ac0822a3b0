// The command `cyclist`, as clap builds it.
ghost use Rattle.std.specs.Prelude.{◌≡◌, IfOk, false};
ghost use Rattle.clap.specs.Words.{App, rule_of, with_subcommand};
ghost use Rattle.cyc_words.specs.Command.{IsCommand, asking_app, cells_rule, cyclist_app, depth_rule, disprove_app};
ghost use Rattle.cyc_words.specs.Command.{fo_app, prove_app, proving_app, ring_app, size_rule};

use clap::{Arg, Command};
use std::alloc::{AllocError, Global};

fn depth_argument<'a>(alloc: Global) -> Arg<'a>
    ensures rule { rule_of result ≡ depth_rule }
    ensures local { result.global ≡ false }
{
    Arg::new(alloc, "depth")
        .long("depth")
        .value_parser(clap::value_parser!(u32).range(1..=40))
        .default_value("16")
}

fn size_argument<'a>(alloc: Global) -> Arg<'a>
    ensures rule { rule_of result ≡ size_rule }
    ensures local { result.global ≡ false }
{
    Arg::new(alloc, "K")
        .required(true)
        .value_parser(clap::value_parser!(u32).range(1..=2000))
}

fn cells_argument<'a>(alloc: Global) -> Arg<'a>
    ensures rule { rule_of result ≡ cells_rule }
    ensures local { result.global ≡ false }
{
    Arg::new(alloc, "cells")
        .long("cells")
        .value_parser(clap::value_parser!(u32).range(1..=4))
        .default_value("2")
}

fn prove_command<'a>(alloc: Global) -> Result<Command<'a>, AllocError>
    ensures { IfOk result (λ command. IsCommand command prove_app) }
{
    Command::new(alloc, "prove").arg(depth_argument(alloc))
}

fn ring_command<'a>(alloc: Global) -> Result<Command<'a>, AllocError>
    ensures { IfOk result (λ command. IsCommand command ring_app) }
{
    Command::new(alloc, "ring").arg(size_argument(alloc))
}

fn disprove_command<'a>(alloc: Global) -> Result<Command<'a>, AllocError>
    ensures { IfOk result (λ command. IsCommand command disprove_app) }
{
    Command::new(alloc, "disprove").arg(cells_argument(alloc))
}

fn fo_command<'a>(alloc: Global) -> Result<Command<'a>, AllocError>
    ensures { IfOk result (λ command. IsCommand command fo_app) }
{
    Command::new(alloc, "fo").arg(depth_argument(alloc))
}

// The command with one more subcommand, if memory lasted for both.
fn with<'a>(
    command: Result<Command<'a>, AllocError>,
    subcommand: Result<Command<'a>, AllocError>,
) -> Result<Command<'a>, AllocError>
    ensures { (app more : App)
        → IfOk command.entry (λ c. IsCommand c app) → IfOk subcommand.entry (λ c. IsCommand c more)
        → IfOk result (λ c. IsCommand c (with_subcommand app more.top)) }
{
    command?.subcommand(subcommand?)
}

// The command with the subcommands that make or check a proof.
fn proving_command<'a>(alloc: Global) -> Result<Command<'a>, AllocError>
    ensures { IfOk result (λ command. IsCommand command proving_app) }
{
    let command = Ok(Command::new(alloc, "cyclist"));
    let command = with(command, Ok(Command::new(alloc, "check")));
    let command = with(command, prove_command(alloc));
    with(command, ring_command(alloc))
}

// The same with those that ask about a proof file, a problem or a model.
fn asking_command<'a>(alloc: Global) -> Result<Command<'a>, AllocError>
    ensures { IfOk result (λ command. IsCommand command asking_app) }
{
    let command = with(proving_command(alloc), Ok(Command::new(alloc, "upgrade")));
    let command = with(command, Ok(Command::new(alloc, "sat")));
    with(command, Ok(Command::new(alloc, "model")))
}

pub fn cyclist_command<'a>(alloc: Global) -> Result<Command<'a>, AllocError>
    ensures { IfOk result (λ command. IsCommand command cyclist_app) }
{
    let command = with(asking_command(alloc), disprove_command(alloc));
    let command = with(command, fo_command(alloc));
    with(command, Ok(Command::new(alloc, "fo-check")))
}
