// The commands that the words are read with.

ghost use Rattle.std.specs.Prelude.{◌≡◌, IfOk, false, take};
ghost use Rattle.clap.specs.Words.{rule_of};
ghost use Rattle.command_words.specs.Commands as spec;
ghost use Rattle.command_words.specs.Commands.{IsCommand};

use clap::{Arg, Command};
use std::alloc::{AllocError, Global};

/// The program with its commands, each with its operands.
pub fn motion<'a>(alloc: Global) -> Result<Command<'a>, AllocError>
    ensures { IfOk result (IsCommand spec.motion) }
{
    let first = with_first_commands(alloc)?;
    let tasks = command_of_two(alloc, "st", "CONFIG", "FILE")?;
    let switches = command_of_two(alloc, "switches", "TRACE", "FILE")?;
    let standby = command_of_two(alloc, "standby", "FILE", "CUT")?;
    let scope = command_of_two(alloc, "scope", "TRACE", "WORKERS")?;
    first
        .subcommand(tasks)?
        .subcommand(switches)?
        .subcommand(standby)?
        .subcommand(scope)
}

// The program with its first five commands: a run of events, and what one file or a seed gives.
fn with_first_commands<'a>(alloc: Global) -> Result<Command<'a>, AllocError>
    ensures { IfOk result (IsCommand (spec.with_commands spec.bare_motion (take 5 spec.commands))) }
{
    let bench = command_of_one(alloc, "bench", "FILE")?;
    let run = command_of_two(alloc, "run", "CONFIG", "PROGRAM")?;
    let check = command_of_one(alloc, "check", "TRACE")?;
    let load = command_of_one(alloc, "gen", "SEED")?;
    let migrate = command_of_one(alloc, "migrate", "TRACE")?;
    bare_motion(alloc)
        .subcommand(bench)?
        .subcommand(run)?
        .subcommand(check)?
        .subcommand(load)?
        .subcommand(migrate)
}

// The program without its commands: it wants one, and has none but its own.
fn bare_motion<'a>(alloc: Global) -> Command<'a>
    ensures { IsCommand spec.bare_motion result }
{
    Command::new(alloc, "motion")
        .no_binary_name(true)
        .disable_help_flag(true)
        .disable_help_subcommand(true)
        .subcommand_required(true)
}

// A command with one operand.
fn command_of_one<'a>(
    alloc: Global,
    name: &'a str,
    only: &'a str,
) -> Result<Command<'a>, AllocError>
    ensures { IfOk result (IsCommand (spec.command_of_one name.entry.now only.entry.now)) }
{
    Command::new(alloc, name).arg(operand(alloc, only))
}

// A command with two operands.
fn command_of_two<'a>(
    alloc: Global,
    name: &'a str,
    first: &'a str,
    second: &'a str,
) -> Result<Command<'a>, AllocError>
    ensures { IfOk result
        (IsCommand (spec.command_of_two name.entry.now first.entry.now second.entry.now)) }
{
    command_of_one(alloc, name, first)?.arg(operand(alloc, second))
}

// A word that has to stand after a command's name.
fn operand<'a>(alloc: Global, name: &'a str) -> Arg<'a>
    ensures rule { rule_of result ≡ spec.operand name.entry.now }
    ensures local { result.global ≡ false }
{
    Arg::new(alloc, name).required(true)
}
