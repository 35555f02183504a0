// What the words of a call ask for.

ghost use Rattle.std.specs.Prelude.{◌≡◌, ◌≢◌, IfOk, None, codes, false, map, true};
ghost use Rattle.std.specs.List.{list_all};
ghost use Rattle.std.specs.Option.{option_map};
ghost use Rattle.std.specs.Str.{bytes_eq};
ghost use Rattle.std.specs.String.{string_bytes};
ghost use Rattle.clap.specs.Words.{found_of, kind_of, rows_of, subcommand_rows_of};
ghost use Rattle.command_words.specs.Commands as commands;
ghost use Rattle.command_words.specs.Requests as spec;
ghost use Rattle.command_words.specs.Requests.{told};

use crate::commands::motion;
use crate::numbers::{cut_in, seed_in, workers_in};
use crate::words::Words;
use clap::error::ErrorKind;
use clap::{ArgMatches, Error};
use motion_numbers::OutOfMemory;
use std::alloc::Global;
use std::num::NonZeroU8;

/// What the program does with one file.
#[derive(Clone, Copy, Debug, PartialEq, Eq)]
pub enum Job {
    /// Runs a bench, and writes its trace.
    Bench,
    /// Replays a trace, and says whether it is legal.
    Check,
    /// Replays a trace, and writes it in version 2, one of version 3 in version 3.
    Migrate,
}

/// What the words ask for.
#[derive(Clone, Copy, Debug, PartialEq, Eq)]
pub enum Request<'a> {
    /// A job with a file.
    File { job: Job, name: &'a str },
    /// A run of a machine: the files of its configuration and of its program.
    Run { config: &'a str, program: &'a str },
    /// The load of a seed.
    Load { seed: u32 },
    /// A run of a machine whose tasks are in Structured Text: the files of its configuration and of
    /// its tasks.
    StructuredText { config: &'a str, program: &'a str },
    /// The edges of the switches of a file in a trace.
    Switches { trace: &'a str, switches: &'a str },
    /// A bench whose kernel hands over to its standby after this many events.
    Standby { name: &'a str, cut: u32 },
    /// The scope report of a trace, made by this many workers, at most 16.
    Scope { trace: &'a str, workers: NonZeroU8 },
}

/// What the words ask for, by the grammar of the words. No word may be empty or begin with `-`.
///
/// The words are read with `clap`, which takes memory.
#[tactic(auto, using(crate::proofs::Texts::are_plain), unfolding(crate::specs::Requests::asked_in))]
pub fn asked(alloc: Global, words: &Words) -> Result<Option<Request<'_>>, OutOfMemory>
    ensures { IfOk result (λ request. option_map told request ≡ spec.asked_in words.now) }
{
    let texts = words.texts();
    if are_plain(texts) {
        asked_by(alloc, texts)
    } else {
        Ok(None)
    }
}

// Whether each word may stand in a request.
fn are_plain(texts: &[String]) -> bool
    ensures { result ≡ list_all (λ text. spec.is_plain (string_bytes text)) texts.now }
{
    texts.iter().all(|text| is_plain(text))
}

// Whether a word is not empty, and does not begin with `-`.
#[tactic(auto, unfolding(crate::specs::Requests::is_plain))]
fn is_plain(text: &String) -> bool
    ensures { result ≡ spec.is_plain (string_bytes text.now) }
{
    match text.as_bytes() {
        [] => false,
        [first, ..] => *first != b'-',
    }
}

// What plain words ask for: what the command asks for that they name, with its operands.
fn asked_by(alloc: Global, texts: &[String]) -> Result<Option<Request<'_>>, OutOfMemory>
    requires { list_all spec.is_plain (map string_bytes texts.now) ≡ true }
    ensures { IfOk result (λ request.
        option_map told request ≡ spec.asked_by (map string_bytes texts.now)) }
{
    match motion(alloc)?.try_get_matches_from(texts) {
        Ok(matches) => Ok(request_found(&matches)),
        Err(error) => refused(&error),
    }
}

// No request was found, unless memory was wanting.
fn refused<'a>(error: &Error) -> Result<Option<Request<'a>>, OutOfMemory>
    ensures { IfOk result (λ request.
        (request ≡ None) × (kind_of error.now ≢ ErrorKind.OutOfMemory)) }
{
    if error.kind() == ErrorKind::OutOfMemory {
        Err(OutOfMemory)
    } else {
        Ok(None)
    }
}

// What the command asks for that was found.
fn request_found<'a>(matches: &ArgMatches<'a>) -> Option<Request<'a>>
    ensures { option_map told result ≡ commands.request_found (subcommand_rows_of matches.now) }
{
    let (name, operands) = matches.subcommand()?;
    request_in(name, operands)
}

// What a command asks for with its operands.
#[tactic(auto, using(crate::proofs::Texts::in_row), unfolding(crate::specs::Commands::request_in))]
fn request_in<'a>(name: &str, operands: &ArgMatches<'a>) -> Option<Request<'a>>
    ensures { option_map told result
        ≡ commands.request_in name.now (rows_of (found_of operands.now)) }
{
    match name {
        "bench" => file_in(Job::Bench, operands.get_str("FILE")),
        "run" => run_in(operands.get_str("CONFIG"), operands.get_str("PROGRAM")),
        "check" => file_in(Job::Check, operands.get_str("TRACE")),
        "gen" => load_in(operands.get_str("SEED")),
        "migrate" => file_in(Job::Migrate, operands.get_str("TRACE")),
        _ => report_in(name, operands),
    }
}

// What a command asks for with its operands that is none of the first five.
#[tactic(auto, using(crate::proofs::Texts::in_row), unfolding(crate::specs::Commands::request_in))]
fn report_in<'a>(name: &str, operands: &ArgMatches<'a>) -> Option<Request<'a>>
    requires bench { bytes_eq name.now (codes "bench") ≡ false }
    requires run { bytes_eq name.now (codes "run") ≡ false }
    requires check { bytes_eq name.now (codes "check") ≡ false }
    requires load { bytes_eq name.now (codes "gen") ≡ false }
    requires migrate { bytes_eq name.now (codes "migrate") ≡ false }
    ensures { option_map told result
        ≡ commands.request_in name.now (rows_of (found_of operands.now)) }
{
    match name {
        "st" => tasks_in(operands.get_str("CONFIG"), operands.get_str("FILE")),
        "switches" => switches_in(operands.get_str("TRACE"), operands.get_str("FILE")),
        "standby" => standby_in(operands.get_str("FILE"), operands.get_str("CUT")),
        "scope" => scope_in(operands.get_str("TRACE"), operands.get_str("WORKERS")),
        _ => None,
    }
}

// A job with the file that an operand names.
fn file_in(job: Job, name: Option<&str>) -> Option<Request<'_>>
    ensures { option_map told result
        ≡ commands.file_in job (option_map (λ text. text.now) name.entry) }
{
    let name = name?;
    Some(Request::File { job, name })
}

// A run with the files that two operands name.
fn run_in<'a>(config: Option<&'a str>, program: Option<&'a str>) -> Option<Request<'a>>
    ensures { option_map told result
        ≡ commands.run_in (option_map (λ text. text.now) config.entry)
        (option_map (λ text. text.now) program.entry) }
{
    let config = config?;
    let program = program?;
    Some(Request::Run { config, program })
}

// The load of the seed that an operand is.
fn load_in(word: Option<&str>) -> Option<Request<'static>>
    ensures { option_map told result
        ≡ commands.load_in (option_map (λ text. text.now) word.entry) }
{
    let seed = seed_in(word?)?;
    Some(Request::Load { seed })
}

// A run of tasks in Structured Text with the files that two operands name.
fn tasks_in<'a>(config: Option<&'a str>, program: Option<&'a str>) -> Option<Request<'a>>
    ensures { option_map told result
        ≡ commands.tasks_in (option_map (λ text. text.now) config.entry)
        (option_map (λ text. text.now) program.entry) }
{
    let config = config?;
    let program = program?;
    Some(Request::StructuredText { config, program })
}

// The switches of a trace, with the files that two operands name.
fn switches_in<'a>(trace: Option<&'a str>, switches: Option<&'a str>) -> Option<Request<'a>>
    ensures { option_map told result
        ≡ commands.switches_in (option_map (λ text. text.now) trace.entry)
        (option_map (λ text. text.now) switches.entry) }
{
    let trace = trace?;
    let switches = switches?;
    Some(Request::Switches { trace, switches })
}

// A bench that is handed over, with the file and the cut of two operands.
fn standby_in<'a>(name: Option<&'a str>, word: Option<&str>) -> Option<Request<'a>>
    ensures { option_map told result
        ≡ commands.standby_in (option_map (λ text. text.now) name.entry)
        (option_map (λ text. text.now) word.entry) }
{
    let name = name?;
    let cut = cut_in(word?)?;
    Some(Request::Standby { name, cut })
}

// The scope of a trace, with the file and the workers of two operands.
fn scope_in<'a>(trace: Option<&'a str>, word: Option<&str>) -> Option<Request<'a>>
    ensures { option_map told result
        ≡ commands.scope_in (option_map (λ text. text.now) trace.entry)
        (option_map (λ text. text.now) word.entry) }
{
    let trace = trace?;
    let workers = workers_in(word?)?;
    Some(Request::Scope { trace, workers })
}
