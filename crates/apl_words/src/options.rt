//! The options that the words of the command line give.

ghost use Rattle.std.specs.Prelude.{◌≡◌, ◌⊎◌, Some, None, map, option_map, string_bytes, MatchResult, IfOk};
ghost use Rattle.clap.specs.Simple.{app_of};
ghost use Rattle.clap.specs.Matches.{found_of};
ghost use Rattle.clap.specs.Walk.{rows_of};
ghost use Rattle.apl_words.specs.Options.{command, is_set, options_from, options_of, turns_in, workload_in};
ghost use Rattle.apl_words.specs.declared.options.WordsFault.TheVariants as words_fault;

use crate::numbers::number_to;
use apl_base::NoMemory;
use clap::error::ErrorKind;
use clap::{Arg, ArgAction, ArgMatches, Command};
use std::alloc::{AllocError, Global};

/// The most turns that the words may give, and those of a run whose words give none.
const MOST_TURNS: u64 = 1_000_000_000_000;

const TURNS: u64 = 1_000_000;

/// The greatest number of a workload.
const MOST_WORKLOAD: u64 = 999_999;

/// What the words of the command line ask for: how many statements may begin, whether there is a trace, and the number
/// of the workload that is run in place of the source's script.
#[derive(Clone, Copy, Debug, PartialEq, Eq)]
pub struct Options {
    pub turns: u64,
    pub traced: bool,
    pub workload: Option<u32>,
}

/// Why words give no options: they are not of the form, or memory is wanting.
#[derive(Clone, Copy, Debug, PartialEq, Eq)]
pub enum WordsFault {
    Refused,
    NoMemory,
}

/// The options that the words after the program's name give: `--turns N`, from 0 to 1000000000000, `--trace` and
/// `--workload N`, from 0 to 999999, in any order and each at most once. A value is the next word, or follows `=`.
pub fn read_words(alloc: Global, words: &[String]) -> Result<Options, WordsFault>
    ensures exact { MatchResult result
        (λ options. options_of (map (λ w. string_bytes w) words.now) ≡ Some options)
        (λ fault. (fault ≡ words_fault.NoMemory)
        ⊎ ((fault ≡ words_fault.Refused)
        × (options_of (map (λ w. string_bytes w) words.now) ≡ None))) }
{
    let Ok(command) = command(alloc) else {
        return Err(WordsFault::NoMemory);
    };
    match command.try_get_matches_from(words) {
        Ok(matches) => options_in(&matches).ok_or(WordsFault::Refused),
        Err(error) if error.kind() == ErrorKind::OutOfMemory => Err(WordsFault::NoMemory),
        Err(_error) => Err(WordsFault::Refused),
    }
}

// The command: two options with a value and a flag.
fn command<'a>(alloc: Global) -> Result<Command<'a>, AllocError>
    ensures app { IfOk result (λ c. app_of c ≡ command) }
{
    let turns = Arg::new(alloc, "turns")
        .long("turns")
        .action(ArgAction::Set);
    let trace = Arg::new(alloc, "trace")
        .long("trace")
        .action(ArgAction::SetTrue);
    let workload = Arg::new(alloc, "workload")
        .long("workload")
        .action(ArgAction::Set);
    Command::new(alloc, "aplm")
        .no_binary_name(true)
        .disable_help_flag(true)
        .disable_version_flag(true)
        .arg(turns)?
        .arg(trace)?
        .arg(workload)
}

// The options of the matches, where each value is a number of its option.
fn options_in(matches: &ArgMatches) -> Option<Options>
    ensures { result ≡ options_from (rows_of (found_of matches.now)) }
{
    let Some(turns) = turns_in(matches.get_str("turns")) else {
        return None;
    };
    let Some(workload) = workload_in(matches.get_str("workload")) else {
        return None;
    };
    Some(Options {
        turns,
        traced: is_set(matches.get_str("trace")),
        workload,
    })
}

// The number of turns that a value is, where there is one.
fn turns_in(text: Option<&str>) -> Option<u64>
    ensures { result ≡ turns_in (option_map (λ t. t.now) text.entry) }
{
    match text {
        Some(text) => number_to(MOST_TURNS, text),
        None => Some(TURNS),
    }
}

// The number of the workload that a value is, where there is one.
fn workload_in(text: Option<&str>) -> Option<Option<u32>>
    ensures { result ≡ workload_in (option_map (λ t. t.now) text.entry) }
{
    let Some(text) = text else {
        return Some(None);
    };
    match number_to(MOST_WORKLOAD, text) {
        Some(number) => Some(Some(number as u32)),
        None => None,
    }
}

// Whether a flag was given.
fn is_set(text: Option<&str>) -> bool
    ensures { result ≡ is_set (option_map (λ t. t.now) text.entry) }
{
    match text {
        Some(text) => text == "true",
        None => false,
    }
}
