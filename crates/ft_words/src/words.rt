//! What the words ask for.

ghost use Rattle.std.specs.Prelude.{◌≡◌, Some, None, IfOk, IsErrOf, codes, map, option_map, string_bytes};
ghost use Rattle.clap.specs.Words.{first_of, rows_of, found_of};
ghost use Rattle.ft_answers.specs.CommandLine.{units_of, wanted_by, wanted_of};
ghost use Rattle.ft_words.specs.declared.words.WordsFault.TheVariants as fault;

use crate::command::command;
use crate::number::number_of;
use clap::ArgMatches;
use clap::error::ErrorKind;
use ft_answers::Wanted;
use ft_base::limits::{DEFAULT_BUDGET, MAX_BUDGET};
use std::alloc::{AllocError, Global};

/// Why the words ask for nothing.
#[derive(Clone, Copy, Debug, PartialEq, Eq, Drop)]
pub enum WordsFault {
    /// They are not words of the program.
    Usage,
    /// Memory was refused.
    Memory,
}

impl From<AllocError> for WordsFault {
    ghost from_gives = { λ _ e. e ≡ fault.Memory };

    fn from(_: AllocError) -> WordsFault {
        WordsFault::Memory
    }
}

// The first value of an option.
fn value_at<'a>(found: &ArgMatches<'a>, id: &str) -> Option<&'a str>
    ensures { option_map (λ s. s.now) result ≡ first_of id.now (rows_of (found_of found.now)) }
{
    found.get_str(id)
}

// The units of the option.
fn units(found: &ArgMatches<'_>) -> Option<u64>
    ensures { result ≡ units_of (first_of (codes "budget") (rows_of (found_of found.now))) }
{
    match value_at(found, "budget") {
        None => Some(DEFAULT_BUDGET),
        Some(text) => number_of(text, MAX_BUDGET),
    }
}

// What the word asks for with the options that were found.
fn wanted_with(name: &str, found: &ArgMatches<'_>) -> Option<Wanted>
    ensures { result ≡ wanted_by name.now (rows_of (found_of found.now)) }
{
    if name == "run" {
        let budget = units(found)?;
        return Some(Wanted::Run { budget });
    }
    if name == "export" {
        let budget = units(found)?;
        return Some(Wanted::Export { budget });
    }
    let one_thread = value_at(found, "one-thread")? == "true";
    Some(Wanted::Check { one_thread })
}

/// What the words ask for.
pub fn wanted(alloc: Global, words: &[String]) -> Result<Wanted, WordsFault>
    ensures ok { IfOk result (λ w. wanted_of (map string_bytes words.now) ≡ Some w) }
    ensures usage { IsErrOf result WordsFault.Usage → wanted_of (map string_bytes words.now) ≡ None }
{
    let command = command(alloc)?;
    match command.try_get_matches_from(words) {
        Ok(matches) => match matches.subcommand() {
            Some((name, found)) => wanted_with(name, found).ok_or(WordsFault::Usage),
            None => Err(WordsFault::Usage),
        },
        Err(error) => Err(if error.kind() == ErrorKind::OutOfMemory {
            WordsFault::Memory
        } else {
            WordsFault::Usage
        }),
    }
}
