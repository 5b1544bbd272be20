//! The command that reads the words.

ghost use Rattle.std.specs.Prelude.{◌≡◌, ◌∷◌, [], List, ℕ, Some, IfOk, codes, false, true};
ghost use Rattle.clap.specs.Words.{rule_of, new_app, with_rule, app_of};
ghost use Rattle.clap.specs.declared.builder.Command.TheViews.{out-Command};
ghost use Rattle.ft_answers.specs.CommandLine.{andromeda, bare, budget, number_in, one_thread, wanted_of};
ghost use Rattle.ft_answers.specs.declared.wanted.Wanted.TheVariants as ask;

use clap::{Arg, ArgAction, Command};
use std::alloc::{AllocError, Global};

// A word of its own with one option.
fn word<'a>(alloc: Global, name: &'a str, option: Arg<'a>) -> Result<Command<'a>, AllocError>
    requires { option.global ≡ false }
    ensures app { IfOk result (λ c. app_of c ≡ with_rule (new_app name.entry.now) (rule_of option.entry)) }
    ensures local { IfOk result (λ c. (out-Command c).has_globals ≡ false) }
{
    Command::new(alloc, name).arg(option)
}

// A word whose option is a budget.
fn budgeted(alloc: Global, name: &str) -> Result<Command<'_>, AllocError>
    ensures app { IfOk result (λ c. app_of c ≡ with_rule (new_app name.entry.now) budget) }
    ensures local { IfOk result (λ c. (out-Command c).has_globals ≡ false) }
{
    word(alloc, name, Arg::new(alloc, "budget").long("budget"))
}

// The word `check`, whose option asks for one thread.
fn checking<'a>(alloc: Global) -> Result<Command<'a>, AllocError>
    ensures app { IfOk result (λ c. app_of c ≡ with_rule (new_app (codes "check")) one_thread) }
    ensures local { IfOk result (λ c. (out-Command c).has_globals ≡ false) }
{
    let flag = Arg::new(alloc, "one-thread")
        .long("one-thread")
        .action(ArgAction::SetTrue);
    word(alloc, "check", flag)
}

// The command without its words.
fn without_words<'a>(alloc: Global) -> Command<'a>
    ensures app { app_of result ≡ bare (codes "andromeda") }
    ensures local { (out-Command result).has_globals ≡ false }
{
    Command::new(alloc, "andromeda")
        .no_binary_name(true)
        .disable_help_flag(true)
        .disable_version_flag(true)
        .disable_help_subcommand(true)
        .subcommand_required(true)
}

/// The program's command.
pub(crate) fn command<'a>(alloc: Global) -> Result<Command<'a>, AllocError>
    ensures { IfOk result (λ c. app_of c ≡ andromeda) }
{
    without_words(alloc)
        .subcommand(budgeted(alloc, "run")?)?
        .subcommand(budgeted(alloc, "export")?)?
        .subcommand(checking(alloc)?)
}

/// What some words ask for, by the definition.
pub fn accepted_words()
    ensures run { wanted_of (codes "run" ∷ []) ≡ Some (ask.Run 1000000) }
    ensures export { wanted_of (codes "export" ∷ []) ≡ Some (ask.Export 1000000) }
    ensures check { wanted_of (codes "check" ∷ []) ≡ Some (ask.Check false) }
    ensures one_thread { wanted_of (codes "check" ∷ codes "--one-thread" ∷ []) ≡ Some (ask.Check true) }
    ensures run_within { (text : List ℕ) (n : ℕ) → number_in 1000000000 text ≡ Some n
        → wanted_of (codes "run" ∷ codes "--budget" ∷ text ∷ []) ≡ Some (ask.Run n) }
    ensures export_within { (text : List ℕ) (n : ℕ) → number_in 1000000000 text ≡ Some n
        → wanted_of (codes "export" ∷ codes "--budget" ∷ text ∷ []) ≡ Some (ask.Export n) }
{}
