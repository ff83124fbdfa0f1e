//! The options as `clap` knows them.
ghost use Rattle.std.specs.Prelude.{◌≡◌, IfOk, Bool, codes, true, false, if◌then◌else◌, ◌∷◌, []};
ghost use Rattle.bl_words.specs.Words.{options};
ghost use Rattle.bl_words.specs.Options.{app_for, rule_for};
ghost use Rattle.clap.specs.Words.{app_of, rule_of, with_rule};

use clap::{Arg, ArgAction, Command};
use std::alloc::{AllocError, Global};

// The command with one more option, which has a value and stands at most once.
fn with_value<'a>(
    alloc: Global,
    command: Command<'a>,
    name: &'a str,
) -> Result<Command<'a>, AllocError>
    ensures { IfOk result (λ c. app_of c
        ≡ with_rule (app_of command.entry) (rule_for (name.now, true))) }
{
    command.arg(Arg::new(alloc, name).long(name).action(ArgAction::Set))
}

// The command with one more flag.
fn with_flag<'a>(
    alloc: Global,
    command: Command<'a>,
    name: &'a str,
) -> Result<Command<'a>, AllocError>
    ensures { IfOk result (λ c. app_of c
        ≡ with_rule (app_of command.entry) (rule_for (name.now, false))) }
{
    command.arg(Arg::new(alloc, name).long(name).action(ArgAction::SetTrue))
}

// A command without help and version, whose words are all arguments.
fn plain<'a>(alloc: Global) -> Command<'a>
    ensures { app_of result ≡ app_for [] }
{
    Command::new(alloc, "blis")
        .no_binary_name(true)
        .disable_help_flag(true)
        .disable_version_flag(true)
}

// The options that only the program with workers has.
fn with_workers<'a>(alloc: Global, one: bool) -> Result<Command<'a>, AllocError>
    ensures { IfOk result (λ c. app_of c ≡ app_for (if one then [] else (codes "workers", true) ∷ [])) }
{
    let command = plain(alloc);
    if one {
        return Ok(command);
    }
    with_value(alloc, command, "workers")
}

/// All options of a program; `one` is true for the one without workers.
pub fn command<'a>(alloc: Global, one: bool) -> Result<Command<'a>, AllocError>
    ensures { IfOk result (λ c. app_of c ≡ app_for (options one)) }
{
    let command = with_workers(alloc, one)?;
    let command = with_value(alloc, command, "nodes")?;
    let command = with_value(alloc, command, "span")?;
    let command = with_value(alloc, command, "order")?;
    let command = with_value(alloc, command, "branch")?;
    let command = with_value(alloc, command, "gap")?;
    let command = with_value(alloc, command, "cuts")?;
    let command = with_value(alloc, command, "gen")?;
    let command = with_value(alloc, command, "columns")?;
    let command = with_value(alloc, command, "rows")?;
    let command = with_flag(alloc, command, "write")?;
    with_flag(alloc, command, "log")
}
