//! The command of the program, as clap is told it.

ghost use Rattle.std.specs.Prelude.{◌≡◌, ◌≢◌, ◌↔◌, [], false, map, IfOk, IfErr, IsErrOf};
ghost use Rattle.clap.specs.Words.{app_of, found_of, kind_of, rows_of, rule_of};
ghost use Rattle.clap.specs.declared.error.kind.ErrorKind.{ErrorKind};
ghost use Rattle.command_line.specs.Command.{bare, with_places, with_options, confd, mode_rule, place_rule, session_rule, option_rule, flag_rule, faults_in, rows_in};
ghost use Rattle.command_line.specs.declared.usage.Usage.TheVariants.{Refused};

use crate::usage::Usage;
use clap::error::ErrorKind;
use clap::{Arg, ArgAction, ArgMatches, Command, Error};
use std::alloc::{AllocError, Global};

fn mode<'a>(alloc: Global) -> Arg<'a>
    ensures rule { rule_of result ≡ mode_rule }
    ensures local { result.global ≡ false }
{
    Arg::new(alloc, "mode").required(true)
}

fn place<'a>(alloc: Global) -> Arg<'a>
    ensures rule { rule_of result ≡ place_rule }
    ensures local { result.global ≡ false }
{
    Arg::new(alloc, "place").required(true)
}

fn session<'a>(alloc: Global) -> Arg<'a>
    ensures rule { rule_of result ≡ session_rule }
    ensures local { result.global ≡ false }
{
    Arg::new(alloc, "session").num_args(0..)
}

/// An option with its usual value.
fn option<'a>(alloc: Global, name: &'a str, usual: &'a str) -> Arg<'a>
    ensures rule { rule_of result ≡ option_rule name.entry.now usual.entry.now }
    ensures local { result.global ≡ false }
{
    Arg::new(alloc, name).long(name).default_value(usual)
}

/// An option without a value.
fn flag<'a>(alloc: Global, name: &'a str) -> Arg<'a>
    ensures rule { rule_of result ≡ flag_rule name.entry.now }
    ensures local { result.global ≡ false }
{
    Arg::new(alloc, name).long(name).action(ArgAction::SetTrue)
}

/// The command without arguments: all words are its own, and none is for help or a version.
fn bare<'a>(alloc: Global) -> Command<'a>
    ensures { app_of result ≡ bare }
{
    Command::new(alloc, "confd")
        .no_binary_name(true)
        .disable_help_flag(true)
        .disable_version_flag(true)
}

fn with_places<'a>(alloc: Global) -> Result<Command<'a>, AllocError>
    ensures { IfOk result (λ command. app_of command ≡ with_places) }
{
    let command = bare(alloc)
        .arg(mode(alloc))?
        .arg(place(alloc))?
        .arg(session(alloc))?;
    Ok(command)
}

fn with_options<'a>(alloc: Global) -> Result<Command<'a>, AllocError>
    ensures { IfOk result (λ command. app_of command ≡ with_options) }
{
    let command = with_places(alloc)?
        .arg(option(alloc, "user", "root"))?
        .arg(option(alloc, "input", "16777216"))?
        .arg(option(alloc, "journal-limit", "67108864"))?;
    Ok(command)
}

fn confd<'a>(alloc: Global) -> Result<Command<'a>, AllocError>
    ensures { IfOk result (λ command. app_of command ≡ confd) }
{
    with_options(alloc)?.arg(flag(alloc, "access"))
}

/// The words as clap finds them: they are refused exactly where it finds a fault.
fn taken<'a>(command: Command<'a>, words: &'a [&'a str]) -> Result<ArgMatches<'a>, Error>
    requires { app_of command ≡ confd }
    ensures taken { IfOk result (λ _. faults_in (map (λ s. s.now) words.entry.now) ≡ []) }
    ensures rows { IfOk result (λ matches. rows_of (found_of matches) ≡ rows_in (map (λ s. s.now) words.entry.now)) }
    ensures refused { IfErr result (λ e. kind_of e ≢ ErrorKind.OutOfMemory → faults_in (map (λ s. s.now) words.entry.now) ≢ []) }
{
    command.try_get_matches_from(words)
}

/// Why clap gives no matches.
fn usage_of(error: Error) -> Usage
    ensures { (result ≡ Refused) ↔ (kind_of error ≢ ErrorKind.OutOfMemory) }
{
    if error.kind() == ErrorKind::OutOfMemory {
        Usage::NoMemory
    } else {
        Usage::Refused
    }
}

/// The matches of words that are text.
pub(crate) fn matches_of<'a>(alloc: Global, words: &'a [&'a str]) -> Result<ArgMatches<'a>, Usage>
    ensures taken { IfOk result (λ _. faults_in (map (λ s. s.now) words.entry.now) ≡ []) }
    ensures rows { IfOk result (λ matches. rows_of (found_of matches) ≡ rows_in (map (λ s. s.now) words.entry.now)) }
    ensures refused { IsErrOf result Refused → faults_in (map (λ s. s.now) words.entry.now) ≢ [] }
{
    let command = confd(alloc)?;
    match taken(command, words) {
        Ok(matches) => Ok(matches),
        Err(error) => Err(usage_of(error)),
    }
}
