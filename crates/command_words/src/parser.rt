//! The command of `clap` that has the parts of one of ours.

ghost use Rattle.std.specs.Prelude.{◌≡◌, map, IfOk, false};
ghost use Rattle.clap.specs.Words.{app_of, rule_of};
ghost use Rattle.command_words.specs.ClapCommands as spec;
ghost use Rattle.command_words.specs.Commands.{file_parts, run_parts, gen_parts, export_parts};

use clap::{Arg, ArgAction, Command};
use std::alloc::{AllocError, Global};

/// An option, which takes one text.
fn option<'a>(alloc: Global, name: &'a str) -> Arg<'a>
    ensures rule { rule_of result ≡ spec.option_arg name.entry.now }
    ensures own { result.global ≡ false }
{
    Arg::new(alloc, name).long(name).action(ArgAction::Set)
}

/// A flag, which takes none: where it stands it is `true`.
fn flag<'a>(alloc: Global, name: &'a str) -> Arg<'a>
    ensures rule { rule_of result ≡ spec.flag_arg name.entry.now }
    ensures own { result.global ≡ false }
{
    option(alloc, name)
        .num_args(0)
        .default_missing_value("true")
}

/// A command with more options.
fn with_options<'a>(
    alloc: Global,
    command: Command<'a>,
    names: &[&'a str],
) -> Result<Command<'a>, AllocError>
    ensures { IfOk result (λ more. app_of more ≡ spec.with_args spec.option_arg (app_of command.entry) (map (λ n. n.now) names.entry.now)) }
{
    let mut more = command;
    for name in names {
        more = more.arg(option(alloc, name))?;
    }
    Ok(more)
}

/// A command with more flags.
fn with_flags<'a>(
    alloc: Global,
    command: Command<'a>,
    names: &[&'a str],
) -> Result<Command<'a>, AllocError>
    ensures { IfOk result (λ more. app_of more ≡ spec.with_args spec.flag_arg (app_of command.entry) (map (λ n. n.now) names.entry.now)) }
{
    let mut more = command;
    for name in names {
        more = more.arg(flag(alloc, name))?;
    }
    Ok(more)
}

fn bare<'a>(alloc: Global) -> Command<'a>
    ensures { app_of result ≡ spec.bare_app }
{
    Command::new(alloc, "stateflow")
        .no_binary_name(true)
        .disable_help_flag(true)
        .disable_version_flag(true)
}

/// A command that takes a file.
pub(crate) fn file_command<'a>(alloc: Global) -> Result<Command<'a>, AllocError>
    ensures { IfOk result (λ command. app_of command ≡ spec.app_with file_parts) }
{
    bare(alloc).arg(Arg::new(alloc, "FILE"))
}

/// The command that reads the words of `run`.
pub(crate) fn run_command<'a>(alloc: Global) -> Result<Command<'a>, AllocError>
    ensures { IfOk result (λ command. app_of command ≡ spec.app_with run_parts) }
{
    let options = [
        "batch",
        "partitions",
        "schedule",
        "store",
        "every",
        "history",
    ];
    let command = with_options(alloc, bare(alloc), &options)?;
    with_flags(alloc, command, &["reorder", "trace"])?.arg(Arg::new(alloc, "FILE"))
}

/// The command that reads the words of `gen`.
pub(crate) fn gen_command<'a>(alloc: Global) -> Result<Command<'a>, AllocError>
    ensures { IfOk result (λ command. app_of command ≡ spec.app_with gen_parts) }
{
    with_options(
        alloc,
        bare(alloc),
        &["number", "size", "batch", "partitions"],
    )
}

/// The command that reads the words of `export`.
pub(crate) fn export_command<'a>(alloc: Global) -> Result<Command<'a>, AllocError>
    ensures { IfOk result (λ command. app_of command ≡ spec.app_with export_parts) }
{
    with_options(alloc, bare(alloc), &["store"])?.arg(Arg::new(alloc, "FILE"))
}
