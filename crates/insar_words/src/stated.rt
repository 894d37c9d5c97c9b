ghost use Rattle.clap.specs.Words.{app_of, rule_of};
ghost use Rattle.insar_words.specs.Stated.{row_app, row_rule, stated, with_row_apps, with_row_rules};
ghost use Rattle.std.specs.Prelude.{◌≡◌, IfOk, false};

use crate::table::{ArgumentRow, COMMANDS, CommandRow};
use clap::{Arg, Command};
use std::alloc::{AllocError, Global};

/// The command that words are read by, with the commands of the table.
pub fn stated_command<'a>(alloc: Global) -> Result<Command<'a>, AllocError>
    ensures { IfOk result (λ command. app_of command ≡ stated) }
{
    let top = Command::new(alloc, "insar")
        .no_binary_name(true)
        .subcommand_required(true);
    with_commands(alloc, top, &COMMANDS)
}

/// The command with these subcommands more.
fn with_commands<'a>(
    alloc: Global,
    top: Command<'a>,
    rows: &[CommandRow],
) -> Result<Command<'a>, AllocError>
    ensures { IfOk result (λ more. app_of more ≡ with_row_apps (app_of top.entry) rows.now) }
{
    let mut command = top;
    for row in rows {
        command = command.subcommand(command_of(alloc, row)?)?;
    }
    Ok(command)
}

/// The command of a row.
fn command_of<'a>(alloc: Global, row: &CommandRow) -> Result<Command<'a>, AllocError>
    ensures { IfOk result (λ command. app_of command ≡ row_app row.now) }
{
    with_arguments(alloc, Command::new(alloc, row.name), row.arguments)
}

/// The command with these arguments more.
fn with_arguments<'a>(
    alloc: Global,
    bare: Command<'a>,
    rows: &[ArgumentRow],
) -> Result<Command<'a>, AllocError>
    ensures { IfOk result (λ more. app_of more ≡ with_row_rules (app_of bare.entry) rows.now) }
{
    let mut command = bare;
    for row in rows {
        command = command.arg(argument_of(alloc, row))?;
    }
    Ok(command)
}

/// The argument of a row.
fn argument_of<'a>(alloc: Global, row: &ArgumentRow) -> Arg<'a>
    ensures rule { rule_of result ≡ row_rule row.now }
    ensures local { result.global ≡ false }
{
    let argument = Arg::new(alloc, row.name)
        .help(row.help)
        .value_parser(row.parser)
        .default_values(row.defaults)
        .required(row.defaults.is_empty());
    if row.is_option {
        argument.long(row.name)
    } else {
        argument
    }
}
