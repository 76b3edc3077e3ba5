//! The command line: its definition for clap, and its task.

ghost use Rattle.std.specs.Prelude.{◌≡◌, ◌≢◌, IfErr, IfOk, map};
ghost use Rattle.std.specs.List.{fold};
ghost use Rattle.clap.specs.Words.{HasKind, app_of, fault_of, kind_of, new_app, subcommand_of, subcommand_rows_of};
ghost use Rattle.clap.specs.declared.error.kind.ErrorKind.TheVariants.{OutOfMemory};
ghost use Rattle.s161_command.specs.Commands.{GoTogether, HasEntries, HasLimits, IsAccepted, IsRejected, IsTask, command_line, never_in, never_of};
ghost use Rattle.s161_command.specs.helpers.Commands.{IsLocal};
ghost use Rattle.s161_command.specs.helpers.Lines.{bare_program, line_app, with_arguments, with_named};

use crate::argument::{Argument, arg_of};
use crate::asked::task_of;
use crate::help::AFTER_HELP;
use crate::lines::{COMMANDS, CommandName, Line, after_help_of, line_of};
use crate::repeated::texts_given;
use crate::task::{Rejection, Task};
use clap::{ArgMatches, Command, Error};
use std::alloc::{AllocError, Global};
use std::convert::AsStr;

/// What `--version` tells.
const VERSION: &str = "1.14";

// A command, with these arguments added in turn.
fn with_arguments<'a>(
    alloc: Global,
    command: Command<'a>,
    arguments: &[Argument],
) -> Result<Command<'a>, AllocError>
    requires { IsLocal command }
    ensures shape { IfOk result (λ more.
        app_of more ≡ with_arguments (app_of command.entry) arguments.now) }
    ensures local { IfOk result IsLocal }
{
    let mut command = command;
    for argument in arguments {
        command = command.arg(arg_of(alloc, argument))?;
    }
    Ok(command)
}

// A command without its arguments, with the end of its help, if there is one.
fn bare_command<'a>(alloc: Global, line: &Line, after_help: Option<&'static str>) -> Command<'a>
    ensures shape { app_of result ≡ new_app line.now.name.now }
    ensures local { IsLocal result }
{
    match after_help {
        Some(text) => Command::new(alloc, line.name)
            .about(line.about)
            .after_help(text),
        None => Command::new(alloc, line.name).about(line.about),
    }
}

// The definition of a command, with the end of its help, if there is one.
fn command_of<'a>(
    alloc: Global,
    line: &Line,
    after_help: Option<&'static str>,
) -> Result<Command<'a>, AllocError>
    ensures shape { IfOk result (λ command. app_of command ≡ line_app line.now) }
    ensures local { IfOk result IsLocal }
{
    let command = bare_command(alloc, line, after_help);
    with_arguments(alloc, command, line.arguments)
}

// A program, with the commands of these names added in turn.
fn with_commands<'a>(
    alloc: Global,
    program: Command<'a>,
    names: &[CommandName],
) -> Result<Command<'a>, AllocError>
    ensures { IfOk result (λ more. app_of more ≡ fold with_named (app_of program.entry) names.now) }
{
    let mut program = program;
    for name in names {
        let command = command_of(alloc, line_of(*name), after_help_of(*name))?;
        program = program.subcommand(command)?;
    }
    Ok(program)
}

// The program without its commands.
fn bare_program<'a>(alloc: Global) -> Command<'a>
    ensures { app_of result ≡ bare_program }
{
    Command::new(alloc, "s161")
        .about("A proved emulator of System/161")
        .version(VERSION)
        .after_help(AFTER_HELP)
        .subcommand_required(true)
}

// The program's definition of its command line.
fn definition<'a>(alloc: Global) -> Result<Command<'a>, AllocError>
    ensures { IfOk result (λ command. app_of command ≡ command_line) }
{
    with_commands(alloc, bare_program(alloc), &COMMANDS)
}

/// Reads the words of a command line; the first is the program's name.
///
/// # Errors
/// clap doesn't take the words; or it does, and their options can't be followed.
pub fn parse<'a, S: AsStr>(alloc: Global, words: &'a [S]) -> Result<Task<'a>, Rejection>
    ensures accepted { IfOk result (λ _. IsAccepted (map S.text words.now)) }
    ensures together { IfOk result (λ _. GoTogether (subcommand_of command_line (map S.text words.now))) }
    ensures rejected { IfErr result (IsRejected (map S.text words.now)) }
    ensures task { IfOk result (IsTask (subcommand_of command_line (map S.text words.now))) }
    ensures limits { IfOk result HasLimits }
    ensures entries { IfOk result HasEntries }
{
    let matches = match matches_of(alloc, words) {
        Ok(matches) => matches,
        Err(error) => return Err(Rejection::Words(error)),
    };
    match task_of(&matches) {
        Ok(task) => Ok(task),
        Err(clash) => Err(Rejection::Options(clash)),
    }
}

// What clap finds in the words of a command line.
fn matches_of<'a, S: AsStr>(alloc: Global, words: &'a [S]) -> Result<ArgMatches<'a>, Error>
    ensures accepted { IfOk result (λ _. IsAccepted (map S.text words.now)) }
    ensures rejected { IfErr result (λ error. kind_of error ≢ OutOfMemory
        → ¬ IsAccepted (map S.text words.now)) }
    ensures kind { IfErr result (HasKind (fault_of command_line (map S.text words.now))) }
    ensures given { IfOk result (λ matches.
        subcommand_rows_of matches ≡ subcommand_of command_line (map S.text words.now)) }
{
    let command = definition(alloc)?;
    let matches = command.try_get_matches_from(words)?;
    Ok(matches)
}

// The texts of `--never` that clap gives.
fn never_given<'a>(alloc: Global, matches: &ArgMatches<'a>) -> Result<Vec<&'a str>, AllocError>
    ensures { IfOk result (λ texts. map (λ text. text.now) texts.items
        ≡ never_in (subcommand_rows_of matches.now)) }
{
    match matches.subcommand() {
        Some((_name, given)) => texts_given(alloc, given, "never"),
        None => Ok(Vec::new(alloc)),
    }
}

/// The words that stand for the addresses of `--never` of a command line that is accepted, in their
/// order. They are read apart from its task, which is a value of one size.
///
/// # Errors
/// Memory was refused.
pub fn never_words<'a, S: AsStr>(alloc: Global, words: &'a [S]) -> Result<Vec<&'a str>, AllocError>
    ensures { IfOk result (λ never. map (λ text. text.now) never.items
        ≡ never_of (map S.text words.now)) }
{
    let Ok(matches) = matches_of(alloc, words) else {
        return Err(AllocError);
    };
    never_given(alloc, &matches)
}
