//! The words of the command line, as `clap` reads them.
ghost use Rattle.std.specs.Prelude.{◌≡◌, ◌≢◌, ◌↔◌, [], true, false, codes, map, string_bytes, alloc_error, IsSome, IsOk, IfOk, IfErr, MatchResult, Ok, Err};
ghost use Rattle.clap.specs.Words.{HasKind, app_of, fault_of, kind_of, subcommand_of, subcommand_rows_of, new_app, with_rule, with_subcommand};
ghost use Rattle.clap.specs.declared.builder.command.Command.TheViews.{out-Command as fields_of};
ghost use Rattle.crn_command_line.specs.Parsing.{AreRead, FindsCommand, IsHelp, RefusesFound, RefusesWords, argument, crnsim};
ghost use Rattle.crn_command_line.specs.Parsing as spec;
ghost use Rattle.crn_command_line.specs.Inner.Parsing.{arguments_of, shape_of_help};

use crate::commands::{COMMANDS, Command, CommandHelp, command_named};
use crate::fault::CommandLineFault;
use crate::help::{ABOUT, after_help};
use clap::error::ErrorKind;
use clap::{Arg, ArgMatches};
use std::alloc::{AllocError, Global};

/// Reads the words that follow the program's name, with `clap`:
///
/// - no word, or `run`;
/// - `lanes`;
/// - `words` with four key words of 16 digits `0-9a-f` and the number of a block;
/// - `replay` with the size, the readers and the total of a ring;
/// - `leg` with the number of a block;
/// - `resume` or `migrate` with the name of a file, which may be empty;
/// - requests for help.
///
/// Numbers are in decimal, without a sign or leading zeros. It judges spelling and types alone, and neither whether
/// there is such a ring nor whether the scenario has such a block.
///
/// # Errors
///
/// - `Words` if the words are none of these.
/// - `Memory` if an allocation fails.
pub fn read_words<'a>(alloc: Global, words: &'a [String]) -> Result<Command, CommandLineFault>
    ensures read { IfOk result (λ c. AreRead (map string_bytes words.entry.now) c) }
    ensures refused { IfErr result (λ e. RefusesWords (map string_bytes words.entry.now) e) }
{
    let after_help = after_help(alloc)?;
    match matches_of(alloc, after_help.as_str(), words) {
        Ok(matches) => command_of(alloc, &matches),
        Err(answer) => answered(alloc, &answer),
    }
}

// What `clap` finds in the words.
fn matches_of<'a>(
    alloc: Global,
    after_help: &'a str,
    words: &'a [String],
) -> Result<ArgMatches<'a>, clap::Error>
    ensures found { IfOk result (λ m. subcommand_rows_of m ≡ subcommand_of crnsim (map string_bytes words.entry.now)) }
    ensures kinds { MatchResult result (λ _. fault_of crnsim (map string_bytes words.entry.now) ≡ []) (HasKind (fault_of crnsim (map string_bytes words.entry.now))) }
{
    parser(alloc, after_help)?.try_get_matches_from(words)
}

// What `clap` answers in place of a command: the help that was asked for, or why there is none.
fn answered(alloc: Global, answer: &clap::Error) -> Result<Command, CommandLineFault>
    ensures memory { kind_of answer.now ≡ ErrorKind.OutOfMemory → result ≡ Err (CommandLineFault.Memory alloc_error) }
    ensures help { IfOk result (λ c. IsHelp c) }
    ensures asked { IsOk result → kind_of answer.now ≡ ErrorKind.DisplayHelp }
    ensures refused { result ≡ Err CommandLineFault.Words → (kind_of answer.now ≢ ErrorKind.DisplayHelp) × (kind_of answer.now ≢ ErrorKind.OutOfMemory) }
{
    match refusal_of(answer) {
        Some(refused) => Err(CommandLineFault::Memory(refused)),
        None => match answer.kind() {
            ErrorKind::DisplayHelp => help_in(alloc, answer),
            _ => Err(CommandLineFault::Words),
        },
    }
}

// The failed allocation that `clap` reports by a kind.
fn refusal_of(answer: &clap::Error) -> Option<AllocError>
    ensures { IsSome result ↔ (kind_of answer.now ≡ ErrorKind.OutOfMemory) }
{
    match answer.kind() {
        ErrorKind::OutOfMemory => Some(AllocError),
        _ => None,
    }
}

// The help that was asked for.
fn help_in(alloc: Global, answer: &clap::Error) -> Result<Command, CommandLineFault>
    ensures help { IfOk result (λ c. IsHelp c) }
    ensures memory { IfErr result (λ e. e ≡ CommandLineFault.Memory alloc_error) }
{
    let text = answer.to_string(alloc)?;
    Ok(Command::Help { text })
}

// What `clap` knows of the program.
fn parser<'a>(alloc: Global, after_help: &'a str) -> Result<clap::Command<'a>, AllocError>
    ensures { IfOk result (λ parser. app_of parser ≡ crnsim) }
{
    let program = clap::Command::new(alloc, "crnsim")
        .about(ABOUT)
        .after_help(after_help)
        .no_binary_name(true);
    with_commands(alloc, program, &COMMANDS)?.bin_name("crnsim")
}

// Adds the commands, in the order of the help.
fn with_commands<'a>(
    alloc: Global,
    program: clap::Command<'a>,
    commands: &[CommandHelp],
) -> Result<clap::Command<'a>, AllocError>
    ensures { IfOk result (λ whole. app_of whole ≡ spec.with_commands (app_of program.entry) (map shape_of_help commands.now)) }
{
    let mut whole = program;
    'items: for help in commands {
        whole = with_command(alloc, whole, help)?;
    }
    Ok(whole)
}

// Adds a command.
fn with_command<'a>(
    alloc: Global,
    program: clap::Command<'a>,
    help: &CommandHelp,
) -> Result<clap::Command<'a>, AllocError>
    ensures { IfOk result (λ whole. app_of whole ≡ with_subcommand (app_of program.entry) (shape_of_help help.now)) }
{
    let command = parser_of(alloc, help)?;
    program.subcommand(command)
}

// What `clap` knows of one command.
fn parser_of<'a>(alloc: Global, command: &CommandHelp) -> Result<clap::Command<'a>, AllocError>
    ensures shape { IfOk result (λ parser. app_of parser ≡ spec.with_arguments (new_app command.now.name.now) (arguments_of command.now)) }
    ensures local { IfOk result (λ parser. (fields_of parser).has_globals ≡ false) }
{
    let parser = clap::Command::new(alloc, command.name)
        .about(command.about)
        .after_help(command.example);
    with_args(alloc, parser, command.args)
}

// Adds arguments, each with its help.
fn with_args<'a>(
    alloc: Global,
    command: clap::Command<'a>,
    args: &[(&'static str, &'static str)],
) -> Result<clap::Command<'a>, AllocError>
    requires { (fields_of command).has_globals ≡ false }
    ensures shape { IfOk result (λ whole. app_of whole ≡ spec.with_arguments (app_of command.entry) (map (λ a. a.0.now) args.now)) }
    ensures local { IfOk result (λ whole. (fields_of whole).has_globals ≡ false) }
{
    let mut whole = command;
    'items: for arg in args {
        whole = with_arg(alloc, whole, arg.0, arg.1)?;
    }
    Ok(whole)
}

// Adds an argument that has to be given, by its place.
fn with_arg<'a>(
    alloc: Global,
    command: clap::Command<'a>,
    name: &'a str,
    help: &'a str,
) -> Result<clap::Command<'a>, AllocError>
    requires { (fields_of command).has_globals ≡ false }
    ensures shape { IfOk result (λ whole. app_of whole ≡ with_rule (app_of command.entry) (argument name.entry.now)) }
    ensures local { IfOk result (λ whole. (fields_of whole).has_globals ≡ false) }
{
    command.arg(Arg::new(alloc, name).required(true).help(help))
}

// The command that was found, or the report where none was.
fn command_of(alloc: Global, matches: &ArgMatches<'_>) -> Result<Command, CommandLineFault>
    ensures finds { IfOk result (λ c. FindsCommand (subcommand_rows_of matches.now) c) }
    ensures refused { IfErr result (λ e. RefusesFound (subcommand_rows_of matches.now) e) }
{
    match matches.subcommand() {
        Some((name, words)) => command_named(alloc, name, words),
        None => Ok(Command::Run),
    }
}
