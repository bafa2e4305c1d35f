//! The table of the commands as a parser of `clap`.
use crate::arguments::{Argument, Form};
use crate::commands::{CommandRow, rows};
use crate::taken::arguments_of;
use clap::{Arg, ArgAction, Command, value_parser};
use std::alloc::{AllocError, Global};
use std::convert::AsStr;
use tb_basic_syntax::HIGHEST_LINE;
use tb_program_jobs::MOST_EVENTS;

/// The version of the program.
pub const VERSION: &str = "2.0.0";

// Whether one of the words is this name.
fn is_named<S: AsStr>(words: &[S], name: &str) -> bool {
    for word in words {
        if word.as_str() == name {
            return true;
        }
    }
    false
}

/// The parser of these words, all after the program's own name. A command that none of them names has no arguments in
/// it, which shows nowhere and starts the program sooner.
pub fn parser<'a, S: AsStr>(alloc: Global, words: &[S]) -> Result<Command<'a>, AllocError> {
    let mut parser = Command::new(alloc, "tbc")
        .about(
            "Compiles Tiny BASIC for the Commodore 64, assembles, lists, runs, plays, tests, steps, debugs, profiles and checks",
        )
        .version(VERSION)
        .no_binary_name(true)
        .bin_name("tbc")?
        .subcommand_required(true);
    for row in rows() {
        let arguments = if is_named(words, row.name) {
            arguments_of(row.command)
        } else {
            &[]
        };
        parser = with_subcommand(parser, subcommand(alloc, row, arguments))?;
    }
    Ok(parser)
}

// (what is held and what can fail stand apart, which the prover is glad of: a command and an argument are large)
fn with_subcommand<'a>(
    parser: Command<'a>,
    subcommand: Result<Command<'a>, AllocError>,
) -> Result<Command<'a>, AllocError> {
    parser.subcommand(subcommand?)
}

fn subcommand<'a>(
    alloc: Global,
    row: &CommandRow,
    arguments: &[Argument],
) -> Result<Command<'a>, AllocError> {
    let command = Command::new(alloc, row.name).about(row.help);
    let mut command = match row.usage {
        Some(usage) => command.override_usage(usage),
        None => command,
    };
    for argument in arguments {
        command = with_argument(command, clap_argument(alloc, argument))?;
    }
    Ok(command)
}

fn with_argument<'a>(
    command: Command<'a>,
    argument: Result<Arg<'a>, AllocError>,
) -> Result<Command<'a>, AllocError> {
    command.arg(argument?)
}

fn clap_argument<'a>(alloc: Global, argument: &Argument) -> Result<Arg<'a>, AllocError> {
    let plain = Arg::new(alloc, argument.name).help(argument.help);
    match argument.form {
        Form::File => Ok(plain.required(true)),
        Form::Files => Ok(plain.required(true).num_args(1..)),
        Form::FileUnless(option) => plain.required_unless_present(option),
        Form::FileInPlaceOf(excluded) => option(plain, argument, "FILE").conflicts_with(excluded),
        Form::TextInPlaceOf(excluded) => {
            option(plain, argument, "TEXT")
                .allow_hyphen_values(true)
                .conflicts_with_all(excluded)
        }
        Form::Flag => Ok(flag(plain, argument)),
        Form::FlagInPlaceOf(excluded) => flag(plain, argument).conflicts_with_all(excluded),
        Form::FileIfNamed => Ok(plain),
        Form::FilesUnless(option) => plain.num_args(1..).required_unless_present(option),
        Form::Output => Ok(output_option(plain)),
        Form::OutputInPlaceOf(excluded) => output_option(plain).conflicts_with(excluded),
        Form::Choice(names) => Ok(choice_option(plain, argument, "ASSEMBLER", names)),
        Form::ChoiceWith(names, other) => {
            choice_option(plain, argument, "ASSEMBLER", names).requires_arg(other)
        }
        Form::ChoiceOr(names, usual) => {
            Ok(choice_option(plain, argument, "FORMAT", names).default_value(usual))
        }
        Form::FileOption => Ok(option(plain, argument, "FILE")),
        Form::FileWith(other, excluded) => {
            along_without(option(plain, argument, "FILE"), other, excluded)
        }
        Form::FileAlong(other) => option(plain, argument, "FILE").requires_arg(other),
        Form::Digits => Ok(digits_option(plain, argument)),
        Form::Address => Ok(option(plain, argument, "HEX").required(true)),
        Form::AddressIfNamed => Ok(option(plain, argument, "HEX")),
        Form::Number => Ok(number_option(plain, argument)),
        Form::Seed => Ok(option(plain, argument, "N")),
        Form::LineNumberOr(usual) => {
            Ok(line_number_option(plain, argument).default_value(usual))
        }
        Form::EventsOr(usual) => Ok(events_option(plain, argument).default_value(usual)),
    }
}

// An option that takes another one along, and excludes a third. The library doesn't ask for what an option takes along if
// that excludes an argument that is there; so the option must exclude that one too.
fn along_without<'a>(
    option: Arg<'a>,
    along: &'static str,
    excluded: &'static str,
) -> Result<Arg<'a>, AllocError> {
    option.requires_arg(along)?.conflicts_with(excluded)
}

fn flag<'a>(plain: Arg<'a>, argument: &Argument) -> Arg<'a> {
    plain.long(argument.name).action(ArgAction::SetTrue)
}

// An option with a value of this name.
fn option<'a>(plain: Arg<'a>, argument: &Argument, value: &'a str) -> Arg<'a> {
    plain.long(argument.name).value_name(value)
}

fn choice_option<'a>(
    plain: Arg<'a>,
    argument: &Argument,
    value: &'a str,
    names: &'static [&'static str],
) -> Arg<'a> {
    option(plain, argument, value).value_parser(&*names)
}

fn output_option(plain: Arg<'_>) -> Arg<'_> {
    plain.short('o').value_name("OUT")
}

fn digits_option<'a>(plain: Arg<'a>, argument: &Argument) -> Arg<'a> {
    option(plain, argument, "HEX")
        .default_value("")
        .hide_default_value(true)
}

fn number_option<'a>(plain: Arg<'a>, argument: &Argument) -> Arg<'a> {
    option(plain, argument, "N").value_parser(value_parser!(u16))
}

fn line_number_option<'a>(plain: Arg<'a>, argument: &Argument) -> Arg<'a> {
    option(plain, argument, "N").value_parser(value_parser!(u16).range(1..=i64::from(HIGHEST_LINE)))
}

fn events_option<'a>(plain: Arg<'a>, argument: &Argument) -> Arg<'a> {
    option(plain, argument, "N").value_parser(value_parser!(u32).range(1..=i64::from(MOST_EVENTS)))
}
