//! An argument of a command, and what clap is told of it.

ghost use Rattle.std.specs.Prelude.{◌≡◌, false};
ghost use Rattle.clap.specs.Words.{rule_of};
ghost use Rattle.s161_command.specs.helpers.Lines.{argument_rule, kind_rule};

use clap::builder::ValueParser;
use clap::{Arg, ArgAction};
use std::alloc::Global;

/// How an argument is given, and how its value is read.
#[derive(Clone, Copy)]
pub(crate) enum Kind {
    /// A file's name, in its place.
    File,
    /// An option without a value.
    Flag,
    /// An option with a text.
    Text,
    /// An option with a text, which may be given more than once.
    Texts,
    /// An option with a number that this parser takes.
    Number(ValueParser<'static>),
}

/// An argument of a command.
#[derive(Clone, Copy)]
pub(crate) struct Argument {
    /// The name by which it is given and read.
    pub(crate) name: &'static str,
    /// How it is given, and how its value is read.
    pub(crate) kind: Kind,
    /// What help shows for its value; nothing for a flag.
    pub(crate) shown: &'static str,
    /// Its help.
    pub(crate) help: &'static str,
    /// The value where it isn't given.
    pub(crate) default: Option<&'static str>,
    /// Whether it has to be given.
    pub(crate) required: bool,
}

// What clap is told of an argument's kind.
fn kind_arg<'a>(alloc: Global, argument: &Argument) -> Arg<'a>
    ensures rule { rule_of result ≡ kind_rule argument.now.name.now argument.now.kind }
    ensures local { result.global ≡ false }
{
    let name = argument.name;
    match argument.kind {
        Kind::File => Arg::new(alloc, name).value_name(argument.shown),
        Kind::Flag => Arg::new(alloc, name).long(name).action(ArgAction::SetTrue),
        Kind::Text => Arg::new(alloc, name).long(name).value_name(argument.shown),
        Kind::Texts => Arg::new(alloc, name)
            .long(name)
            .value_name(argument.shown)
            .action(ArgAction::Append),
        Kind::Number(parser) => Arg::new(alloc, name)
            .long(name)
            .value_name(argument.shown)
            .value_parser(parser),
    }
}

// What clap is told of an argument, but its default.
fn arg_without_default<'a>(alloc: Global, argument: &Argument) -> Arg<'a>
    ensures rule { rule_of result ≡ record (kind_rule argument.now.name.now argument.now.kind) {
      required = argument.now.required;
    } }
    ensures local { result.global ≡ false }
{
    kind_arg(alloc, argument)
        .help(argument.help)
        .required(argument.required)
}

/// What clap is told of an argument.
pub(crate) fn arg_of<'a>(alloc: Global, argument: &Argument) -> Arg<'a>
    ensures rule { rule_of result ≡ argument_rule argument.now }
    ensures local { result.global ≡ false }
{
    match argument.default {
        Some(text) => arg_without_default(alloc, argument).default_value(text),
        None => arg_without_default(alloc, argument),
    }
}
