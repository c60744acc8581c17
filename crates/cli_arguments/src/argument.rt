//! The arguments of the subcommands, as rows of a table.
ghost use Rattle.std.specs.Prelude.{◌≡◌, false};
ghost use Rattle.clap.specs.Words.{rule_of};
ghost use Rattle.cli_arguments.specs.CommandLine as line;

use clap::{Arg, ArgAction, value_parser};
use std::alloc::Global;

/// An argument of a subcommand.
pub(crate) struct Argument<'a> {
    /// What names its values.
    pub(crate) id: &'a str,
    /// How it is given.
    pub(crate) kind: Kind<'a>,
    /// Its line in help.
    pub(crate) help: &'a str,
}

/// How an argument is given. A text is the name of its value in help.
pub(crate) enum Kind<'a> {
    /// `NAME`, one value.
    Required(&'a str),
    /// `ID..`, at least one value.
    Several,
    /// `[ID]..`, any number of values.
    AnyNumber,
    /// `--ID`, a flag.
    Flag,
    /// `-C`, a flag.
    ShortFlag(char),
    /// `-C` or `--ID`, a flag.
    EitherFlag(char),
    /// `--ID NAME`, one value.
    Option(&'a str),
    /// `--ID NAME`, a number of 64 bits.
    Number(&'a str),
    /// `--ID NAME`, one value, any number of times.
    Repeated(&'a str),
}

/// The argument as `clap` parses it and shows it in help.
pub(crate) fn arg_of<'a>(alloc: Global, argument: &Argument<'a>) -> Arg<'a>
    ensures rule { rule_of result ≡ line.rule argument.now }
    ensures local { result.global ≡ false }
{
    let id = argument.id;
    let arg = Arg::new(alloc, id).help(argument.help);
    match argument.kind {
        Kind::Required(name) => arg.value_name(name).action(ArgAction::Set).required(true),
        Kind::Several => arg.num_args(1..).action(ArgAction::Append).required(true),
        Kind::AnyNumber => arg.num_args(1..).action(ArgAction::Append),
        Kind::Flag => arg.long(id).action(ArgAction::SetTrue),
        Kind::ShortFlag(letter) => arg.short(letter).action(ArgAction::SetTrue),
        Kind::EitherFlag(letter) => arg.short(letter).long(id).action(ArgAction::SetTrue),
        Kind::Option(name) => arg.long(id).value_name(name).action(ArgAction::Set),
        Kind::Number(name) => arg
            .long(id)
            .value_name(name)
            .action(ArgAction::Set)
            .value_parser(value_parser!(u64)),
        Kind::Repeated(name) => arg.long(id).value_name(name).action(ArgAction::Append),
    }
}
