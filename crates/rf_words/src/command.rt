//! The command: its options and flags.

ghost use Rattle.std.specs.Prelude.{◌≡◌, IfOk, false};
ghost use Rattle.clap.specs.Words.{app_of, rule_of};
ghost use Rattle.rf_words.specs.Command.{bare, command, flag, numbered, option, with_counts, with_flags, with_measures, with_texts};

use clap::{Arg, ArgAction, Command, value_parser};
use std::alloc::{AllocError, Global};

// The command, whose words don't begin with the program's name.
pub(crate) fn command<'a>(alloc: Global) -> Result<Command<'a>, AllocError>
    ensures { IfOk result (λ made. app_of made ≡ command) }
{
    let bare = bare(alloc);
    let measured = with_measures(alloc, bare)?;
    let counted = with_counts(alloc, measured)?;
    let texted = with_texts(alloc, counted)?;
    with_flags(alloc, texted)
}

// The command without options.
fn bare<'a>(alloc: Global) -> Command<'a>
    ensures { app_of result ≡ bare }
{
    Command::new(alloc, "rf_fmt")
        .no_binary_name(true)
        .disable_help_flag(true)
}

// With the options that replace numbers of the style.
fn with_measures<'a>(alloc: Global, command: Command<'a>) -> Result<Command<'a>, AllocError>
    ensures { IfOk result (λ made. app_of made ≡ with_measures (app_of command.entry)) }
{
    command
        .arg(number(alloc, "width", 1, 400))?
        .arg(number(alloc, "limit", 1, 400))?
        .arg(number(alloc, "max-blank-lines", 0, 9))
}

// With the options that count jobs and the sample's forms.
fn with_counts<'a>(alloc: Global, command: Command<'a>) -> Result<Command<'a>, AllocError>
    ensures { IfOk result (λ made. app_of made ≡ with_counts (app_of command.entry)) }
{
    command
        .arg(number(alloc, "jobs", 1, 64))?
        .arg(number(alloc, "sample", 1, 10_000))
}

// With the options that are texts.
fn with_texts<'a>(alloc: Global, command: Command<'a>) -> Result<Command<'a>, AllocError>
    ensures { IfOk result (λ made. app_of made ≡ with_texts (app_of command.entry)) }
{
    command
        .arg(text(alloc, "style"))?
        .arg(text(alloc, "cost"))?
        .arg(text(alloc, "columns"))
}

// With the flags.
fn with_flags<'a>(alloc: Global, command: Command<'a>) -> Result<Command<'a>, AllocError>
    ensures { IfOk result (λ made. app_of made ≡ with_flags (app_of command.entry)) }
{
    command
        .arg(flag(alloc, "check"))?
        .arg(flag(alloc, "choices"))?
        .arg(flag(alloc, "summary"))
}

// An option of a number from least to most.
fn number<'a>(alloc: Global, id: &'a str, least: u32, most: u32) -> Arg<'a>
    ensures rule { rule_of result ≡ numbered id.entry.now least most }
    ensures local { result.global ≡ false }
{
    let range = i64::from(least)..=i64::from(most);
    Arg::new(alloc, id)
        .long(id)
        .action(ArgAction::Set)
        .value_parser(value_parser!(u32).range(range))
}

// An option of one text.
fn text<'a>(alloc: Global, id: &'a str) -> Arg<'a>
    ensures rule { rule_of result ≡ option id.entry.now }
    ensures local { result.global ≡ false }
{
    Arg::new(alloc, id).long(id).action(ArgAction::Set)
}

// A flag.
fn flag<'a>(alloc: Global, id: &'a str) -> Arg<'a>
    ensures rule { rule_of result ≡ flag id.entry.now }
    ensures local { result.global ≡ false }
{
    Arg::new(alloc, id).long(id).action(ArgAction::SetTrue)
}
