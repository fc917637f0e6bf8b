//! From words to what they say.
//!
//! A function's line `tactic` names the definition that its proof opens.

ghost use Rattle.std.specs.Prelude.{◌≡◌, IfOk, map, option_map, string_bytes};
ghost use Rattle.clap.specs.Words.{first_of, found_of, rows_of};
ghost use Rattle.rf_base_style.specs.Columns.{columns_named};
ghost use Rattle.rf_cost.specs.Kinds.{cost_named};
ghost use Rattle.rf_words.specs.Answers.{Answers};
ghost use Rattle.rf_words.specs.WordsOf.{is_set, mode_of, names_of, number_of, numbers_of, said_by, wanted, words_of};

use crate::command::command;
use crate::words::{Mode, Words, WordsError};
use clap::ArgMatches;
use clap::error::ErrorKind;
use rf_base_style::{Columns, columns_named};
use rf_cost::{CostKind, cost_named};
use std::alloc::{AllocError, Global};

/// What the words say, without the program's name.
///
/// `Refused` comes exactly where the command refuses the words, by `clap`'s own definition of what it takes, where the
/// text of `--cost` or `--columns` is none of their names, or where more than one of `--check`, `--choices` and
/// `--summary` stands among the words. `Memory` is want of memory.
///
/// `--width=400` says that the width is 400, and nothing else; `--width=401` is refused.
#[tactic(auto, unfolding(crate::specs::WordsOf::words_of))]
pub fn read_words(alloc: Global, words: &[String]) -> Result<Words, WordsError>
    ensures { Answers (words_of (map string_bytes words.now)) result }
{
    let command = command(alloc)?;
    match command.try_get_matches_from(words) {
        Ok(matches) => said(alloc, &matches),
        Err(error) if error.kind() == ErrorKind::OutOfMemory => Err(WordsError::Memory(AllocError)),
        Err(_) => Err(WordsError::Refused),
    }
}

// The numbers that the options say.
#[derive(Clone, Copy)]
struct Numbers {
    width: Option<u32>,
    limit: Option<u32>,
    blanks: Option<u32>,
    jobs: u32,
    sample: Option<u32>,
}

// What the options name.
#[derive(Clone, Copy)]
struct Names {
    cost: Option<CostKind>,
    columns: Option<Columns>,
}

// What the options and flags say.
#[tactic(auto, unfolding(crate::specs::WordsOf::said_by))]
fn said(alloc: Global, matches: &ArgMatches<'_>) -> Result<Words, WordsError>
    ensures { Answers (said_by (rows_of (found_of matches.now))) result }
{
    let Some(numbers) = said_numbers(matches) else {
        return Err(WordsError::Refused);
    };
    let Some(names) = said_names(matches) else {
        return Err(WordsError::Refused);
    };
    let Some(mode) = said_mode(matches) else {
        return Err(WordsError::Refused);
    };
    let style = owned(alloc, given(matches, "style"))?;
    Ok(Words {
        width: numbers.width,
        limit: numbers.limit,
        blanks: numbers.blanks,
        style,
        cost: names.cost,
        columns: names.columns,
        jobs: numbers.jobs,
        mode,
        sample: numbers.sample,
    })
}

// The text that was given for the option.
fn given<'a>(matches: &ArgMatches<'a>, id: &str) -> Option<&'a str>
    ensures { option_map (λ text. text.now) result ≡ first_of id.now (rows_of (found_of matches.now)) }
{
    matches.get_str(id)
}

// The text as one of its own.
fn owned(alloc: Global, text: Option<&str>) -> Result<Option<String>, AllocError>
    ensures { IfOk result (λ own. option_map string_bytes own ≡ option_map (λ text. text.now) text.entry) }
{
    match text {
        Some(text) => Ok(Some(String::from_str(alloc, text)?)),
        None => Ok(None),
    }
}

// The numbers that the options say; none where an option's text is no number in its range.
#[tactic(auto, unfolding(crate::specs::WordsOf::numbers_of))]
fn said_numbers(matches: &ArgMatches<'_>) -> Option<Numbers>
    ensures { result ≡ numbers_of (rows_of (found_of matches.now)) }
{
    let width = number(matches, "width", 1, 400)?;
    let limit = number(matches, "limit", 1, 400)?;
    let blanks = number(matches, "max-blank-lines", 0, 9)?;
    let jobs = number(matches, "jobs", 1, 64)?;
    let sample = number(matches, "sample", 1, 10_000)?;
    Some(Numbers {
        width,
        limit,
        blanks,
        jobs: jobs.unwrap_or(1),
        sample,
    })
}

// The option's number, from `least` to `most`; none where its text is no such number.
fn number(matches: &ArgMatches<'_>, id: &str, least: u32, most: u32) -> Option<Option<u32>>
    ensures { result ≡ number_of id.now least most (rows_of (found_of matches.now)) }
{
    match matches.try_get_one::<u32>(id) {
        Ok(None) => Some(None),
        Ok(Some(number)) if least <= number && number <= most => Some(Some(number)),
        _ => None,
    }
}

// What the options name; none where an option's text is no such name.
#[tactic(auto, unfolding(crate::specs::WordsOf::names_of))]
fn said_names(matches: &ArgMatches<'_>) -> Option<Names>
    ensures { result ≡ names_of (rows_of (found_of matches.now)) }
{
    let cost = cost(given(matches, "cost"))?;
    let columns = columns(given(matches, "columns"))?;
    Some(Names { cost, columns })
}

// The cost factory of this name, where one was given; none where the name is none of the factories'.
fn cost(name: Option<&str>) -> Option<Option<CostKind>>
    ensures { result ≡ wanted cost_named (option_map (λ text. text.now) name.entry) }
{
    match name {
        None => Some(None),
        Some(text) => Some(Some(cost_named(text)?)),
    }
}

// The way of counting columns of this name, where one was given; none where the name is none of theirs.
fn columns(name: Option<&str>) -> Option<Option<Columns>>
    ensures { result ≡ wanted columns_named (option_map (λ text. text.now) name.entry) }
{
    match name {
        None => Some(None),
        Some(text) => Some(Some(columns_named(text)?)),
    }
}

// The mode that the flags say; none where more than one stands.
#[tactic(auto, unfolding(crate::specs::WordsOf::mode_of))]
fn said_mode(matches: &ArgMatches<'_>) -> Option<Mode>
    ensures { result ≡ mode_of (rows_of (found_of matches.now)) }
{
    let check = is_set(matches, "check");
    let choices = is_set(matches, "choices");
    let summary = is_set(matches, "summary");
    match (check, choices, summary) {
        (false, false, false) => Some(Mode::Plain),
        (true, false, false) => Some(Mode::Check),
        (false, true, false) => Some(Mode::Choices),
        (false, false, true) => Some(Mode::Summary),
        _ => None,
    }
}

// Whether the flag stands among the words.
fn is_set(matches: &ArgMatches<'_>, id: &str) -> bool
    ensures { result ≡ is_set id.now (rows_of (found_of matches.now)) }
{
    match given(matches, id) {
        Some(value) => value == "true",
        None => false,
    }
}
