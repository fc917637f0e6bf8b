// How words are told.
use rf_words::{Columns, CostKind, Mode, Words, WordsError, read_words};
use std::alloc::{AllocError, Global};

/// What the words say.
pub fn told(alloc: Global, words: &[String]) -> Result<String, AllocError> {
    match read_words(alloc, words) {
        Ok(words) => said(alloc, &words),
        Err(WordsError::Refused) => String::from_str(alloc, "refused"),
        Err(WordsError::Memory(error)) => Err(error),
    }
}

fn said(alloc: Global, words: &Words) -> Result<String, AllocError> {
    let mut text = String::new(alloc);
    add_number(alloc, &mut text, "width", words.width)?;
    add_number(alloc, &mut text, "limit", words.limit)?;
    add_number(alloc, &mut text, "blanks", words.blanks)?;
    if let Some(name) = &words.style {
        let one = format!(in alloc; "style={name} ")?;
        text.push_str(one.as_str())?;
    }
    if let Some(cost) = words.cost {
        text.push_str(cost_word(cost))?;
    }
    if let Some(columns) = words.columns {
        text.push_str(columns_word(columns))?;
    }
    add_number(alloc, &mut text, "jobs", Some(words.jobs))?;
    add_number(alloc, &mut text, "sample", words.sample)?;
    text.push_str(mode_word(words.mode))?;
    Ok(text)
}

fn add_number(
    alloc: Global,
    text: &mut String,
    name: &str,
    number: Option<u32>,
) -> Result<(), AllocError> {
    if let Some(number) = number {
        let one = format!(in alloc; "{name}={number} ")?;
        text.push_str(one.as_str())?;
    }
    Ok(())
}

fn cost_word(cost: CostKind) -> &'static str {
    match cost {
        CostKind::Squares => "squares ",
        CostKind::Linear => "linear ",
        CostKind::Lines => "lines ",
    }
}

fn columns_word(columns: Columns) -> &'static str {
    match columns {
        Columns::Characters => "characters ",
        Columns::Display => "display ",
    }
}

fn mode_word(mode: Mode) -> &'static str {
    match mode {
        Mode::Plain => "plain",
        Mode::Check => "check",
        Mode::Choices => "choices",
        Mode::Summary => "summary",
    }
}
