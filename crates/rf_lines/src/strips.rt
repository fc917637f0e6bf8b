//! Strips: what stands on one line of a source, item by item.

ghost use Rattle.std.specs.Prelude.{◌≡◌, ◌+◌, ◌≤◌, ◌++◌, length, IfOk, OnOk};
ghost use Rattle.rf_base_grammar.specs.declared.TheConstants.{SOURCE_LIMIT};
ghost use Rattle.rf_lines.specs.Written.{stretch_at, IsLonger, AddsSpace, turned};

use crate::faults::Stop;
use rf_base_document::Dir;
use std::alloc::{AllocError, Global};
use std::marker::Model;

/// A stretch of a source that stands on one line as it is to be written, the choices that give it, those that give it
/// where all is flat, how many columns it takes up, and how many texts it is put together from.
#[derive(Drop)]
pub struct Strip {
    from: u32,
    to: u32,
    columns: u32,
    words: u32,
    choices: Vec<Dir>,
    flat_choices: Vec<Dir>,
}

impl Model for Strip {
    ghost use Rattle.rf_lines.specs.Written.{Stretch, stretch};

    ghost Value = { Stretch };

    ghost view = { λ s. stretch s.from s.to s.columns s.choices.items s.flat_choices.items s.words };
}

impl Strip {
    /// An empty one at the source's start. This takes no memory.
    pub fn new(alloc: Global) -> Strip
        ensures { result ≡ stretch_at 0 }
    {
        Strip {
            from: 0,
            to: 0,
            columns: 0,
            words: 0,
            choices: Vec::new(alloc),
            flat_choices: Vec::new(alloc),
        }
    }

    /// Takes away what it holds, goes to this byte, and keeps its room. This takes no memory.
    pub fn begin(&mut self, at: u32)
        ensures { self.new ≡ stretch_at at }
    {
        self.from = at;
        self.to = at;
        self.columns = 0;
        self.words = 0;
        self.choices.clear();
        self.flat_choices.clear();
    }

    /// Its first byte.
    pub fn from(&self) -> u32
        ensures { result ≡ self.now.from }
    {
        self.from
    }

    /// The byte behind its last one.
    pub fn to(&self) -> u32
        ensures { result ≡ self.now.to }
    {
        self.to
    }

    /// The choices that give it, in order.
    pub fn choices(&self) -> &[Dir]
        ensures { result.now ≡ self.now.how }
    {
        &self.choices
    }

    /// The choices that give it where all is flat, in order.
    pub fn flat_choices(&self) -> &[Dir]
        ensures { result.now ≡ self.now.flat_how }
    {
        &self.flat_choices
    }

    /// How many columns it takes up.
    pub fn columns(&self) -> u32
        ensures { result ≡ self.now.len }
    {
        self.columns
    }

    /// How many texts it is put together from.
    pub fn words(&self) -> u32
        ensures { result ≡ self.now.words }
    {
        self.words
    }

    /// Adds a text of so many columns, from the first of these bytes to the second, where it begins at the strip's end,
    /// and the strip then has at most `most` columns.
    pub fn add(&mut self, start: u32, end: u32, columns: u32, most: u32) -> Result<(), Stop>
        ensures { OnOk result (IsLonger self.old self.new start end columns) }
    {
        if start != self.to {
            return Err(Stop::Unfit);
        }
        let columns = sum_within(self.columns, columns, most)?;
        let words = sum_within(self.words, 1, u32::MAX)?;
        self.to = end;
        self.columns = columns;
        self.words = words;
        Ok(())
    }

    /// Adds the space that stands at the strip's end in this source, where the strip then has at most `most` columns.
    pub fn add_space(&mut self, src: &str, most: u32) -> Result<(), Stop>
        requires { length src.now ≤ SOURCE_LIMIT }
        ensures { OnOk result (AddsSpace src.now self.old self.new) }
    {
        let at = self.to;
        match src.as_bytes().get(at as usize) {
            Some(byte) if *byte == b' ' => self.add(at, at + 1, 1, most),
            _ => Err(Stop::Unfit),
        }
    }

    /// Adds choices to those that it has, and to those where all is flat.
    pub fn turn(&mut self, dirs: &[Dir], flat_dirs: &[Dir]) -> Result<(), AllocError>
        ensures { OnOk result (self.new ≡ turned self.old dirs.now flat_dirs.now) }
    {
        push_each(&mut self.choices, dirs)?;
        push_each(&mut self.flat_choices, flat_dirs)
    }
}

// Adds choices, which are few, one by one.
#[inline(always)]
fn push_each(choices: &mut Vec<Dir>, dirs: &[Dir]) -> Result<(), AllocError>
    ensures { OnOk result (choices.new.items ≡ choices.old.items ++ dirs.now) }
{
    for dir in dirs {
        choices.push(*dir)?;
    }
    Ok(())
}

// The sum, where it is at most `most`.
fn sum_within(a: u32, b: u32, most: u32) -> Result<u32, Stop>
    ensures { IfOk result (λ sum. sum ≡ a + b) }
{
    match a.checked_add(b) {
        Some(sum) if sum <= most => Ok(sum),
        _ => Err(Stop::Unfit),
    }
}
