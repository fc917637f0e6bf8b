//! A layout as it is written.

use crate::breaks::push_break;
use rf_walk::{Extent, LayoutError, Paper};
use std::alloc::Global;

/// What is written of a layout.
#[derive(Drop)]
pub struct Page {
    /// The characters.
    pub text: String,
    /// How many they are, and the column after the last.
    pub extent: Extent,
}

impl Page {
    ghost use Rattle.std.specs.Prelude.{[]};
    ghost use Rattle.rf_render.specs.Pages.{Shows};

    /// Nothing, at column 0.
    pub fn blank(alloc: Global) -> Page
        ensures { Shows result [] 0 }
    {
        Page {
            text: String::new(alloc),
            extent: Extent::none(),
        }
    }
}

impl Paper for Page {
    ghost use Rattle.rf_render.specs.Pages.{Shows, shows_within};

    ghost holds = { λ _. Shows };

    ghost within = { λ _. shows_within };

    fn column(&self) -> u32 {
        self.extent.column()
    }

    fn line(&mut self, s: &str, len: u32, words: u32) -> Result<(), LayoutError> {
        self.extent.line(s, len, words)?;
        self.text.push_str(s)?;
        Ok(())
    }

    fn line_break(&mut self, indentation: u32) -> Result<(), LayoutError> {
        self.extent.line_break(indentation)?;
        push_break(&mut self.text, indentation)?;
        Ok(())
    }

    fn fee(&mut self, k: u32) {
        self.extent.fee(k);
    }

    fn choice(&mut self) -> Result<(), LayoutError> {
        self.extent.choice()?;
        Ok(())
    }
}
