//! What a core is laid out as, and rows of tables.

use rf_cost::Factory;
use rf_flat::{Core, Dir, fits};
use rf_measure::{LayoutError, Total, measure};
use rf_render::{RenderError, render};
use std::alloc::Global;
use std::test::Fail;

/// A row's document, its choices and its answer, with semicolons between.
pub fn parted(row: &str) -> Result<(&str, &str, &str), Fail> {
    let (words, rest) = row.split_once(';').ok_or("a row without choices")?;
    let (letters, wanted) = rest.split_once(';').ok_or("a row without an answer")?;
    Ok((words, letters, wanted))
}

/// Fails where a row's answer isn't what it says.
pub fn compared(alloc: Global, row: &str, answer: &str, wanted: &str) -> Result<(), Fail> {
    if answer != wanted {
        return Err(Fail::new(format!(in alloc; "{row} gives{answer}")?));
    }
    Ok(())
}

/// Whether the layout that the choices pick is too long.
pub fn is_too_long(alloc: Global, core: &Core, choices: &[Dir]) -> Result<bool, Fail> {
    // So the core is known to be a graph.
    prove!(core.root() < core.len());
    let fit = fits(alloc, core, choices)?;
    if fit {
        match render(alloc, core, choices) {
            Err(RenderError::TooLong) => Ok(true),
            _ => Ok(false),
        }
    } else {
        Err(Fail::new("the choices don't fit"))
    }
}

/// What the layout that the choices pick is measured as: none where it is too long.
pub fn measured<F: Factory>(
    alloc: Global,
    core: &Core,
    choices: &[Dir],
    factory: &F,
) -> Result<Option<Total<F::Cost>>, Fail> {
    // So the core is known to be a graph.
    prove!(core.root() < core.len());
    let fit = fits(alloc, core, choices)?;
    if fit {
        match measure(alloc, core, choices, factory) {
            Ok(total) => Ok(Some(total)),
            Err(LayoutError::TooLong) => Ok(None),
            Err(LayoutError::Memory(_)) => Err(Fail::new("out of memory")),
        }
    } else {
        Err(Fail::new("the choices don't fit"))
    }
}
