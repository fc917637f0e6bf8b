//! Layouts that choices pick.

use rf_base_document::Dir;
use rf_flat::{Core, fits};
use rf_render::render;
use std::alloc::Global;
use std::test::Fail;

/// The layout that the choices pick: none where they don't fit.
pub fn layout_of(alloc: Global, core: &Core, choices: &[Dir]) -> Result<Option<String>, Fail> {
    // So the core is known to be a graph.
    prove!(core.root() < core.len());
    let fit = fits(alloc, core, choices)?;
    if fit {
        match render(alloc, core, choices) {
            Ok(text) => Ok(Some(text)),
            Err(_) => Err(Fail::new("not rendered")),
        }
    } else {
        Ok(None)
    }
}
