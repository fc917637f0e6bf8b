//! The resolver, called with a factory and a limit.

ghost use Rattle.std.specs.Prelude.{◌≤◌};

use crate::counting::Count;
use rf_cost::{CostKind, Linear, Lines, Squares};
use rf_documents::resolve_by;
use rf_flat::Core;
use rf_resolve::{Resolution, ResolveError};
use std::alloc::Global;

/// What is chosen of a core.
pub fn resolved(alloc: Global, core: &Core, count: Count) -> Result<Resolution<u128>, ResolveError>
    requires some_width { 1 ≤ count.limit }
    requires width { count.limit ≤ 400 }
{
    let width = count.page_width;
    let limit = count.limit;
    match count.kind {
        CostKind::Squares => resolve_by(alloc, core, &Squares { width }, limit),
        CostKind::Linear => resolve_by(alloc, core, &Linear { width }, limit),
        CostKind::Lines => resolve_by(alloc, core, &Lines, limit),
    }
}
