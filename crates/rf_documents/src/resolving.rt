//! The resolver, called with a counter of steps that nobody reads.

ghost use Rattle.std.specs.Prelude.{◌≡◌, ◌<◌, ◌≤◌};

use rf_base_steps::Steps;
use rf_cost::Factory;
use rf_flat::Core;
use rf_resolve::{Resolution, ResolveError, resolve};
use std::alloc::Global;
use std::marker::Brand;
use std::sync::ledger::{Blank, Ledger};

/// What is chosen of a core by a factory.
pub fn resolve_by<F: Factory>(
    alloc: Global,
    core: &Core,
    factory: &F,
    limit: u32,
) -> Result<Resolution<F::Cost>, ResolveError>
    requires some_width { 1 ≤ limit }
    requires width { limit ≤ 400 }
{
    counted::<Brand, F>(alloc, core, factory, limit, Blank::new(1))
}

// The same, counted on a new counter.
fn counted<L: Ledger, F: Factory>(
    alloc: Global,
    core: &Core,
    factory: &F,
    limit: u32,
    blank: Blank,
) -> Result<Resolution<F::Cost>, ResolveError>
    requires some_width { 1 ≤ limit }
    requires width { limit ≤ 400 }
    requires name { blank.name ≡ L.name }
    requires parts { blank.parts ≡ L.parts }
    requires some_part { 0 < blank.parts }
{
    let mut steps: Steps<L> = Steps::new(blank);
    resolve(alloc, core, factory, limit, &mut steps)
}
