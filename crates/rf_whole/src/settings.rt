//! What stays the same while a file is laid out.

ghost use Rattle.std.specs.Prelude.{◌≤◌};
ghost use Rattle.rf_base_style.specs.Table.{IsStyle};
ghost use Rattle.rf_base_style.specs.Props.{IsStyle-prop};
ghost use Rattle.rf_style.specs.StyleOf.{seen};

use rf_style::Style;
use std::alloc::Global;

/// What stays the same while a file is laid out. With a tree it makes a `Task`.
#[derive(Drop)]
pub struct Setting<'s, R, F, G> {
    /// What starts threads.
    pub rt: &'s R,
    /// Where memory comes from.
    pub alloc: Global,
    /// The style of the documents.
    pub style: &'s Style,
    /// How layouts cost.
    pub factory: &'s F,
    /// The computation width in columns, from 1 to 400.
    pub limit: u32,
    /// How many jobs lay out the slots of a tree, at most, from 1 to 64.
    pub jobs: u32,
    /// What each job enters first.
    pub gate: &'s G,
    ghost is_style: { IsStyle (seen style.now) } by { IsStyle-prop (seen style.now) },
    ghost some_width: { 1 ≤ limit },
    ghost width: { limit ≤ 400 },
    ghost some_job: { 1 ≤ jobs },
    ghost few_jobs: { jobs ≤ 64 },
}
