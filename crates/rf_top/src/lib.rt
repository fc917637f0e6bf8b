//! The program: `run` and what it is made of.
#![tactic(auto)]

mod answering;
mod asking;
mod formatting;
mod limits;
mod listing;
mod program;
mod status;
mod stops;
mod surely;
mod telling;

ghost use Rattle.rf_top.specs.Laws.{LayoutsGiveThemselves};

pub use limits::STYLE_LIMIT;
pub use program::run;
pub use status::Status;
pub use stops::Stop;
pub use surely::run_surely;
pub use telling::end;

/// What a run writes without a flag, given again to the same words and the same style file, is its own answer, where it
/// is short enough for a source.
pub fn layouts_give_themselves()
    ensures { LayoutsGiveThemselves }
{}
