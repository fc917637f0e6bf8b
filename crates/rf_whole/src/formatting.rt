//! A whole file.

ghost use Rattle.std.specs.Prelude.{ℕ, ◌≤◌, List, IfOk, IsErrOf};
ghost use Rattle.rf_base_grammar.specs.Token.{Token};
ghost use Rattle.rf_base_style.specs.Table.{IsStyle};
ghost use Rattle.rf_base_tree.specs.Trees.{Forest};
ghost use Rattle.rf_base_file.specs.ByForms.{top_slots};
ghost use Rattle.rf_style.specs.StyleOf.{seen};
ghost use Rattle.rf_tree.specs.Stretches.{IsStretch};
ghost use Rattle.rf_whole.specs.Groups.{HasTops};
ghost use Rattle.rf_joins.specs.Paragraphs.{slots_paragraphs};
ghost use Rattle.rf_whole.specs.Laid.{AreLinesOf};
ghost use Rattle.rf_whole.specs.Lines.{ArePastLimit};
ghost use Rattle.rf_whole.specs.Whole.{IsSettled, sought, layout_of, IsWhole, IsWholeLong};

use crate::faults::FormatError;
use crate::jobs::jobs_lines;
use crate::lines::Lines;
use crate::settings::Setting;
use crate::tasks::Drawer;
use rf_cost::Factory;
use rf_edges::Gate;
use rf_flat::Dir;
use rf_style::Style;
use rf_tree::{Stretch, Tree, tops_in};
use std::alloc::Global;
use std::thread::Threads;

/// A file's layout, and what is told of it.
#[derive(Debug, Drop)]
pub struct Formatted<C> {
    /// The layout.
    pub text: String,
    /// The choices, in the order in which they are reached.
    pub choices: Vec<Dir>,
    /// What the layout costs.
    pub cost: C,
    /// Whether some layout of the file is within the computation width. Then this one is too, and none that is
    /// costs less.
    pub within: bool,
}

/// The layout of a file in a style, chosen by this factory within `limit` columns, from 1 to 400. The tree is that
/// of the items as the style keeps them.
///
/// The top-level slots are cut into at most `jobs` neighbouring groups, from 1 to 64, which are of one size but for
/// the last. Each group is a job, which first enters the gate with its number from 0. The answer is the same for
/// every number of jobs and every gate.
///
/// `TooLong` comes exactly where the layout has more than 67,108,864 characters, or its resolution more texts, line
/// breaks and choices than that; `Memory` for want of memory.
pub fn format<R: Threads + Sync, F: Factory + Sync, G: Gate + Sync>(
    rt: &R,
    alloc: Global,
    tree: &Tree,
    style: &Style,
    factory: &F,
    limit: u32,
    jobs: u32,
    gate: &G,
) -> Result<Formatted<F::Cost>, FormatError>
where
    F::Cost: Send,
    requires tree { (source : List ℕ) × (ts : List Token) × (trees : Forest)
        × IsSettled (seen style.now) tree.now source ts trees }
    requires style { IsStyle (seen style.now) }
    requires some_width { 1 ≤ limit }
    requires width { limit ≤ 400 }
    requires some_job { 1 ≤ jobs }
    requires few_jobs { jobs ≤ 64 }
    ensures whole { IfOk result (λ made. (source : List ℕ) (ts : List Token) (trees : Forest)
        → IsSettled (seen style.now) tree.now source ts trees
        → IsWhole (sought (F.costs factory.now) limit) (seen style.now) ts trees (layout_of made)) }
    ensures too_long { IsErrOf result FormatError.TooLong → (source : List ℕ) (ts : List Token) (trees : Forest)
        → IsSettled (seen style.now) tree.now source ts trees
        → IsWholeLong (sought (F.costs factory.now) limit) (seen style.now) ts trees }
{
    let setting = Setting {
        rt,
        alloc,
        style,
        factory,
        limit,
        jobs,
        gate,
    };
    let lines = tops_lines(&setting, tree, 0, &mut Drawer::new(alloc))?;
    Ok(Formatted {
        text: lines.text,
        choices: lines.choices,
        cost: lines.cost,
        within: lines.within,
    })
}

/// The layouts of the top-level slots that the tree has, with so many blank lines behind the last, as `format` says.
/// One job uses the drawer.
pub fn tops_lines<R: Threads + Sync, F: Factory + Sync, G: Gate + Sync>(
    setting: &Setting<R, F, G>,
    tree: &Tree,
    behind: u32,
    drawer: &mut Drawer<F::Cost>,
) -> Result<Lines<F::Cost>, FormatError>
where
    F::Cost: Send,
    requires tops { (ts : List Token) × (trees : Forest) × HasTops (seen setting.now.style.now) tree.now ts trees }
    ensures lines { IfOk result (λ lines. (ts : List Token) (trees : Forest)
        → HasTops (seen setting.now.style.now) tree.now ts trees
        → AreLinesOf (F.costs setting.now.factory.now) setting.now.limit
        (slots_paragraphs (seen setting.now.style.now) ts behind (top_slots ts trees)) lines) }
    ensures too_long { IsErrOf result FormatError.TooLong → (ts : List Token) (trees : Forest)
        → HasTops (seen setting.now.style.now) tree.now ts trees
        → ArePastLimit (F.costs setting.now.factory.now) setting.now.limit
        (slots_paragraphs (seen setting.now.style.now) ts behind (top_slots ts trees)) }
{
    let slots = Stretch::all(tops_in(tree));
    let size = group_size(slots, setting.jobs);
    jobs_lines(setting, tree, slots, behind, size, 0, setting.jobs, drawer)
}

// How many of the slots each group has but the last, in so many groups. The slots of one group aren't counted.
fn group_size(slots: Stretch<'_>, jobs: u32) -> usize
    requires cursor { IsStretch slots }
    requires some { 1 ≤ jobs }
{
    if jobs == 1 {
        return usize::MAX;
    }
    slots.count().div_ceil(jobs as usize)
}
