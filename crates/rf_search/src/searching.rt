//! The search from a document's beginning.

ghost use Rattle.std.specs.Prelude.{◌<◌, ◌≤◌, ◌^◌, length, IfOk, IfSome};
ghost use Rattle.rf_base_document.specs.Document.{Doc};
ghost use Rattle.rf_base_document.specs.Graph.{StandsFor};
ghost use Rattle.rf_base_optimum.specs.MostPieces.{most_pieces};
ghost use Rattle.rf_search.specs.Best.{IsBest};
ghost use Rattle.rf_rows.specs.Alone.{StandsAlone};
ghost use Rattle.rf_search.specs.Holding.{Holds, IsBegun};
ghost use Rattle.rf_search.specs.Parting.{HasOwnRoom, IsBestOf};
ghost use Rattle.rf_search.specs.Sought.{task};

use crate::faults::Stop;
use crate::parting::best;
use crate::sought::{Found, Setting, Sought};
use rf_base_document::Dir;
use rf_base_steps::Steps;
use rf_cost::Factory;
use rf_doc::{Graph, NodeId};
use rf_frontier::{Before, Hows, Kept};
use rf_outline::{Documents, Known, Outlined, outline};
use rf_rows::{KnownCell, LaidRows, Node, ToldRows, know_cells};
use std::alloc::{AllocError, Global};
use std::sync::ledger::Ledger;

/// The best layout of a document.
#[derive(Debug, Drop)]
pub struct Best {
    /// The choices that pick its resolution, in the order in which they are reached.
    pub choices: Vec<Dir>,
    /// Whether some resolution is within the computation width. Then this one is too, and none that is costs less.
    pub within: bool,
}

/// What one search after another uses: each search puts its own in place of what the one before left there, and keeps
/// the room that this took.
#[derive(Drop)]
pub struct Workspace<C: Copy> {
    known: Vec<Known>,
    cells: Vec<KnownCell>,
    found: Found<C>,
}

impl<C: Copy> Workspace<C> {
    /// Nothing. It takes no memory.
    pub fn new(alloc: Global) -> Workspace<C> {
        Workspace {
            known: Vec::new(alloc),
            cells: Vec::new(alloc),
            found: Found {
                hows: Hows::new(alloc),
                newest: Vec::new(alloc),
                rows: Vec::new(alloc),
                several: Kept::none(),
            },
        }
    }
}

/// What is chosen of a document at column 0 and indentation 0: where some layout is within `limit` columns, from 1 to
/// 400, one of those that cost least, and otherwise the same part by part. What stands in the workspace before is
/// nothing to it.
///
/// `None` says nothing of the document: the factory doesn't say which texts cost nothing, or the document is deeper
/// than 2,800 nodes, or no resolution of it has a layout. An `AllocError` comes for want of memory.
pub fn search<F: Factory, L: Ledger>(
    alloc: Global,
    graph: &Graph,
    root: NodeId,
    factory: &F,
    limit: u32,
    workspace: &mut Workspace<F::Cost>,
    steps: &mut Steps<L>,
) -> Result<Option<Best>, AllocError>
    requires root { root.0 < length graph.now }
    requires pieces { (d : Doc) → StandsFor graph.now root.0 d → most_pieces d < 2 ^ 32 }
    requires narrow { limit ≤ 400 }
    ensures { IfOk result (λ answer. IfSome answer (λ best. (d : Doc) → StandsFor graph.now root.0 d
        → IsBest (F.costs factory.now) limit d best.choices.items best.within)) }
{
    let Some(free) = factory.free_up_to(limit) else {
        return Ok(None);
    };
    let Workspace { known, found, .. } = workspace;
    let sought = begin(found, graph.len(), limit, free)?;
    outline(graph, &mut found.hows, known)?;
    let documents = &Outlined {
        graph,
        known: known.as_slice(),
    };
    let setting = Setting {
        alloc,
        documents,
        sought,
        factory,
    };
    search_told(&setting, root, found, steps)
}

/// What is chosen likewise, within `limit` columns, from 1 to 400, of the document that stands alone on the stack of
/// these rows, whatever fills its gaps. What stands in the workspace before is nothing to it.
///
/// `None` says nothing of the document, for the reasons that `search` has, or since it isn't one cell that stands
/// there. An `AllocError` comes for want of memory.
pub fn search_rows<F: Factory, L: Ledger>(
    alloc: Global,
    laid: &LaidRows,
    factory: &F,
    limit: u32,
    workspace: &mut Workspace<F::Cost>,
    steps: &mut Steps<L>,
) -> Result<Option<Best>, AllocError>
    requires pieces { (d : Doc) → StandsAlone laid.now.rows.now d → most_pieces d < 2 ^ 32 }
    requires narrow { limit ≤ 400 }
    ensures { IfOk result (λ answer. IfSome answer (λ best. (d : Doc) → StandsAlone laid.now.rows.now d
        → IsBest (F.costs factory.now) limit d best.choices.items best.within)) }
{
    let Some(free) = factory.free_up_to(limit) else {
        return Ok(None);
    };
    let Some(cell) = laid.top() else {
        return Ok(None);
    };
    let Workspace { cells, found, .. } = workspace;
    let sought = begin(found, laid.numbers(), limit, free)?;
    know_cells(laid, &mut found.hows, cells)?;
    let documents = &ToldRows {
        laid: *laid,
        known: cells.as_slice(),
    };
    let setting = Setting {
        alloc,
        documents,
        sought,
        factory,
    };
    search_told(&setting, Node::Cell(cell), found, steps)
}

// What is sought within `limit` columns, where texts up to column `free` cost nothing. What was found before is taken
// away, and there is room for nodes of so many numbers.
fn begin<C: Copy>(
    found: &mut Found<C>,
    numbers: usize,
    limit: u32,
    free: u32,
) -> Result<Sought, AllocError>
    ensures { IfOk result (λ sought. IsBegun limit free sought found.new) }
{
    found.restart(numbers)?;
    let none = found.hows.first();
    let left = found.hows.behind(Before::Choice(Dir::Left), none)?;
    let right = found.hows.behind(Before::Choice(Dir::Right), none)?;
    Ok(Sought {
        limit,
        free,
        left,
        right,
    })
}

// So many choices take no more memory. Most forms have fewer.
const CHOICES: usize = 64;

// What is chosen of a node of documents that are told node by node.
fn search_told<D: Documents, F: Factory, L: Ledger>(
    setting: &Setting<D, F>,
    root: D::Node,
    found: &mut Found<F::Cost>,
    steps: &mut Steps<L>,
) -> Result<Option<Best>, AllocError>
    requires holds { Holds (task setting.now) found.old }
    requires room { HasOwnRoom (task setting.now) root }
    ensures { IfOk result (λ answer. IfSome answer (λ best.
        IsBestOf (task setting.now) root best.choices.items best.within)) }
{
    let mut choices = Vec::with_capacity(setting.alloc, CHOICES)?;
    match best(setting, root, found, &mut choices, steps) {
        Ok(Some(within)) => Ok(Some(Best { choices, within })),
        Ok(None) => Ok(None),
        Err(Stop::Unsure) => Ok(None),
        Err(Stop::Memory(error)) => Err(error),
    }
}
