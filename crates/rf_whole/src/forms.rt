//! A form by itself: the layout of one top-level slot.

ghost use Rattle.std.specs.Prelude.{◌≡◌, ◌≤◌, ◌<◌, ◌↔◌, true, false, None, Ok, IfOk, OnOk, IsErrOf, IsTrue};
ghost use Rattle.rf_base_document.specs.Document.{Doc, IsDocument};
ghost use Rattle.rf_base_document.specs.Picks.{Picks, HasLayout};
ghost use Rattle.rf_base_document.specs.TooLong.{IsTooLong};
ghost use Rattle.rf_base_document.specs.Graph.{StandsFor};
ghost use Rattle.rf_base_optimum.specs.Best.{HasWithin};
ghost use Rattle.rf_base_optimum.specs.Chosen.{choose};
ghost use Rattle.rf_base_file.specs.FileDocument.{style_doc as slot_document};
ghost use Rattle.rf_style.specs.StyleOf.{seen};
ghost use Rattle.rf_ways.specs.Holds.{OfSlot};
ghost use Rattle.rf_ways.specs.Tops.{IsTop};
ghost use Rattle.rf_rows.specs.Alone.{StandsAlone};
ghost use Rattle.rf_whole.specs.Forms.{IsLongForm};
ghost use Rattle.rf_whole.specs.Groups.{HasFewPieces};
ghost use Rattle.rf_whole.specs.Laid.{IsFormOf};

use crate::faults::FormatError;
use crate::leads::leads_form;
use crate::one_line::one_line_form;
use crate::rows::rows_form;
use crate::sheets::write_core;
use crate::tasks::{Desk, Task};
use rf_base_steps::Steps;
use rf_cost::Factory;
use rf_doc::{Graph, NodeId};
use rf_flat::{Core, Dir, simplify};
use rf_resolve::{Resolution, ResolveError, resolve};
use rf_row_graph::add_rows;
use rf_rows::Rows;
use rf_slot_rows::slot_rows;
use rf_tree::Slot;
use std::alloc::Global;
use std::marker::Brand;
use std::mem;
use std::sync::ledger::{Blank, Ledger};

/// A form's layout, and what is told of it.
#[derive(Debug, Drop)]
pub struct Form<C> {
    /// The choices, in the order in which they are reached.
    pub choices: Vec<Dir>,
    /// The layout.
    pub text: String,
    /// What the layout costs.
    pub cost: C,
    /// Whether some layout of the form is within the computation width.
    pub within: bool,
    /// How many texts, line breaks and choices its resolution has.
    pub weight: u32,
}

/// A form without a text, in whose place others are put. It takes no memory.
pub fn no_form<F: Factory>(alloc: Global, factory: &F) -> Form<F::Cost> {
    Form {
        choices: Vec::new(alloc),
        text: String::new(alloc),
        cost: factory.text(0, 0),
        within: true,
        weight: 0,
    }
}

/// Puts the layout of a top-level slot by itself, chosen within the task's columns, in place of the form's, and takes
/// the room of the older one.
///
/// `TooLong` comes exactly where its layout has more than 67,108,864 characters, or its resolution more texts, line
/// breaks and choices than that; `Memory` for want of memory. What the form is then has no meaning.
pub fn lay_form<'t, F: Factory>(
    task: &Task<'t, F>,
    slot: &Slot,
    desk: &mut Desk<'t, F::Cost>,
    form: &mut Form<F::Cost>,
) -> Result<(), FormatError>
    requires top { IsTop task.now.tree.now slot.now }
    requires pieces { HasFewPieces (seen task.now.style.now) task.now.tree.now slot.now }
    ensures form { OnOk result (OfSlot task.now.tree.now slot.now (λ ts s.
        IsDocument (slot_document (seen task.now.style.now) ts s) → IsFormOf (F.costs task.now.factory.now)
        task.now.limit (slot_document (seen task.now.style.now) ts s) form.new)) }
    ensures too_long { IsErrOf result FormatError.TooLong → OfSlot task.now.tree.now slot.now (λ ts s.
        IsLongForm (F.costs task.now.factory.now) task.now.limit (slot_document (seen task.now.style.now) ts s)) }
{
    if one_line_form(task, slot, &mut desk.page, form)? {
        return Ok(());
    }
    if leads_form(task, slot, &mut desk.rows, form)? {
        return Ok(());
    }
    document_form(task, slot, desk, form)
}

// The same by the slot's document.
fn document_form<'t, F: Factory>(
    task: &Task<'t, F>,
    slot: &Slot,
    desk: &mut Desk<'t, F::Cost>,
    form: &mut Form<F::Cost>,
) -> Result<(), FormatError>
    requires top { IsTop task.now.tree.now slot.now }
    requires pieces { HasFewPieces (seen task.now.style.now) task.now.tree.now slot.now }
    ensures form { OnOk result (OfSlot task.now.tree.now slot.now (λ ts s. IsFormOf (F.costs task.now.factory.now)
        task.now.limit (slot_document (seen task.now.style.now) ts s) form.new)) }
    ensures too_long { IsErrOf result FormatError.TooLong → OfSlot task.now.tree.now slot.now (λ ts s.
        IsLongForm (F.costs task.now.factory.now) task.now.limit (slot_document (seen task.now.style.now) ts s)) }
{
    let free = task.factory.free_up_to(task.limit);
    if free.is_some() && searched_form(task, slot, free, desk, form)? {
        return Ok(());
    }
    if searched_form(task, slot, None, desk, form)? {
        return Ok(());
    }
    core_form(task, &desk.rows, &mut desk.drawer.graph, form)
}

// The same by the rows of the slot's document, if the search finds the best layout there: of those in which lists that
// surely end by column `free` may stay unmade, or, without that, of all that is made. The rows are left on the desk.
fn searched_form<'t, F: Factory>(
    task: &Task<'t, F>,
    slot: &Slot,
    free: Option<u32>,
    desk: &mut Desk<'t, F::Cost>,
    form: &mut Form<F::Cost>,
) -> Result<bool, FormatError>
    requires top { IsTop task.now.tree.now slot.now }
    requires pieces { HasFewPieces (seen task.now.style.now) task.now.tree.now slot.now }
    ensures free { OnOk result (desk.new.rows.free ≡ free) }
    ensures alone { OnOk result (OfSlot task.now.tree.now slot.now (λ ts s.
        StandsAlone desk.new.rows (slot_document (seen task.now.style.now) ts s))) }
    ensures form { result ≡ Ok true → OfSlot task.now.tree.now slot.now (λ ts s. IsFormOf
        (F.costs task.now.factory.now) task.now.limit (slot_document (seen task.now.style.now) ts s) form.new) }
    ensures too_long { IsErrOf result FormatError.TooLong → OfSlot task.now.tree.now slot.now (λ ts s.
        IsLongForm (F.costs task.now.factory.now) task.now.limit (slot_document (seen task.now.style.now) ts s)) }
{
    let Desk { rows, drawer, .. } = desk;
    rows.clear(free);
    slot_rows(task.alloc, task.tree, task.style, slot, rows)?;
    rows_form(task, rows, &mut drawer.workspace, form)
}

// The same of the document that stands alone on the stack of rows and has a layout, by its core.
fn core_form<F: Factory>(
    task: &Task<F>,
    rows: &Rows,
    graph: &mut Graph,
    form: &mut Form<F::Cost>,
) -> Result<(), FormatError>
    requires made { rows.now.free ≡ None }
    requires document { (d : Doc) × StandsAlone rows.now d × HasLayout d false }
    ensures form { OnOk result ((d : Doc) → StandsAlone rows.now d
        → IsFormOf (F.costs task.now.factory.now) task.now.limit d form.new) }
    ensures too_long { IsErrOf result FormatError.TooLong → (d : Doc) → StandsAlone rows.now d
        → IsLongForm (F.costs task.now.factory.now) task.now.limit d }
{
    graph.clear();
    let root = add_rows(task.alloc, rows, graph)?;
    plain_form(task.alloc, graph, root, task.factory, task.limit, form)
}

// The same of a document of a graph that has a layout.
fn plain_form<F: Factory>(
    alloc: Global,
    graph: &Graph,
    root: NodeId,
    factory: &F,
    limit: u32,
    form: &mut Form<F::Cost>,
) -> Result<(), FormatError>
    requires document { (d : Doc) × StandsFor graph.now root.0 d × HasLayout d false }
    requires some_width { 1 ≤ limit }
    requires width { limit ≤ 400 }
    ensures form { OnOk result ((d : Doc) → StandsFor graph.now root.0 d
        → IsFormOf (F.costs factory.now) limit d form.new) }
    ensures too_long { IsErrOf result FormatError.TooLong → (d : Doc) → StandsFor graph.now root.0 d
        → IsLongForm (F.costs factory.now) limit d }
{
    let Some(core) = simplify(alloc, graph, root)? else {
        // The document has a layout.
        unreachable!()
    };
    // So the core is known to be a graph.
    prove!(core.root() < core.len());
    let found = resolved::<F, Brand>(alloc, &core, factory, limit, Blank::new(1))?;
    let room = mem::replace(&mut form.text, String::new(alloc));
    let written = write_core(alloc, &core, &found.choices, factory, room)?;
    *form = Form {
        choices: found.choices,
        text: written.text,
        cost: written.cost,
        within: found.within,
        weight: written.weight,
    };
    Ok(())
}

// The chosen resolution of a core, counted on a new counter. Who counts no steps gives `Blank::new(1)`.
fn resolved<F: Factory, L: Ledger>(
    alloc: Global,
    core: &Core,
    factory: &F,
    limit: u32,
    blank: Blank,
) -> Result<Resolution<F::Cost>, ResolveError>
    requires name { blank.name ≡ L.name }
    requires parts { blank.parts ≡ L.parts }
    requires some_part { 0 < blank.parts }
    requires some_width { 1 ≤ limit }
    requires width { limit ≤ 400 }
    ensures chosen { IfOk result (λ found. (d : Doc) → StandsFor core.now.nodes core.now.root d
        → found.choices.items ≡ (choose (F.costs factory.now) limit d 0 0).choices) }
    ensures within { IfOk result (λ found. (d : Doc) → StandsFor core.now.nodes core.now.root d
        → (IsTrue found.within ↔ HasWithin limit d 0 0 false)) }
    ensures too_long { IsErrOf result ResolveError.TooLong → (d e : Doc) → StandsFor core.now.nodes core.now.root d
        → Picks d (choose (F.costs factory.now) limit d 0 0).choices e
        → IsTooLong e (choose (F.costs factory.now) limit d 0 0).choices }
{
    let mut steps: Steps<L> = Steps::new(blank);
    resolve(alloc, core, factory, limit, &mut steps)
}
