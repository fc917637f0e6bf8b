//! What the forms of a file are laid out by, and what they use one after another.

ghost use Rattle.std.specs.Prelude.{◌≤◌};
ghost use Rattle.rf_base_style.specs.Table.{IsStyle};
ghost use Rattle.rf_base_style.specs.Props.{IsStyle-prop};
ghost use Rattle.rf_style.specs.StyleOf.{seen};

use rf_cost::Factory;
use rf_doc::Graph;
use rf_lines::Page;
use rf_rows::Rows;
use rf_search::Workspace;
use rf_style::Style;
use rf_tree::Tree;
use std::alloc::{AllocError, Global};

/// What all forms of a file are laid out by.
#[derive(Drop)]
pub struct Task<'t, F: Factory> {
    /// Where memory comes from.
    pub alloc: Global,
    /// The tree of the file.
    pub tree: &'t Tree<'t>,
    /// The style of their documents.
    pub style: &'t Style,
    /// How layouts cost.
    pub factory: &'t F,
    /// The computation width in columns, from 1 to 400.
    pub limit: u32,
    ghost is_style: { IsStyle (seen style.now) } by { IsStyle-prop (seen style.now) },
    ghost some_width: { 1 ≤ limit },
    ghost width: { limit ≤ 400 },
}

/// What one form after another uses: each puts its own in place of what the one before left there, and the room that
/// this took is kept.
#[derive(Drop)]
pub struct Desk<'t, C: Copy> {
    /// What is written on one line of the form.
    pub page: Page<'t>,
    /// The document of the form, as rows of pieces.
    pub rows: Rows<'t>,
    /// What forms of other trees use too.
    pub drawer: Drawer<C>,
}

impl<'t, C: Copy> Desk<'t, C> {
    /// Nothing, with this drawer, and the room for rows that it tells. An `AllocError` comes for want of memory.
    pub fn with_drawer(alloc: Global, drawer: Drawer<C>) -> Result<Desk<'t, C>, AllocError> {
        let mut rows = Rows::new(alloc);
        drawer.rows.make(&mut rows)?;
        Ok(Desk {
            page: Page::new(alloc),
            rows,
            drawer,
        })
    }

    /// Its drawer, with the room of a layout of a form, where the layouts of its forms had so many bytes together.
    pub fn into_drawer(self, text: String, bytes: usize) -> Drawer<C> {
        let rows = RowsRoom::of(&self.rows);
        let mut drawer = self.drawer;
        drawer.text = text;
        drawer.rows = rows;
        drawer.bytes = drawer.bytes.max(bytes);
        drawer
    }
}

/// What one form after another uses likewise, also where they are of several trees.
#[derive(Drop)]
pub struct Drawer<C: Copy> {
    /// The document of the form, where no search answers.
    pub graph: Graph,
    /// What is found while its best layout is sought.
    pub workspace: Workspace<C>,
    /// The room of a layout of a form.
    pub text: String,
    /// How much room the rows of the forms of an older tree took.
    pub rows: RowsRoom,
    /// How many bytes the layouts of such forms had together at most.
    pub bytes: usize,
}

impl<C: Copy> Drawer<C> {
    /// Nothing. It takes no memory.
    pub fn new(alloc: Global) -> Drawer<C> {
        Drawer {
            graph: Graph::new(alloc),
            workspace: Workspace::new(alloc),
            text: String::new(alloc),
            rows: RowsRoom::none(),
            bytes: 0,
        }
    }
}

/// How much room rows take: for so many pieces, cells and pieces on the stack, and so many choices.
#[derive(Clone, Copy, Debug)]
pub struct RowsRoom {
    pieces: usize,
    cells: usize,
    stack: usize,
    turns: usize,
}

impl RowsRoom {
    // None.
    fn none() -> RowsRoom {
        RowsRoom {
            pieces: 0,
            cells: 0,
            stack: 0,
            turns: 0,
        }
    }

    // That of these rows.
    fn of(rows: &Rows) -> RowsRoom {
        RowsRoom {
            pieces: rows.pieces.capacity(),
            cells: rows.cells.capacity(),
            stack: rows.stack.capacity(),
            turns: rows.turns.capacity(),
        }
    }

    // Makes it in rows.
    fn make(&self, rows: &mut Rows) -> Result<(), AllocError> {
        rows.pieces.reserve(self.pieces)?;
        rows.cells.reserve(self.cells)?;
        rows.stack.reserve(self.stack)?;
        rows.turns.reserve(self.turns)?;
        Ok(())
    }
}
