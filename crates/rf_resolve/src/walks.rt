//! What the walk that takes the choices has come to.

ghost use Rattle.std.specs.Prelude.{◌<◌, ◌≤◌, ◌+◌, length, OnOk, IfOk, IsErrOf};
ghost use Rattle.rf_resolve.specs.Walk.{StartsAt, IsWeighed, Passes, GoesTo, TakesSide, TakesAll, at_most_past};
ghost use Rattle.rf_frontier.specs.Ways.{choices_of};

use crate::faults::ResolveError;
use rf_base_document::LAYOUT_LIMIT;
use rf_flat::Dir;
use rf_frontier::{Hows, Measure};
use std::alloc::{AllocError, Global};

// A node that is still to be walked over, at the column that the nodes before it leave. A column or an indentation past
// the computation width is kept as the width and 1: what is chosen there is the same.
#[derive(Clone, Copy)]
pub struct Frame {
    pub node: usize,
    pub indentation: u32,
}

// What the walk has come to.
#[derive(Drop)]
pub struct Walk {
    // The choices so far.
    pub choices: Vec<Dir>,
    // The column that they end at.
    pub column: u32,
    // How many texts, line breaks and choices they are known to have.
    pub weight: u32,
    // What is still to be walked over, the next one last.
    pub pending: Vec<Frame>,
}

impl Walk {
    /// A walk that is still to begin with this node at column 0 and indentation 0.
    pub fn at_root(alloc: Global, root: usize) -> Result<Walk, AllocError>
        ensures { IfOk result (λ walk. StartsAt root walk) }
    {
        let mut pending = Vec::new(alloc);
        pending.push(Frame {
            node: root,
            indentation: 0,
        })?;
        Ok(Walk {
            choices: Vec::new(alloc),
            column: 0,
            weight: 0,
            pending,
        })
    }

    /// Goes past a text of `len` columns.
    pub fn text(&mut self, limit: u32, len: u32) -> Result<(), ResolveError>
        requires light { self.old.weight ≤ LAYOUT_LIMIT }
        requires near { self.old.column ≤ limit + 1 }
        requires width { limit ≤ 400 }
        ensures passed { OnOk result (Passes self.old (at_most_past limit (self.old.column + len)) self.new) }
        ensures too_long { IsErrOf result ResolveError.TooLong → LAYOUT_LIMIT < self.old.weight + 1 }
    {
        self.weigh()?;
        self.column = self.column.saturating_add(len).min(limit + 1);
        Ok(())
    }

    /// Goes past a line break to an indentation.
    pub fn newline(&mut self, indentation: u32) -> Result<(), ResolveError>
        requires light { self.old.weight ≤ LAYOUT_LIMIT }
        ensures passed { OnOk result (Passes self.old indentation self.new) }
        ensures too_long { IsErrOf result ResolveError.TooLong → LAYOUT_LIMIT < self.old.weight + 1 }
    {
        self.weigh()?;
        self.column = indentation;
        Ok(())
    }

    /// Goes on with a node at an indentation.
    pub fn on(&mut self, node: usize, indentation: u32) -> Result<(), ResolveError>
        ensures gone { OnOk result (GoesTo self.old node indentation self.new) }
        ensures too_long { IsErrOf result ResolveError.TooLong → ⊥ }
    {
        self.pending.push(Frame { node, indentation })?;
        Ok(())
    }

    /// Takes a direction, and goes on with the side at an indentation.
    pub fn side(&mut self, dir: Dir, node: usize, indentation: u32) -> Result<(), ResolveError>
        requires light { self.old.weight ≤ LAYOUT_LIMIT }
        ensures taken { OnOk result (TakesSide self.old dir node indentation self.new) }
        ensures too_long { IsErrOf result ResolveError.TooLong → LAYOUT_LIMIT < self.old.weight + 1 }
    {
        self.weigh()?;
        self.choices.push(dir)?;
        self.on(node, indentation)
    }

    /// Takes the choices of a measure, and ends where it ends.
    pub fn take<C: Copy>(
        &mut self,
        alloc: Global,
        hows: &Hows,
        m: Measure<C>,
    ) -> Result<(), ResolveError>
        requires light { self.old.weight ≤ LAYOUT_LIMIT }
        requires belongs { m.how.0 < length hows.now }
        ensures taken { OnOk result (TakesAll self.old (choices_of hows.now m.how.0) m.last self.new) }
        ensures too_long { IsErrOf result ResolveError.TooLong
            → LAYOUT_LIMIT < self.old.weight + length (choices_of hows.now m.how.0) }
    {
        let so_far = self.choices.len();
        let room = (LAYOUT_LIMIT - self.weight) as usize;
        if !hows.unfold(alloc, m.how, &mut self.choices, so_far + room)? {
            return Err(ResolveError::TooLong);
        }
        self.weight += (self.choices.len() - so_far) as u32;
        self.column = m.last;
        Ok(())
    }

    // Counts a text, a line break or a choice.
    fn weigh(&mut self) -> Result<(), ResolveError>
        requires { self.old.weight ≤ LAYOUT_LIMIT }
        ensures weighed { OnOk result (IsWeighed self.old self.new) }
        ensures too_long { IsErrOf result ResolveError.TooLong → LAYOUT_LIMIT < self.old.weight + 1 }
    {
        if self.weight >= LAYOUT_LIMIT {
            return Err(ResolveError::TooLong);
        }
        self.weight += 1;
        Ok(())
    }
}
