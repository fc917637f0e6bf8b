//! Gaps between neighbours on one line.

ghost use Rattle.std.specs.Prelude.{IfOk, OnOk};
ghost use Rattle.rf_base_tree.specs.declared.separators.Want.TheVariants as want;
ghost use Rattle.rf_base_lines.specs.Lists.{MayBreak};
ghost use Rattle.rf_tree.specs.Kept.{IsTree};
ghost use Rattle.rf_ways.specs.Holds.{OfFile};
ghost use Rattle.rf_lines.specs.Nodes.{WritesGap};
ghost use Rattle.rf_lines.specs.Written.{IsSeparator, spaced, MayStand};

use crate::faults::Stop;
use crate::strips::Strip;
use crate::writer::Writer;
use rf_tree::{Separator, Tree, Want, gap};

/// Writes the gap between two items in which this is wanted; in place of a line one space, where a line may stand.
pub fn write_gap(
    writer: &Writer,
    before: usize,
    next: usize,
    want: Want,
    strip: &mut Strip,
) -> Result<(), Stop>
    requires { IsTree writer.now.tree.now }
    ensures stands { OnOk result (OfFile writer.now.tree.now (λ ts trees. MayStand ts before next want)) }
    ensures written { OnOk result (WritesGap writer.now before next (spaced want) strip.old strip.new) }
{
    match want {
        Want::Line => write_space(writer, before, next, strip),
        Want::Nothing => write_wanted(writer, before, next, Want::Nothing, strip),
        Want::Space => write_wanted(writer, before, next, Want::Space, strip),
        Want::Must => Err(Stop::Unfit),
    }
}

// Writes the gap between two items in which this is wanted.
fn write_wanted(
    writer: &Writer,
    before: usize,
    next: usize,
    want: Want,
    strip: &mut Strip,
) -> Result<(), Stop>
    requires { IsTree writer.now.tree.now }
    ensures { OnOk result (WritesGap writer.now before next want strip.old strip.new) }
{
    match separator(writer.tree, before, next, want)? {
        Separator::Empty => Ok(()),
        Separator::Space => strip.add_space(writer.tree.src, writer.most),
        _ => Err(Stop::Unfit),
    }
}

// Writes one space between two items between which a line may stand.
fn write_space(writer: &Writer, before: usize, next: usize, strip: &mut Strip) -> Result<(), Stop>
    requires { IsTree writer.now.tree.now }
    ensures breaks { OnOk result (OfFile writer.now.tree.now (λ ts trees. MayBreak ts before next)) }
    ensures written { OnOk result (WritesGap writer.now before next want.Space strip.old strip.new) }
{
    match separator(writer.tree, before, next, Want::Line)? {
        Separator::Line => strip.add_space(writer.tree.src, writer.most),
        _ => Err(Stop::Unfit),
    }
}

// What stands between the two items, if both are there.
fn separator(tree: &Tree, before: usize, next: usize, want: Want) -> Result<Separator, Stop>
    requires { IsTree tree.now }
    ensures { IfOk result (λ s. OfFile tree.now (λ ts trees. IsSeparator ts before next want s)) }
{
    let items = tree.items.len();
    if before >= items || next >= items {
        return Err(Stop::Unfit);
    }
    Ok(gap(tree, before, next, want))
}
