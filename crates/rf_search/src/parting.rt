//! What is chosen of a node: the best of its layouts where one is within the width, and otherwise the same of its
//! parts.

ghost use Rattle.std.specs.Prelude.{◌≡◌, ◌+◌, [], IfOk, IfSome};
ghost use Rattle.rf_outline.specs.declared.documents.Part.TheVariants as part;
ghost use Rattle.rf_search.specs.Holding.{Holds, IsAt};
ghost use Rattle.rf_search.specs.Parting.{HasOwnRoom, IsBestOf, IsFirstOf, IsPartOf, NothingIsThere};
ghost use Rattle.rf_search.specs.Sought.{task};

use crate::after::after;
use crate::faults::Stop;
use crate::sought::{Found, Place, Setting};
use rf_base_document::{Dir, LAYOUT_LIMIT};
use rf_base_steps::Steps;
use rf_cost::Factory;
use rf_frontier::leaf_measure;
use rf_outline::{Documents, Part};
use std::sync::ledger::Ledger;

// How many nodes below one another are asked for at most: a level takes less than 2 KB of the stack, which has 8 MB.
const DEPTH: u32 = 2800;

// What is chosen of a document from its beginning, and whether it is within the width; nothing is said where the
// document has no layout.
pub fn best<D: Documents, F: Factory, L: Ledger>(
    setting: &Setting<D, F>,
    root: D::Node,
    found: &mut Found<F::Cost>,
    choices: &mut Vec<Dir>,
    steps: &mut Steps<L>,
) -> Result<Option<bool>, Stop>
    requires holds { Holds (task setting.now) found.old }
    requires room { HasOwnRoom (task setting.now) root }
    requires none { choices.old.items ≡ [] }
    ensures { IfOk result (λ answer. IfSome answer (IsBestOf (task setting.now) root choices.new.items)) }
{
    let place = Place {
        node: root,
        flat: false,
        indentation: 0,
        cut: setting.sought.limit,
        fuel: DEPTH,
    };
    match first(setting, place, 0, found, choices, steps)? {
        Some(_) => Ok(Some(true)),
        None => match by_parts(setting, place, 0, found, choices, steps)? {
            Some(_) => Ok(Some(false)),
            None => Ok(None),
        },
    }
}

// What is chosen of the node in this place at this column: its directions are put behind those that stand. The answer
// is the column that it ends at, or none where no resolution has a layout; then some directions may stand behind.
#[cycle(parting)]
pub fn choose<D: Documents, F: Factory, L: Ledger>(
    setting: &Setting<D, F>,
    place: Place<D::Node>,
    column: u32,
    found: &mut Found<F::Cost>,
    choices: &mut Vec<Dir>,
    steps: &mut Steps<L>,
) -> Result<Option<u32>, Stop>
    requires holds { Holds (task setting.now) found.old }
    requires room { HasOwnRoom (task setting.now) place.node }
    ensures part { IfOk result (IsPartOf (task setting.now) place column choices.old.items choices.new.items) }
    ensures holds { IfOk result (λ last. Holds (task setting.now) found.new) }
{
    if let Some(last) = first(setting, place, column, found, choices, steps)? {
        return Ok(Some(last));
    }
    by_parts(setting, place, column, found, choices, steps)
}

// The best layout of the node in this place at this column, where one is within the width.
fn first<D: Documents, F: Factory, L: Ledger>(
    setting: &Setting<D, F>,
    place: Place<D::Node>,
    column: u32,
    found: &mut Found<F::Cost>,
    choices: &mut Vec<Dir>,
    steps: &mut Steps<L>,
) -> Result<Option<u32>, Stop>
    requires holds { Holds (task setting.now) found.old }
    requires room { HasOwnRoom (task setting.now) place.node }
    ensures part { IfOk result (IsFirstOf (task setting.now) place column choices.old.items choices.new.items) }
    ensures holds { IfOk result (λ last. Holds (task setting.now) found.new) }
{
    if column > setting.sought.limit {
        return Ok(None);
    }
    let mut onward = leaf_measure(&found.hows, column, setting.factory.text(column, 0));
    let whole = Place {
        cut: setting.sought.limit,
        ..place
    };
    let behind = after(setting, &whole, &mut onward, found, steps)?;
    let kept = found.take(behind, &onward);
    if kept.len() == 0 {
        return Ok(None);
    }
    let m = kept.get(0);
    if choices.len() > LAYOUT_LIMIT as usize {
        return Err(Stop::Unsure);
    }
    if !found
        .hows
        .unfold(setting.alloc, m.how, choices, LAYOUT_LIMIT as usize)?
    {
        return Err(Stop::Unsure);
    }
    Ok(Some(m.last))
}

// What is chosen of a node that has no layout within the width there: what is chosen of its parts.
#[cycle(parting)]
fn by_parts<D: Documents, F: Factory, L: Ledger>(
    setting: &Setting<D, F>,
    place: Place<D::Node>,
    column: u32,
    found: &mut Found<F::Cost>,
    choices: &mut Vec<Dir>,
    steps: &mut Steps<L>,
) -> Result<Option<u32>, Stop>
    requires holds { Holds (task setting.now) found.old }
    requires room { HasOwnRoom (task setting.now) place.node }
    requires nothing { NothingIsThere (task setting.now) place column }
    ensures part { IfOk result (IsPartOf (task setting.now) place column choices.old.items choices.new.items) }
    ensures holds { IfOk result (λ last. Holds (task setting.now) found.new) }
{
    let Some(inside) = place.below() else {
        return Err(Stop::Unsure);
    };
    match setting.documents.open(place.node) {
        Part::Text(_, len) => Ok(Some(further(column, len)?)),
        Part::Newline => {
            if place.flat {
                Ok(Some(further(column, 1)?))
            } else {
                Ok(Some(place.indentation))
            }
        }
        Part::Hard => {
            if place.flat {
                Ok(None)
            } else {
                Ok(Some(place.indentation))
            }
        }
        Part::Concat(a, b) => both(setting, inside, a, b, column, found, choices, steps),
        Part::Nest(n, a) => {
            let part = Place {
                node: a,
                indentation: further(place.indentation, n)?,
                ..inside
            };
            choose(setting, part, column, found, choices, steps)
        }
        Part::Align(a) => {
            let part = Place {
                node: a,
                indentation: column,
                ..inside
            };
            choose(setting, part, column, found, choices, steps)
        }
        Part::Reset(a) => {
            let part = Place {
                node: a,
                indentation: 0,
                ..inside
            };
            choose(setting, part, column, found, choices, steps)
        }
        Part::Flatten(a) => {
            let part = Place {
                node: a,
                flat: true,
                ..inside
            };
            choose(setting, part, column, found, choices, steps)
        }
        Part::Choice(a, b) => either(setting, inside, a, b, column, found, choices, steps),
        Part::Charge(_, a) => choose(setting, inside.at(a), column, found, choices, steps),
        Part::Unmade => Err(Stop::Unsure),
    }
}

// What is chosen of both parts, the second where the first ends.
#[cycle(parting)]
fn both<D: Documents, F: Factory, L: Ledger>(
    setting: &Setting<D, F>,
    place: Place<D::Node>,
    a: D::Node,
    b: D::Node,
    column: u32,
    found: &mut Found<F::Cost>,
    choices: &mut Vec<Dir>,
    steps: &mut Steps<L>,
) -> Result<Option<u32>, Stop>
    requires node { IsAt (task setting.now) place (part.Concat a b) }
    requires holds { Holds (task setting.now) found.old }
    requires room { HasOwnRoom (task setting.now) place.node }
    requires nothing { NothingIsThere (task setting.now) place column }
    ensures part { IfOk result (IsPartOf (task setting.now) place column choices.old.items choices.new.items) }
    ensures holds { IfOk result (λ last. Holds (task setting.now) found.new) }
{
    match choose(setting, place.at(a), column, found, choices, steps)? {
        None => Ok(None),
        Some(middle) => choose(setting, place.at(b), middle, found, choices, steps),
    }
}

// What is chosen of the first side, or of the second where the first has no layout.
#[cycle(parting)]
fn either<D: Documents, F: Factory, L: Ledger>(
    setting: &Setting<D, F>,
    place: Place<D::Node>,
    a: D::Node,
    b: D::Node,
    column: u32,
    found: &mut Found<F::Cost>,
    choices: &mut Vec<Dir>,
    steps: &mut Steps<L>,
) -> Result<Option<u32>, Stop>
    requires node { IsAt (task setting.now) place (part.Choice a b) }
    requires holds { Holds (task setting.now) found.old }
    requires room { HasOwnRoom (task setting.now) place.node }
    requires nothing { NothingIsThere (task setting.now) place column }
    ensures part { IfOk result (IsPartOf (task setting.now) place column choices.old.items choices.new.items) }
    ensures holds { IfOk result (λ last. Holds (task setting.now) found.new) }
{
    let stay = choices.len();
    choices.push(Dir::Left)?;
    match choose(setting, place.at(a), column, found, choices, steps)? {
        Some(last) => Ok(Some(last)),
        None => {
            choices.truncate(stay);
            choices.push(Dir::Right)?;
            choose(setting, place.at(b), column, found, choices, steps)
        }
    }
}

// So many columns further right, as far as they are counted.
fn further(column: u32, len: u32) -> Result<u32, Stop>
    ensures { IfOk result (λ end. end ≡ column + len) }
{
    match column.checked_add(len) {
        None => Err(Stop::Unsure),
        Some(end) => Ok(end),
    }
}
