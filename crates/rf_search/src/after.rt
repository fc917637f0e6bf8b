//! What stands behind a measure of a node. It is put in place of the measure, where it is one.

ghost use Rattle.std.specs.Prelude.{◌≡◌, ◌++◌, List, IfOk, IfSome, IsNone, Some};
ghost use Rattle.rf_base_cost.specs.Pareto.{IsFrontier, EachIsValue, pareto};
ghost use Rattle.rf_base_cut.specs.Cut.{cut};
ghost use Rattle.rf_frontier.specs.Frontiers.{BelongTo, all_chosen};
ghost use Rattle.rf_frontier.specs.declared.hows.How.{How};
ghost use Rattle.rf_outline.specs.declared.documents.Part.TheVariants as part;
ghost use Rattle.rf_outline.specs.Documents.{IsSplit};
ghost use Rattle.rf_search.specs.Behind.{IsBefore, AreBefore, AreBehindAll};
ghost use Rattle.rf_search.specs.Holding.{Holds, GoesOn, IsAsked, IsAt, IsGiven, IsGivenAhead, AreAsked, AreGiven};
ghost use Rattle.rf_search.specs.Places.{IsRowIn};
ghost use Rattle.rf_search.specs.Sought.{task};
ghost use Rattle.rf_search.specs.Taking.{measures_of};

use crate::at_once::{AtOnce, at_once, behind_leaf, on_one_line};
use crate::behind::{behind_row, break_behind, keep_behind, put_charge, put_turn, text_behind};
use crate::faults::Stop;
use crate::leaves::leaf_behind_each;
use crate::sought::{Found, Place, Setting, cut_before, cut_before_break};
use crate::taking::Behind;
use rf_base_steps::Steps;
use rf_cost::Factory;
use rf_frontier::{HowId, Kept, Measure, best_of_two, leaf_measure};
use rf_outline::{Documents, Part};
use std::mem;
use std::sync::ledger::Ledger;

// What stands behind a measure of the node in this place: what it comes to as a leaf, its layout on one line, where
// that is known to be all, and otherwise what its parts come to. Where that is known, as of each text, no frame is
// taken for it.
#[inline(always)]
#[cycle(after)]
pub fn after<D: Documents, F: Factory, L: Ledger>(
    setting: &Setting<D, F>,
    place: &Place<D::Node>,
    m: &mut Measure<F::Cost>,
    found: &mut Found<F::Cost>,
    steps: &mut Steps<L>,
) -> Result<Behind, Stop>
    requires holds { Holds (task setting.now) found.old }
    requires asked { IsAsked (task setting.now) found.old place.now m.old }
    ensures given { IfOk result (IsGiven (task setting.now) found.old found.new place.now m.old m.new) }
    ensures goes_on { IfOk result (λ behind. GoesOn (task setting.now) found.old found.new) }
{
    match behind_leaf(setting, place, m, found) {
        AtOnce::Nothing => Ok(Behind::Nothing),
        AtOnce::One => Ok(Behind::One),
        AtOnce::Unknown => unless_leaf(setting, place, m, found, steps),
    }
}

// The same, whether or not the node is told to be a leaf: by a row of measures, where it has a number and isn't known at
// once.
#[inline(never)]
#[cycle(after)]
fn unless_leaf<D: Documents, F: Factory, L: Ledger>(
    setting: &Setting<D, F>,
    place: &Place<D::Node>,
    m: &mut Measure<F::Cost>,
    found: &mut Found<F::Cost>,
    steps: &mut Steps<L>,
) -> Result<Behind, Stop>
    requires holds { Holds (task setting.now) found.old }
    requires asked { IsAsked (task setting.now) found.old place.now m.old }
    ensures given { IfOk result (IsGiven (task setting.now) found.old found.new place.now m.old m.new) }
    ensures goes_on { IfOk result (λ behind. GoesOn (task setting.now) found.old found.new) }
{
    match on_one_line(setting, place, m, found)? {
        AtOnce::Nothing => return Ok(Behind::Nothing),
        AtOnce::One => return Ok(Behind::One),
        AtOnce::Unknown => {}
    }
    match setting.documents.number(place.node) {
        Some(number) => by_row(setting, place, number, m, found, steps),
        None => in_turn(setting, place, m, found, steps),
    }
}

// The same by the documents that the node is one after another, as it is, aligned or nested, where each but the last two
// comes to one measure at most, or by its parts.
#[cycle(after)]
fn in_turn<D: Documents, F: Factory, L: Ledger>(
    setting: &Setting<D, F>,
    place: &Place<D::Node>,
    m: &mut Measure<F::Cost>,
    found: &mut Found<F::Cost>,
    steps: &mut Steps<L>,
) -> Result<Behind, Stop>
    requires holds { Holds (task setting.now) found.old }
    requires asked { IsAsked (task setting.now) found.old place.now m.old }
    ensures given { IfOk result (IsGiven (task setting.now) found.old found.new place.now m.old m.new) }
    ensures goes_on { IfOk result (λ behind. GoesOn (task setting.now) found.old found.new) }
{
    let mut row = *place;
    match enter_row(setting.documents, &mut row, m.last) {
        None => in_own_parts(setting, place, m, found, steps),
        Some((first, others)) => in_order(setting, &row, first, others, m, found, steps),
    }
}

// Goes to the row that the node in this place is, as it is, aligned or nested, where that is of several documents: the
// first of them and a node of the others. The node begins at this column. Otherwise it stays where it is.
#[inline(always)]
fn enter_row<D: Documents>(
    documents: &D,
    place: &mut Place<D::Node>,
    column: u32,
) -> Option<(D::Node, D::Node)>
    ensures row { IfSome result
        (λ split. IsRowIn (D.view documents.now).document column place.old place.new
        × IsSplit (D.view documents.now) place.new.node (Some split)) }
    ensures stays { IsNone result → place.new ≡ place.old }
{
    let own = documents.several(place.node);
    match documents.row(own, column, place.indentation) {
        None => {
            let split = documents.split_first(own)?;
            place.node = own;
            Some(split)
        }
        Some((row, indentation)) => {
            let split = documents.split_first(row)?;
            place.node = row;
            place.indentation = indentation;
            Some(split)
        }
    }
}

// The same of a node of several documents.
#[inline(always)]
#[cycle(after)]
fn in_order<D: Documents, F: Factory, L: Ledger>(
    setting: &Setting<D, F>,
    place: &Place<D::Node>,
    first: D::Node,
    others: D::Node,
    m: &mut Measure<F::Cost>,
    found: &mut Found<F::Cost>,
    steps: &mut Steps<L>,
) -> Result<Behind, Stop>
    requires split { IsSplit (task setting.now).documents place.now.node (Some (first, others)) }
    requires holds { Holds (task setting.now) found.old }
    requires asked { IsAsked (task setting.now) found.old place.now m.old }
    ensures given { IfOk result (IsGiven (task setting.now) found.old found.new place.now m.old m.new) }
    ensures goes_on { IfOk result (λ behind. GoesOn (task setting.now) found.old found.new) }
{
    let Some(inside) = place.below() else {
        return Err(Stop::Unsure);
    };
    let mut onward = *m;
    match in_sequence(setting, &inside, first, others, &mut onward, found, steps)? {
        Some(behind) => {
            *m = onward;
            Ok(behind)
        }
        None => in_own_parts(setting, place, m, found, steps),
    }
}

// What stands behind a measure of documents one after another, where each but the last two comes to one measure at
// most: how they are concatenated doesn't matter to that. Where the last one is a row of such documents itself, as most
// are that aren't known at once, these are gone through in its place, so that no frame is taken for it.
#[cycle(after)]
fn in_sequence<D: Documents, F: Factory, L: Ledger>(
    setting: &Setting<D, F>,
    place: &Place<D::Node>,
    first: D::Node,
    others: D::Node,
    m: &mut Measure<F::Cost>,
    found: &mut Found<F::Cost>,
    steps: &mut Steps<L>,
) -> Result<Option<Behind>, Stop>
    requires split { IsSplit (task setting.now).documents place.now.node (Some (first, others)) }
    requires holds { Holds (task setting.now) found.old }
    requires asked { IsAsked (task setting.now) found.old place.now m.old }
    ensures given { IfOk result (λ some. IfSome some
        (IsGiven (task setting.now) found.old found.new place.now m.old m.new)) }
    ensures goes_on { IfOk result (λ some. GoesOn (task setting.now) found.old found.new) }
{
    let mut here = *place;
    let mut first = first;
    let mut others = others;
    loop {
        while let Some(split) = setting.documents.split_first(others) {
            let part = Place {
                node: first,
                ..here
            };
            match behind_leaf(setting, &part, m, found) {
                AtOnce::Nothing => return Ok(Some(Behind::Nothing)),
                AtOnce::One => {}
                AtOnce::Unknown => {
                    let cut = cut_before_break(
                        &setting.sought,
                        setting.documents,
                        others,
                        here.flat,
                    );
                    let part = Place { cut, ..part };
                    match unless_leaf(setting, &part, m, found, steps)? {
                        Behind::Nothing => return Ok(Some(Behind::Nothing)),
                        Behind::One => {}
                        Behind::Several => return Ok(None),
                    }
                }
            }
            first = split.0;
            others = split.1;
        }
        here.node = others;
        match ahead(setting, &here, first, m, found, steps)? {
            Behind::Nothing => return Ok(Some(Behind::Nothing)),
            Behind::One => {}
            Behind::Several => return Ok(Some(behind_each(setting, &here, m, found, steps)?)),
        }
        match at_once(setting, &here, m, found)? {
            AtOnce::Nothing => return Ok(Some(Behind::Nothing)),
            AtOnce::One => return Ok(Some(Behind::One)),
            AtOnce::Unknown => {}
        }
        if let Some(number) = setting.documents.number(here.node) {
            return Ok(Some(by_row(setting, &here, number, m, found, steps)?));
        }
        let Some(split) = enter_row(setting.documents, &mut here, m.last) else {
            return Ok(Some(in_own_parts(setting, &here, m, found, steps)?));
        };
        if here.fuel == 0 {
            return Err(Stop::Unsure);
        }
        here.fuel -= 1;
        first = split.0;
        others = split.1;
    }
}

// What stands behind a measure of the node `first`, as far as it matters before the node in this place.
#[inline(always)]
#[cycle(after)]
fn ahead<D: Documents, F: Factory, L: Ledger>(
    setting: &Setting<D, F>,
    place: &Place<D::Node>,
    first: D::Node,
    m: &mut Measure<F::Cost>,
    found: &mut Found<F::Cost>,
    steps: &mut Steps<L>,
) -> Result<Behind, Stop>
    requires holds { Holds (task setting.now) found.old }
    requires asked { IsBefore (task setting.now) found.old.hows first m.old }
    ensures given { IfOk result (IsGivenAhead (task setting.now) found.old found.new place.now first m.old m.new) }
    ensures goes_on { IfOk result (λ behind. GoesOn (task setting.now) found.old found.new) }
{
    let part = place.at(first);
    match behind_leaf(setting, &part, m, found) {
        AtOnce::Nothing => Ok(Behind::Nothing),
        AtOnce::One => Ok(Behind::One),
        AtOnce::Unknown => {
            let cut = cut_before(
                &setting.sought,
                setting.documents,
                place.node,
                place.flat,
                place.cut,
            );
            unless_leaf(setting, &Place { cut, ..part }, m, found, steps)
        }
    }
}

// What stands behind a measure of the node in this place, by its parts. Few nodes come here, and the room that these take
// isn't in the frame of what asks for them.
#[inline(never)]
#[cycle(after)]
fn in_own_parts<D: Documents, F: Factory, L: Ledger>(
    setting: &Setting<D, F>,
    place: &Place<D::Node>,
    m: &mut Measure<F::Cost>,
    found: &mut Found<F::Cost>,
    steps: &mut Steps<L>,
) -> Result<Behind, Stop>
    requires holds { Holds (task setting.now) found.old }
    requires asked { IsAsked (task setting.now) found.old place.now m.old }
    ensures given { IfOk result (IsGiven (task setting.now) found.old found.new place.now m.old m.new) }
    ensures goes_on { IfOk result (λ behind. GoesOn (task setting.now) found.old found.new) }
{
    let part = setting.documents.open(place.node);
    in_parts(setting, place, &part, m, found, steps)
}

// The same of a node of this kind.
#[cycle(after)]
fn in_parts<D: Documents, F: Factory, L: Ledger>(
    setting: &Setting<D, F>,
    place: &Place<D::Node>,
    part: &Part<'_, D::Node>,
    m: &mut Measure<F::Cost>,
    found: &mut Found<F::Cost>,
    steps: &mut Steps<L>,
) -> Result<Behind, Stop>
    requires part { IsAt (task setting.now) place.now part.now }
    requires holds { Holds (task setting.now) found.old }
    requires asked { IsAsked (task setting.now) found.old place.now m.old }
    ensures given { IfOk result (IsGiven (task setting.now) found.old found.new place.now m.old m.new) }
    ensures goes_on { IfOk result (λ behind. GoesOn (task setting.now) found.old found.new) }
{
    let Some(mut inside) = place.below() else {
        return Err(Stop::Unsure);
    };
    match *part {
        Part::Text(_, len) => Ok(text_behind(setting, m, len)),
        Part::Newline if place.flat => Ok(text_behind(setting, m, 1)),
        Part::Hard if place.flat => Ok(Behind::Nothing),
        Part::Newline | Part::Hard => Ok(break_behind(setting, m, place.indentation)),
        Part::Concat(a, b) => both(setting, &inside, a, b, m, found, steps),
        Part::Nest(n, a) => match place.indentation.checked_add(n) {
            None => Err(Stop::Unsure),
            Some(indentation) => {
                inside.node = a;
                inside.indentation = indentation;
                unless_leaf(setting, &inside, m, found, steps)
            }
        },
        Part::Align(a) => {
            inside.node = a;
            inside.indentation = m.last;
            unless_leaf(setting, &inside, m, found, steps)
        }
        Part::Reset(a) => {
            inside.node = a;
            inside.indentation = 0;
            unless_leaf(setting, &inside, m, found, steps)
        }
        Part::Flatten(a) => {
            inside.node = a;
            inside.flat = true;
            unless_leaf(setting, &inside, m, found, steps)
        }
        Part::Choice(a, b) => either(setting, &inside, a, b, m, found, steps),
        Part::Charge(k, a) => {
            put_charge(setting, m, k);
            inside.node = a;
            unless_leaf(setting, &inside, m, found, steps)
        }
        Part::Unmade => Err(Stop::Unsure),
    }
}

// Behind what stands behind the measure of the first part, as far as it matters, the second part: both in this place.
#[inline(always)]
#[cycle(after)]
fn both<D: Documents, F: Factory, L: Ledger>(
    setting: &Setting<D, F>,
    place: &Place<D::Node>,
    a: D::Node,
    b: D::Node,
    m: &mut Measure<F::Cost>,
    found: &mut Found<F::Cost>,
    steps: &mut Steps<L>,
) -> Result<Behind, Stop>
    requires holds { Holds (task setting.now) found.old }
    requires asked { AreAsked (task setting.now) found.old a b m.old }
    ensures given { IfOk result (AreGiven (task setting.now) found.old found.new place.now a b m.old m.new) }
    ensures goes_on { IfOk result (λ behind. GoesOn (task setting.now) found.old found.new) }
{
    let second = place.at(b);
    match ahead(setting, &second, a, m, found, steps)? {
        Behind::Nothing => Ok(Behind::Nothing),
        Behind::One => after(setting, &second, m, found, steps),
        Behind::Several => behind_each(setting, &second, m, found, steps),
    }
}

// What stands of a node behind each of the several measures that were found, as far as it is worth keeping. What stands
// in place of the measure before is nothing to it.
#[inline(never)]
#[cycle(after)]
fn behind_each<D: Documents, F: Factory, L: Ledger>(
    setting: &Setting<D, F>,
    place: &Place<D::Node>,
    m: &mut Measure<F::Cost>,
    found: &mut Found<F::Cost>,
    steps: &mut Steps<L>,
) -> Result<Behind, Stop>
    requires holds { Holds (task setting.now) found.old }
    requires before { AreBefore (task setting.now) found.old.hows place.now.node found.old.several }
    ensures given { IfOk result (λ behind. AreBehindAll (task setting.now) found.old.hows found.new.hows place.now.node
        place.now.flat place.now.indentation place.now.cut found.old.several
        (measures_of behind m.new found.new.several)) }
    ensures goes_on { IfOk result (λ behind. GoesOn (task setting.now) found.old found.new) }
{
    let firsts = mem::replace(&mut found.several, Kept::none());
    if let Some(all) = leaf_behind_each(setting, place, &firsts, found, steps)? {
        return Ok(found.give(all, m));
    }
    let mut all = Kept::none();
    let mut at = 0;
    while at < firsts.len() {
        let mut k = firsts.get(at);
        let behind = after(setting, place, &mut k, found, steps)?;
        keep_behind(setting, &mut all, behind, &k, place.cut, found, steps)?;
        at += 1;
    }
    Ok(found.give(all, m))
}

// Both sides, each behind the measure with the direction to it, as far as they are worth keeping.
#[inline(never)]
#[cycle(after)]
fn either<D: Documents, F: Factory, L: Ledger>(
    setting: &Setting<D, F>,
    place: &Place<D::Node>,
    a: D::Node,
    b: D::Node,
    m: &mut Measure<F::Cost>,
    found: &mut Found<F::Cost>,
    steps: &mut Steps<L>,
) -> Result<Behind, Stop>
    requires node { IsAt (task setting.now) place.now (part.Choice a b) }
    requires holds { Holds (task setting.now) found.old }
    requires asked { IsAsked (task setting.now) found.old place.now m.old }
    ensures given { IfOk result (IsGiven (task setting.now) found.old found.new place.now m.old m.new) }
    ensures goes_on { IfOk result (λ behind. GoesOn (task setting.now) found.old found.new) }
{
    let start = *m;
    put_turn(&mut found.hows, m, setting.sought.left)?;
    let left = unless_leaf(setting, &place.at(a), m, found, steps)?;
    let firsts = found.take(left, m);
    *m = start;
    put_turn(&mut found.hows, m, setting.sought.right)?;
    let right = unless_leaf(setting, &place.at(b), m, found, steps)?;
    better(setting, firsts, right, place.cut, m, found, steps)
}

// What is worth keeping of the first measures and of those that were put behind another one, cut at `x`.
#[inline(never)]
fn better<D: Documents, F: Factory, L: Ledger>(
    setting: &Setting<D, F>,
    firsts: Kept<F::Cost, HowId>,
    behind: Behind,
    x: u32,
    m: &mut Measure<F::Cost>,
    found: &mut Found<F::Cost>,
    steps: &mut Steps<L>,
) -> Result<Behind, Stop>
    requires first { IsFrontier (task setting.now).costs firsts }
    requires second { IsFrontier (task setting.now).costs (measures_of behind m.old found.old.several) }
    requires first_values { EachIsValue (task setting.now).costs firsts }
    requires second_values { EachIsValue (task setting.now).costs (measures_of behind m.old found.old.several) }
    ensures chosen { IfOk result (λ both. (ways : List How)
        → all_chosen ways (measures_of both m.new found.new.several) ≡ cut x (pareto (task setting.now).costs
        (all_chosen ways firsts ++ all_chosen ways (measures_of behind m.old found.old.several)))) }
    ensures belongs { IfOk result (λ both. (ways : List How) → BelongTo ways firsts
        → BelongTo ways (measures_of behind m.old found.old.several)
        → BelongTo ways (measures_of both m.new found.new.several)) }
    ensures ways { found.new.hows ≡ found.old.hows }
    ensures rows { found.new.rows ≡ found.old.rows }
{
    if firsts.is_empty()
        && let Behind::One = behind
    {
        return Ok(Behind::One);
    }
    if let (Some(first), Behind::Nothing) = (firsts.alone(), behind) {
        *m = first;
        return Ok(Behind::One);
    }
    if let (Some(first), Behind::One) = (firsts.alone(), behind)
        && let Some(best) = best_of_two(setting.factory, first, *m, x, steps)
    {
        *m = best;
        return Ok(Behind::One);
    }
    let mut all = firsts;
    keep_behind(setting, &mut all, behind, m, x, found, steps)?;
    Ok(found.give(all, m))
}

// The same by a row of the node's number, which is made where none serves yet.
#[inline(always)]
#[cycle(after)]
fn by_row<D: Documents, F: Factory, L: Ledger>(
    setting: &Setting<D, F>,
    place: &Place<D::Node>,
    number: usize,
    m: &mut Measure<F::Cost>,
    found: &mut Found<F::Cost>,
    steps: &mut Steps<L>,
) -> Result<Behind, Stop>
    requires number { (task setting.now).documents.number place.now.node ≡ Some number }
    requires holds { Holds (task setting.now) found.old }
    requires asked { IsAsked (task setting.now) found.old place.now m.old }
    ensures given { IfOk result (IsGiven (task setting.now) found.old found.new place.now m.old m.new) }
    ensures goes_on { IfOk result (λ behind. GoesOn (task setting.now) found.old found.new) }
{
    match found.row(number, place.flat, m.last, place.cut) {
        Some(at) => behind_row(setting, place, m, at, found),
        None => by_new_row(setting, place, number, m, found, steps),
    }
}

// The same by a new row of the node's number.
#[inline(never)]
#[cycle(after)]
fn by_new_row<D: Documents, F: Factory, L: Ledger>(
    setting: &Setting<D, F>,
    place: &Place<D::Node>,
    number: usize,
    m: &mut Measure<F::Cost>,
    found: &mut Found<F::Cost>,
    steps: &mut Steps<L>,
) -> Result<Behind, Stop>
    requires number { (task setting.now).documents.number place.now.node ≡ Some number }
    requires holds { Holds (task setting.now) found.old }
    requires asked { IsAsked (task setting.now) found.old place.now m.old }
    ensures given { IfOk result (IsGiven (task setting.now) found.old found.new place.now m.old m.new) }
    ensures goes_on { IfOk result (λ behind. GoesOn (task setting.now) found.old found.new) }
{
    let mut nothing = leaf_measure(&found.hows, m.last, setting.factory.text(m.last, 0));
    let behind = in_sides(setting, place, &mut nothing, found, steps)?;
    let measures = found.take(behind, &nothing);
    let at = found.put(number, place.flat, m.last, place.cut, measures)?;
    behind_row(setting, place, m, at, found)
}

// The same by the node's sides, if it is a choice, and otherwise by its parts.
#[inline(always)]
#[cycle(after)]
fn in_sides<D: Documents, F: Factory, L: Ledger>(
    setting: &Setting<D, F>,
    place: &Place<D::Node>,
    m: &mut Measure<F::Cost>,
    found: &mut Found<F::Cost>,
    steps: &mut Steps<L>,
) -> Result<Behind, Stop>
    requires holds { Holds (task setting.now) found.old }
    requires asked { IsAsked (task setting.now) found.old place.now m.old }
    ensures given { IfOk result (IsGiven (task setting.now) found.old found.new place.now m.old m.new) }
    ensures goes_on { IfOk result (λ behind. GoesOn (task setting.now) found.old found.new) }
{
    let part = setting.documents.open(place.node);
    match part {
        Part::Choice(a, b) => match place.below() {
            None => Err(Stop::Unsure),
            Some(inside) => either(setting, &inside, a, b, m, found, steps),
        },
        _ => in_parts(setting, place, &part, m, found, steps),
    }
}
