//! What stands of a leaf behind each of several measures.

ghost use Rattle.std.specs.Prelude.{IfOk, IfSome};
ghost use Rattle.rf_search.specs.Behind.{AreBefore, AreBehindAll};
ghost use Rattle.rf_search.specs.Holding.{Holds};
ghost use Rattle.rf_search.specs.Sought.{task};

use crate::at_once::{AtOnce, behind_known_leaf};
use crate::sought::{Found, Place, Setting};
use rf_base_steps::Steps;
use rf_cost::Factory;
use rf_frontier::{HowId, Kept, merge_one};
use rf_outline::Documents;
use std::alloc::AllocError;
use std::sync::ledger::Ledger;

// What stands of a node behind each of these measures, as far as it is worth keeping, where the node is told to be a
// leaf. What is found is read by clauses alone.
#[inline(never)]
pub fn leaf_behind_each<D: Documents, F: Factory, L: Ledger>(
    setting: &Setting<D, F>,
    place: &Place<D::Node>,
    firsts: &Kept<F::Cost, HowId>,
    found: &Found<F::Cost>,
    steps: &mut Steps<L>,
) -> Result<Option<Kept<F::Cost, HowId>>, AllocError>
    requires holds { Holds (task setting.now) found.now }
    requires before { AreBefore (task setting.now) found.now.hows place.now.node firsts.now }
    ensures { IfOk result (λ some. IfSome some (AreBehindAll (task setting.now) found.now.hows found.now.hows
        place.now.node place.now.flat place.now.indentation place.now.cut firsts.now)) }
{
    let Some(leaf) = setting.documents.leaf(place.node, place.flat) else {
        return Ok(None);
    };
    let mut all = Kept::none();
    let mut at = 0;
    while at < firsts.len() {
        let mut k = firsts.get(at);
        match behind_known_leaf(setting, place, leaf, &mut k, found) {
            AtOnce::Nothing => {}
            AtOnce::One => {
                merge_one(setting.alloc, setting.factory, &mut all, k, steps)?;
                all.cut_off(place.cut);
            }
            AtOnce::Unknown => return Ok(None),
        }
        at += 1;
    }
    Ok(Some(all))
}
