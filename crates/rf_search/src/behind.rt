//! What stands behind a measure of texts, breaks and rows.

ghost use Rattle.std.specs.Prelude.{◌≡◌, ◌<◌, ◌≤◌, ◌+◌, ◌++◌, ◌∷◌, [], nat_le, length, IfOk, OnOk, IsTrue, List, ℕ};
ghost use Rattle.rf_base_cost.specs.declared.measures.Measure.{Measure as a_measure};
ghost use Rattle.rf_base_cost.specs.Cost.{IsValue};
ghost use Rattle.rf_base_cost.specs.Pareto.{EachIsValue, IsFrontier, pareto, all_shifted};
ghost use Rattle.rf_base_optimum.specs.Plain.{where_within};
ghost use Rattle.rf_base_cut.specs.Cut.{cut, extended, turned};
ghost use Rattle.rf_base_cut.specs.OneLine.{measured};
ghost use Rattle.rf_frontier.specs.Ways.{choices_of, KeepsWays};
ghost use Rattle.rf_frontier.specs.Frontiers.{BelongTo, chosen, all_chosen};
ghost use Rattle.rf_base_document.specs.declared.directions.Dir.{Dir};
ghost use Rattle.rf_frontier.specs.declared.hows.How.{How};
ghost use Rattle.rf_search.specs.Holding.{Holds, GoesOn, IsAsked, IsGiven};
ghost use Rattle.rf_search.specs.Behind.{text_measured};
ghost use Rattle.rf_search.specs.Rows.{Serves};
ghost use Rattle.rf_search.specs.Taking.{measures_of};
ghost use Rattle.rf_search.specs.Sought.{task};

use crate::faults::Stop;
use crate::sought::{Found, Place, Setting};
use crate::taking::Behind;
use rf_base_steps::Steps;
use rf_cost::Factory;
use rf_frontier::{HowId, Hows, Kept, Measure, merge_one, merge_ways};
use rf_outline::Documents;
use std::alloc::AllocError;
use std::mem;
use std::sync::ledger::Ledger;

// Puts behind the measure a text of this length by the choices of this way.
#[inline(always)]
pub fn put_text<D: Documents, F: Factory>(
    setting: &Setting<D, F>,
    hows: &mut Hows,
    m: &mut Measure<F::Cost>,
    len: u32,
    how: HowId,
) -> Result<(), AllocError>
    requires narrow { setting.now.sought.limit ≤ 400 }
    requires within { m.old.last + len ≤ setting.now.sought.limit }
    requires value { IsValue (task setting.now).costs m.old.cost }
    requires way { m.old.how.0 < length hows.old }
    requires behind { how.0 < length hows.old }
    ensures behind { OnOk result (all_chosen hows.new (m.new ∷ [])
        ≡ text_measured (task setting.now).costs setting.now.sought.limit hows.old m.old len how) }
    ensures belong { OnOk result (BelongTo hows.new (m.new ∷ [])) }
    ensures older { KeepsWays hows.old hows.new }
{
    m.how = hows.join(m.how, how)?;
    put_leaf(setting, m, len);
    Ok(())
}

// Puts behind the measure a text of this length without a choice.
#[inline(always)]
pub fn put_leaf<D: Documents, F: Factory>(
    setting: &Setting<D, F>,
    m: &mut Measure<F::Cost>,
    len: u32,
)
    requires narrow { setting.now.sought.limit ≤ 400 }
    requires within { m.old.last + len ≤ setting.now.sought.limit }
    requires value { IsValue (task setting.now).costs m.old.cost }
    ensures { m.new ≡ extended (task setting.now).costs m.old (m.old.last + len)
        ((task setting.now).costs.text m.old.last len) }
{
    let text = setting.factory.text(m.last, len);
    m.cost = setting.factory.add(m.cost, text);
    m.last += len;
}

// Puts behind the measure, for nothing, so many columns by the choices of this way.
#[inline(always)]
pub fn put_line<C: Copy>(
    hows: &mut Hows,
    m: &mut Measure<C>,
    len: u32,
    how: HowId,
) -> Result<(), AllocError>
    requires within { m.old.last + len ≤ 400 }
    requires way { m.old.how.0 < length hows.old }
    requires behind { how.0 < length hows.old }
    ensures behind { OnOk result (all_chosen hows.new (m.new ∷ []) ≡ measured (m.old.last + len) m.old.cost
        (choices_of hows.old m.old.how.0 ++ choices_of hows.old how.0) ∷ []) }
    ensures belong { OnOk result (BelongTo hows.new (m.new ∷ [])) }
    ensures older { KeepsWays hows.old hows.new }
{
    m.how = hows.join(m.how, how)?;
    m.last += len;
    Ok(())
}

// Puts behind the measure a break to this indentation.
#[inline(always)]
pub fn put_break<D: Documents, F: Factory>(
    setting: &Setting<D, F>,
    m: &mut Measure<F::Cost>,
    indentation: u32,
)
    requires narrow { setting.now.sought.limit ≤ 400 }
    requires within { indentation ≤ setting.now.sought.limit }
    requires value { IsValue (task setting.now).costs m.old.cost }
    ensures behind { (ways : List How) → all_chosen ways (m.new ∷ [])
        ≡ where_within (nat_le indentation setting.now.sought.limit) (extended (task setting.now).costs
        (chosen ways m.old) indentation ((task setting.now).costs.newline indentation)) }
    ensures belong { (ways : List How) → m.old.how.0 < length ways → BelongTo ways (m.new ∷ []) }
{
    let newline = setting.factory.newline(indentation);
    m.cost = setting.factory.add(m.cost, newline);
    m.last = indentation;
}

// Puts behind the measure a charge of `k`, which costs alone.
#[inline(always)]
pub fn put_charge<D: Documents, F: Factory>(
    setting: &Setting<D, F>,
    m: &mut Measure<F::Cost>,
    k: u32,
)
    requires charge { k ≤ 1000 }
    requires value { IsValue (task setting.now).costs m.old.cost }
    ensures { m.new ≡ extended (task setting.now).costs m.old m.old.last ((task setting.now).costs.charge k) }
{
    let charge = setting.factory.charge(k);
    m.cost = setting.factory.add(m.cost, charge);
}

// Puts behind the measure the direction that this way has alone.
#[inline(always)]
pub fn put_turn<C: Copy>(hows: &mut Hows, m: &mut Measure<C>, way: HowId) -> Result<(), AllocError>
    requires way { m.old.how.0 < length hows.old }
    requires direction { way.0 < length hows.old }
    ensures turned { OnOk result ((dir : Dir) → choices_of hows.old way.0 ≡ dir ∷ []
        → chosen hows.new m.new ≡ turned dir (chosen hows.old m.old)) }
    ensures belongs { OnOk result (m.new.how.0 < length hows.new) }
    ensures same { OnOk result ((m.new.last ≡ m.old.last) × (m.new.cost ≡ m.old.cost)) }
    ensures older { KeepsWays hows.old hows.new }
{
    m.how = hows.join(m.how, way)?;
    Ok(())
}

// A text without a choice behind the measure, where it ends within the limit. Most texts are known at once and don't
// come here.
#[inline(never)]
pub fn text_behind<D: Documents, F: Factory>(
    setting: &Setting<D, F>,
    m: &mut Measure<F::Cost>,
    len: u32,
) -> Behind
    requires narrow { setting.now.sought.limit ≤ 400 }
    requires within { m.old.last ≤ setting.now.sought.limit }
    requires value { IsValue (task setting.now).costs m.old.cost }
    ensures behind { (ways : List How) (several : List (a_measure F.Cost HowId))
        → all_chosen ways (measures_of result m.new several) ≡ where_within
        (nat_le (m.old.last + len) setting.now.sought.limit) (extended (task setting.now).costs (chosen ways m.old)
        (m.old.last + len) ((task setting.now).costs.text m.old.last len)) }
    ensures belong { (ways : List How) (several : List (a_measure F.Cost HowId)) → m.old.how.0 < length ways
        → BelongTo ways (measures_of result m.new several) }
{
    if len > setting.sought.limit - m.last {
        return Behind::Nothing;
    }
    put_leaf(setting, m, len);
    Behind::One
}

// A break to this indentation behind the measure, where that is within the limit. Most breaks are known at once and
// don't come here.
#[inline(never)]
pub fn break_behind<D: Documents, F: Factory>(
    setting: &Setting<D, F>,
    m: &mut Measure<F::Cost>,
    indentation: u32,
) -> Behind
    requires narrow { setting.now.sought.limit ≤ 400 }
    requires value { IsValue (task setting.now).costs m.old.cost }
    ensures behind { (ways : List How) (several : List (a_measure F.Cost HowId))
        → all_chosen ways (measures_of result m.new several) ≡ where_within
        (nat_le indentation setting.now.sought.limit) (extended (task setting.now).costs (chosen ways m.old)
        indentation ((task setting.now).costs.newline indentation)) }
    ensures belong { (ways : List How) (several : List (a_measure F.Cost HowId)) → m.old.how.0 < length ways
        → BelongTo ways (measures_of result m.new several) }
{
    if indentation > setting.sought.limit {
        return Behind::Nothing;
    }
    put_break(setting, m, indentation);
    Behind::One
}

// Whether a text of this length behind column `last` ends by the column up to which texts cost nothing, and by `x`.
pub fn is_free<D: Documents, F: Factory>(
    setting: &Setting<D, F>,
    last: u32,
    len: u32,
    x: u32,
) -> bool
    ensures { IsTrue result → (last + len ≤ setting.now.sought.free) × (last + len ≤ x) }
{
    let end = setting.sought.free.min(x);
    last <= end && len <= end - last
}

// What is worth keeping of both, cut at `x`.
fn merged<D: Documents, F: Factory, L: Ledger>(
    setting: &Setting<D, F>,
    a: Kept<F::Cost, HowId>,
    b: Kept<F::Cost, HowId>,
    x: u32,
    steps: &mut Steps<L>,
) -> Result<Kept<F::Cost, HowId>, Stop>
    requires first { IsFrontier (task setting.now).costs a }
    requires second { IsFrontier (task setting.now).costs b }
    requires first_values { EachIsValue (task setting.now).costs a }
    requires second_values { EachIsValue (task setting.now).costs b }
    ensures chosen { IfOk result (λ f. (ways : List How) → all_chosen ways f
        ≡ cut x (pareto (task setting.now).costs (all_chosen ways a ++ all_chosen ways b))) }
    ensures belongs { IfOk result (λ f. (ways : List How) → BelongTo ways a → BelongTo ways b → BelongTo ways f) }
{
    let all = merge_ways(setting.alloc, setting.factory, a, b, steps)?;
    Ok(all.cut(x))
}

// Puts what stands behind a measure, which is `k` or was put in `found`, to what is worth keeping so far, cut at `x`.
// One measure, as it mostly is, is put there in place.
#[inline(always)]
pub fn keep_behind<D: Documents, F: Factory, L: Ledger>(
    setting: &Setting<D, F>,
    all: &mut Kept<F::Cost, HowId>,
    behind: Behind,
    k: &Measure<F::Cost>,
    x: u32,
    found: &mut Found<F::Cost>,
    steps: &mut Steps<L>,
) -> Result<(), Stop>
    requires first { IsFrontier (task setting.now).costs all.old }
    requires second { IsFrontier (task setting.now).costs (measures_of behind k.now found.old.several) }
    requires first_values { EachIsValue (task setting.now).costs all.old }
    requires second_values { EachIsValue (task setting.now).costs (measures_of behind k.now found.old.several) }
    ensures chosen { OnOk result ((ways : List How) → all_chosen ways all.new ≡ cut x
        (pareto (task setting.now).costs (all_chosen ways all.old
        ++ all_chosen ways (measures_of behind k.now found.old.several)))) }
    ensures belongs { OnOk result ((ways : List How) → BelongTo ways all.old
        → BelongTo ways (measures_of behind k.now found.old.several) → BelongTo ways all.new) }
    ensures ways { found.new.hows ≡ found.old.hows }
    ensures rows { found.new.rows ≡ found.old.rows }
{
    match behind {
        Behind::One => {
            merge_one(setting.alloc, setting.factory, all, *k, steps)?;
            all.cut_off(x);
            Ok(())
        }
        Behind::Nothing | Behind::Several => {
            let before = mem::replace(all, Kept::none());
            let more = found.take(behind, k);
            *all = merged(setting, before, more, x, steps)?;
            Ok(())
        }
    }
}

// The measure `k` behind this one.
#[inline(always)]
fn measure_behind<D: Documents, F: Factory>(
    setting: &Setting<D, F>,
    hows: &mut Hows,
    m: &Measure<F::Cost>,
    k: Measure<F::Cost>,
) -> Result<Measure<F::Cost>, AllocError>
    requires value { IsValue (task setting.now).costs m.now.cost }
    requires second_value { IsValue (task setting.now).costs k.cost }
    requires way { m.now.how.0 < length hows.old }
    requires second_way { k.how.0 < length hows.old }
    ensures last { IfOk result (λ one. one.last ≡ k.last) }
    ensures cost { IfOk result (λ one. one.cost ≡ (task setting.now).costs.add m.now.cost k.cost) }
    ensures belongs { IfOk result (λ one. one.how.0 < length hows.new) }
    ensures choices { IfOk result (λ one. choices_of hows.new one.how.0
        ≡ choices_of hows.old m.now.how.0 ++ choices_of hows.old k.how.0) }
    ensures older { KeepsWays hows.old hows.new }
{
    let how = hows.join(m.how, k.how)?;
    let cost = setting.factory.add(m.cost, k.cost);
    Ok(Measure {
        last: k.last,
        cost,
        how,
    })
}

// The measures of a row, each behind this one, up to and with the first that ends by `x`.
pub fn shifted<D: Documents, F: Factory>(
    setting: &Setting<D, F>,
    hows: &mut Hows,
    m: &Measure<F::Cost>,
    row: &Kept<F::Cost, HowId>,
    x: u32,
) -> Result<Kept<F::Cost, HowId>, Stop>
    requires value { IsValue (task setting.now).costs m.now.cost }
    requires values { EachIsValue (task setting.now).costs row.now }
    requires way { m.now.how.0 < length hows.old }
    requires belong { BelongTo hows.old row.now }
    ensures shifted { IfOk result (λ f. all_chosen hows.new f
        ≡ all_shifted (task setting.now).costs (chosen hows.old m.now) (cut x (all_chosen hows.old row.now))) }
    ensures belong { IfOk result (λ f. BelongTo hows.new f) }
    ensures older { KeepsWays hows.old hows.new }
{
    if let Some(k) = row.alone() {
        let one = measure_behind(setting, hows, m, k)?;
        return Ok(Kept::one(one));
    }
    let mut all = Kept::with_room(setting.alloc, most_by(row, x))?;
    let mut at = 0;
    while at < row.len() {
        let k = row.get(at);
        let one = measure_behind(setting, hows, m, k)?;
        all.push(setting.alloc, one)?;
        if k.last <= x {
            return Ok(all);
        }
        at += 1;
    }
    Ok(all)
}

// How many measures of the row there may be up to and with the first that ends by `x`. No contract says so: it is room
// alone.
fn most_by<C: Copy>(row: &Kept<C, HowId>, x: u32) -> usize {
    if row.len() > 0 && row.get(0).last <= x {
        1
    } else {
        row.len()
    }
}

// What stands behind the measure of a node whose number has a row which serves.
#[inline(never)]
pub fn behind_row<D: Documents, F: Factory>(
    setting: &Setting<D, F>,
    place: &Place<D::Node>,
    m: &mut Measure<F::Cost>,
    at: usize,
    found: &mut Found<F::Cost>,
) -> Result<Behind, Stop>
    requires holds { Holds (task setting.now) found.old }
    requires asked { IsAsked (task setting.now) found.old place.now m.old }
    requires serves { (number : ℕ) × ((task setting.now).documents.number place.now.node ≡ Some number)
        × Serves found.old.rows.items at number place.now.flat m.old.last place.now.cut }
    ensures given { IfOk result (IsGiven (task setting.now) found.old found.new place.now m.old m.new) }
    ensures goes_on { IfOk result (λ behind. GoesOn (task setting.now) found.old found.new) }
{
    let row = &found.rows[at].measures;
    if let Some(k) = row.alone() {
        *m = measure_behind(setting, &mut found.hows, m, k)?;
        return Ok(Behind::One);
    }
    let kept = shifted(setting, &mut found.hows, m, row, place.cut)?;
    Ok(found.give(kept, m))
}
