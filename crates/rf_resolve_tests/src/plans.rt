//! Lists of measures, each with its choices written out.

use std::alloc::{AllocError, Global};

/// A measure: the column that a layout ends at, its cost, and its choices as the letters L and R.
#[derive(Drop)]
pub struct Plan {
    pub last: u32,
    pub cost: u128,
    pub letters: String,
}

impl Plan {
    /// The list of one measure without choices, if it is within the limit.
    pub fn only(
        alloc: Global,
        is_within: bool,
        last: u32,
        cost: u128,
    ) -> Result<Vec<Plan>, AllocError> {
        let mut plans = Vec::new(alloc);
        if is_within {
            plans.push(Plan {
                last,
                cost,
                letters: String::new(alloc),
            })?;
        }
        Ok(plans)
    }

    /// This measure and then that one.
    pub fn then(&self, alloc: Global, next: &Plan) -> Result<Plan, AllocError> {
        let first = self.letters.as_str();
        let second = next.letters.as_str();
        Ok(Plan {
            last: next.last,
            cost: self.cost.saturating_add(next.cost),
            letters: format!(in alloc; "{first}{second}")?,
        })
    }

    /// This measure at so much more cost, behind a letter or none.
    pub fn behind(&self, alloc: Global, letter: &str, cost: u128) -> Result<Plan, AllocError> {
        let letters = self.letters.as_str();
        Ok(Plan {
            last: self.last,
            cost: self.cost.saturating_add(cost),
            letters: format!(in alloc; "{letter}{letters}")?,
        })
    }

    // Whether this measure is nowhere above the other.
    fn dominates(&self, other: &Plan) -> bool {
        self.last <= other.last && self.cost <= other.cost
    }
}

/// Puts each of the measures into the list, at so much more cost, behind a letter or none.
pub fn put_all(
    alloc: Global,
    into: &mut Vec<Plan>,
    plans: &Vec<Plan>,
    letter: &str,
    cost: u128,
) -> Result<(), AllocError> {
    for plan in plans {
        into.push(plan.behind(alloc, letter, cost)?)?;
    }
    Ok(())
}

/// What no other measure dominates, by falling last column from the limit; of equal ones the earliest.
pub fn pareto(alloc: Global, plans: &Vec<Plan>, limit: u32) -> Result<Vec<Plan>, AllocError> {
    let mut kept = Vec::new(alloc);
    for column in (0..=limit).rev() {
        put_those_at(alloc, &mut kept, plans, column)?;
    }
    Ok(kept)
}

// Puts those measures that end at a column and that no other one dominates.
fn put_those_at(
    alloc: Global,
    kept: &mut Vec<Plan>,
    plans: &Vec<Plan>,
    column: u32,
) -> Result<(), AllocError> {
    for at in 0..plans.len() {
        if plans[at].last == column && !is_outdone(plans, at) {
            kept.push(plans[at].behind(alloc, "", 0)?)?;
        }
    }
    Ok(())
}

// Whether another measure dominates the one at this place: of equal ones the earlier.
fn is_outdone(plans: &Vec<Plan>, at: usize) -> bool {
    if at >= plans.len() {
        return false;
    }
    for other in 0..plans.len() {
        let dominates = plans[other].dominates(&plans[at]);
        let is_dominated = plans[at].dominates(&plans[other]);
        if dominates && (!is_dominated || other < at) {
            return true;
        }
    }
    false
}
