//! Frontiers as texts.

ghost use Rattle.std.specs.Prelude.{◌<◌, length};
ghost use Rattle.rf_frontier.specs.Frontiers.{BelongTo};

use rf_base_document::Dir;
use rf_frontier::{Frontier, How, HowId, Hows, Measure};
use std::alloc::{AllocError, Global};

/// Each measure as its last column, its cost and its choices, with a semicolon behind.
pub fn shown(alloc: Global, f: &Frontier<u128>, hows: &Hows) -> Result<String, AllocError>
    requires { BelongTo hows.now f.now }
{
    let mut text = String::new(alloc);
    let measures = f.measures();
    let mut at = 0;
    while at < measures.len() {
        let m = measures[at];
        let row = format!(in alloc; "{} {} ", m.last, m.cost)?;
        text.push_str(row.as_str())?;
        show_way(m.how, hows, &mut text)?;
        text.push_str(";")?;
        at += 1;
    }
    Ok(text)
}

/// Each measure as its last column, its cost and the number of its way, with a semicolon behind.
pub fn listed(alloc: Global, measures: &[Measure<u128>]) -> Result<String, AllocError> {
    let mut text = String::new(alloc);
    for m in measures {
        let row = format!(in alloc; "{} {} {};", m.last, m.cost, m.how.0)?;
        text.push_str(row.as_str())?;
    }
    Ok(text)
}

// The choices of a way.
fn show_way(id: HowId, hows: &Hows, text: &mut String) -> Result<(), AllocError>
    requires { id.0 < length hows.now }
{
    match hows.way(id) {
        How::Leaf => Ok(()),
        How::Mark(Dir::Left, rest) => {
            text.push_str("L")?;
            show_way(rest, hows, text)
        }
        How::Mark(Dir::Right, rest) => {
            text.push_str("R")?;
            show_way(rest, hows, text)
        }
        How::Join(first, second) => {
            show_way(first, hows, text)?;
            show_way(second, hows, text)
        }
    }
}
