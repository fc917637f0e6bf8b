//! Frontiers that were put are found again, and no others.

ghost use Rattle.std.specs.Prelude.{◌<◌, ◌*◌};

use rf_cost::{Factory, Squares};
use rf_frontier::{Frontier, Hows, leaf};
use rf_memo::Memo;
use std::alloc::{AllocError, Global};
use std::test::Fail;

#[test]
fn each_frontier_is_found_at_its_key_alone(rt: HostRuntime) -> Result<(), Fail> {
    let mut memo = Memo::new(rt.alloc());
    let mut hows = Hows::new(rt.alloc());
    put_at(
        rt.alloc(),
        &Squares { width: 10 },
        &mut memo,
        &mut hows,
        7,
        4,
        2,
    )?;
    assert_eq!(rt; last_at(&memo, 7, 4, 2), Some(742));
    assert_eq!(rt; last_at(&memo, 7, 4, 3), None);
    assert_eq!(rt; last_at(&memo, 7, 5, 2), None);
    assert_eq!(rt; last_at(&memo, 6, 4, 2), None);
    assert_eq!(rt; last_at(&memo, 8, 4, 2), None);
    Ok(())
}

#[test]
fn all_keys_are_found_in_mixed_order(rt: HostRuntime) -> Result<(), Fail> {
    let mut memo = Memo::new(rt.alloc());
    let mut hows = Hows::new(rt.alloc());
    for k in 0..1000u32 {
        let key = k * 387 % 1000;
        put_at(
            rt.alloc(),
            &Squares { width: 10 },
            &mut memo,
            &mut hows,
            key / 100,
            key / 10 % 10,
            key % 10,
        )?;
    }
    for k in 0..1000u32 {
        assert_eq!(rt;
            last_at(&memo, (k / 100) as usize, k / 10 % 10, k % 10),
            Some(k)
        );
    }
    assert_eq!(rt; last_at(&memo, 10, 0, 0), None);
    assert_eq!(rt; last_at(&memo, 3, 10, 0), None);
    Ok(())
}

// Puts a frontier of one measure, whose last column tells its key, where nothing was put yet.
fn put_at<F: Factory>(
    alloc: Global,
    factory: &F,
    memo: &mut Memo<F::Cost>,
    hows: &mut Hows,
    node: u32,
    col: u32,
    indent: u32,
) -> Result<(), AllocError>
    requires node { node < 100 }
    requires col { col < 10 }
    requires indent { indent < 10 }
{
    let last = node * 100 + col * 10 + indent;
    let f = leaf(alloc, hows, last, factory.charge(0))?;
    put_new(memo, node as usize, col, indent, f)
}

// Puts a frontier where nothing was put yet.
fn put_new<C: Copy>(
    memo: &mut Memo<C>,
    node: usize,
    col: u32,
    indent: u32,
    f: Frontier<C>,
) -> Result<(), AllocError> {
    if memo.get(node, col, indent).is_some() {
        return Ok(());
    }
    match memo.put(node, col, indent, f) {
        Ok(()) => Ok(()),
        Err(_) => Err(AllocError),
    }
}

// The last column of the first measure of the frontier, where there is one.
fn last_at<C: Copy>(memo: &Memo<C>, node: usize, col: u32, indent: u32) -> Option<u32> {
    let f = memo.get(node, col, indent)?;
    let first = f.measures().first()?;
    Some(first.last)
}
