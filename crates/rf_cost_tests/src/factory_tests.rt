//! What each call of each factory answers.

ghost use Rattle.std.specs.Prelude.{◌≡◌, ◌<◌};
ghost use Rattle.rf_base_cost.specs.Cost.{IsValue};

use rf_base_steps::Steps;
use rf_cost::{Factory, Linear, Lines, Squares};
use std::marker::Brand;
use std::sync::ledger::{Blank, Ledger};
use std::test::Fail;

#[test]
fn squares_of_overflow(rt: HostRuntime) -> Result<(), Fail> {
    let factory = Squares { width: 10 };
    assert_eq!(rt; factory.text(8, 5), 9895604649984);
    assert_eq!(rt; factory.text(8, 2), 0);
    assert_eq!(rt; factory.text(12, 1), 5497558138880);
    assert_eq!(rt; factory.text(12, 0), 0);
    assert_eq!(rt; factory.newline(12), 4398046511105);
    assert_eq!(rt; factory.newline(10), 1);
    assert_eq!(rt; factory.charge(1000), 1000);
    assert_eq!(rt; factory.free_up_to(9), Some(9));
    assert_eq!(rt; factory.free_up_to(11), Some(10));
    assert_eq!(rt; factory.add(5497558138880, 1), 5497558138881);
    assert_eq!(rt;
        factory.add(340282366920938463463374607431768211455, 1),
        340282366920938463463374607431768211455
    );
    assert_eq!(rt;
        orders::<Brand, Squares>(&factory, 1, 2, Blank::new(1)),
        (true, true, false)
    );
    Ok(())
}

#[test]
fn overflow_in_columns(rt: HostRuntime) -> Result<(), Fail> {
    let factory = Linear { width: 10 };
    assert_eq!(rt; factory.text(8, 5), 3298534883328);
    assert_eq!(rt; factory.text(8, 2), 0);
    assert_eq!(rt; factory.text(12, 1), 1099511627776);
    assert_eq!(rt; factory.text(12, 0), 0);
    assert_eq!(rt; factory.newline(12), 2199023255553);
    assert_eq!(rt; factory.newline(10), 1);
    assert_eq!(rt; factory.charge(1000), 1000);
    assert_eq!(rt; factory.free_up_to(9), Some(9));
    assert_eq!(rt; factory.free_up_to(11), Some(10));
    assert_eq!(rt; factory.add(1099511627776, 1), 1099511627777);
    assert_eq!(rt;
        factory.add(340282366920938463463374607431768211455, 1),
        340282366920938463463374607431768211455
    );
    assert_eq!(rt;
        orders::<Brand, Linear>(&factory, 1, 2, Blank::new(1)),
        (true, true, false)
    );
    Ok(())
}

#[test]
fn lines_alone(rt: HostRuntime) -> Result<(), Fail> {
    let factory = Lines;
    assert_eq!(rt; factory.text(8, 5), 0);
    assert_eq!(rt; factory.text(134217728, 134217728), 0);
    assert_eq!(rt; factory.newline(12), 1);
    assert_eq!(rt; factory.charge(1000), 1000);
    assert_eq!(rt; factory.free_up_to(11), Some(11));
    assert_eq!(rt; factory.add(1, 1), 2);
    assert_eq!(rt;
        factory.add(340282366920938463463374607431768211455, 1),
        340282366920938463463374607431768211455
    );
    assert_eq!(rt;
        orders::<Brand, Lines>(&factory, 1, 2, Blank::new(1)),
        (true, true, false)
    );
    Ok(())
}

// Whether a is at most itself, a at most b, and b at most a.
fn orders<L: Ledger, F: Factory>(
    factory: &F,
    a: F::Cost,
    b: F::Cost,
    blank: Blank,
) -> (bool, bool, bool)
    requires first { IsValue (F.costs factory.now) a }
    requires second { IsValue (F.costs factory.now) b }
    requires name { blank.name ≡ L.name }
    requires parts { blank.parts ≡ L.parts }
    requires some_part { 0 < blank.parts }
{
    let mut steps: Steps<L> = Steps::new(blank);
    let same = factory.le(a, a, &mut steps);
    let up = factory.le(a, b, &mut steps);
    let down = factory.le(b, a, &mut steps);
    (same, up, down)
}
