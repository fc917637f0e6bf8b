//! Documents whose resolutions are too many to list, or whose nodes lie far below one another.

use crate::showing::{at_limit, core_of, shown};
use rf_cost::Squares;
use rf_counting::Counting;
use rf_doc::Graph;
use rf_documents::{doubled, left_chain, nests, resolve_by, right_chain, text};
use rf_resolve::ResolveError;
use std::test::Fail;

#[test]
fn sixty_choices_one_after_another(rt: HostRuntime) -> Result<(), Fail> {
    let mut graph = Graph::new(rt.alloc());
    let a = text(&mut graph, "a")?;
    let bb = text(&mut graph, "bb")?;
    let one = graph.choice(a, bb)?;
    let empty = text(&mut graph, "")?;
    let all = right_chain(&mut graph, one, empty, 60)?;
    let core = core_of(rt.alloc(), &graph, all)?;
    assert_eq!(rt; core.len(), 64);
    let factory = Counting::new(Squares { width: 80 });
    let found = resolve_by(rt.alloc(), &core, &factory, 80)?;
    assert_eq!(rt;
        shown(rt.alloc(), &found)?.as_str(),
        "LLLLLLLLLLLLLLLLLLLLLLLLLLLLLLLLLLLLLLLLLLLLLLLLLLLLLLLLLLLL 0 true 60"
    );
    assert!(rt; factory.comparisons() <= 16_734_014_208);
    Ok(())
}

#[test]
fn a_choice_doubled_twenty_times(rt: HostRuntime) -> Result<(), Fail> {
    let mut graph = Graph::new(rt.alloc());
    let a = text(&mut graph, "a")?;
    let empty = text(&mut graph, "")?;
    let one = graph.choice(a, empty)?;
    let all = doubled(&mut graph, one, 20)?;
    let core = core_of(rt.alloc(), &graph, all)?;
    assert_eq!(rt; core.len(), 23);
    let factory = Counting::new(Squares { width: 80 });
    let found = resolve_by(rt.alloc(), &core, &factory, 1)?;
    assert_eq!(rt; found.choices.len(), 1_048_576);
    assert_eq!(rt; found.cost, 0);
    assert!(rt; found.within);
    assert!(rt; factory.comparisons() <= 3_312);
    Ok(())
}

#[test]
fn a_text_under_nests(rt: HostRuntime) -> Result<(), Fail> {
    let mut graph = Graph::new(rt.alloc());
    let a = text(&mut graph, "a")?;
    let all = nests(&mut graph, a, 1_000_000)?;
    assert_eq!(rt;
        at_limit(rt.alloc(), &graph, all, 80)?.as_str(),
        " 0 true 1 [a]"
    );
    Ok(())
}

#[test]
fn a_text_past_the_limit_under_nests(rt: HostRuntime) -> Result<(), Fail> {
    let mut graph = Graph::new(rt.alloc());
    let a = text(&mut graph, "abc")?;
    let all = nests(&mut graph, a, 1_000_000)?;
    assert_eq!(rt;
        at_limit(rt.alloc(), &graph, all, 2)?.as_str(),
        " 0 false 3 [abc]"
    );
    Ok(())
}

#[test]
fn a_chain_to_the_left(rt: HostRuntime) -> Result<(), Fail> {
    let mut graph = Graph::new(rt.alloc());
    let none = text(&mut graph, "")?;
    let all = left_chain(&mut graph, none, 1_000_000)?;
    assert_eq!(rt;
        at_limit(rt.alloc(), &graph, all, 80)?.as_str(),
        " 0 true 0 []"
    );
    Ok(())
}

#[test]
fn a_chain_to_the_right(rt: HostRuntime) -> Result<(), Fail> {
    let mut graph = Graph::new(rt.alloc());
    let none = text(&mut graph, "")?;
    let all = right_chain(&mut graph, none, none, 1_000_000)?;
    assert_eq!(rt;
        at_limit(rt.alloc(), &graph, all, 80)?.as_str(),
        " 0 true 0 []"
    );
    Ok(())
}

#[test]
fn a_chain_to_the_left_behind_a_long_text(rt: HostRuntime) -> Result<(), Fail> {
    let mut graph = Graph::new(rt.alloc());
    let none = text(&mut graph, "")?;
    let chain = left_chain(&mut graph, none, 100_000)?;
    let long = text(&mut graph, "abc")?;
    let all = graph.concat(long, chain)?;
    assert_eq!(rt;
        at_limit(rt.alloc(), &graph, all, 2)?.as_str(),
        " 0 false 3 [abc]"
    );
    Ok(())
}

#[test]
fn a_text_doubled_27_times_is_too_long(rt: HostRuntime) -> Result<(), Fail> {
    let mut graph = Graph::new(rt.alloc());
    let a = text(&mut graph, "a")?;
    let all = doubled(&mut graph, a, 27)?;
    let core = core_of(rt.alloc(), &graph, all)?;
    let factory = Squares { width: 80 };
    let found = resolve_by(rt.alloc(), &core, &factory, 80);
    assert!(rt; matches!(found, Err(ResolveError::TooLong)));
    Ok(())
}
