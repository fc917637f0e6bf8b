//! Laws of ways and of frontiers. Each function has an empty body, and its contract is the law.

ghost use Rattle.rf_frontier.specs.Laws.{WaysKeepThemselves, WaysGoOn, FrontiersGoOn, ParetoGoesOn};

/// Ways keep themselves.
pub fn ways_keep_themselves()
    ensures { WaysKeepThemselves }
{}

/// What is kept by ways that are kept is kept.
pub fn ways_go_on()
    ensures { WaysGoOn }
{}

/// A frontier of older ways belongs to newer ones that keep them, with the same choices.
pub fn frontiers_go_on<C>()
    ensures { FrontiersGoOn C }
{}

/// Pruning the first part of a list before the whole changes nothing.
pub fn pareto_goes_on<C, H>()
    ensures { ParetoGoesOn C H }
{}
