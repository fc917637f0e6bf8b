//! Frontiers that are known: those of texts and line breaks, which are made on the spot, and those that the memo has.

ghost use Rattle.std.specs.Prelude.{◌≡◌, ◌<◌, ℕ, List, length, IfOk, IfSome, None, is_some};
ghost use Rattle.std.specs.Bool.{OnTrue, OnFalse};
ghost use Rattle.rf_base_document.specs.Graph.{IsNode, TextNode, NewlineNode};
ghost use Rattle.rf_resolve.specs.Keys.{IsAsked, leaf_at};
ghost use Rattle.rf_resolve.specs.Holding.{MemoHolds, IsFrontierAt, IsLeafMeasure, found_at};
ghost use Rattle.rf_resolve.specs.Joining.{IsKnown, IsGiven};

use crate::keys::Key;
use crate::settings::Setting;
use rf_cost::Factory;
use rf_flat::CoreNode;
use rf_frontier::{Frontier, Hows, Measure, at_most_one, leaf_measure};
use rf_memo::Memo;
use std::alloc::{AllocError, Global};

// Whether the node of the key is a text or a line break.
fn is_leaf<F: Factory>(setting: &Setting<F>, key: Key) -> bool
    requires { IsAsked setting.now.core.now.nodes setting.now.limit key }
    ensures { result ≡ leaf_at setting.now.core.now.nodes key.node }
{
    match *setting.core.node(key.node) {
        CoreNode::Text(_, _) => true,
        CoreNode::Newline => true,
        _ => false,
    }
}

/// The measure at the key of a text or a line break, if its node is one; `Some(None)` where that goes past the width.
/// It takes no memory.
pub fn leaf<F: Factory>(
    setting: &Setting<F>,
    hows: &Hows,
    key: Key,
) -> Option<Option<Measure<F::Cost>>>
    requires asked { IsAsked setting.now.core.now.nodes setting.now.limit key }
    requires begun { 0 < length hows.now }
    ensures kind { is_some result ≡ leaf_at setting.now.core.now.nodes key.node }
    ensures measure { IfSome result (λ m. IsLeafMeasure (F.costs setting.now.factory.now) setting.now.limit
        setting.now.core.now.nodes hows.now key m) }
{
    match *setting.core.node(key.node) {
        CoreNode::Text(_, len) => Some(text(setting, hows, key, len)),
        CoreNode::Newline => Some(newline(setting, hows, key)),
        _ => None,
    }
}

/// The frontier at the key of a text or a line break, if its node is one.
pub fn leaf_frontier<F: Factory>(
    alloc: Global,
    setting: &Setting<F>,
    hows: &Hows,
    key: Key,
) -> Result<Option<Frontier<F::Cost>>, AllocError>
    requires asked { IsAsked setting.now.core.now.nodes setting.now.limit key }
    requires begun { 0 < length hows.now }
    ensures { IfOk result (λ leaf. IfSome leaf (λ f. IsFrontierAt (F.costs setting.now.factory.now) setting.now.limit
        setting.now.core.now.nodes hows.now key f)) }
{
    match leaf(setting, hows, key) {
        Some(m) => Ok(Some(at_most_one(alloc, m)?)),
        None => Ok(None),
    }
}

/// The frontier at the key, if it is known: the leaf's, or what the memo has.
pub fn known<'m, F: Factory>(
    setting: &Setting<F>,
    memo: &'m Memo<F::Cost>,
    hows: &Hows,
    leaf: &'m Option<Frontier<F::Cost>>,
    key: Key,
) -> Option<&'m Frontier<F::Cost>>
    requires holds { MemoHolds (F.costs setting.now.factory.now) setting.now.limit setting.now.core.now.nodes hows.now
        memo.now }
    requires leaf { IfSome leaf.now (λ f. IsFrontierAt (F.costs setting.now.factory.now) setting.now.limit
        setting.now.core.now.nodes hows.now key f) }
    ensures frontier { IfSome result (λ f. IsFrontierAt (F.costs setting.now.factory.now) setting.now.limit
        setting.now.core.now.nodes hows.now key f.now) }
    ensures missing { result ≡ None → found_at memo.now key ≡ None }
{
    // The clauses alone speak of these two.
    let _ = hows;
    let _ = setting;
    match leaf {
        Some(found) => Some(found),
        None => memo.get(key.node, key.column, key.indentation),
    }
}

/// The measure of a text of `len` columns, unless it goes past the width.
pub fn text<F: Factory>(
    setting: &Setting<F>,
    hows: &Hows,
    key: Key,
    len: u32,
) -> Option<Measure<F::Cost>>
    requires node { (s : List ℕ) × IsNode setting.now.core.now.nodes key.node (TextNode s len) }
    requires asked { IsAsked setting.now.core.now.nodes setting.now.limit key }
    requires begun { 0 < length hows.now }
    ensures { IsLeafMeasure (F.costs setting.now.factory.now) setting.now.limit setting.now.core.now.nodes hows.now key
        result }
{
    if len > setting.limit - key.column {
        return None;
    }
    let cost = setting.factory.text(key.column, len);
    Some(leaf_measure(hows, key.column + len, cost))
}

/// The measure of a line break, unless it goes past the width.
pub fn newline<F: Factory>(setting: &Setting<F>, hows: &Hows, key: Key) -> Option<Measure<F::Cost>>
    requires node { IsNode setting.now.core.now.nodes key.node NewlineNode }
    requires asked { IsAsked setting.now.core.now.nodes setting.now.limit key }
    requires begun { 0 < length hows.now }
    ensures { IsLeafMeasure (F.costs setting.now.factory.now) setting.now.limit setting.now.core.now.nodes hows.now key
        result }
{
    if key.indentation > setting.limit {
        return None;
    }
    let cost = setting.factory.newline(key.indentation);
    Some(leaf_measure(hows, key.indentation, cost))
}

/// Whether the frontier at the key is that of a text or a line break, or the memo has it.
pub fn is_given<F: Factory>(setting: &Setting<F>, memo: &Memo<F::Cost>, key: Key) -> bool
    requires { IsAsked setting.now.core.now.nodes setting.now.limit key }
    ensures given { OnTrue result (IsGiven setting.now.core.now.nodes memo.now key) }
    ensures missing { OnFalse result (found_at memo.now key ≡ None) }
{
    if is_leaf(setting, key) {
        return true;
    }
    is_known(memo, key)
}

/// Whether the memo has a frontier at the key.
pub fn is_known<C: Copy>(memo: &Memo<C>, key: Key) -> bool
    ensures known { OnTrue result (IsKnown memo.now key) }
    ensures missing { OnFalse result (found_at memo.now key ≡ None) }
{
    match memo.get(key.node, key.column, key.indentation) {
        Some(_) => true,
        None => false,
    }
}
