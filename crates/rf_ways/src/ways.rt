//! How lists are laid out, by what they stand in and by the rule of their head.

ghost use Rattle.std.specs.Prelude.{◌≡◌, ◌<◌, length, is_some, count_by};
ghost use Rattle.rf_base_file.specs.declared.shapes.Roles.TheVariants as Roles;
ghost use Rattle.rf_base_style.specs.Table.{IsRule, AreRules, AreCharges};
ghost use Rattle.rf_base_file.specs.Ways.{first_role, later_roles, plain_way, first_word, second_word};
ghost use Rattle.rf_base_file.specs.Ways.{data_count as count_data};
ghost use Rattle.rf_base_file.specs.Ways.{named_headers, body_way, form_way, word_way, way_of};
ghost use Rattle.rf_tree.specs.Kept.{IsTree, HasNode, HasItem};
ghost use Rattle.rf_tree.specs.Slots.{NodeSlotsBelow, parts_in, read_slot};
ghost use Rattle.rf_tree.specs.Ahead.{slots_ahead, IsCursor};
ghost use Rattle.rf_ways.specs.Steps.{role_behind};
ghost use Rattle.rf_ways.specs.Words.{told, IsItemWord, IsNodeWord, IsSlotWord, OfSlots, TellsDatum};
ghost use Rattle.std.specs.List.{AllByRecursion};

use rf_base_file::{Role, Roles, Shape, Way};
use rf_base_grammar::Kind;
use rf_style::{Charges, Form, Rule, Style};
use rf_tree::{At, Node, SlotRef, Slots, Tree};

/// The role of the first slot's datum.
pub fn first_role(roles: Roles) -> Role
    ensures { result ≡ first_role roles }
{
    match roles {
        Roles::AllFree => Role::Free,
        Roles::ClausesBehind(slots) if slots == 0 => Role::Clause,
        Roles::ClausesBehind(_) => Role::Free,
        Roles::BindingsBehind(slots) if slots == 0 => Role::Bindings,
        Roles::BindingsBehind(_) => Role::Free,
    }
}

/// The roles of the others.
pub fn later_roles(roles: Roles) -> Roles
    ensures { result ≡ later_roles roles }
{
    match roles {
        Roles::AllFree => Roles::AllFree,
        Roles::ClausesBehind(slots) if slots == 0 => Roles::ClausesBehind(0),
        Roles::ClausesBehind(slots) => Roles::ClausesBehind(slots - 1),
        Roles::BindingsBehind(slots) if slots == 0 => Roles::AllFree,
        Roles::BindingsBehind(slots) => Roles::BindingsBehind(slots - 1),
    }
}

/// The role of a datum behind this key, if there is one.
pub fn role_behind(key: Option<At>, role: Role) -> Role
    ensures { result ≡ role_behind key role }
{
    match key {
        None => role,
        Some(_) => Role::Free,
    }
}

/// How the list of these slots is laid out, quoted or a vector or neither, with this role.
#[inline(always)]
pub fn way_of(tree: &Tree, style: &Style, quoted: bool, role: Role, slots: Slots<'_>) -> Way
    requires tree { IsTree tree.now }
    requires rules { AreRules style.now.forms }
    requires cursor { IsCursor slots }
    requires slots { NodeSlotsBelow (length tree.now.nodes) (slots_ahead slots) }
    ensures way { OfSlots tree.now (slots_ahead slots.entry)
        (λ ss. result ≡ way_of style.now.forms quoted role ss) }
    ensures charges { AreCharges result.charges }
{
    if quoted {
        return plain_way(Roles::AllFree);
    }
    match role {
        Role::Clause => plain_way(Roles::AllFree),
        Role::Bindings => plain_way(Roles::ClausesBehind(0)),
        Role::Free => word_way(tree, style, slots),
    }
}

// Plain data without charges.
fn plain_way(roles: Roles) -> Way
    ensures way { result ≡ plain_way roles }
    ensures charges { AreCharges result.charges }
{
    Way {
        shape: Shape::Plain,
        charges: Charges {
            broken: 0,
            hung: 0,
            flat: 0,
        },
        roles,
    }
}

// How the list of these slots is laid out by the rule of its head.
#[inline(always)]
fn word_way(tree: &Tree, style: &Style, slots: Slots<'_>) -> Way
    requires tree { IsTree tree.now }
    requires rules { AreRules style.now.forms }
    requires cursor { IsCursor slots }
    requires slots { NodeSlotsBelow (length tree.now.nodes) (slots_ahead slots) }
    ensures way { OfSlots tree.now (slots_ahead slots.entry) (λ ss. result
        ≡ word_way style.now.forms (first_word ss) ss) }
    ensures charges { AreCharges result.charges }
{
    match first_word(tree, slots) {
        None => plain_way(Roles::AllFree),
        Some(word) => rule_way(tree, &style.forms.head_rule(word), slots),
    }
}

// How the list of these slots is laid out by this rule. Its second word is read and its data are counted only where the
// rule's form asks for it.
fn rule_way(tree: &Tree, rule: &Rule, slots: Slots<'_>) -> Way
    requires tree { IsTree tree.now }
    requires rule { IsRule rule.now }
    requires cursor { IsCursor slots }
    requires slots { NodeSlotsBelow (length tree.now.nodes) (slots_ahead slots) }
    ensures way { OfSlots tree.now (slots_ahead slots.entry) (λ ss. result
        ≡ form_way rule.now.form rule.now (is_some (second_word ss)) (count_data ss)) }
    ensures charges { AreCharges result.charges }
{
    match rule.form {
        Form::App => form_way(rule, false, 0),
        Form::Hang => form_way(rule, false, 0),
        Form::Plain => form_way(rule, false, 0),
        Form::Body => form_way(rule, false, data_count(slots)),
        Form::Clauses => form_way(rule, false, data_count(slots)),
        Form::Bindings => {
            let named = second_word(tree, slots).is_some();
            form_way(rule, named, data_count(slots))
        }
    }
}

// How a list of so many data is laid out by this rule, where its second slot is a name or isn't.
fn form_way(rule: &Rule, named: bool, count: usize) -> Way
    requires { IsRule rule.now }
    ensures way { result ≡ form_way rule.now.form rule.now named count }
    ensures charges { AreCharges result.charges }
{
    match rule.form {
        Form::App => Way {
            shape: Shape::Application,
            charges: rule.charges,
            roles: Roles::AllFree,
        },
        Form::Hang => Way {
            shape: Shape::Hanging,
            charges: rule.charges,
            roles: Roles::AllFree,
        },
        Form::Plain => Way {
            shape: Shape::Plain,
            charges: rule.charges,
            roles: Roles::AllFree,
        },
        Form::Body => body_way(rule, rule.header, count, Roles::AllFree),
        Form::Clauses => {
            let roles = Roles::ClausesBehind(rule.header + 1);
            body_way(rule, rule.header, count, roles)
        }
        Form::Bindings => {
            let headers = named_headers(rule.header, named);
            body_way(rule, headers, count, Roles::BindingsBehind(headers))
        }
    }
}

// A list of this shape and these charges, which gives no roles.
fn shape_way(shape: Shape, charges: Charges) -> Way
    ensures { result ≡ record { shape = shape; charges = charges; roles = Roles.AllFree } }
{
    Way {
        shape,
        charges,
        roles: Roles::AllFree,
    }
}

// A body with so many headers, of so many data, and these roles, or an application where headers are missing.
fn body_way(rule: &Rule, headers: u32, count: usize, roles: Roles) -> Way
    ensures { result ≡ body_way rule.now.charges headers rule.now.flat count roles }
{
    if headers as usize >= count {
        return shape_way(Shape::Application, rule.charges);
    }
    let bodies = count - headers as usize - 1;
    Way {
        shape: Shape::Body {
            headers,
            one_line: bodies <= rule.flat as usize,
        },
        charges: rule.charges,
        roles,
    }
}

// The number of headers of bindings, where the second slot is a name or isn't.
fn named_headers(headers: u32, named: bool) -> u32
    ensures { result ≡ named_headers headers named }
{
    if headers == 1 && named { 2 } else { headers }
}

// The word of the first slot.
#[inline(always)]
fn first_word<'t>(tree: &'t Tree, slots: Slots<'_>) -> Option<&'t str>
    requires tree { IsTree tree.now }
    requires cursor { IsCursor slots }
    requires slots { NodeSlotsBelow (length tree.now.nodes) (slots_ahead slots) }
    ensures { OfSlots tree.now (slots_ahead slots.entry) (λ ss. told result ≡ first_word ss) }
{
    match slots.first_datum() {
        Some(at) => node_word(tree, at),
        None => parted_word(tree, slots),
    }
}

// The same of any slots, by the parts of the first.
#[inline(never)]
fn parted_word<'t>(tree: &'t Tree, slots: Slots<'_>) -> Option<&'t str>
    requires tree { IsTree tree.now }
    requires cursor { IsCursor slots }
    requires slots { NodeSlotsBelow (length tree.now.nodes) (slots_ahead slots) }
    ensures { OfSlots tree.now (slots_ahead slots.entry) (λ ss. told result ≡ first_word ss) }
{
    let mut ahead = slots;
    match ahead.next() {
        None => None,
        Some(slot) => slot_word(tree, slot),
    }
}

// The word of the second slot.
fn second_word<'t>(tree: &'t Tree, slots: Slots<'_>) -> Option<&'t str>
    requires tree { IsTree tree.now }
    requires cursor { IsCursor slots }
    requires slots { NodeSlotsBelow (length tree.now.nodes) (slots_ahead slots) }
    ensures { OfSlots tree.now (slots_ahead slots.entry) (λ ss. told result ≡ second_word ss) }
{
    let mut ahead = slots;
    match ahead.next() {
        None => None,
        Some(_) => first_word(tree, ahead),
    }
}

// The word of a slot: the characters of its datum, where that is an atom without a key.
fn slot_word<'t>(tree: &'t Tree, slot: SlotRef<'_>) -> Option<&'t str>
    requires tree { IsTree tree.now }
    requires slot { AllByRecursion (λ at. at.0 < length tree.now.nodes) (parts_in (read_slot slot)) }
    ensures { IsSlotWord tree.now (read_slot slot.entry) result }
{
    match (slot.key, slot.datum) {
        (None, Some(at)) => node_word(tree, at),
        (None, None) => None,
        (Some(_), _) => None,
    }
}

// The characters of what stands at the node, where that is an atom.
fn node_word<'t>(tree: &'t Tree, at: At) -> Option<&'t str>
    requires tree { IsTree tree.now }
    requires there { HasNode tree.now at }
    ensures { IsNodeWord tree.now at result }
{
    match tree.nodes.node(at) {
        Node::Leaf(item) => item_word(tree, item),
        _ => None,
    }
}

// The characters of the item, where it is an atom.
fn item_word<'t>(tree: &'t Tree, item: usize) -> Option<&'t str>
    requires tree { IsTree tree.now }
    requires there { HasItem tree.now item }
    ensures { IsItemWord tree.now item result }
{
    match tree.items[item].kind {
        Kind::Atom => Some(tree.text(item)),
        _ => None,
    }
}

// How many of the slots have a datum.
fn data_count(slots: Slots<'_>) -> usize
    requires { IsCursor slots }
    ensures { result ≡ count_by (λ s. is_some s.datum) (slots_ahead slots.entry) }
{
    let most = slots.most();
    let mut ahead = slots;
    let mut count = 0;
    while let Some(has_datum) = next_has_datum(&mut ahead) {
        if has_datum {
            count += 1;
        }
    }
    count
}

// Whether the next slot has a datum, if one is left, which is taken.
fn next_has_datum(slots: &mut Slots<'_>) -> Option<bool>
    requires { IsCursor slots.old }
    ensures cursor { IsCursor slots.new }
    ensures next { TellsDatum (slots_ahead slots.old) result (slots_ahead slots.new) }
{
    if slots.next_alone().is_some() {
        return Some(true);
    }
    match slots.next() {
        None => None,
        Some(slot) => Some(slot.datum.is_some()),
    }
}
