// The rules of heads.
use crate::telling::{rule_told, style_told};
use indexmap::IndexMap;
use rf_style::{Charges, Form, Forms, Rule, default_table};
use std::test::Fail;

// A head, and its default rule.
const HEADS: &str = "define⇒body 1 1 0,0,0
set!⇒body 1 1 0,0,0
lambda⇒body 1 1 0,0,0
λ⇒body 1 1 0,0,0
cond⇒clauses 0 0 0,0,0
case-lambda⇒clauses 0 0 0,0,0
match⇒clauses 1 0 0,0,0
syntax-case⇒clauses 2 0 0,0,0
let⇒bindings 1 0 0,0,0
with-handlers⇒bindings 1 0 0,0,0
for⇒bindings 1 0 0,0,0
for/first⇒bindings 1 0 0,0,0
for*/fold⇒bindings 2 0 0,0,0
module+⇒body 1 0 0,0,0
begin0⇒body 0 0 0,0,0
module⇒body 2 0 0,0,0
struct⇒body 2 2 0,0,0
provide⇒hang 0 0 0,0,0
quote⇒data 0 0 0,0,0
displayln⇒app 0 0 0,0,0
defin⇒app 0 0 0,0,0
define2⇒app 0 0 0,0,0
⇒app 0 0 0,0,0";

#[test]
fn each_head_has_its_rule(rt: HostRuntime) -> Result<(), Fail> {
    let alloc = rt.alloc();
    let style = default_table(alloc)?;
    for row in HEADS.split('\n') {
        let (name, wanted) = row.split_once('⇒').ok_or("a row without an answer")?;
        let got = rule_told(alloc, &style.forms.head_rule(name))?;
        assert_eq!(&rt; got.as_str(), wanted, "{name}");
    }
    Ok(())
}

#[test]
fn the_default_style_is_told(rt: HostRuntime) -> Result<(), Fail> {
    let alloc = rt.alloc();
    let style = default_table(alloc)?;
    assert_eq!(&rt;
        style_told(alloc, &style)?.as_str(),
        "102 120 1 squares characters 49"
    );
    let names = style.forms.into_map();
    let (first, _) = names.get_index(0).ok_or("a first name")?;
    let (last, _) = names.get_index(48).ok_or("a last name")?;
    assert_eq!(&rt; first.as_str(), "define");
    assert_eq!(&rt; last.as_str(), "quote");
    Ok(())
}

#[test]
fn a_rule_that_is_put_is_found(rt: HostRuntime) -> Result<(), Fail> {
    let alloc = rt.alloc();
    let rule = Rule {
        form: Form::Hang,
        header: 0,
        flat: 0,
        charges: Charges {
            broken: 1,
            hung: 2,
            flat: 3,
        },
    };
    let mut forms = Forms::from_map(IndexMap::new(alloc));
    forms.put(String::from_str(alloc, "foo")?, rule)?;
    assert_eq!(&rt;
        rule_told(alloc, &forms.head_rule("foo"))?.as_str(),
        "hang 0 0 1,2,3"
    );
    assert_eq!(&rt;
        rule_told(alloc, &forms.head_rule("fo"))?.as_str(),
        "app 0 0 0,0,0"
    );
    Ok(())
}
