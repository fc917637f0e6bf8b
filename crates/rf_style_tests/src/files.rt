// What style files say.
use crate::telling::told;
use std::alloc::{AllocError, Global};
use std::process::Abort;
use std::test::Fail;

const NUMBERS: &str = r##"⇒102 120 1 squares characters 49
# a comment⏎⇒102 120 1 squares characters 49
x⏎⇒StyleText
width = ⏎⇒StyleText
width = 80⏎width = 81⏎⇒StyleText
width = 0⏎⇒StyleRange width 0
width = 1⏎⇒1 120 1 squares characters 49
width = 400⏎limit = 400⏎⇒400 400 1 squares characters 49
width = 401⏎⇒StyleRange width 401
width = -1⏎⇒StyleRange width -1
width = 0x50⏎⇒80 120 1 squares characters 49
width = 80.0⏎⇒StyleValue width
width = "80"⏎⇒StyleValue width
width = true⏎⇒StyleValue width
width = 1979-05-27⏎⇒StyleValue width
width = 9223372036854775807⏎⇒StyleRange width 9223372036854775807
width = 9223372036854775808⏎⇒StyleText
limit = 0⏎⇒StyleRange limit 0
limit = 401⏎⇒StyleRange limit 401
limit = [1]⏎⇒StyleValue limit
max-blank-lines = 0⏎⇒102 120 0 squares characters 49
max-blank-lines = 9⏎⇒102 120 9 squares characters 49
max-blank-lines = 10⏎⇒StyleRange max-blank-lines 10
max-blank-lines = -1⏎⇒StyleRange max-blank-lines -1
cost = "squares"⏎⇒102 120 1 squares characters 49
cost = "linear"⏎⇒102 120 1 linear characters 49
cost = "lines"⏎⇒102 120 1 lines characters 49
cost = "cubes"⏎⇒StyleValue cost
cost = "Squares"⏎⇒StyleValue cost
cost = 1⏎⇒StyleValue cost"##;

const VERSIONS: &str = r##"version = 1⏎⇒102 120 1 squares characters 49
version = 2⏎⇒102 120 1 squares characters 49
version = 0⏎⇒StyleRange version 0
version = 3⏎⇒StyleRange version 3
version = -1⏎⇒StyleRange version -1
version = "2"⏎⇒StyleValue version
columns = "display"⏎⇒StyleKey columns
version = 1⏎columns = "display"⏎⇒StyleKey columns
version = 2⏎columns = "display"⏎⇒102 120 1 squares display 49
columns = "characters"⏎version = 2⏎⇒102 120 1 squares characters 49
version = 2⏎columns = "wide"⏎⇒StyleValue columns
version = 2⏎columns = 1⏎⇒StyleValue columns
version = 3⏎columns = "display"⏎⇒StyleKey columns
version = 2.0⏎columns = "display"⏎⇒StyleKey columns
[forms]⏎foo = { shape = "app", charges = [0, 5, 5] }⏎⇒StyleKey charges
version = 2⏎[forms]⏎foo = { shape = "app", charges = [0, 5, 5] }⏎⇒102 120 1 squares characters 50|49 foo app 0 0 0,5,5
version = 2⏎[forms]⏎foo = { shape = "hang", charges = [1000, 1, 1000] }⏎⇒102 120 1 squares characters 50|49 foo hang 0 0 1000,1,1000
version = 2⏎[forms]⏎foo = { shape = "app", charges = [0, 1] }⏎⇒StyleValue charges
version = 2⏎[forms]⏎foo = { shape = "app", charges = [] }⏎⇒StyleValue charges
version = 2⏎[forms]⏎foo = { shape = "app", charges = [0, 1, 2, 3] }⏎⇒StyleValue charges
version = 2⏎[forms]⏎foo = { shape = "app", charges = [0, 0, 1001] }⏎⇒StyleRange charges 1001
version = 2⏎[forms]⏎foo = { shape = "app", charges = [0, -1, 1001] }⏎⇒StyleRange charges -1
version = 2⏎[forms]⏎foo = { shape = "app", charges = [2000, "a", 0] }⏎⇒StyleValue charges
version = 2⏎[forms]⏎foo = { shape = "app", charges = [0, 0, 0.0] }⏎⇒StyleValue charges
version = 2⏎[forms]⏎foo = { shape = "app", charges = 3 }⏎⇒StyleValue charges
version = 2⏎[forms]⏎foo = { charges = [0, 0, 0] }⏎⇒StyleValue foo"##;

const ORDERS: &str = r##"colour = 1⏎⇒StyleKey colour
a = 1⏎version = 3⏎⇒StyleKey a
version = 3⏎a = 1⏎⇒StyleKey a
width = 0⏎version = 3⏎⇒StyleRange version 3
zeta = 1⏎width = 0⏎⇒StyleRange width 0
limit = 0⏎[forms]⏎a = 1⏎⇒StyleValue a
cost = "x"⏎[forms]⏎a = 1⏎⇒StyleValue cost
[forms]⏎b = { shape = "x" }⏎a = { flat = 11 }⏎⇒StyleRange flat 11
[forms]⏎a = { shape = "x", flat = 11 }⏎⇒StyleRange flat 11
[forms]⏎a = { shape = "x", header = 11, flat = 11 }⏎⇒StyleRange flat 11
[forms]⏎a = { flat = 11, charges = [0, 0, 0] }⏎⇒StyleKey charges
[forms]⏎a = { zeta = 1 }⏎⇒StyleKey zeta
[forms]⏎a = { Zeta = 1, flat = 11 }⏎⇒StyleKey Zeta
[forms]⏎a = { shape = "bindings", header = 0, zeta = 1 }⏎⇒StyleKey zeta"##;

const RULES: &str = r##"forms = 1⏎⇒StyleValue forms
[[forms]]⏎a = 1⏎⇒StyleValue forms
[forms]⏎⇒102 120 1 squares characters 49
[forms]⏎foo = 1⏎⇒StyleValue foo
[forms]⏎foo = {}⏎⇒StyleValue foo
[forms]⏎foo = { header = 1 }⏎⇒StyleValue foo
[forms]⏎foo = { shpe = "app" }⏎⇒StyleKey shpe
[forms]⏎foo = { shape = "apps" }⏎⇒StyleValue shape
[forms]⏎foo = { shape = 1 }⏎⇒StyleValue shape
[forms]⏎foo = { shape = "app" }⏎⇒102 120 1 squares characters 50
[forms]⏎foo = { shape = "hang" }⏎⇒102 120 1 squares characters 50|49 foo hang 0 0 0,0,0
[forms]⏎foo = { shape = "data", header = 3, flat = 4 }⏎⇒102 120 1 squares characters 50|49 foo data 3 4 0,0,0
[forms]⏎foo = { shape = "body", header = 9, flat = 9 }⏎⇒102 120 1 squares characters 50|49 foo body 9 9 0,0,0
[forms]⏎foo = { shape = "clauses" }⏎⇒102 120 1 squares characters 50|49 foo clauses 0 0 0,0,0
[forms]⏎foo = { shape = "bindings" }⏎⇒102 120 1 squares characters 50|49 foo bindings 1 0 0,0,0
[forms]⏎foo = { shape = "bindings", header = 2 }⏎⇒102 120 1 squares characters 50|49 foo bindings 2 0 0,0,0
[forms]⏎foo = { shape = "bindings", header = 0 }⏎⇒StyleRange header 0
[forms]⏎foo = { shape = "clauses", header = 0 }⏎⇒102 120 1 squares characters 50|49 foo clauses 0 0 0,0,0
[forms]⏎foo = { shape = "body", header = 10 }⏎⇒StyleRange header 10
[forms]⏎foo = { shape = "body", header = "1" }⏎⇒StyleValue header
[forms]⏎foo = { shape = "body", flat = -1 }⏎⇒StyleRange flat -1
[forms]⏎let = { shape = "data" }⏎⇒102 120 1 squares characters 49|14 let data 0 0 0,0,0
[forms]⏎define = { shape = "hang" }⏎quote = { shape = "hang" }⏎⇒102 120 1 squares characters 49|0 define hang 0 0 0,0,0|48 quote hang 0 0 0,0,0
[forms]⏎"λ" = { shape = "data" }⏎⇒102 120 1 squares characters 49|6 λ data 0 0 0,0,0
[forms]⏎zz = { shape = "hang" }⏎aa = { shape = "hang" }⏎⇒102 120 1 squares characters 51|49 aa hang 0 0 0,0,0|50 zz hang 0 0 0,0,0
[forms.foo]⏎shape = "hang"⏎⇒102 120 1 squares characters 50|49 foo hang 0 0 0,0,0
forms.foo.shape = "hang"⏎⇒102 120 1 squares characters 50|49 foo hang 0 0 0,0,0
[forms]⏎"a b" = { shape = "hang" }⏎⇒102 120 1 squares characters 50|49 a b hang 0 0 0,0,0"##;

#[test]
fn each_number_and_word(rt: HostRuntime) -> Result<(), Fail> {
    check(&rt, rt.alloc(), NUMBERS)
}

#[test]
fn each_version(rt: HostRuntime) -> Result<(), Fail> {
    check(&rt, rt.alloc(), VERSIONS)
}

#[test]
fn the_first_fault_decides(rt: HostRuntime) -> Result<(), Fail> {
    check(&rt, rt.alloc(), ORDERS)
}

#[test]
fn each_rule(rt: HostRuntime) -> Result<(), Fail> {
    check(&rt, rt.alloc(), RULES)
}

#[test]
fn bytes_that_are_no_text_are_no_style(rt: HostRuntime) -> Result<(), Fail> {
    let alloc = rt.alloc();
    assert_eq!(&rt; told(alloc, b"# \xff\n")?.as_str(), "StyleText");
    assert_eq!(&rt;
        told(alloc, b"width = 80\r\n")?.as_str(),
        "80 120 1 squares characters 49"
    );
    Ok(())
}

// Reads the style file of each row, and compares what it says with the row's answer.
fn check(rt: &impl Abort, alloc: Global, rows: &str) -> Result<(), Fail> {
    for row in rows.split('\n') {
        let (shown, wanted) = row.split_once('⇒').ok_or("a row without an answer")?;
        let file = file_of(alloc, shown)?;
        let got = told(alloc, file.as_bytes())?;
        assert_eq!(rt; got.as_str(), wanted, "{shown}");
    }
    Ok(())
}

// The style file that the signs stand for.
fn file_of(alloc: Global, shown: &str) -> Result<String, AllocError> {
    let mut file = String::new(alloc);
    for c in shown.chars() {
        file.push(if c == '⏎' { '\n' } else { c })?;
    }
    Ok(file)
}
