// What words say.
use crate::telling::told;
use rf_words::USAGE;
use std::alloc::{AllocError, Global};
use std::process::Abort;
use std::test::Fail;

const NUMBERS: &str = "∅⇒jobs=1 plain
--width|80⇒width=80 jobs=1 plain
--width=80⇒width=80 jobs=1 plain
--width|1⇒width=1 jobs=1 plain
--width=400⇒width=400 jobs=1 plain
--width|0⇒refused
--width=401⇒refused
--width|+5⇒width=5 jobs=1 plain
--width=007⇒width=7 jobs=1 plain
--width=-5⇒refused
--width|-5⇒refused
--width=⇒refused
--width|∅⇒refused
--width⇒refused
--width|eighty⇒refused
--width|8 0⇒refused
--width=99999999999999999999⇒refused
--width|80|--width|80⇒refused
--limit|1⇒limit=1 jobs=1 plain
--limit=400⇒limit=400 jobs=1 plain
--limit|0⇒refused
--limit|401⇒refused
--max-blank-lines|0⇒blanks=0 jobs=1 plain
--max-blank-lines=9⇒blanks=9 jobs=1 plain
--max-blank-lines|10⇒refused
--max-blank-lines|-1⇒refused
--jobs|1⇒jobs=1 plain
--jobs=64⇒jobs=64 plain
--jobs|0⇒refused
--jobs|65⇒refused
--sample|1⇒jobs=1 sample=1 plain
--sample=10000⇒jobs=1 sample=10000 plain
--sample|0⇒refused
--sample|10001⇒refused
--width|9|--limit=8|--max-blank-lines|0|--jobs=7|--sample|5⇒width=9 limit=8 blanks=0 jobs=7 sample=5 plain";

const TEXTS: &str = "--style|a.toml⇒style=a.toml jobs=1 plain
--style=a b⇒style=a b jobs=1 plain
--style|λ⇒style=λ jobs=1 plain
--style|⇒style= jobs=1 plain
--style=⇒style= jobs=1 plain
--style=-x⇒style=-x jobs=1 plain
--style|-x⇒refused
--style|--check⇒refused
--style⇒refused
--style|a|--style|b⇒refused
--cost|squares⇒squares jobs=1 plain
--cost=linear⇒linear jobs=1 plain
--cost|lines⇒lines jobs=1 plain
--cost|cubes⇒refused
--cost|Lines⇒refused
--cost=⇒refused
--cost|lines|--cost|lines⇒refused
--columns|characters⇒characters jobs=1 plain
--columns=display⇒display jobs=1 plain
--columns|wide⇒refused
--columns|DISPLAY⇒refused
--style=s|--cost=lines|--columns=display⇒style=s lines display jobs=1 plain";

const MODES: &str = "--check⇒jobs=1 check
--choices⇒jobs=1 choices
--summary⇒jobs=1 summary
--check|--choices⇒refused
--choices|--check⇒refused
--check|--summary⇒refused
--choices|--summary⇒refused
--check|--choices|--summary⇒refused
--check|--check⇒refused
--check=true⇒refused
--check|--width|9⇒width=9 jobs=1 check
--sample|2|--summary⇒jobs=1 sample=2 summary";

const OTHERS: &str = "--help⇒refused
-h⇒refused
--version⇒refused
-V⇒refused
help⇒refused
x⇒refused
-⇒refused
--⇒jobs=1 plain
--|x⇒refused
--|--check⇒refused
--colour⇒refused
--colour=1⇒refused
--wid|80⇒refused
--Width|80⇒refused
-w|80⇒refused
-c⇒refused
--width|80|x⇒refused
--width 80⇒refused
---width|80⇒refused
|⇒refused";

#[test]
fn each_number(rt: HostRuntime) -> Result<(), Fail> {
    check(&rt, rt.alloc(), NUMBERS)
}

#[test]
fn each_text(rt: HostRuntime) -> Result<(), Fail> {
    check(&rt, rt.alloc(), TEXTS)
}

#[test]
fn each_mode(rt: HostRuntime) -> Result<(), Fail> {
    check(&rt, rt.alloc(), MODES)
}

#[test]
fn each_other_word(rt: HostRuntime) -> Result<(), Fail> {
    check(&rt, rt.alloc(), OTHERS)
}

#[test]
fn the_usage_line_names_each_option(rt: HostRuntime) -> Result<(), Fail> {
    for option in "--width --limit --max-blank-lines --style --cost --columns --jobs --check --choices --summary --sample".split(
        ' ',
    ) {
        assert!(&rt; USAGE.contains(option), "{option}");
    }
    Ok(())
}

// Reads the words of each row, and compares what they say with the row's answer.
fn check(rt: &impl Abort, alloc: Global, rows: &str) -> Result<(), Fail> {
    for row in rows.split('\n') {
        let (shown, wanted) = row.split_once('⇒').ok_or("a row without an answer")?;
        let words = words_of(alloc, shown)?;
        let got = told(alloc, words.as_slice())?;
        assert_eq!(rt; got.as_str(), wanted, "{shown}");
    }
    Ok(())
}

// The words that stand between the bars.
fn words_of(alloc: Global, shown: &str) -> Result<Vec<String>, AllocError> {
    let mut words = Vec::new(alloc);
    if shown == "∅" {
        return Ok(words);
    }
    for word in shown.split('|') {
        let word = if word == "∅" { "" } else { word };
        words.push(String::from_str(alloc, word)?)?;
    }
    Ok(words)
}
