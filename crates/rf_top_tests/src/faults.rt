// Reads and writes that are short, and calls that fail, row by row.
//
// A row is the edge of which a call fails, the call's number and how many bytes a call moves at most; the words; a
// source; and how the run ends: its status, and what is written on either output; with arrows between. The sign ⏎
// stands for LF.
use crate::rows::{parted, read_signs};
use crate::runs::{End, Plan, ends};
use rf_edges::{CountSink, MemSink, OpenGate, SureShelf, SureSource};
use rf_top::{Status, run_surely};
use std::test::Fail;

const ROWS: &str = "none 0 1 ⇒  ⇒ (a (b c)) () ⇒ Fine ⇒ (a (b c))⏎()⏎ ⇒ 
none 0 2 ⇒  ⇒ (a (b c)) () ⇒ Fine ⇒ (a (b c))⏎()⏎ ⇒ 
none 0 3 ⇒  ⇒ (a (b c)) () ⇒ Fine ⇒ (a (b c))⏎()⏎ ⇒ 
none 0 7 ⇒  ⇒ (a (b c)) () ⇒ Fine ⇒ (a (b c))⏎()⏎ ⇒ 
input 1 1 ⇒  ⇒ (a b) ⇒ ReadFault ⇒  ⇒ read fault⏎
input 2 1 ⇒  ⇒ (a b) ⇒ ReadFault ⇒  ⇒ read fault⏎
input 3 1 ⇒  ⇒ (a b) ⇒ ReadFault ⇒  ⇒ read fault⏎
input 4 1 ⇒  ⇒ (a b) ⇒ ReadFault ⇒  ⇒ read fault⏎
input 5 1 ⇒  ⇒ (a b) ⇒ ReadFault ⇒  ⇒ read fault⏎
input 6 1 ⇒  ⇒ (a b) ⇒ ReadFault ⇒  ⇒ read fault⏎
input 7 1 ⇒  ⇒ (a b) ⇒ Fine ⇒ (a b)⏎ ⇒ 
input 1 2 ⇒  ⇒ (a b) ⇒ ReadFault ⇒  ⇒ read fault⏎
input 2 2 ⇒ --check ⇒ (a b) ⇒ ReadFault ⇒  ⇒ read fault⏎
input 1 1 ⇒ --sample 1 --summary ⇒ ) ⇒ Fine ⇒ bytes 98⏎items 45⏎lines 8⏎cost 8⏎within yes⏎ ⇒ 
shelf 1 9 ⇒ --style s ⇒ (a b) ⇒ ReadFault ⇒  ⇒ read fault⏎
shelf 2 9 ⇒ --style s ⇒ (a b) ⇒ Fine ⇒ (a b)⏎ ⇒ 
shelf 1 9 ⇒  ⇒ (a b) ⇒ Fine ⇒ (a b)⏎ ⇒ 
output 1 3 ⇒  ⇒ (a b) ⇒ WriteFault ⇒  ⇒ write fault⏎
output 2 3 ⇒  ⇒ (a b) ⇒ WriteFault ⇒ (a  ⇒ write fault⏎
output 3 3 ⇒  ⇒ (a b) ⇒ Fine ⇒ (a b)⏎ ⇒ 
output 1 2 ⇒  ⇒ (a b) ⇒ WriteFault ⇒  ⇒ write fault⏎
output 2 2 ⇒  ⇒ (a b) ⇒ WriteFault ⇒ (a ⇒ write fault⏎
output 3 2 ⇒  ⇒ (a b) ⇒ WriteFault ⇒ (a b ⇒ write fault⏎
output 1 9 ⇒ --check ⇒ (a b) ⇒ WriteFault ⇒  ⇒ write fault⏎
output 1 9 ⇒ --check ⇒ (a b)⏎ ⇒ Fine ⇒  ⇒ 
output 1 9 ⇒  ⇒ (a ⇒ SourceRefused ⇒  ⇒ source: OpenList at 0⏎
error 1 9 ⇒  ⇒ ( ⇒ SourceRefused ⇒  ⇒ 
error 2 8 ⇒  ⇒ ) ⇒ SourceRefused ⇒  ⇒ source: 
error 1 9 ⇒  ⇒ (a b) ⇒ Fine ⇒ (a b)⏎ ⇒ ";

// The status of this name.
fn status_named(name: &str) -> Status {
    match name {
        "Fine" => Status::Fine,
        "SourceRefused" => Status::SourceRefused,
        "ReadFault" => Status::ReadFault,
        "WriteFault" => Status::WriteFault,
        _ => Status::NoMemory,
    }
}

// The plan over this source with these words, of which a call of the edge fails.
fn failing<'a>(edge: &str, words: &'a str, source: &'a [u8]) -> Plan<'a> {
    let (edge, numbers) = edge.split_once(" ").unwrap_or((edge, "0"));
    let (call, step) = numbers.split_once(" ").unwrap_or((numbers, "1"));
    let call = call.parse::<u32>().unwrap_or(0);
    let fails_at = |name: &str| if edge == name { call } else { 0 };
    Plan {
        words: if words.is_empty() { None } else { Some(words) },
        style: b"",
        source,
        step: step.parse::<usize>().unwrap_or(1),
        read_fails: fails_at("input"),
        style_fails: fails_at("shelf"),
        write_fails: fails_at("output"),
        tell_fails: fails_at("error"),
    }
}

#[test]
fn faults_are_answered(rt: HostRuntime) -> Result<(), Fail> {
    for row in ROWS.split('\n') {
        let (edge, texts) = parted(row);
        let (words, texts) = parted(texts);
        let (source, answer) = parted(texts);
        let (status, texts) = parted(answer);
        let (out, err) = parted(texts);
        let source = read_signs(rt.alloc(), source)?;
        let out = read_signs(rt.alloc(), out)?;
        let err = read_signs(rt.alloc(), err)?;
        let end = End {
            status: status_named(status),
            out: out.as_bytes(),
            err: err.as_bytes(),
        };
        ends(
            &rt,
            rt.alloc(),
            &failing(edge, words, source.as_bytes()),
            end,
            row,
        )?;
    }
    Ok(())
}

#[test]
fn an_outside_that_never_fails_gets_the_answer(rt: HostRuntime) -> Result<(), Fail> {
    let words = vec![in rt.alloc(); String::from_str(rt.alloc(), "--style=s")?]?;
    let mut input = SureSource::new(b"(a   b)".to_vec(rt.alloc())?, 3);
    let mut shelf = SureShelf::new(b"width = 80\n".to_vec(rt.alloc())?);
    let mut out = CountSink::new();
    let mut err = MemSink::with_room(rt.alloc(), 9, 9, Vec::new(rt.alloc()))?;
    let status = run_surely(
        &rt,
        rt.alloc(),
        &words,
        &mut input,
        &mut shelf,
        &mut out,
        &mut err,
        &OpenGate,
    );
    assert_eq!(rt; status, Status::Fine);
    assert_eq!(rt; out.taken(), 6);
    assert_eq!(rt; err.bytes(), b"".as_slice());
    Ok(())
}
