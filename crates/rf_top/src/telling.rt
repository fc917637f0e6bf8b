//! The line that says why a run stops, written without memory.

ghost use Rattle.std.specs.Prelude.{◌≡◌, ◌++◌, map, codes, decimal};
ghost use Rattle.std.specs.Fmt.{signed_decimal};
ghost use Rattle.std.specs.List.{concat};
ghost use Rattle.rf_top.specs.Lines.{line_of, status_of, kind_name, lex_kind_name, tree_kind_name};
ghost use Rattle.rf_top.specs.Running.{Tells};

use crate::status::Status;
use crate::stops::Stop;
use itoa::Buffer;
use rf_base_grammar::LexKind;
use rf_base_source::SourceKind;
use rf_base_tree::TreeKind;
use rf_edges::{Sink, write_whole};
use rf_words::USAGE;

/// Says why a run stops, as much of it as can be, and answers its status.
pub fn end<E: Sink>(err: &mut E, stop: &Stop) -> Status
    ensures status { result ≡ status_of stop.now }
    ensures told { Tells (E.written err.old) (E.written err.new) (E.faults err.old) (E.faults err.new)
        (line_of stop.now ++ codes "\n") }
{
    tell_stop(err, stop);
    status_of(stop)
}

// Says why a run stops, as much of it as can be.
fn tell_stop<E: Sink>(err: &mut E, stop: &Stop)
    ensures { Tells (E.written err.old) (E.written err.new) (E.faults err.old) (E.faults err.new)
        (line_of stop.now ++ codes "\n") }
{
    match stop {
        Stop::Words => tell(err, &[USAGE.as_bytes(), b"\n"]),
        Stop::Read => tell(err, &[b"read fault\n"]),
        Stop::StyleTooLong => tell(err, &[b"style: TooLong\n"]),
        Stop::StyleText => tell(err, &[b"style: StyleText\n"]),
        Stop::StyleKey(key) => tell(err, &[b"style: StyleKey ", key.as_bytes(), b"\n"]),
        Stop::StyleValue(key) => tell(err, &[b"style: StyleValue ", key.as_bytes(), b"\n"]),
        Stop::StyleRange(key, number) => tell_range(err, key, *number),
        Stop::SourceTooLong => tell(err, &[b"source: TooLong\n"]),
        Stop::Refused { kind, offset } => tell_refusal(err, *kind, *offset),
        Stop::LayoutTooLong => tell(err, &[b"layout too long\n"]),
        Stop::Write => tell(err, &[b"write fault\n"]),
        Stop::Memory => tell(err, &[b"out of memory\n"]),
    }
}

// Says that a key of the style file has a number out of its range.
fn tell_range<E: Sink>(err: &mut E, key: &str, number: i64)
    ensures { Tells (E.written err.old) (E.written err.new) (E.faults err.old) (E.faults err.new)
        ((codes "style: StyleRange " ++ key.now ++ codes " " ++ signed_decimal number) ++ codes "\n") }
{
    let mut digits = Buffer::new();
    let number = digits.format(number);
    tell(
        err,
        &[
            b"style: StyleRange ",
            key.as_bytes(),
            b" ",
            number.as_bytes(),
            b"\n",
        ],
    );
}

// Says that a source is refused.
fn tell_refusal<E: Sink>(err: &mut E, kind: SourceKind, offset: u32)
    ensures { Tells (E.written err.old) (E.written err.new) (E.faults err.old) (E.faults err.new)
        (codes "source: " ++ kind_name kind ++ codes " at " ++ decimal offset ++ codes "\n") }
{
    let name = kind_name(kind);
    let mut digits = Buffer::new();
    let offset = digits.format(offset);
    tell(
        err,
        &[
            b"source: ",
            name.as_bytes(),
            b" at ",
            offset.as_bytes(),
            b"\n",
        ],
    );
}

// The status of a run that stops so.
fn status_of(stop: &Stop) -> Status
    ensures { result ≡ status_of stop.now }
{
    match stop {
        Stop::Words => Status::WordsRefused,
        Stop::Read => Status::ReadFault,
        Stop::StyleTooLong
        | Stop::StyleText
        | Stop::StyleKey(_)
        | Stop::StyleValue(_)
        | Stop::StyleRange(_, _) => Status::StyleRefused,
        Stop::SourceTooLong | Stop::Refused { .. } => Status::SourceRefused,
        Stop::LayoutTooLong => Status::TooLong,
        Stop::Write => Status::WriteFault,
        Stop::Memory => Status::NoMemory,
    }
}

// Writes pieces one after another, as much of them as can be. It takes no memory.
fn tell<E: Sink>(err: &mut E, pieces: &[&[u8]])
    ensures { Tells (E.written err.old) (E.written err.new) (E.faults err.old) (E.faults err.new)
        (concat (map (λ piece. piece.now) pieces.now)) }
{
    for piece in pieces {
        match write_whole(err, piece) {
            Ok(()) => {}
            Err(_) => return,
        }
    }
}

// The name of a kind of refusal.
fn kind_name(kind: SourceKind) -> &'static str
    ensures { result.now ≡ kind_name kind }
{
    match kind {
        SourceKind::NotUtf8 => "NotUtf8",
        SourceKind::Lex(kind) => lex_kind_name(kind),
        SourceKind::Tree(kind) => tree_kind_name(kind),
    }
}

// The name of one of the lexer's kinds.
fn lex_kind_name(kind: LexKind) -> &'static str
    ensures { result.now ≡ lex_kind_name kind }
{
    match kind {
        LexKind::BadHash => "BadHash",
        LexKind::OpenString => "OpenString",
        LexKind::OpenComment => "OpenComment",
        LexKind::OpenBar => "OpenBar",
        LexKind::OpenHere => "OpenHere",
        LexKind::StrayLineEnd => "StrayLineEnd",
        LexKind::LanguageLine => "LanguageLine",
        LexKind::LanguageReader => "LanguageReader",
    }
}

// The name of one of the tree's kinds.
fn tree_kind_name(kind: TreeKind) -> &'static str
    ensures { result.now ≡ tree_kind_name kind }
{
    match kind {
        TreeKind::CloseWithout => "CloseWithout",
        TreeKind::CloseMismatch => "CloseMismatch",
        TreeKind::OpenList => "OpenList",
        TreeKind::NothingAfter => "NothingAfter",
        TreeKind::BadDot => "BadDot",
        TreeKind::TooDeep => "TooDeep",
    }
}
