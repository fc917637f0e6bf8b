// What the program answers for small sources, row by row.
//
// A row is a source, an arrow, and its answer. The sign ⏎ stands for LF, ␍ for CR, and the signs of other white space
// are written out.
use crate::runs::{carried_out, ends, fine, plain, stopped, worded};
use rf_edges::OpenGate;
use rf_top::Status;
use std::alloc::{AllocError, Global};
use std::test::Fail;

// Sources and the texts that they are laid out as.
const LAID: &str = " ⇒ 
 ⏎⏎  ⇒ 
a ⇒ a⏎
a b ⇒ a⏎b⏎
() ⇒ ()⏎
( ) ⇒ ()⏎
(a   b) ⇒ (a b)⏎
(a (b c)) () ⇒ (a (b c))⏎()⏎
((a)(b))c ⇒ ((a) (b))⏎c⏎
(((a b) c) d) ⇒ (((a b) c) d)⏎
(let-loop! 10 *x* <=>) ⇒ (let-loop! 10 *x* <=>)⏎
(a␍⏎b)␍⏎ ⇒ (a b)⏎
; a␍⏎(b␍⏎␍⏎␍⏎c) ; d␍⏎ ⇒ ; a⏎(b⏎⏎ c) ; d⏎
(λ é) ⇒ (λ é)⏎
((λ)(日本 é)) ⇒ ((λ) (日本 é))⏎
a\tb\u{a0}c\u{3000}d ⇒ a⏎b⏎c⏎d⏎
(a\u{85}b\u{2028}c\u{2029}) ⇒ (a b c)⏎
\u{feff}(a) ⇒ \u{feff}⏎(a)⏎
(list #\\( #\\space #\\;) ⇒ (list #\\( #\\space #\\;)⏎
(|a (b| c\\ d #t #:key #%app #d10 #1# @e) ⇒ (|a (b| c\\ d #t #:key #%app #d10 #1# @e)⏎
a⏎⏎⏎(b⏎⏎c⏎)⏎⏎ ⇒ a⏎⏎(b⏎⏎ c)⏎
⏎⏎⏎a⏎⏎⏎⏎b⏎⏎⏎ ⇒ a⏎⏎b⏎
(f⏎⏎⏎a) ⇒ (f⏎⏎ a)⏎
(⏎⏎⏎a⏎⏎⏎) ⇒ (a)⏎
'⏎⏎⏎a ⇒ 'a⏎
(a #;⏎⏎b) ⇒ (a #;b)⏎
(a⏎⏎. b) ⇒ (a⏎⏎ . b)⏎
(f #:k⏎⏎v) ⇒ (f #:k⏎⏎   v)⏎
(a⏎⏎; c⏎⏎b) ⇒ (a⏎⏎ ; c⏎⏎ b)⏎
(a ; c⏎) ⇒ (a ; c⏎ )⏎
(a; c⏎⏎⏎) ⇒ (a ; c⏎ )⏎
( ; c⏎a) ⇒ ( ; c⏎  a)⏎
(⏎; c⏎a) ⇒ (⏎ ; c⏎ a)⏎
(; c⏎) ⇒ ( ; c⏎ )⏎
(a⏎; c⏎b) ⇒ (a⏎ ; c⏎ b)⏎
(a b⏎; c⏎) ⇒ (a b⏎   ; c⏎   )⏎
(a ; b⏎ ; c⏎ d) ⇒ (a ; b⏎ ; c⏎ d)⏎
a ; b⏎; c⏎⏎⏎; d⏎e ⇒ a ; b⏎; c⏎⏎; d⏎e⏎
'(a ; x⏎) ⇒ '(a ; x⏎  )⏎
' ; c⏎a ⇒ ' ; c⏎ a⏎
'⏎; c⏎a ⇒ '⏎ ; c⏎ a⏎
#!/bin/sh⏎#! x⏎a ⇒ #!/bin/sh⏎#! x⏎a⏎
#;#;a b c ⇒ #;#;a b⏎c⏎
#; a b ⇒ #;a⏎b⏎
(a #;b c) ⇒ (a #;b c)⏎
(a #;b) ⇒ (a #;b)⏎
(#;a #;b) ⇒ (#;a⏎ #;b)⏎
(#;a b) ⇒ (#;a⏎ b)⏎
'#;a b ⇒ '#;a b⏎
(a #;b ; c⏎ d) ⇒ (a #;b ; c⏎   d)⏎
(a #| b |# c) ⇒ (a #| b |# c)⏎
(a #|⏎x|# b) ⇒ (a #|⏎x|#⏎   b)⏎
(a #|⏎|# b) ⇒ (a #|⏎|#⏎   b)⏎
(a #|⏎|#⏎   b)⏎ ⇒ (a #|⏎|#⏎   b)⏎
(a #| b |# ; c⏎) ⇒ (a #| b |# ; c⏎   )⏎
#| a #| b |# c |# ⇒ #| a #| b |# c |#⏎
(f #:k v) ⇒ (f #:k v)⏎
(f #:k) ⇒ (f #:k)⏎
(f #:a #:b c) ⇒ (f #:a #:b c)⏎
(f #:k ; c⏎ v) ⇒ (f #:k ; c⏎   v)⏎
#:k v ⇒ #:k⏎v⏎
(a . b) ⇒ (a . b)⏎
(a . b . c) ⇒ (a . b . c)⏎
(a . (b c)) ⇒ (a . (b c))⏎
(a . #:k) ⇒ (a . #:k)⏎
(a . #;b c) ⇒ (a . #;b c)⏎
(a #;b . c) ⇒ (a #;b . c)⏎
(q , @x) ⇒ (q , @x)⏎
(q ,@x) ⇒ (q ,@x)⏎
'(1 `(a ,b ,@c)) ⇒ '(1 `(a ,b ,@c))⏎
#'(a #`(b #,c #, @d)) ⇒ #'(a #`(b #,c #, @d))⏎
(f #<<E⏎ab⏎E⏎) ⇒ (f #<<E⏎ab⏎E⏎   )⏎
(f #<<E⏎E⏎ g) ⇒ (f #<<E⏎E⏎   g)⏎
#<<E⏎ab⏎E ⇒ #<<E⏎ab⏎E⏎
(f \"x⏎ y\" z) ⇒ (f \"x⏎ y\"⏎   z)⏎
#rx\"a\"b'c ⇒ #rx\"a\"⏎b⏎'c⏎
(a |b⏎c|) ⇒ (a |b⏎c|)⏎
#lang racket/base⏎⏎⏎(a) ⇒ #lang racket/base⏎⏎(a)⏎
; c⏎#lang s-exp  \"x y\"; z⏎a ⇒ ; c⏎#lang s-exp  \"x y\" ; z⏎a⏎
[a {b c}] ⇒ [a {b c}]⏎
#(a b) #s(p 1) ⇒ #(a b)⏎#s(p 1)⏎
#hash((a . 1) (b . 2)) ⇒ #hash((a . 1) (b . 2))⏎
#3[a b] #&c #1=(d #1#) ⇒ #3[a b]⏎#&c⏎#1=(d #1#)⏎
(if a b c) ⇒ (if a b c)⏎
(when a b) ⇒ (when a⏎  b)⏎
(begin a) ⇒ (begin⏎  a)⏎
(define (f x) (g x)) ⇒ (define (f x) (g x))⏎
(define (f x) a b) ⇒ (define (f x)⏎  a⏎  b)⏎
(define (f x) (when a b)) ⇒ (define (f x)⏎  (when a⏎    b))⏎
(cond [a 1][else 2]) ⇒ (cond⏎  [a 1]⏎  [else 2])⏎
(let ([a 1][b 2]) a) ⇒ (let ([a 1] [b 2])⏎  a)⏎
(let loop ([i 0]) i) ⇒ (let loop ([i 0])⏎  i)⏎
(struct p (x) #:mutable #:transparent) ⇒ (struct p (x) #:mutable #:transparent)⏎
(struct p (x) a b c) ⇒ (struct p (x)⏎  a⏎  b⏎  c)⏎
'(when a b) #(when a b) ⇒ '(when a b)⏎#(when a b)⏎
`(when a ,(when b c)) ⇒ `(when⏎  a⏎  ,(when b⏎     c))⏎";

// Sources, and the answers that tell what their layouts cost, whether they are within 120 columns, and their choices. A
// line break costs 1, that at the file's end too. Of an application that stands on one line the second layout is taken
// where it has two parts, as the third is no better and comes later, and the third where it has more. Data have two
// layouts, and a list on another's one line takes its first, which is flat there.
const CHOICES: &str = " ⇒ cost 0⏎within yes⏎choices⏎
a b ⇒ cost 2⏎within yes⏎choices⏎
() (a) ((a)) ⇒ cost 3⏎within yes⏎choices⏎
(a   b) ⇒ cost 1⏎within yes⏎choices RL⏎
(a (b c)) ⇒ cost 1⏎within yes⏎choices RLRL⏎
(a b) (c d) e (f g h) ⇒ cost 4⏎within yes⏎choices RLRLRR⏎
((a b) (c (d e))) ⇒ cost 1⏎within yes⏎choices RLLL⏎
(a ; c⏎) ⇒ cost 2⏎within yes⏎choices⏎
(a⏎; c⏎) ⇒ cost 3⏎within yes⏎choices L⏎
(; c⏎a) ⇒ cost 2⏎within yes⏎choices⏎
(#;(b c) a) ⇒ cost 2⏎within yes⏎choices RL⏎
'#;(a b)(c d) ⇒ cost 1⏎within yes⏎choices RR⏎
(f #:k v) ⇒ cost 1⏎within yes⏎choices RL⏎
(#:k v) ⇒ cost 1⏎within yes⏎choices⏎
(a . b) ⇒ cost 1⏎within yes⏎choices RL⏎
'(a b) #(c d) #hash((e . f)) ⇒ cost 3⏎within yes⏎choices RRR⏎
(f #<<E⏎ab⏎E⏎) ⇒ cost 4⏎within yes⏎choices RL⏎
(f⏎⏎⏎a) ⇒ cost 3⏎within yes⏎choices L⏎
#lang racket⏎(a b) ⇒ cost 2⏎within yes⏎choices RL⏎
(a b⏎; c⏎) ⇒ cost 3⏎within yes⏎choices RL⏎
(a ; b⏎ ; c⏎ d) ⇒ cost 3⏎within yes⏎choices L⏎
(f \"x⏎ y\" z) ⇒ cost 3⏎within yes⏎choices RL⏎
(if a b c) ⇒ cost 1⏎within yes⏎choices R⏎
(define (f x) x) ⇒ cost 1⏎within yes⏎choices RL⏎
(define (f x) a b) ⇒ cost 3⏎within yes⏎choices RL⏎
(let loop ([i 0]) i) ⇒ cost 2⏎within yes⏎choices LR⏎";

// Layouts at the edge of the page, at column 102, and of the computation, at column 120: how many letters x stand for
// the sign ~, a source, the text that it is laid out as, and the answer that tells of it. A line that ends n columns
// behind the page costs n * n * 1,099,511,627,776. Where nothing is within 120 columns, each part is laid out by
// itself.
const WIDE: &str = "98 (f ~) ⇒ (f ~)⏎ ⇒ cost 1⏎within yes⏎choices RL⏎
99 (f ~) ⇒ (f⏎ ~)⏎ ⇒ cost 2⏎within yes⏎choices L⏎
96 (f ~ y) ⇒ (f ~ y)⏎ ⇒ cost 1⏎within yes⏎choices RR⏎
97 (f ~ y) ⇒ (f ~⏎   y)⏎ ⇒ cost 2⏎within yes⏎choices RL⏎
99 (f ~ y) ⇒ (f ~⏎   y)⏎ ⇒ cost 2⏎within yes⏎choices RL⏎
100 (f ~ y) ⇒ (f⏎ ~⏎ y)⏎ ⇒ cost 3⏎within yes⏎choices L⏎
102 ~ ⇒ ~⏎ ⇒ cost 1⏎within yes⏎choices⏎
103 ~ ⇒ ~⏎ ⇒ cost 1099511627777⏎within yes⏎choices⏎
120 ~ ⇒ ~⏎ ⇒ cost 356241767399425⏎within yes⏎choices⏎
121 ~ ⇒ ~⏎ ⇒ cost 396923697627137⏎within no⏎choices⏎
117 (f ~) ⇒ (f⏎ ~)⏎ ⇒ cost 317758860427266⏎within yes⏎choices L⏎
121 ~ (f a b) ⇒ ~⏎(f a b)⏎ ⇒ cost 396923697627138⏎within no⏎choices RR⏎
120 (g ~ (f a b)) ⇒ (g⏎ ~⏎ (f a b))⏎ ⇒ cost 396923697627139⏎within no⏎choices LRR⏎
89 (define (f) ~) ⇒ (define (f) ~)⏎ ⇒ cost 1⏎within yes⏎choices R⏎
90 (define (f) ~) ⇒ (define (f)⏎  ~)⏎ ⇒ cost 2⏎within yes⏎choices L⏎
93 (if a ~ b) ⇒ (if a ~ b)⏎ ⇒ cost 1⏎within yes⏎choices R⏎
94 (if a ~ b) ⇒ (if a⏎    ~⏎    b)⏎ ⇒ cost 3⏎within yes⏎choices L⏎
97 '(a ~ b) ⇒ '(a⏎  ~⏎  b)⏎ ⇒ cost 3⏎within yes⏎choices L⏎";

// Sources that are refused, with the kind and the offset.
const REFUSED: &str = "# ⇒ BadHash at 0
#ci x ⇒ BadHash at 0
#fl3(1) ⇒ BadHash at 0
#123456789( ⇒ BadHash at 0
#\\ ⇒ BadHash at 0
#! a\\ ⇒ BadHash at 0
\"ab ⇒ OpenString at 0
#rx\"a ⇒ OpenString at 0
(a \"b ⇒ OpenString at 3
#| a #| b |# ⇒ OpenComment at 0
#|#|# ⇒ OpenComment at 0
|ab ⇒ OpenBar at 0
a\\ ⇒ OpenBar at 0
#&|a ⇒ OpenBar at 2
#\\a|b c| ⇒ OpenBar at 6
#<<E⏎ab ⇒ OpenHere at 0
; a␍b ⇒ StrayLineEnd at 3
;\u{2028} ⇒ StrayLineEnd at 1
#<<E⏎a␍⏎E ⇒ StrayLineEnd at 6
(x)⏎#lang racket ⇒ LanguageLine at 4
#lang racket x y ⇒ LanguageLine at 0
#lang racket;x ⇒ LanguageLine at 0
#lang scribble/base ⇒ LanguageReader at 0
) \"b ⇒ OpenString at 2
(a] #ci ⇒ BadHash at 4
(a ⇒ OpenList at 0
(( ⇒ OpenList at 1
(() ⇒ OpenList at 0
(a ; b) ⇒ OpenList at 0
(a . b ⇒ OpenList at 0
) ⇒ CloseWithout at 0
() ) ⇒ CloseWithout at 3
λ) ⇒ CloseWithout at 2
(a] ⇒ CloseMismatch at 2
[a} ⇒ CloseMismatch at 2
#hash(a] ⇒ CloseMismatch at 7
(λ \"é\" ] ⇒ CloseMismatch at 9
' ⇒ NothingAfter at 0
(') ⇒ NothingAfter at 1
#;) ⇒ NothingAfter at 0
(a #;) ⇒ NothingAfter at 3
'#;a ⇒ NothingAfter at 0
#; ; c⏎ ⇒ NothingAfter at 0
(#;a '⏎) ⇒ NothingAfter at 5
. ⇒ BadDot at 0
' . ⇒ BadDot at 2
(. a) ⇒ BadDot at 1
#(a . b) ⇒ BadDot at 4
(a . ) ⇒ BadDot at 5
(a . . b) ⇒ BadDot at 5
(a . #;b) ⇒ BadDot at 8
(a . b c) ⇒ BadDot at 7
(a . b 'c) ⇒ BadDot at 7
(a . b . ) ⇒ BadDot at 9
(a . b . c . d) ⇒ BadDot at 11";

// What stands before the row's first arrow, and what stands behind it.
pub(crate) fn parted(row: &str) -> (&str, &str) {
    row.split_once(" ⇒ ").unwrap_or((row, "no arrow"))
}

// The text with its signs read.
pub(crate) fn read_signs(alloc: Global, text: &str) -> Result<String, AllocError> {
    let mut read = String::new(alloc);
    for sign in text.chars() {
        let meant = match sign {
            '⏎' => '\n',
            '␍' => '\r',
            other => other,
        };
        read.push(meant)?;
    }
    Ok(read)
}

// The text with its signs read, and with so many letters x for each sign ~.
fn stretched(alloc: Global, text: &str, size: usize) -> Result<String, AllocError> {
    let mut wide = String::new(alloc);
    for sign in read_signs(alloc, text)?.chars() {
        let count = if sign == '~' { size } else { 1 };
        let meant = if sign == '~' { 'x' } else { sign };
        for _ in 0..count {
            wide.push(meant)?;
        }
    }
    Ok(wide)
}

#[test]
fn sources_are_laid_out(rt: HostRuntime) -> Result<(), Fail> {
    for row in LAID.split('\n') {
        let (source, text) = parted(row);
        let source = read_signs(rt.alloc(), source)?;
        let text = read_signs(rt.alloc(), text)?;
        ends(
            &rt,
            rt.alloc(),
            &plain(source.as_bytes()),
            fine(text.as_bytes()),
            row,
        )?;
    }
    Ok(())
}

#[test]
fn choices_are_listed(rt: HostRuntime) -> Result<(), Fail> {
    for row in CHOICES.split('\n') {
        let (source, answer) = parted(row);
        let source = read_signs(rt.alloc(), source)?;
        let answer = read_signs(rt.alloc(), answer)?;
        let plan = worded("--choices", source.as_bytes());
        ends(&rt, rt.alloc(), &plan, fine(answer.as_bytes()), row)?;
    }
    Ok(())
}

#[test]
fn widths_decide(rt: HostRuntime) -> Result<(), Fail> {
    for row in WIDE.split('\n') {
        let (size, texts) = row.split_once(" ").unwrap_or(("0", row));
        let (source, answers) = parted(texts);
        let (text, told) = parted(answers);
        let size = size.parse::<usize>().unwrap_or(0);
        let source = stretched(rt.alloc(), source, size)?;
        let text = stretched(rt.alloc(), text, size)?;
        let told = read_signs(rt.alloc(), told)?;
        let mut plan = plain(source.as_bytes());
        ends(&rt, rt.alloc(), &plan, fine(text.as_bytes()), row)?;
        plan.words = Some("--choices");
        ends(&rt, rt.alloc(), &plan, fine(told.as_bytes()), row)?;
    }
    Ok(())
}

#[test]
fn sources_are_refused(rt: HostRuntime) -> Result<(), Fail> {
    for row in REFUSED.split('\n') {
        let (source, refusal) = parted(row);
        let source = read_signs(rt.alloc(), source)?;
        let line = format!(in rt.alloc(); "source: {refusal}\n")?;
        let end = stopped(Status::SourceRefused, line.as_bytes());
        ends(&rt, rt.alloc(), &plain(source.as_bytes()), end, row)?;
    }
    Ok(())
}

#[test]
fn bytes_that_are_no_text_are_refused(rt: HostRuntime) -> Result<(), Fail> {
    let end = stopped(Status::SourceRefused, b"source: NotUtf8 at 1\n");
    ends(&rt, rt.alloc(), &plain(&[b'(', 0xff]), end, "")
}

#[test]
fn depth_is_limited(rt: HostRuntime) -> Result<(), Fail> {
    let end = stopped(Status::SourceRefused, b"source: TooDeep at 500\n");
    for begun in [b'(', b'[', b'\''] {
        ends(&rt, rt.alloc(), &plain(&[begun; 501]), end, "")?;
    }
    let mut deep = [b'('; 1000];
    deep[500..].fill(b')');
    let got = carried_out(&rt, rt.alloc(), &plain(&deep), &OpenGate)?;
    assert_eq!(rt; got.status, Status::Fine);
    assert_eq!(rt; got.out.bytes().len(), 1001);
    // 898 columns behind the page: 806,404 * 1,099,511,627,776, and 1 for the line break.
    let plan = worded("--choices", &deep);
    let told = b"cost 886650574685077505\nwithin no\nchoices\n";
    ends(&rt, rt.alloc(), &plan, fine(told), "")
}

#[test]
fn length_is_limited(rt: HostRuntime) -> Result<(), Fail> {
    let mut spaces = Vec::new(rt.alloc());
    spaces.resize(4_194_304, b' ')?;
    ends(&rt, rt.alloc(), &plain(&spaces), fine(b""), "")?;
    spaces.push(b' ')?;
    let end = stopped(Status::SourceRefused, b"source: TooLong\n");
    ends(&rt, rt.alloc(), &plain(&spaces), end, "")
}
