// Slots on one line.
use crate::laying::{line_of, placed_line_of};
use std::alloc::{AllocError, Global};
use std::test::Fail;

// A row a line: columns, a source, its choices, and its line.
const ROWS: &str = r##"80⇒a⇒-⇒a
80⇒"a b"⇒-⇒"a b"
80⇒#\a⇒-⇒#\a
80⇒#lang racket⇒-⇒#lang racket
80⇒()⇒-⇒()
80⇒( )⇒no
80⇒(f)⇒-⇒(f)
80⇒(f a)⇒RL⇒(f a)
80⇒(f a b)⇒RR⇒(f a b)
80⇒(f⏎  a⏎    b)⇒no
80⇒(f  a)⇒no
80⇒(f a )⇒no
80⇒(a"b")⇒no
80⇒(a "b")⇒RL⇒(a "b")
80⇒(f(g)x)⇒no
80⇒(f (g) x)⇒RR⇒(f (g) x)
80⇒(f (g a))⇒RLRL⇒(f (g a))
80⇒(f (g a b))⇒RLRR⇒(f (g a b))
80⇒(f (g a) b)⇒RRL⇒(f (g a) b)
80⇒[f {a b}]⇒RLRL⇒[f {a b}]
80⇒((f a) b)⇒RL⇒((f a) b)
80⇒("x" #\y)⇒R⇒("x" #\y)
80⇒(f "x y" #\a)⇒RR⇒(f "x y" #\a)
80⇒(if a)⇒L⇒(if a)
80⇒(if a b)⇒R⇒(if a b)
80⇒(if (f a) b c)⇒RL⇒(if (f a) b c)
80⇒(and (f a))⇒LRL⇒(and (f a))
80⇒(quote (f a b))⇒RL⇒(quote (f a b))
80⇒(define)⇒-⇒(define)
80⇒(define x)⇒L⇒(define x)
80⇒(define x 1)⇒R⇒(define x 1)
80⇒(define (f x) x)⇒RL⇒(define (f x) x)
80⇒(define x 1 2)⇒no
80⇒(struct p (x y))⇒LRL⇒(struct p (x y))
80⇒(struct p (x y) a)⇒RRL⇒(struct p (x y) a)
80⇒(let ([x 1]))⇒LR⇒(let ([x 1]))
80⇒(let loop ([x 1]))⇒LR⇒(let loop ([x 1]))
80⇒(let ([x 1]) x)⇒no
80⇒(when a)⇒L⇒(when a)
80⇒(when a b)⇒no
80⇒(cond)⇒-⇒(cond)
80⇒(cond [a b])⇒no
80⇒(case (f x))⇒LRL⇒(case (f x))
80⇒'(a)⇒-⇒'(a)
80⇒'(a b c)⇒R⇒'(a b c)
80⇒'(a (b c))⇒RL⇒'(a (b c))
80⇒'(if a b)⇒R⇒'(if a b)
80⇒#(a b)⇒R⇒#(a b)
80⇒#'(f x)⇒RL⇒#'(f x)
80⇒`(,(f b))⇒RL⇒`(,(f b))
80⇒`(a ,(f b) c)⇒RL⇒`(a ,(f b) c)
80⇒(q ,@x)⇒RL⇒(q ,@x)
80⇒(q , @x)⇒RL⇒(q , @x)
80⇒(#:k)⇒-⇒(#:k)
80⇒(#:k a)⇒-⇒(#:k a)
80⇒(#:k a b)⇒R⇒(#:k a b)
80⇒(f #:k)⇒RL⇒(f #:k)
80⇒(f #:k a)⇒RL⇒(f #:k a)
80⇒(f #:a #:b x)⇒RR⇒(f #:a #:b x)
80⇒(f (g #:k a) b)⇒RRL⇒(f (g #:k a) b)
80⇒(define #:k x)⇒L⇒(define #:k x)
80⇒(let #:k ([x 1]))⇒LRL⇒(let #:k ([x 1]))
80⇒(a . b)⇒RL⇒(a . b)
80⇒'(a . b)⇒R⇒'(a . b)
80⇒(f a . #:k)⇒RR⇒(f a . #:k)
80⇒' a⇒no
80⇒'a⇒-⇒'a
5⇒(f a)⇒RL⇒(f a)
4⇒(f a)⇒no
5⇒(f λ)⇒RL⇒(f λ)
9⇒(f #:k a)⇒RL⇒(f #:k a)
8⇒(f #:k a)⇒no
3⇒abc⇒-⇒abc
2⇒abc⇒no
0⇒()⇒no
80⇒(f #:k(a))⇒no
80⇒(f #:k  a)⇒no
80⇒(f #:k #;c a)⇒RR⇒(f #:k #;c a)
80⇒(a .(b))⇒no
80⇒(f ; c⏎ a)⇒no
80⇒(f a) ; c⇒no
80⇒; c⏎(f a)⇒no
80⇒(f #;a b)⇒RR⇒(f #;a b)
80⇒(f #|c|# b)⇒RR⇒(f #|c|# b)
80⇒(f #;a b c)⇒RR⇒(f #;a b c)
80⇒(#|c|# f a)⇒RR⇒(#|c|# f a)
80⇒(f #;(a b) c)⇒RRL⇒(f #;(a b) c)
80⇒(f #|c|# #;(a b) #|d|# (g a))⇒RRLL⇒(f #|c|# #;(a b) #|d|# (g a))
80⇒(f #;#;a b c)⇒no
80⇒(f #; a b)⇒no
80⇒(f  #;a b)⇒no
80⇒(f #;a  b)⇒no
80⇒(f #|c|#b)⇒no
80⇒(f #|c⏎d|# b)⇒no
80⇒(f ; c⏎ #;a b)⇒no
80⇒(f #;a ; c⏎ b)⇒no
80⇒(g (f #;a b))⇒RLRR⇒(g (f #;a b))
80⇒(g (f #;a b) c)⇒RRL⇒(g (f #;a b) c)
80⇒(#;a b)⇒no
80⇒(g a (#;b c))⇒RR⇒(g a (#;b c))
80⇒(g a (#;b #|c|# d))⇒RR⇒(g a (#;b #|c|# d))
80⇒(if #;a b)⇒R⇒(if #;a b)
80⇒(if a #;b c)⇒R⇒(if a #;b c)
80⇒(define #;a x)⇒R⇒(define #;a x)
80⇒(define x #;a 1)⇒R⇒(define x #;a 1)
80⇒(define x 1 #;a 2)⇒no
80⇒(struct p #;a (x y))⇒RRL⇒(struct p #;a (x y))
80⇒(let #;a ([x 1]))⇒RL⇒(let #;a ([x 1]))
80⇒'(#;a b c)⇒R⇒'(#;a b c)
80⇒'(a #|c|# #:k b)⇒R⇒'(a #|c|# #:k b)
80⇒'(a #;'(f b) c)⇒RL⇒'(a #;'(f b) c)
80⇒(a #;b . c)⇒RR⇒(a #;b . c)
80⇒(f #;b #:k a)⇒RR⇒(f #;b #:k a)
80⇒(f a #;b)⇒RR⇒(f a #;b)
80⇒(f #;b)⇒RL⇒(f #;b)
80⇒(f #|c|#)⇒RL⇒(f #|c|#)
80⇒(#|c|#)⇒-⇒(#|c|#)
80⇒(if #;(f a))⇒LRL⇒(if #;(f a))
80⇒(f a #;b #;c)⇒no
80⇒(f a b ; c⏎ )⇒no
80⇒#;a (f b)⇒no
80⇒'#|c|# b⇒no
80⇒(f "a⏎b")⇒no
80⇒#<<E⏎a⏎E⏎⇒no
80⇒(f⏎⏎ a)⇒no"##;

#[test]
fn each_row_has_its_line(rt: HostRuntime) -> Result<(), Fail> {
    for row in ROWS.split('\n') {
        let (most, rest) = row.split_once('⇒').ok_or("a row without columns")?;
        let (shown, wanted) = rest.split_once('⇒').ok_or("a row without a line")?;
        let most = most
            .parse::<u32>()
            .ok()
            .ok_or("columns that are no number")?;
        let source = text_of(rt.alloc(), shown)?;
        let got = line_of(rt.alloc(), source.as_str(), most)?;
        assert_eq!(rt; got.as_str(), wanted, "{row}");
    }
    Ok(())
}

// A row a line: columns, a source, the choices of its first node, those where all is flat, and its line.
const PLACED: &str = r##"80⇒a⇒-⇒-⇒a
80⇒()⇒-⇒-⇒()
80⇒(f)⇒-⇒-⇒(f)
80⇒(f a)⇒RL⇒L⇒(f a)
80⇒(f a b)⇒RR⇒L⇒(f a b)
80⇒(f (g a) b)⇒RRL⇒LL⇒(f (g a) b)
80⇒(f (g (h a)))⇒RLRLRL⇒LLL⇒(f (g (h a)))
80⇒'(a (b c))⇒RL⇒LL⇒'(a (b c))
80⇒(define x 1)⇒R⇒L⇒(define x 1)
80⇒(f #:k a)⇒RL⇒L⇒(f #:k a)
80⇒(a . (b c))⇒RLRL⇒LL⇒(a . (b c))
80⇒(f λ) a⇒RL⇒L⇒(f λ)
5⇒(f a)⇒RL⇒L⇒(f a)
4⇒(f a)⇒no
80⇒(when a b)⇒no
80⇒(f  a)⇒no
80⇒(f #;a b)⇒RR⇒L⇒(f #;a b)
80⇒(g (f #;(a b) c))⇒RLRRL⇒LLL⇒(g (f #;(a b) c))
80⇒(f #|c|#)⇒RL⇒L⇒(f #|c|#)
80⇒; c⇒no
80⇒#;(f a) b⇒no"##;

#[test]
fn each_node_has_its_line(rt: HostRuntime) -> Result<(), Fail> {
    for row in PLACED.split('\n') {
        let (most, rest) = row.split_once('⇒').ok_or("a row without columns")?;
        let (shown, wanted) = rest.split_once('⇒').ok_or("a row without a line")?;
        let most = most
            .parse::<u32>()
            .ok()
            .ok_or("columns that are no number")?;
        let got = placed_line_of(rt.alloc(), shown, most)?;
        assert_eq!(rt; got.as_str(), wanted, "{row}");
    }
    Ok(())
}

// The text that the signs stand for.
fn text_of(alloc: Global, shown: &str) -> Result<String, AllocError> {
    let mut text = String::new(alloc);
    for sign in shown.chars() {
        text.push(if sign == '⏎' { '\n' } else { sign })?;
    }
    Ok(text)
}
