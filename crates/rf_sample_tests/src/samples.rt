// What samples are.
use rf_sample::sample;
use std::test::Fail;

const FOUR: &str = "#lang racket/base

(define (f0 x y) (cond [(< x 0) (g0 x y)] [else (let ([z (+ x 0)]) (h z y))]))

; note 1
(define t1 '(1 2 3))

(struct s2 (a b c) #:transparent)

(for ([i (in-range 3)]) (displayln (list i 3)))
";

const LAST: &str = "

(define (f100 x y) (cond [(< x 100) (g100 x y)] [else (let ([z (+ x 100)]) (h z y))]))

; note 101
(define t101 '(101 102 103))
";

#[test]
fn four_forms_take_turns(rt: HostRuntime) -> Result<(), Fail> {
    let alloc = rt.alloc();
    assert_eq!(&rt; sample(alloc, 4)?.as_str(), FOUR);
    assert_eq!(&rt;
        sample(alloc, 1)?.as_str(),
        FOUR.get(..98).ok_or("98 bytes")?
    );
    assert_eq!(&rt; sample(alloc, 2)?.len(), 129);
    Ok(())
}

#[test]
fn a_form_has_its_number(rt: HostRuntime) -> Result<(), Fail> {
    let alloc = rt.alloc();
    let text = sample(alloc, 102)?;
    let lines = text.as_str().lines().count();
    assert_eq!(&rt; lines, 1 + 2 * 102 + 26);
    assert!(&rt; text.as_str().ends_with(LAST));
    Ok(())
}
