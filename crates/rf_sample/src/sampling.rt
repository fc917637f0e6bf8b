//! The sample.

ghost use Rattle.std.specs.Prelude.{◌≡◌, ◌≤◌, IfOk, string_bytes};
ghost use Rattle.rf_sample.specs.Sample.{sample};

use crate::forms::form;
use std::alloc::{AllocError, Global};

/// The source of so many forms, from 1 to 10,000: a language line, and then the forms, each behind an empty line. An
/// `AllocError` comes for want of memory.
///
/// `sample(alloc, 1)` has 98 bytes: `#lang racket/base`, an empty line, and
/// `(define (f0 x y) (cond [(< x 0) (g0 x y)] [else (let ([z (+ x 0)]) (h z y))]))`.
pub fn sample(alloc: Global, n: u32) -> Result<String, AllocError>
    requires some { 1 ≤ n }
    requires few { n ≤ 10000 }
    ensures { IfOk result (λ text. string_bytes text ≡ sample n) }
{
    let mut text = String::from_str(alloc, "#lang racket/base\n")?;
    for k in 0..n {
        text.push_str("\n")?;
        form(&mut text, k)?;
    }
    Ok(text)
}
