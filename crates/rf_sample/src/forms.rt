//! The forms of the sample, one behind another.
//!
//! A function's line `tactic` names the definition that its proof opens.

ghost use Rattle.std.specs.Prelude.{◌≡◌, ◌<◌, ◌++◌, OnOk, string_bytes};
ghost use Rattle.rf_sample.specs.Sample.{form, function, loop_over, quotation, structure};

use std::alloc::AllocError;

// Adds the form of this number, below 10,000, with its line ends. They take turns by fours.
#[tactic(auto, unfolding(crate::specs::Sample::form))]
pub(crate) fn form(text: &mut String, k: u32) -> Result<(), AllocError>
    requires { k < 10000 }
    ensures { OnOk result (string_bytes text.new ≡ string_bytes text.old ++ form k) }
{
    match k % 4 {
        0 => function(text, k),
        1 => quotation(text, k),
        2 => structure(text, k),
        _ => loop_over(text, k),
    }
}

// A function with clauses and bindings.
#[tactic(auto, unfolding(crate::specs::Sample::function))]
fn function(text: &mut String, k: u32) -> Result<(), AllocError>
    ensures { OnOk result (string_bytes text.new ≡ string_bytes text.old ++ function k) }
{
    write!(
        text,
        "(define (f{k} x y) (cond [(< x {k}) (g{k} x y)] [else (let ([z (+ x {k})]) (h z y))]))\n"
    )
}

// A comment, and a quoted list of three numbers.
#[tactic(auto, unfolding(crate::specs::Sample::quotation))]
fn quotation(text: &mut String, k: u32) -> Result<(), AllocError>
    requires { k < 10000 }
    ensures { OnOk result (string_bytes text.new ≡ string_bytes text.old ++ quotation k) }
{
    let (next, last) = (k + 1, k + 2);
    write!(text, "; note {k}\n(define t{k} '({k} {next} {last}))\n")
}

// A structure of three fields.
#[tactic(auto, unfolding(crate::specs::Sample::structure))]
fn structure(text: &mut String, k: u32) -> Result<(), AllocError>
    ensures { OnOk result (string_bytes text.new ≡ string_bytes text.old ++ structure k) }
{
    write!(text, "(struct s{k} (a b c) #:transparent)\n")
}

// A loop over a range.
#[tactic(auto, unfolding(crate::specs::Sample::loop_over))]
fn loop_over(text: &mut String, k: u32) -> Result<(), AllocError>
    ensures { OnOk result (string_bytes text.new ≡ string_bytes text.old ++ loop_over k) }
{
    write!(
        text,
        "(for ([i (in-range {k})]) (displayln (list i {k})))\n"
    )
}
