//! The style without a style file.
//!
//! A function's line `tactic` names the definition that its proof opens.

ghost use Rattle.std.specs.Prelude.{◌≡◌, IfOk, OnOk};
ghost use Rattle.rf_style.specs.Entries.{rows_of, with_rows};
ghost use Rattle.rf_style.specs.StyleOf.{default_style};
ghost use Rattle.rf_base_style.specs.Defaults.{default_table};

use crate::forms::Forms;
use crate::style::Style;
use rf_base_style::{Charges, Columns, Form, Rule};
use rf_cost::CostKind;
use std::alloc::{AllocError, Global};

/// The style without a style file: pages of 102 columns, computed within 120, one blank line kept, the costs of
/// `Squares`, a column for each character, and the rules of the heads that Racket's own libraries give.
pub fn default_table(alloc: Global) -> Result<Style, AllocError>
    ensures { IfOk result (λ style. style ≡ default_style) }
{
    let forms = default_forms(alloc)?;
    Ok(Style {
        width: 102,
        limit: 120,
        blanks: 1,
        cost: CostKind::Squares,
        columns: Columns::Characters,
        forms,
    })
}

// The rules of the heads that Racket's own libraries give.
fn default_forms(alloc: Global) -> Result<Forms, AllocError>
    ensures { IfOk result (λ forms. forms ≡ default_table) }
{
    let mut forms = Forms::new(alloc);
    put_all(alloc, &mut forms, &RULES)?;
    Ok(forms)
}

// Puts the rule of each row, in order.
#[tactic(auto, unfolding(crate::specs::Entries::with_rows))]
fn put_all(alloc: Global, forms: &mut Forms, rows: &[(&str, Rule)]) -> Result<(), AllocError>
    ensures { OnOk result (forms.new ≡ with_rows forms.old (rows_of rows.now)) }
{
    for (name, rule) in rows {
        forms.put(String::from_str(alloc, name)?, *rule)?;
    }
    Ok(())
}

const NOTHING: Charges = Charges {
    broken: 0,
    hung: 0,
    flat: 0,
};

// A body behind one header, of which one part may stand on one line with the head.
const DEFINES: Rule = Rule {
    form: Form::Body,
    header: 1,
    flat: 1,
    charges: NOTHING,
};

// Clauses without a header.
const CLAUSES: Rule = Rule {
    form: Form::Clauses,
    header: 0,
    flat: 0,
    charges: NOTHING,
};

// Clauses behind one header.
const MATCHES: Rule = Rule {
    form: Form::Clauses,
    header: 1,
    flat: 0,
    charges: NOTHING,
};

// Clauses behind two headers.
const SYNTAX_MATCHES: Rule = Rule {
    form: Form::Clauses,
    header: 2,
    flat: 0,
    charges: NOTHING,
};

// A body behind one header, which binds.
const BINDS: Rule = Rule {
    form: Form::Bindings,
    header: 1,
    flat: 0,
    charges: NOTHING,
};

// A body behind two headers, of which the second binds.
const FOLDS: Rule = Rule {
    form: Form::Bindings,
    header: 2,
    flat: 0,
    charges: NOTHING,
};

// A body behind one header.
const GUARDS: Rule = Rule {
    form: Form::Body,
    header: 1,
    flat: 0,
    charges: NOTHING,
};

// A body alone.
const BEGINS: Rule = Rule {
    form: Form::Body,
    header: 0,
    flat: 0,
    charges: NOTHING,
};

// A body behind two headers.
const MODULE: Rule = Rule {
    form: Form::Body,
    header: 2,
    flat: 0,
    charges: NOTHING,
};

// A body behind two headers, of which two parts may stand on one line with the head.
const STRUCT: Rule = Rule {
    form: Form::Body,
    header: 2,
    flat: 2,
    charges: NOTHING,
};

// Arguments below the first one, or on one line.
const HANGS: Rule = Rule {
    form: Form::Hang,
    header: 0,
    flat: 0,
    charges: NOTHING,
};

// Data.
const QUOTES: Rule = Rule {
    form: Form::Plain,
    header: 0,
    flat: 0,
    charges: NOTHING,
};

// The names in order, each with its rule.
const RULES: [(&str, Rule); 49] = [
    ("define", DEFINES),
    ("define-values", DEFINES),
    ("define-syntax", DEFINES),
    ("define-syntax-rule", DEFINES),
    ("set!", DEFINES),
    ("lambda", DEFINES),
    ("λ", DEFINES),
    ("case-lambda", CLAUSES),
    ("cond", CLAUSES),
    ("match-lambda", CLAUSES),
    ("case", MATCHES),
    ("match", MATCHES),
    ("syntax-rules", MATCHES),
    ("syntax-case", SYNTAX_MATCHES),
    ("let", BINDS),
    ("let*", BINDS),
    ("letrec", BINDS),
    ("let-values", BINDS),
    ("let*-values", BINDS),
    ("letrec-values", BINDS),
    ("parameterize", BINDS),
    ("with-syntax", BINDS),
    ("with-handlers", BINDS),
    ("for", BINDS),
    ("for*", BINDS),
    ("for/list", BINDS),
    ("for*/list", BINDS),
    ("for/vector", BINDS),
    ("for/hash", BINDS),
    ("for/and", BINDS),
    ("for/or", BINDS),
    ("for/sum", BINDS),
    ("for/first", BINDS),
    ("for/fold", FOLDS),
    ("for*/fold", FOLDS),
    ("when", GUARDS),
    ("unless", GUARDS),
    ("module+", GUARDS),
    ("begin", BEGINS),
    ("begin0", BEGINS),
    ("module", MODULE),
    ("module*", MODULE),
    ("struct", STRUCT),
    ("if", HANGS),
    ("and", HANGS),
    ("or", HANGS),
    ("require", HANGS),
    ("provide", HANGS),
    ("quote", QUOTES),
];
