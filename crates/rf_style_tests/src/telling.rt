// How a style is told.
use rf_style::{
    Charges, Columns, CostKind, Form, Rule, Style, StyleError, default_table, read_style,
};
use std::alloc::{AllocError, Global};

/// What the style file says.
pub fn told(alloc: Global, bytes: &[u8]) -> Result<String, AllocError> {
    match read_style(alloc, bytes) {
        Ok(style) => style_told(alloc, &style),
        Err(StyleError::StyleText) => String::from_str(alloc, "StyleText"),
        Err(StyleError::StyleKey(key)) => format!(in alloc; "StyleKey {key}"),
        Err(StyleError::StyleValue(key)) => format!(in alloc; "StyleValue {key}"),
        Err(StyleError::StyleRange(key, number)) => format!(in alloc; "StyleRange {key} {number}"),
        Err(StyleError::Memory(error)) => Err(error),
    }
}

/// The style's numbers and words, and the rules that aren't the default ones.
pub fn style_told(alloc: Global, style: &Style) -> Result<String, AllocError> {
    let (width, limit, blanks) = (style.width, style.limit, style.blanks);
    let (cost, columns) = (cost_word(style.cost), columns_word(style.columns));
    let names = style.forms.as_map().len();
    let mut text = format!(in alloc; "{width} {limit} {blanks} {cost} {columns} {names}")?;
    let default = default_table(alloc)?;
    for (place, (name, rule)) in style.forms.as_map().iter().enumerate() {
        if default.forms.head_rule(name.as_str()) != *rule {
            let rule = rule_told(alloc, rule)?;
            let one = format!(in alloc; "|{place} {name} {rule}")?;
            text.push_str(one.as_str())?;
        }
    }
    Ok(text)
}

/// The rule's shape, headers, bodies on one line and charges.
pub fn rule_told(alloc: Global, rule: &Rule) -> Result<String, AllocError> {
    let (form, header, flat) = (form_word(rule.form), rule.header, rule.flat);
    let charges = charges_told(alloc, &rule.charges)?;
    format!(in alloc; "{form} {header} {flat} {charges}")
}

fn charges_told(alloc: Global, charges: &Charges) -> Result<String, AllocError> {
    let (broken, hung, flat) = (charges.broken, charges.hung, charges.flat);
    format!(in alloc; "{broken},{hung},{flat}")
}

fn cost_word(cost: CostKind) -> &'static str {
    match cost {
        CostKind::Squares => "squares",
        CostKind::Linear => "linear",
        CostKind::Lines => "lines",
    }
}

fn columns_word(columns: Columns) -> &'static str {
    match columns {
        Columns::Characters => "characters",
        Columns::Display => "display",
    }
}

fn form_word(form: Form) -> &'static str {
    match form {
        Form::App => "app",
        Form::Hang => "hang",
        Form::Plain => "data",
        Form::Body => "body",
        Form::Clauses => "clauses",
        Form::Bindings => "bindings",
    }
}
