ghost use Rattle.std.specs.Prelude.{◌≡◌, ℕ, List, map};
ghost use Rattle.std.specs.List.{list_all};
ghost use Rattle.pn_text.specs.Characters.{is_character, is_text};
ghost use Rattle.pn_values.specs.declared.value.Value.TheViews.{out-Value};
ghost use Rattle.pn_carriers.specs.Members.{is_dot, is_truth, is_constant, is_between, is_document_text, is_tuple_of, is_list_of, pass_each, is_member};

use crate::sizes::width;
use pn_text::Text;
use pn_values::{Sort, Value};

/// Whether `value` is of `sort`, also of an infinite one. Takes no memory.
#[cycle(has_value)]
pub fn has_value(widths: &[u32], sort: &Sort, value: &Value) -> bool
    ensures { result ≡ is_member widths.now sort.now value.now }
{
    match sort {
        Sort::Dot => is_dot(value),
        Sort::Bool => is_truth(value),
        Sort::Enumeration(n) => is_constant(width(widths, *n), value),
        Sort::Partition(n) => is_constant(width(widths, *n), value),
        Sort::Range { start, end } => is_between(*start, *end, value),
        Sort::Product(parts) => is_tuple_of(widths, parts.as_slice(), value),
        Sort::Integer => is_between(i64::MIN, i64::MAX, value),
        Sort::Natural => is_between(0, i64::MAX, value),
        Sort::Positive => is_between(1, i64::MAX, value),
        Sort::Text => is_document_text(value),
        Sort::List(item) => is_list_of(widths, item.get(), value),
    }
}

/// Whether `value` is a tuple with one value of each part.
#[cycle(has_value)]
fn is_tuple_of(widths: &[u32], parts: &[Sort], value: &Value) -> bool
    ensures { result ≡ is_tuple_of (map (is_member widths.now) parts.now) (out-Value value.now) }
{
    match value {
        Value::Tuple(values) => pass_each(widths, parts, values.as_slice()),
        _ => false,
    }
}

#[cycle(has_value)]
fn pass_each(widths: &[u32], parts: &[Sort], values: &[Value]) -> bool
    ensures { result ≡ pass_each (map (is_member widths.now) parts.now) values.now }
{
    if parts.len() != values.len() {
        return false;
    }
    for (i, part) in parts.iter().enumerate() {
        if !has_value(widths, part, &values[i]) {
            return false;
        }
    }
    true
}

/// Whether `value` is a list of values of `item`.
#[cycle(has_value)]
fn is_list_of(widths: &[u32], item: &Sort, value: &Value) -> bool
    ensures { result ≡ is_list_of (is_member widths.now item.now) (out-Value value.now) }
{
    match value {
        Value::List(values) => all_pass(widths, item, values.as_slice()),
        _ => false,
    }
}

#[cycle(has_value)]
fn all_pass(widths: &[u32], item: &Sort, values: &[Value]) -> bool
    ensures { result ≡ list_all (is_member widths.now item.now) values.now }
{
    for value in values {
        if !has_value(widths, item, value) {
            return false;
        }
    }
    true
}

fn is_dot(value: &Value) -> bool
    ensures { result ≡ is_dot (out-Value value.now) }
{
    matches!(value, Value::Dot)
}

fn is_truth(value: &Value) -> bool
    ensures { result ≡ is_truth (out-Value value.now) }
{
    matches!(value, Value::Bool(_))
}

/// Whether `value` is a constant of a declaration that has `width` of them.
fn is_constant(width: u32, value: &Value) -> bool
    ensures { result ≡ is_constant width (out-Value value.now) }
{
    match value {
        Value::Const(c) => *c < width,
        _ => false,
    }
}

/// Whether `value` is a whole number from `start` to `end`.
fn is_between(start: i64, end: i64, value: &Value) -> bool
    ensures { result ≡ is_between start end (out-Value value.now) }
{
    match value {
        Value::Int(number) => start <= *number && *number <= end,
        _ => false,
    }
}

/// Whether `value` is a text of such characters.
fn is_document_text(value: &Value) -> bool
    ensures { result ≡ is_document_text (out-Value value.now) }
{
    match value {
        Value::Text(text) => is_text(text.as_str()),
        _ => false,
    }
}

/// Whether all characters of a text are those that a document may have (XML 1.0, 2.2).
pub fn is_text(text: &str) -> bool
    ensures { result ≡ is_text text.now }
{
    text.chars().all(is_character)
}

fn is_character(c: char) -> bool
    ensures { result ≡ is_character c }
{
    matches!(c, '\t' | '\n' | '\r' | ' '..='\u{D7FF}' | '\u{E000}'..='\u{FFFD}' | '\u{10000}'..='\u{10FFFF}')
}
