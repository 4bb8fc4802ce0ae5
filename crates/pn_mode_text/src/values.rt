//! Values as texts.

ghost use Rattle.std.specs.Prelude.{◌≡◌, ◌++◌, codes, true, map};
ghost use Rattle.std.specs.List.{list_all};
ghost use Rattle.pn_carriers.specs.Carriers.{width_of};
ghost use Rattle.pn_carriers.specs.Members.{IsMember, is_constant, is_list_of, is_member, is_tuple_of, pass_each};
ghost use Rattle.pn_lines.specs.Escapes.{escaped};
ghost use Rattle.pn_mode_text.specs.Pieces.{comma_before};
ghost use Rattle.pn_mode_text.specs.Texts.{constant_text, each_text, id_text, list_text, number_text, quoted_text, truth_word, tuple_text, value_text, with_commas};
ghost use Rattle.pn_names.specs.Names.{IsConstant, id_of_constant, widths_of};
ghost use Rattle.pn_outside.specs.Cause.{CountsFault, HasCause};
ghost use Rattle.pn_outside.specs.Taking.{Puts};
ghost use Rattle.pn_values.specs.declared.value.Value.TheViews.{out-Value};

use pn_lines::{put_count, put_escaped};
use pn_outside::{Failed, Sink, put_text};
use pn_sorts::{ConstantRef, Decls, Sort, Value};

/// Puts the text of a value of a sort: `dot`, `true` and `false`; the escaped id of a constant or of
/// an element of a partition; a whole number in decimal; a text, escaped, in quotation marks; the
/// parts of a tuple in parentheses and the items of a list in brackets, with commas between them.
/// Values and sorts: ISO/IEC 15909-2, sorts. After `Failed`, which comes only from the sink, a front
/// of it is out. Takes no memory. The recursion goes by the depth of the sort.
#[cycle(put_value)]
pub fn put_value<K: Sink>(
    decls: &Decls,
    sort: &Sort,
    value: &Value,
    sink: &mut K,
) -> Result<(), Failed>
    requires { IsMember (widths_of decls.now) value.now sort.now }
    ensures puts { Puts K.taken K.number result sink.old sink.new (value_text decls.now sort.now value.now) }
    ensures cause { HasCause (K.faults sink.old) (K.faults sink.new) result }
    ensures counted { CountsFault (K.faults sink.old) (K.faults sink.new) result }
{
    match sort {
        Sort::Dot => put_text(sink, "dot"),
        Sort::Bool => put_truth(value, sink),
        Sort::Enumeration(place) => put_constant(decls, *place, value, sink),
        Sort::Partition(place) => put_constant(decls, *place, value, sink),
        Sort::Range { .. } => put_number(value, sink),
        Sort::Product(parts) => put_tuple(decls, parts.as_slice(), value, sink),
        Sort::Integer => put_number(value, sink),
        Sort::Natural => put_number(value, sink),
        Sort::Positive => put_number(value, sink),
        Sort::Text => put_quoted(value, sink),
        Sort::List(item) => put_list(decls, item.get(), value, sink),
    }
}

fn put_truth<K: Sink>(value: &Value, sink: &mut K) -> Result<(), Failed>
    ensures puts { Puts K.taken K.number result sink.old sink.new (truth_word (out-Value value.now)) }
    ensures cause { HasCause (K.faults sink.old) (K.faults sink.new) result }
    ensures counted { CountsFault (K.faults sink.old) (K.faults sink.new) result }
{
    match value {
        Value::Bool(false) => put_text(sink, "false"),
        Value::Bool(true) => put_text(sink, "true"),
        _ => Ok(()),
    }
}

/// Puts the id of a constant of the declaration at this place.
fn put_constant<K: Sink>(
    decls: &Decls,
    place: u32,
    value: &Value,
    sink: &mut K,
) -> Result<(), Failed>
    requires { is_constant (width_of (widths_of decls.now) place) (out-Value value.now) ≡ true }
    ensures puts { Puts K.taken K.number result sink.old sink.new (constant_text decls.now place (out-Value value.now)) }
    ensures cause { HasCause (K.faults sink.old) (K.faults sink.new) result }
    ensures counted { CountsFault (K.faults sink.old) (K.faults sink.new) result }
{
    match value {
        Value::Const(index) => put_id(decls, place, *index, sink),
        _ => unreachable!(),
    }
}

fn put_id<K: Sink>(decls: &Decls, declaration: u32, index: u32, sink: &mut K) -> Result<(), Failed>
    requires { IsConstant decls.now (record { declaration = declaration; index = index }) }
    ensures puts { Puts K.taken K.number result sink.old sink.new (id_text (id_of_constant decls.now (record { declaration = declaration; index = index }))) }
    ensures cause { HasCause (K.faults sink.old) (K.faults sink.new) result }
    ensures counted { CountsFault (K.faults sink.old) (K.faults sink.new) result }
{
    put_escaped(sink, decls.constant_id(ConstantRef { declaration, index }))
}

fn put_number<K: Sink>(value: &Value, sink: &mut K) -> Result<(), Failed>
    ensures puts { Puts K.taken K.number result sink.old sink.new (number_text (out-Value value.now)) }
    ensures cause { HasCause (K.faults sink.old) (K.faults sink.new) result }
    ensures counted { CountsFault (K.faults sink.old) (K.faults sink.new) result }
{
    match value {
        Value::Int(number) => put_count(sink, "", *number),
        _ => Ok(()),
    }
}

fn put_quoted<K: Sink>(value: &Value, sink: &mut K) -> Result<(), Failed>
    ensures puts { Puts K.taken K.number result sink.old sink.new (quoted_text (out-Value value.now)) }
    ensures cause { HasCause (K.faults sink.old) (K.faults sink.new) result }
    ensures counted { CountsFault (K.faults sink.old) (K.faults sink.new) result }
{
    match value {
        Value::Text(text) => put_between(sink, text.as_str()),
        _ => Ok(()),
    }
}

/// Puts a text between quotation marks.
fn put_between<K: Sink>(sink: &mut K, text: &str) -> Result<(), Failed>
    ensures puts { Puts K.taken K.number result sink.old sink.new (codes "\"" ++ (escaped text.now ++ codes "\"")) }
    ensures cause { HasCause (K.faults sink.old) (K.faults sink.new) result }
    ensures counted { CountsFault (K.faults sink.old) (K.faults sink.new) result }
{
    put_text(sink, "\"")?;
    put_escaped(sink, text)?;
    put_text(sink, "\"")
}

/// Puts the comma before the text at this place, if it is not the first.
pub(crate) fn put_comma<K: Sink>(sink: &mut K, place: usize) -> Result<(), Failed>
    ensures puts { Puts K.taken K.number result sink.old sink.new (comma_before place) }
    ensures cause { HasCause (K.faults sink.old) (K.faults sink.new) result }
    ensures counted { CountsFault (K.faults sink.old) (K.faults sink.new) result }
{
    if place == 0 {
        return Ok(());
    }
    put_text(sink, ",")
}

#[cycle(put_value)]
fn put_tuple<K: Sink>(
    decls: &Decls,
    parts: &[Sort],
    value: &Value,
    sink: &mut K,
) -> Result<(), Failed>
    requires { is_tuple_of (map (is_member (widths_of decls.now)) parts.now) (out-Value value.now) ≡ true }
    ensures puts { Puts K.taken K.number result sink.old sink.new (tuple_text (map (value_text decls.now) parts.now) (out-Value value.now)) }
    ensures cause { HasCause (K.faults sink.old) (K.faults sink.new) result }
    ensures counted { CountsFault (K.faults sink.old) (K.faults sink.new) result }
{
    match value {
        Value::Tuple(values) => put_parts(decls, parts, values.as_slice(), sink),
        _ => unreachable!(),
    }
}

/// Puts the parts of a tuple in parentheses.
#[cycle(put_value)]
fn put_parts<K: Sink>(
    decls: &Decls,
    parts: &[Sort],
    values: &[Value],
    sink: &mut K,
) -> Result<(), Failed>
    requires { pass_each (map (is_member (widths_of decls.now)) parts.now) values.now ≡ true }
    ensures puts { Puts K.taken K.number result sink.old sink.new
        (codes "(" ++ (with_commas (each_text (map (value_text decls.now) parts.now) values.now) ++ codes ")")) }
    ensures cause { HasCause (K.faults sink.old) (K.faults sink.new) result }
    ensures counted { CountsFault (K.faults sink.old) (K.faults sink.new) result }
{
    put_text(sink, "(")?;
    put_each_part(decls, parts, values, sink)?;
    put_text(sink, ")")
}

#[cycle(put_value)]
fn put_each_part<K: Sink>(
    decls: &Decls,
    parts: &[Sort],
    values: &[Value],
    sink: &mut K,
) -> Result<(), Failed>
    requires { pass_each (map (is_member (widths_of decls.now)) parts.now) values.now ≡ true }
    ensures puts { Puts K.taken K.number result sink.old sink.new (with_commas (each_text (map (value_text decls.now) parts.now) values.now)) }
    ensures cause { HasCause (K.faults sink.old) (K.faults sink.new) result }
    ensures counted { CountsFault (K.faults sink.old) (K.faults sink.new) result }
{
    for i in 0..parts.len() {
        put_part(decls, i, &parts[i], &values[i], sink)?;
    }
    Ok(())
}

/// Puts the value at this place, behind a comma if it is not the first.
#[cycle(put_value)]
fn put_part<K: Sink>(
    decls: &Decls,
    place: usize,
    sort: &Sort,
    value: &Value,
    sink: &mut K,
) -> Result<(), Failed>
    requires { IsMember (widths_of decls.now) value.now sort.now }
    ensures puts { Puts K.taken K.number result sink.old sink.new (comma_before place ++ value_text decls.now sort.now value.now) }
    ensures cause { HasCause (K.faults sink.old) (K.faults sink.new) result }
    ensures counted { CountsFault (K.faults sink.old) (K.faults sink.new) result }
{
    put_comma(sink, place)?;
    put_value(decls, sort, value, sink)
}

#[cycle(put_value)]
fn put_list<K: Sink>(decls: &Decls, item: &Sort, value: &Value, sink: &mut K) -> Result<(), Failed>
    requires { is_list_of (is_member (widths_of decls.now) item.now) (out-Value value.now) ≡ true }
    ensures puts { Puts K.taken K.number result sink.old sink.new (list_text (value_text decls.now item.now) (out-Value value.now)) }
    ensures cause { HasCause (K.faults sink.old) (K.faults sink.new) result }
    ensures counted { CountsFault (K.faults sink.old) (K.faults sink.new) result }
{
    match value {
        Value::List(values) => put_items(decls, item, values.as_slice(), sink),
        _ => unreachable!(),
    }
}

/// Puts the items of a list in brackets.
#[cycle(put_value)]
fn put_items<K: Sink>(
    decls: &Decls,
    item: &Sort,
    values: &[Value],
    sink: &mut K,
) -> Result<(), Failed>
    requires { list_all (is_member (widths_of decls.now) item.now) values.now ≡ true }
    ensures puts { Puts K.taken K.number result sink.old sink.new
        (codes "[" ++ (with_commas (map (value_text decls.now item.now) values.now) ++ codes "]")) }
    ensures cause { HasCause (K.faults sink.old) (K.faults sink.new) result }
    ensures counted { CountsFault (K.faults sink.old) (K.faults sink.new) result }
{
    put_text(sink, "[")?;
    put_each_item(decls, item, values, sink)?;
    put_text(sink, "]")
}

#[cycle(put_value)]
fn put_each_item<K: Sink>(
    decls: &Decls,
    item: &Sort,
    values: &[Value],
    sink: &mut K,
) -> Result<(), Failed>
    requires { list_all (is_member (widths_of decls.now) item.now) values.now ≡ true }
    ensures puts { Puts K.taken K.number result sink.old sink.new (with_commas (map (value_text decls.now item.now) values.now)) }
    ensures cause { HasCause (K.faults sink.old) (K.faults sink.new) result }
    ensures counted { CountsFault (K.faults sink.old) (K.faults sink.new) result }
{
    for i in 0..values.len() {
        put_part(decls, i, item, &values[i], sink)?;
    }
    Ok(())
}
