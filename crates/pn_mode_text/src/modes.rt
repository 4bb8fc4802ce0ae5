//! Tokens and modes as texts.

ghost use Rattle.std.specs.Prelude.{ℕ, ◌<◌, ◌++◌, List, codes, length, map};
ghost use Rattle.std.specs.List.{AllZip, Contains};
ghost use Rattle.pn_carriers.specs.Members.{IsMember};
ghost use Rattle.pn_eval.specs.Assignments.{IsAssignment};
ghost use Rattle.pn_lines.specs.Escapes.{escaped};
ghost use Rattle.pn_marking.specs.Modes.{IsAssigned};
ghost use Rattle.pn_marking.specs.Totals.{IsTokenOf};
ghost use Rattle.pn_mode_text.specs.Pieces.{comma_before};
ghost use Rattle.pn_mode_text.specs.Texts.{IsModeText, IsTokenText, IsTypedVariable, TypedVariable, each_text, given_text, mode_text, token_text, value_text, with_commas};
ghost use Rattle.pn_names.specs.Names.{variables_of, widths_of};
ghost use Rattle.pn_outside.specs.Cause.{CountsFault, HasCause};
ghost use Rattle.pn_outside.specs.Taking.{Puts};
ghost use Rattle.pn_sorts.specs.Lookups.{IsVariableSort};
ghost use Rattle.pn_sorts.specs.Standing.{IsFaultless};
ghost use Rattle.pn_values.specs.declared.sort.Sort.{Sort};

use crate::values::{put_comma, put_value};
use pn_lines::put_escaped;
use pn_net::{Mode, Token, Typed};
use pn_outside::{Failed, Sink, put_text};
use pn_sorts::{Decls, Sort, Value};

/// Puts the text of a token: the escaped id of its place, and its value in braces as `put_value`
/// puts it (ISO/IEC 15909-1, markings). After `Failed`, which comes only from the sink, a front of
/// it is out. Takes no memory.
pub fn put_token<K: Sink>(net: &Typed, token: &Token, sink: &mut K) -> Result<(), Failed>
    requires { IsTokenOf net.now token.now }
    ensures puts { (text : List ℕ) × IsTokenText net.now token.now text × Puts K.taken K.number result sink.old sink.new text }
    ensures cause { HasCause (K.faults sink.old) (K.faults sink.new) result }
    ensures counted { CountsFault (K.faults sink.old) (K.faults sink.new) result }
{
    let place = &net.flat().places.as_slice()[token.place as usize];
    let sort = net.place_sort(token.place);
    put_placed(place.id.as_str(), net.decls(), sort, &token.value, sink)
}

/// Puts the text of a value of this sort on the place of this id.
fn put_placed<K: Sink>(
    id: &str,
    decls: &Decls,
    sort: &Sort,
    value: &Value,
    sink: &mut K,
) -> Result<(), Failed>
    requires { IsMember (widths_of decls.now) value.now sort.now }
    ensures puts { Puts K.taken K.number result sink.old sink.new (token_text decls.now id.now sort.now value.now) }
    ensures cause { HasCause (K.faults sink.old) (K.faults sink.new) result }
    ensures counted { CountsFault (K.faults sink.old) (K.faults sink.new) result }
{
    put_escaped(sink, id)?;
    put_text(sink, "{")?;
    put_value(decls, sort, value, sink)?;
    put_text(sink, "}")
}

/// Puts the text of a transition with values for its variables: the transition's escaped id, and in
/// brackets for each variable in order its escaped id, `=` and its value as `put_value` puts it, with
/// commas between them (ISO/IEC 15909-1, modes). Whether the condition holds is not asked. After
/// `Failed`, which comes only from the sink, a front of it is out. Takes no memory.
pub fn put_mode<K: Sink>(net: &Typed, mode: &Mode, sink: &mut K) -> Result<(), Failed>
    requires { (vars : List ℕ) × IsAssigned net.now mode.now vars }
    ensures puts { (text : List ℕ) × IsModeText net.now mode.now text × Puts K.taken K.number result sink.old sink.new text }
    ensures cause { HasCause (K.faults sink.old) (K.faults sink.new) result }
    ensures counted { CountsFault (K.faults sink.old) (K.faults sink.new) result }
{
    let transition = &net.flat().transitions.as_slice()[mode.transition as usize];
    let vars = net.variables(mode.transition);
    let decls = net.decls();
    have_sorts(decls, vars);
    put_assigned(
        transition.id.as_str(),
        decls,
        vars,
        mode.values.as_slice(),
        sink,
    )
}

/// Each of these variables has a sort: asked for what it ensures alone.
pub(crate) fn have_sorts(decls: &Decls, vars: &[u32])
    requires faultless { IsFaultless decls.now }
    requires declared { (v : ℕ) → Contains vars.now v → v < length (variables_of decls.now) }
    ensures { (typed : List TypedVariable) × AllZip (IsTypedVariable decls.now) vars.now typed }
{
    for i in 0..vars.len() {
        let _sort = decls.variable_sort(vars[i]);
    }
}

/// Puts the text of a transition of this id, with these variables and values.
fn put_assigned<K: Sink>(
    id: &str,
    decls: &Decls,
    vars: &[u32],
    values: &[Value],
    sink: &mut K,
) -> Result<(), Failed>
    requires faultless { IsFaultless decls.now }
    requires declared { (v : ℕ) → Contains vars.now v → v < length (variables_of decls.now) }
    requires assignment { IsAssignment decls.now vars.now values.now }
    ensures puts { (typed : List TypedVariable) → AllZip (IsTypedVariable decls.now) vars.now typed
        → Puts K.taken K.number result sink.old sink.new (mode_text decls.now id.now typed values.now) }
    ensures cause { HasCause (K.faults sink.old) (K.faults sink.new) result }
    ensures counted { CountsFault (K.faults sink.old) (K.faults sink.new) result }
{
    put_escaped(sink, id)?;
    put_text(sink, "[")?;
    put_each_given(decls, vars, values, sink)?;
    put_text(sink, "]")
}

/// Puts variables with their values, with commas between them.
fn put_each_given<K: Sink>(
    decls: &Decls,
    vars: &[u32],
    values: &[Value],
    sink: &mut K,
) -> Result<(), Failed>
    requires faultless { IsFaultless decls.now }
    requires declared { (v : ℕ) → Contains vars.now v → v < length (variables_of decls.now) }
    requires assignment { IsAssignment decls.now vars.now values.now }
    ensures puts { (typed : List TypedVariable) → AllZip (IsTypedVariable decls.now) vars.now typed
        → Puts K.taken K.number result sink.old sink.new (with_commas (each_text (map (given_text decls.now) typed) values.now)) }
    ensures cause { HasCause (K.faults sink.old) (K.faults sink.new) result }
    ensures counted { CountsFault (K.faults sink.old) (K.faults sink.new) result }
{
    for i in 0..vars.len() {
        put_given(decls, i, vars[i], &values[i], sink)?;
    }
    Ok(())
}

/// Puts a variable and its value, behind a comma if it is not the first.
fn put_given<K: Sink>(
    decls: &Decls,
    place: usize,
    v: u32,
    value: &Value,
    sink: &mut K,
) -> Result<(), Failed>
    requires faultless { IsFaultless decls.now }
    requires declared { v < length (variables_of decls.now) }
    requires member { (sort : Sort) → IsVariableSort decls.now v sort → IsMember (widths_of decls.now) value.now sort }
    ensures puts { (x : TypedVariable) → IsTypedVariable decls.now v x
        → Puts K.taken K.number result sink.old sink.new (comma_before place ++ given_text decls.now x value.now) }
    ensures cause { HasCause (K.faults sink.old) (K.faults sink.new) result }
    ensures counted { CountsFault (K.faults sink.old) (K.faults sink.new) result }
{
    put_comma(sink, place)?;
    put_bound(
        decls.variable_id(v),
        decls,
        decls.variable_sort(v),
        value,
        sink,
    )
}

/// Puts a variable of this id with a value of this sort.
fn put_bound<K: Sink>(
    id: &str,
    decls: &Decls,
    sort: &Sort,
    value: &Value,
    sink: &mut K,
) -> Result<(), Failed>
    requires { IsMember (widths_of decls.now) value.now sort.now }
    ensures puts { Puts K.taken K.number result sink.old sink.new (escaped id.now ++ (codes "=" ++ value_text decls.now sort.now value.now)) }
    ensures cause { HasCause (K.faults sink.old) (K.faults sink.new) result }
    ensures counted { CountsFault (K.faults sink.old) (K.faults sink.new) result }
{
    put_escaped(sink, id)?;
    put_text(sink, "=")?;
    put_value(decls, sort, value, sink)
}
