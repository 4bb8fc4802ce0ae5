//! The variables of a transition with their values, read.

ghost use Rattle.std.specs.Prelude.{◌≡◌, ◌+◌, ◌<◌, ℕ, List, [], ◌∷◌, drop, length};
ghost use Rattle.std.specs.List.{AllZip, Contains};
ghost use Rattle.pn_ids.specs.Names.{AreDistinct};
ghost use Rattle.pn_mode_text.specs.ModeReadings.{AreClosedTexts, AreGivenTexts, AreInhabited, IsGivenText, mark_before};
ghost use Rattle.pn_mode_text.specs.Readings.{AreStops, ReadsOr};
ghost use Rattle.pn_mode_text.specs.ValueReadings.{HaveIds};
ghost use Rattle.pn_mode_text.specs.Texts.{IsTypedVariable, TypedVariable};
ghost use Rattle.pn_names.specs.Names.{names_of, variables_of};
ghost use Rattle.pn_sorts.specs.Standing.{IsFaultless};
ghost use Rattle.pn_words.specs.Languages.{Closed};

use crate::ids::closed_escaped;
use crate::read_values::value;
use crate::reading::ReadFault;
use pn_sorts::{Decls, Value};
use pn_words::literal;
use sqlite_items::Items;
use std::alloc::Global;

/// Reads the escaped id of a variable, `=`, a value of its sort and one of the marks behind it.
fn given<'a>(
    alloc: Global,
    decls: &Decls,
    variable: u32,
    marks: &[u8],
    bytes: &'a [u8],
) -> Result<((Value, u8), &'a [u8]), ReadFault>
    requires faultless { IsFaultless decls.now }
    requires distinct { AreDistinct (names_of decls.now) }
    requires named { HaveIds decls.now }
    requires inhabited { AreInhabited decls.now }
    requires declared { variable < length (variables_of decls.now) }
    requires some { 0 < length marks.now }
    requires stops { AreStops marks.now }
    ensures { (x : TypedVariable) → IsTypedVariable decls.now variable x
        → ReadsOr (Closed (IsGivenText decls.now x) marks.now) bytes.now (λ y. y.0) (λ y. y.1.now) result }
{
    let id = decls.variable_id(variable);
    let sort = decls.variable_sort(variable);
    match closed_escaped(id.as_bytes(), b"=", bytes) {
        Ok((_, rest)) => value(alloc, decls, sort, marks, rest),
        Err(left) => Err(ReadFault::Broken(left)),
    }
}

/// The mark behind the variable at this place of so many: `]` behind the last, and else `,`.
fn mark_behind(place: usize, number: usize) -> &'static [u8]
    requires { place < number }
    ensures mark { (xs : List TypedVariable) → number ≡ length xs → result.now ≡ mark_before (drop (place + 1) xs) ∷ [] }
    ensures some { 0 < length result.now }
    ensures stops { AreStops result.now }
{
    if place + 1 == number { b"]" } else { b"," }
}

/// Reads the variables with their values and the marks behind them.
fn givens<'a>(
    alloc: Global,
    decls: &Decls,
    vars: &[u32],
    values: &mut Items<Value>,
    bytes: &'a [u8],
) -> Result<&'a [u8], ReadFault>
    requires faultless { IsFaultless decls.now }
    requires distinct { AreDistinct (names_of decls.now) }
    requires named { HaveIds decls.now }
    requires inhabited { AreInhabited decls.now }
    requires declared { (v : ℕ) → Contains vars.now v → v < length (variables_of decls.now) }
    requires none { values.old ≡ [] }
    ensures { (typed : List TypedVariable) → AllZip (IsTypedVariable decls.now) vars.now typed
        → ReadsOr (AreGivenTexts decls.now typed) bytes.now (λ x. values.new) (λ x. x.now) result }
{
    let mut rest = bytes;
    for i in 0..vars.len() {
        let read = match given(alloc, decls, vars[i], mark_behind(i, vars.len()), rest) {
            Ok(read) => read,
            Err(fault) => return Err(fault),
        };
        rest = read.1;
        match values.push(read.0.0) {
            Ok(()) => {}
            Err(error) => return Err(ReadFault::Memory(error)),
        }
    }
    Ok(rest)
}

/// Reads what stands behind `[`: the variables with their values, and `]`.
pub(crate) fn bracket<'a>(
    alloc: Global,
    decls: &Decls,
    vars: &[u32],
    values: &mut Items<Value>,
    bytes: &'a [u8],
) -> Result<&'a [u8], ReadFault>
    requires faultless { IsFaultless decls.now }
    requires distinct { AreDistinct (names_of decls.now) }
    requires named { HaveIds decls.now }
    requires inhabited { AreInhabited decls.now }
    requires declared { (v : ℕ) → Contains vars.now v → v < length (variables_of decls.now) }
    requires none { values.old ≡ [] }
    ensures { (typed : List TypedVariable) → AllZip (IsTypedVariable decls.now) vars.now typed
        → ReadsOr (AreClosedTexts decls.now typed) bytes.now (λ x. values.new) (λ x. x.now) result }
{
    if !vars.is_empty() {
        return givens(alloc, decls, vars, values, bytes);
    }
    match literal(b"]", bytes) {
        Ok(rest) => Ok(rest),
        Err(left) => Err(ReadFault::Broken(left)),
    }
}
