//! The values of terms where the variables have values.

ghost use Rattle.std.specs.Prelude.{◌≡◌, ◌<◌, ◌∷◌, [], ℕ, length, true, IfOk, IsTrue};
ghost use Rattle.std.specs.List.{Contains};
ghost use Rattle.pn_carriers.specs.Members.{IsMember};
ghost use Rattle.pn_eval.specs.Assignments.{Covers, IsAssignment};
ghost use Rattle.pn_names.specs.Names.{variables_of, widths_of};
ghost use Rattle.pn_sorts.specs.Lookups.{IsVariableSort};
ghost use Rattle.pn_sorts.specs.Standing.{IsFaultless};
ghost use Rattle.pn_values.specs.declared.sort.Sort.{Sort};

use pn_eval::{Outcome, eval};
use pn_sorts::{Decls, Value};
use pn_terms::{Term, sort_fault, sort_of, variables};
use std::alloc::{AllocError, Global};

/// Whether a value is of the sort of a variable.
fn is_member(decls: &Decls, v: u32, value: &Value) -> bool
    requires faultless { IsFaultless decls.now }
    requires within { v < length (variables_of decls.now) }
    ensures { IsTrue result → (sort : Sort) → IsVariableSort decls.now v sort → IsMember (widths_of decls.now) value.now sort }
{
    decls.has_value(decls.variable_sort(v), value)
}

/// Whether the variable of this name has this number, and the value is of its sort.
fn is_of(decls: &Decls, name: &str, v: u32, value: &Value) -> bool
    requires { IsFaultless decls.now }
    ensures { IsTrue result → (sort : Sort) → IsVariableSort decls.now v sort → IsMember (widths_of decls.now) value.now sort }
{
    match decls.variable(name) {
        Some(found) => {
            if found != v {
                return false;
            }
            is_member(decls, v, value)
        }
        None => false,
    }
}

/// Whether x, y and n are the variables, and three values are of their sorts.
pub(crate) fn are_assigned(decls: &Decls, x: &Value, y: &Value, n: &Value) -> bool
    requires { IsFaultless decls.now }
    ensures { IsTrue result → IsAssignment decls.now (0 ∷ 1 ∷ 2 ∷ []) (x.now ∷ y.now ∷ n.now ∷ []) }
{
    if !is_of(decls, "x", 0, x) {
        return false;
    }
    if !is_of(decls, "y", 1, y) {
        return false;
    }
    is_of(decls, "n", 2, n)
}

/// Whether each variable of a term is one of these.
fn are_covered(alloc: Global, decls: &Decls, term: &Term, vars: &[u32]) -> Result<bool, AllocError>
    ensures { IfOk result (λ all. all ≡ true → Covers decls.now vars.now term.now) }
{
    let found = variables(alloc, decls, term)?;
    Ok(are_among(found.as_slice(), vars))
}

/// Whether each number is one of these.
fn are_among(found: &[u32], vars: &[u32]) -> bool
    ensures { result ≡ true → (v : ℕ) → Contains found.now v → Contains vars.now v }
{
    for v in found {
        if !vars.contains(v) {
            return false;
        }
    }
    true
}

/// What a term gives; `None` where it has no sort or a variable without a value.
pub(crate) fn value_of(
    alloc: Global,
    decls: &Decls,
    term: &Term,
    vars: &[u32],
    values: &[Value],
) -> Result<Option<Outcome>, AllocError>
    requires faultless { IsFaultless decls.now }
    requires assignment { IsAssignment decls.now vars.now values.now }
{
    let Ok(None) = sort_fault(alloc, decls, term) else {
        return Ok(None);
    };
    if !are_covered(alloc, decls, term, vars)? {
        return Ok(None);
    }
    match sort_of(alloc, decls, term) {
        Ok(_) => Ok(Some(eval(alloc, decls, term, vars, values)?)),
        Err(_) => Ok(None),
    }
}
