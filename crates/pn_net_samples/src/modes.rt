//! Whether values make a mode of a transition that has no variable but `x`.

ghost use Rattle.std.specs.Prelude.{◌<◌, ℕ, List, length, IfOk, IsTrue};
ghost use Rattle.std.specs.List.Sorted.{IsStrictlyIncreasing};
ghost use Rattle.pn_carriers.specs.Members.{IsMember};
ghost use Rattle.pn_eval.specs.Assignments.{IsAssignment};
ghost use Rattle.pn_marking.specs.Modes.{IsAssigned, IsMode};
ghost use Rattle.pn_names.specs.Names.{variables_of, widths_of};
ghost use Rattle.pn_sorts.specs.Lookups.{IsVariableSort};
ghost use Rattle.pn_sorts.specs.Standing.{IsFaultless};
ghost use Rattle.pn_values.specs.declared.sort.Sort.{Sort};

use pn_marking::is_mode;
use pn_net::{Mode, Typed};
use pn_sorts::{Decls, Value};
use std::alloc::{AllocError, Global};

/// Whether a value is of the sort of a variable.
fn is_member(decls: &Decls, v: u32, value: &Value) -> bool
    requires faultless { IsFaultless decls.now }
    requires within { v < length (variables_of decls.now) }
    ensures { IsTrue result → (sort : Sort) → IsVariableSort decls.now v sort → IsMember (widths_of decls.now) value.now sort }
{
    decls.has_value(decls.variable_sort(v), value)
}

/// Whether this is the variable `x`, and the value is of its sort.
fn is_of(decls: &Decls, v: u32, value: &Value) -> bool
    requires { IsFaultless decls.now }
    ensures { IsTrue result → (sort : Sort) → IsVariableSort decls.now v sort → IsMember (widths_of decls.now) value.now sort }
{
    match decls.variable("x") {
        Some(found) => {
            if found != v {
                return false;
            }
            is_member(decls, v, value)
        }
        None => false,
    }
}

/// Whether there is a value for each variable: none, or one of the sort of `x`.
fn are_assigned(decls: &Decls, vars: &[u32], values: &[Value]) -> bool
    requires faultless { IsFaultless decls.now }
    requires ascending { IsStrictlyIncreasing vars.now }
    ensures { IsTrue result → IsAssignment decls.now vars.now values.now }
{
    if vars.len() != values.len() || vars.len() > 1 {
        return false;
    }
    if vars.is_empty() {
        return true;
    }
    is_of(decls, vars[0], &values[0])
}

/// Whether a transition with these values, none or that of `x`, is a mode.
pub fn is_sound_mode(alloc: Global, net: &Typed, mode: &Mode) -> Result<bool, AllocError>
    requires { mode.now.transition < length net.now.transitions }
    ensures { IfOk result (λ is. IsTrue is → IsMode net.now mode.now) }
{
    let vars = net.variables(mode.transition);
    if !are_assigned(net.decls(), vars, mode.values.as_slice()) {
        return Ok(false);
    }
    is_mode(alloc, net, mode)
}
