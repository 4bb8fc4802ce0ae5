//! Worked examples of values of terms: x is the second philosopher, y the third, n the number 3.

ghost use Rattle.std.specs.Prelude.{◌≡◌, ◌∷◌, []};
ghost use Rattle.pn_eval.specs.Assignments.{IsAssignment};
ghost use Rattle.pn_sorts.specs.Standing.{IsFaultless};

use crate::assigned::are_assigned;
use crate::declared::declared;
use crate::rows::is_right;
use pn_eval::laws;
use pn_sorts::{Decls, Value};
use std::alloc::{AllocError, Global};
use std::process::Abort;
use std::test::Fail;

/// Each leaf.
const LEAVES: &str = "\
variable:x = place 1
variable:y = place 2
variable:n = number 3
constant:p3 = place 2
constant:rest = place 1
true = true
natural:2 = number 2
range:3,1,3 = number 3
text:ab = text ab
all:phil = bag 1/0 1/1 1/2
empty:phil = bag
emptylist:phil = items 0
of:sides variable:x = place 1
of:sides constant:p1 = place 0
of:halves range:2,1,3 = place 1
of:halves range:3,1,3 = place 0
of:sides memberatindex/2 makelist/1 variable:x natural:1 = none";

/// One operator or two of each family.
const OPERATORS: &str = "\
and/2 true equality/2 variable:x constant:p2 = true
or/2 true equality/2 div/2 natural:1 natural:0 natural:0 = none
successor/1 variable:y = place 0
successor/1 successor/1 variable:x = place 0
predecessor/1 constant:p1 = place 2
lessthan/2 variable:y variable:x = false
gtp/2 of:sides variable:x constant:head = true
tuple/2 variable:x natural:2 = parts 2
numberof/2 natural:2 variable:x = bag 2/1
add/2 all:phil numberof/1 variable:x = bag 1/0 2/1 1/2
subtract/2 all:phil numberof/1 constant:p1 = bag 1/1 1/2
subtract/2 empty:phil all:phil = none
addition/2 variable:n integer:-4 = number -1
cardinality/1 all:most = number 1048576
stringlength/1 text:ab = number 2
makelist/2 variable:x variable:y = items 2
memberatindex/2 makelist/2 variable:x variable:y natural:1 = place 2";

fn each_row(
    rt: &impl Abort,
    alloc: Global,
    decls: &Decls,
    values: &[Value],
) -> Result<(), AllocError>
    requires faultless { IsFaultless decls.now }
    requires assignment { IsAssignment decls.now (0 ∷ 1 ∷ 2 ∷ []) values.now }
{
    for row in LEAVES.lines() {
        assert!(rt; is_right(alloc, decls, &[0, 1, 2], values, row)?);
    }
    for row in OPERATORS.lines() {
        assert!(rt; is_right(alloc, decls, &[0, 1, 2], values, row)?);
    }
    Ok(())
}

#[test]
fn terms(rt: HostRuntime) -> Result<(), Fail> {
    let decls = declared(&rt, rt.alloc())?;
    let values = [Value::Const(1), Value::Const(2), Value::Int(3)];
    assert!(&rt; are_assigned(&decls, &values[0], &values[1], &values[2]));
    each_row(&rt, rt.alloc(), &decls, &values)?;
    laws::a_term_has_one_value();
    laws::values_keep_sorts();
    Ok(())
}
