//! Worked examples of terms that have a sort, and of the variables in a term.

ghost use Rattle.pn_sorts.specs.Standing.{IsFaultless};

use crate::declared::declared;
use crate::refused::each_fault;
use crate::rows::are_right;
use pn_sorts::Decls;
use pn_terms::{Kind, Op, find_op, laws};
use std::alloc::Global;
use std::process::Abort;
use std::test::Fail;

/// Each leaf, with its sort.
const LEAVES: &str = "\
variable:x is Enumeration/0
variable:n is Integer
constant:c1 is Enumeration/0
constant:qa is Partition/2
true is Bool
positive:2 is Integer
integer:-9223372036854775808 is Integer
range:3,1,5 is Range/1/5
text:ab is Text
all:c is Bag Enumeration/0
all:most is Bag Range/1/1048576
empty:naturals is Bag Integer
emptylist:naturals is List Integer
of:q variable:x is Partition/2";

/// The rows of symmetric nets, with the sort that they give.
const SYMMETRIC: &str = "\
dotconstant/0 is Dot
and/1 true is Bool
and/2 true true is Bool
or/3 true true true is Bool
not/1 true is Bool
imply/2 true true is Bool
equality/2 variable:x constant:c1 is Bool
equality/2 all:c empty:c is Bool
inequality/2 variable:n positive:2 is Bool
successor/1 variable:x is Enumeration/0
predecessor/1 constant:c1 is Enumeration/0
lessthan/2 variable:y constant:f1 is Bool
lessthanorequal/2 range:3,1,5 range:1,1,5 is Bool
greaterthan/2 variable:x variable:x is Bool
greaterthanorequal/2 variable:x constant:c1 is Bool
ltp/2 constant:qa constant:qb is Bool
gtp/2 of:q variable:x constant:qa is Bool
tuple/2 variable:x true is Product/2 Enumeration/0 Bool
numberof/1 variable:x is Bag Enumeration/0
numberof/2 positive:2 variable:x is Bag Enumeration/0
add/1 all:c is Bag Enumeration/0
add/2 all:c numberof/1 variable:x is Bag Enumeration/0
subtract/2 all:c all:c is Bag Enumeration/0
subtract/3 all:c all:c empty:c is Bag Enumeration/0
scalarproduct/2 variable:n all:c is Bag Enumeration/0";

/// The rows of high-level nets, with the sort that they give.
const HIGH_LEVEL: &str = "\
addition/2 variable:n integer:-3 is Integer
subtraction/2 variable:n positive:2 is Integer
mult/2 natural:0 variable:n is Integer
div/2 positive:2 positive:2 is Integer
mod/2 positive:2 positive:2 is Integer
lt/2 variable:n positive:2 is Bool
leq/2 variable:n positive:2 is Bool
gt/2 variable:n positive:2 is Bool
geq/2 variable:n positive:2 is Bool
cardinality/1 all:c is Integer
cardinalityof/2 all:c variable:x is Integer
contains/2 all:c empty:c is Bool
stringconcatenation/2 text:a text:b is Text
stringlength/1 text:ab is Integer
lts/2 text:a text:b is Bool
leqs/2 text:a text:b is Bool
gts/2 text:a text:b is Bool
geqs/2 text:a text:b is Bool
makelist/1 variable:x is List Enumeration/0
makelist/2 variable:n integer:-3 is List Integer
makelist/1 makelist/1 text:a is List List Text
listconcatenation/2 emptylist:c makelist/1 variable:x is List Enumeration/0
listlength/1 emptylist:c is Integer
memberatindex/2 emptylist:c variable:n is Enumeration/0
memberatindex/2 makelist/1 emptylist:c natural:0 is List Enumeration/0
stringlength/1 text: is Integer";

/// Terms, with the variables in them, each once.
const VARIABLES: &str = "\
tuple/4 variable:n of:q variable:x variable:x memberatindex/2 emptylist:c variable:n names 0 2
numberof/1 variable:x names 0";

fn each_term(rt: &impl Abort, alloc: Global, decls: &Decls) -> Result<(), Fail>
    requires { IsFaultless decls.now }
{
    are_right(rt, alloc, decls, LEAVES)?;
    are_right(rt, alloc, decls, SYMMETRIC)?;
    are_right(rt, alloc, decls, HIGH_LEVEL)?;
    are_right(rt, alloc, decls, VARIABLES)?;
    Ok(each_fault(rt, alloc, decls)?)
}

#[test]
fn terms(rt: HostRuntime) -> Result<(), Fail> {
    let decls = declared(&rt, rt.alloc())?;
    each_term(&rt, rt.alloc(), &decls)
}

#[test]
fn operators_by_name(rt: HostRuntime) -> Result<(), Fail> {
    assert!(rt; find_op("successor", Kind::Symmetric) == Some(Op::Successor));
    assert!(rt; find_op("addition", Kind::Symmetric).is_none());
    assert!(rt; find_op("addition", Kind::HighLevel) == Some(Op::Addition));
    laws::a_term_has_one_sort();
    laws::what_has_a_sort_has_no_fault();
    Ok(())
}
