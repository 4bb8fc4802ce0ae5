//! Worked examples of terms that are refused, each for one fault.

ghost use Rattle.pn_sorts.specs.Standing.{IsFaultless};

use crate::rows::are_right;
use pn_sorts::Decls;
use std::alloc::{AllocError, Global};
use std::process::Abort;

/// Each row that asks for an argument, with one argument too few.
const TOO_FEW: &str = "\
and/0
or/0
not/0
imply/1 true
equality/1 variable:x
inequality/1 variable:x
successor/0
predecessor/0
lessthan/1 variable:x
lessthanorequal/1 variable:x
greaterthan/1 variable:x
greaterthanorequal/1 variable:x
ltp/1 constant:qa
gtp/1 constant:qa
tuple/0
numberof/0
add/0
subtract/1 all:c
scalarproduct/1 positive:2
addition/1 variable:n
subtraction/1 variable:n
mult/1 variable:n
div/1 variable:n
mod/1 variable:n
lt/1 variable:n
leq/1 variable:n
gt/1 variable:n
geq/1 variable:n
cardinality/0
cardinalityof/1 all:c
contains/1 all:c
stringconcatenation/1 text:a
stringlength/0
lts/1 text:a
leqs/1 text:a
gts/1 text:a
geqs/1 text:a
makelist/0
listconcatenation/1 emptylist:c
listlength/0
memberatindex/1 emptylist:c";

/// Each row with a greatest number of arguments, with one argument too many.
const TOO_MANY: &str = "\
dotconstant/1 true
not/2 true true
imply/3 true true true
equality/3 variable:x variable:x variable:x
inequality/3 variable:x variable:x variable:x
successor/2 variable:x variable:x
predecessor/2 variable:x variable:x
lessthan/3 variable:x variable:x variable:x
lessthanorequal/3 variable:x variable:x variable:x
greaterthan/3 variable:x variable:x variable:x
greaterthanorequal/3 variable:x variable:x variable:x
ltp/3 constant:qa constant:qa constant:qa
gtp/3 constant:qa constant:qa constant:qa
numberof/3 positive:2 positive:2 variable:x
scalarproduct/3 positive:2 all:c all:c
addition/3 variable:n variable:n variable:n
subtraction/3 variable:n variable:n variable:n
mult/3 variable:n variable:n variable:n
div/3 variable:n variable:n variable:n
mod/3 variable:n variable:n variable:n
lt/3 variable:n variable:n variable:n
leq/3 variable:n variable:n variable:n
gt/3 variable:n variable:n variable:n
geq/3 variable:n variable:n variable:n
cardinality/2 all:c all:c
cardinalityof/3 all:c variable:x variable:x
contains/3 all:c all:c all:c
stringconcatenation/3 text:a text:a text:a
stringlength/2 text:a text:a
lts/3 text:a text:a text:a
leqs/3 text:a text:a text:a
gts/3 text:a text:a text:a
geqs/3 text:a text:a text:a
listconcatenation/3 emptylist:c emptylist:c emptylist:c
listlength/2 emptylist:c emptylist:c
memberatindex/3 emptylist:c variable:n variable:n";

/// The rows of symmetric nets with an argument of a wrong sort.
const WRONG_SYMMETRIC: &str = "\
and/1 variable:x
and/2 true variable:x
or/2 variable:n true
or/2 true all:c
not/1 constant:c1
imply/2 variable:x true
imply/2 true variable:x
equality/2 variable:x variable:y
equality/2 variable:x all:c
inequality/2 true variable:n
successor/1 variable:y
successor/1 all:c
predecessor/1 constant:f1
predecessor/1 range:3,1,5
lessthan/2 variable:y variable:x
lessthan/2 true variable:y
lessthan/2 variable:n variable:n
lessthanorequal/2 range:3,1,5 range:3,1,6
lessthanorequal/2 variable:x range:3,1,5
greaterthan/2 variable:x true
greaterthan/2 true true
greaterthanorequal/2 constant:qa constant:qa
ltp/2 constant:qa constant:ta
ltp/2 variable:x constant:qa
gtp/2 constant:c1 constant:c1
gtp/2 constant:qa all:c
tuple/1 all:c
tuple/2 variable:x all:c
numberof/1 all:c
numberof/2 variable:x positive:2
numberof/2 positive:2 all:c
add/1 variable:x
add/2 variable:x all:c
add/2 all:c empty:f
subtract/2 variable:x all:c
subtract/2 all:c all:f
scalarproduct/2 variable:x all:c
scalarproduct/2 positive:2 variable:x";

/// The rows of high-level nets with an argument of a wrong sort.
const WRONG_HIGH_LEVEL: &str = "\
addition/2 variable:n true
addition/2 variable:x variable:n
subtraction/2 range:3,1,5 positive:2
mult/2 positive:2 text:a
div/2 all:c positive:2
mod/2 positive:2 variable:y
lt/2 variable:x variable:x
leq/2 positive:2 range:3,1,5
gt/2 text:a text:b
geq/2 true positive:2
cardinality/1 variable:x
cardinality/1 emptylist:c
cardinalityof/2 all:c variable:y
cardinalityof/2 variable:x all:c
cardinalityof/2 all:c all:c
cardinalityof/2 variable:x variable:x
contains/2 all:c empty:f
contains/2 all:c variable:x
contains/2 variable:x variable:x
stringconcatenation/2 text:a variable:n
stringconcatenation/2 emptylist:c emptylist:c
stringlength/1 variable:n
stringlength/1 emptylist:c
lts/2 positive:2 positive:2
leqs/2 text:a variable:x
gts/2 variable:x text:a
geqs/2 true true
makelist/2 variable:x variable:y
makelist/1 all:c
makelist/2 variable:x all:c
listconcatenation/2 emptylist:c emptylist:f
listconcatenation/2 emptylist:c variable:x
listconcatenation/2 text:a text:b
listlength/1 text:a
listlength/1 all:c
memberatindex/2 emptylist:c variable:x
memberatindex/2 variable:n emptylist:c
memberatindex/2 text:a positive:2
memberatindex/2 all:c positive:2";

/// Each reason.
const REASONS: &str = "\
variable:z has unknown variable at 0 of z
variable:c1 has unknown variable at 0 of c1
constant:z has unknown operator at 0 of z
constant:x has unknown operator at 0 of x
of:c variable:x has unknown partition at 0 of c
positive:0 has bad constant at 0 of numberconstant
natural:-1 has bad constant at 0 of numberconstant
range:6,1,5 has bad constant at 0 of finiteintrangeconstant
text:a\u{1} has bad constant at 0 of stringconstant
text:\u{fffe} has bad constant at 0 of stringconstant
all:more has all too large at 0 of all
all:naturals has all too large at 0 of all
of:q variable:y has wrong sort at 0 of partitionelementof";

/// The least of several faults; a fault of the sorts in a term comes before all others.
const SEVERAL: &str = "\
equality/2 successor/1 variable:y variable:y has wrong sort at 1 of successor
and/2 variable:z constant:w has unknown variable at 1 of z
of:nope variable:z has unknown partition at 0 of nope
of:q variable:z has unknown variable at 1 of z
and/2 successor/1 variable:y positive:0 has wrong sort at 1 of successor
and/2 positive:0 successor/1 variable:y has bad constant at 1 of numberconstant
listlength/1 memberatindex/2 emptylist:c true has wrong sort at 1 of memberatindex
equality/2 variable:z emptylist:nope has unknown sort at 7 of nope
contains/2 all:nope empty:none has unknown sort at 7 of nope";

/// Each row of each table.
pub(crate) fn each_fault(rt: &impl Abort, alloc: Global, decls: &Decls) -> Result<(), AllocError>
    requires { IsFaultless decls.now }
{
    are_right(rt, alloc, decls, TOO_FEW)?;
    are_right(rt, alloc, decls, TOO_MANY)?;
    are_right(rt, alloc, decls, WRONG_SYMMETRIC)?;
    are_right(rt, alloc, decls, WRONG_HIGH_LEVEL)?;
    are_right(rt, alloc, decls, REASONS)?;
    are_right(rt, alloc, decls, SEVERAL)
}
