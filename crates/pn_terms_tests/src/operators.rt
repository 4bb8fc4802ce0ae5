//! What no clause says of operators: the table as the documents of nets write it.

use pn_operators::{Kind, Op, find_op, laws, op_name, row_of};
use std::test::Fail;

/// The rows in order: the name, the first kind of nets, the least and the greatest number of
/// arguments.
const ROWS: &str = "\
dotconstant symmetric 0 0
and symmetric 1 any
or symmetric 1 any
not symmetric 1 1
imply symmetric 2 2
equality symmetric 2 2
inequality symmetric 2 2
successor symmetric 1 1
predecessor symmetric 1 1
lessthan symmetric 2 2
lessthanorequal symmetric 2 2
greaterthan symmetric 2 2
greaterthanorequal symmetric 2 2
ltp symmetric 2 2
gtp symmetric 2 2
tuple symmetric 1 any
numberof symmetric 1 2
add symmetric 1 any
subtract symmetric 2 any
scalarproduct symmetric 2 2
addition high-level 2 2
subtraction high-level 2 2
mult high-level 2 2
div high-level 2 2
mod high-level 2 2
lt high-level 2 2
leq high-level 2 2
gt high-level 2 2
geq high-level 2 2
cardinality high-level 1 1
cardinalityof high-level 2 2
contains high-level 2 2
stringconcatenation high-level 2 2
stringlength high-level 1 1
lts high-level 2 2
leqs high-level 2 2
gts high-level 2 2
geqs high-level 2 2
makelist high-level 1 any
listconcatenation high-level 2 2
listlength high-level 1 1
memberatindex high-level 2 2";

fn is_most(word: &str, most: Option<usize>) -> bool {
    match most {
        Some(most) => word.parse() == Ok(most),
        None => word == "any",
    }
}

/// Whether the row of an operator has these numbers of arguments.
fn has_numbers(op: Op, least: &str, most: &str) -> bool {
    let row = row_of(op);
    least.parse() == Ok(row.least) && is_most(most, row.most)
}

/// Whether an operator is found in nets of the kind and in high-level nets alone.
fn is_found(name: &str, kind: &str) -> bool {
    let is_symmetric = kind == "symmetric";
    find_op(name, Kind::Symmetric).is_some() == is_symmetric && find_op(name, Kind::PtNet).is_none()
}

/// Whether a row is that of the operator at this place.
fn is_row(place: usize, row: &str) -> bool {
    let mut words = row.split(' ');
    let (Some(name), Some(kind), Some(least), Some(most)) = (
        words.next(),
        words.next(),
        words.next(),
        words.next(),
    ) else {
        return false;
    };
    match find_op(name, Kind::HighLevel) {
        Some(op) => {
            op as usize == place
                && op_name(op) == name
                && is_found(name, kind)
                && has_numbers(op, least, most)
        }
        None => false,
    }
}

#[test]
fn rows_in_order(rt: HostRuntime) -> Result<(), Fail> {
    for (place, row) in ROWS.lines().enumerate() {
        assert!(rt; is_row(place, row));
    }
    assert!(rt; ROWS.lines().count() == 42);
    Ok(())
}

#[test]
fn found_by_name(rt: HostRuntime) -> Result<(), Fail> {
    assert!(rt; find_op("Successor", Kind::Symmetric).is_none());
    assert!(rt; find_op("", Kind::HighLevel).is_none());
    assert!(rt; Kind::HighLevel.has(Kind::Symmetric));
    assert!(rt; !Kind::Symmetric.has(Kind::HighLevel));
    laws::names_are_one_to_one();
    Ok(())
}
