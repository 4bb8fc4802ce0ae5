//! Markings are counted by places and values.

use pn_bag::{Bag, BagFault};
use pn_net::{Marking, Token};
use pn_values::Value;
use std::process::Abort;
use std::test::Fail;

fn number_on(place: u32, number: i64) -> Token {
    Token {
        place,
        value: Value::Int(number),
    }
}

/// Two of 5 and one of 7 on place 0, and one of 5 on place 1.
fn put_tokens(marking: &mut Marking) -> Result<(), BagFault> {
    marking.add(number_on(1, 5), 1)?;
    marking.add(number_on(0, 7), 1)?;
    marking.add(number_on(0, 5), 2)
}

fn is_counted(rt: &impl Abort, marking: &Marking) -> Result<(), Fail> {
    assert!(rt; marking.count(&number_on(0, 5)) == 2);
    assert!(rt; marking.count(&number_on(0, 7)) == 1);
    assert!(rt; marking.count(&number_on(1, 5)) == 1);
    assert!(rt; marking.count(&number_on(1, 7)) == 0);
    assert!(rt; marking.cardinality() == 4);
    Ok(())
}

#[test]
fn tokens_of_a_marking(rt: HostRuntime) -> Result<(), Fail> {
    let mut marking: Marking = Bag::new(rt.alloc());
    put_tokens(&mut marking)?;
    is_counted(&rt, &marking)
}
