//! What no clause says of tokens and modes: that copies succeed while there is memory, and the
//! orders by their bound.

use pn_net::{Mode, Token, laws};
use pn_text::Text;
use pn_values::Value;
use sqlite_items::Items;
use std::alloc::{AllocError, Global};
use std::process::Abort;
use std::test::Fail;

fn token(place: u32, value: Value) -> Token {
    Token { place, value }
}

fn put_tokens(alloc: Global, tokens: &mut Vec<Token>) -> Result<(), AllocError> {
    tokens.push(token(0, Value::Bool(false)))?;
    tokens.push(token(0, Value::Bool(true)))?;
    tokens.push(token(0, Value::Text(Text::from_str(alloc, "a")?)))?;
    tokens.push(token(1, Value::Dot))?;
    tokens.push(token(1, Value::Int(-1)))?;
    tokens.push(token(4294967295, Value::Dot))?;
    Ok(())
}

fn put_values(values: &mut Items<Value>, numbers: &[u32]) -> Result<(), AllocError> {
    for number in numbers {
        values.push(Value::Const(*number))?;
    }
    Ok(())
}

fn mode(alloc: Global, transition: u32, numbers: &[u32]) -> Result<Mode, AllocError> {
    let mut values = Items::new(alloc);
    put_values(&mut values, numbers)?;
    Ok(Mode { transition, values })
}

fn put_modes(alloc: Global, modes: &mut Vec<Mode>) -> Result<(), AllocError> {
    modes.push(mode(alloc, 2, &[])?)?;
    modes.push(mode(alloc, 2, &[1, 5])?)?;
    modes.push(mode(alloc, 2, &[2, 0])?)?;
    modes.push(mode(alloc, 2, &[2, 3])?)?;
    modes.push(mode(alloc, 3, &[0, 0])?)?;
    Ok(())
}

/// Whether each compares with each as their places do.
fn are_ordered<T: Ord>(items: &[T]) -> bool {
    for i in 0..items.len() {
        for k in 0..items.len() {
            if items[i].cmp(&items[k]) != i.cmp(&k) {
                return false;
            }
        }
    }
    true
}

fn are_ordered_and_copied(rt: &impl Abort, alloc: Global, tokens: &[Token]) -> Result<(), Fail> {
    assert!(rt; are_ordered(tokens));
    for token in tokens {
        let copy = token.copy(alloc)?;
        assert!(rt; copy == *token);
    }
    Ok(())
}

fn are_ordered_and_copied_modes(
    rt: &impl Abort,
    alloc: Global,
    modes: &[Mode],
) -> Result<(), Fail> {
    assert!(rt; are_ordered(modes));
    for mode in modes {
        let copy = mode.copy(alloc)?;
        assert!(rt; copy == *mode);
    }
    Ok(())
}

#[test]
fn tokens_in_order(rt: HostRuntime) -> Result<(), Fail> {
    laws::tokens_are_ordered();
    let mut tokens = Vec::new(rt.alloc());
    put_tokens(rt.alloc(), &mut tokens)?;
    are_ordered_and_copied(&rt, rt.alloc(), &tokens)
}

#[test]
fn modes_in_order(rt: HostRuntime) -> Result<(), Fail> {
    laws::modes_are_ordered();
    let mut modes = Vec::new(rt.alloc());
    put_modes(rt.alloc(), &mut modes)?;
    are_ordered_and_copied_modes(&rt, rt.alloc(), &modes)
}
