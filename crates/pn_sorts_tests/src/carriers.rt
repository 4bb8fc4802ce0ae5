//! What no clause of values says: that `nth` succeeds while there is memory, and worked examples.

ghost use Rattle.std.specs.Prelude.{◌≡◌, ◌<◌, ◌^◌, true, IfOk, length};
ghost use Rattle.pn_carriers.specs.Carriers.{is_finite, carrier};
ghost use Rattle.pn_carriers.specs.Members.{IsMember};

use pn_carriers::{has_value, nth, ordinal, size};
use pn_samples::sort_of;
use pn_text::Text;
use pn_values::{Size, Sort, Value};
use sqlite_items::Items;
use std::alloc::{AllocError, Global};
use std::process::Abort;
use std::test::Fail;

/// The first declaration has three constants, the second none, the third two elements.
const WIDTHS: [u32; 3] = [3, 0, 2];

/// What follows this number and a comma, where the text begins with them.
fn behind_number<'a>(text: &'a str, number: i64) -> Option<&'a str> {
    let (digits, rest) = text.split_once(',')?;
    if digits.parse() == Ok(number) {
        Some(rest)
    } else {
        None
    }
}

/// What follows a value and a comma, where the text begins with them: `true,` and `4,`, `#0,` for a
/// constant, `(true,4,),` for a tuple or a list.
#[cycle(behind)]
fn behind<'a>(value: &Value, text: &'a str) -> Option<&'a str> {
    match value {
        Value::Bool(truth) => text.strip_prefix(if *truth { "true," } else { "false," }),
        Value::Const(constant) => behind_number(text.strip_prefix('#')?, i64::from(*constant)),
        Value::Int(number) => behind_number(text, *number),
        Value::Tuple(values) => behind_all(values.as_slice(), text),
        Value::List(values) => behind_all(values.as_slice(), text),
        Value::Dot => text.strip_prefix("dot,"),
        Value::Text(_) => None,
    }
}

#[cycle(behind)]
fn behind_all<'a>(values: &[Value], text: &'a str) -> Option<&'a str> {
    let mut rest = text.strip_prefix('(')?;
    for value in values {
        rest = behind(value, rest)?;
    }
    rest.strip_prefix("),")
}

/// Whether a value is written so.
fn is_written(value: &Value, text: &str) -> bool {
    behind(value, text) == Some("")
}

/// The place of the value at a place is that place.
fn ordinal_of_nth(alloc: Global, widths: &[u32], sort: &Sort, k: u64) -> Result<u64, AllocError>
    requires finite { is_finite sort.now ≡ true }
    requires few { length (carrier widths.now sort.now) < 2 ^ 64 }
    requires below { k < length (carrier widths.now sort.now) }
    ensures { IfOk result (λ place. place ≡ k) }
{
    let value = nth(alloc, widths, sort, k)?;
    Ok(ordinal(widths, sort, &value))
}

/// The value at the place of a value is that value.
fn nth_of_ordinal(
    alloc: Global,
    widths: &[u32],
    sort: &Sort,
    value: &Value,
) -> Result<Value, AllocError>
    requires finite { is_finite sort.now ≡ true }
    requires few { length (carrier widths.now sort.now) < 2 ^ 64 }
    requires member { IsMember widths.now value.now sort.now }
    ensures { IfOk result (λ v. v ≡ value.now) }
{
    nth(alloc, widths, sort, ordinal(widths, sort, value))
}

/// The value that is found again at the place of this value has this text.
fn is_found_again(
    alloc: Global,
    widths: &[u32],
    sort: &Sort,
    value: &Value,
    want: &str,
) -> Result<bool, AllocError>
    requires finite { is_finite sort.now ≡ true }
    requires few { length (carrier widths.now sort.now) < 2 ^ 64 }
    requires member { IsMember widths.now value.now sort.now }
{
    let again = nth_of_ordinal(alloc, widths, sort, value)?;
    Ok(is_written(&again, want))
}

/// Whether the value has the place `k` and this text, and is found again there.
fn stands_at(
    alloc: Global,
    widths: &[u32],
    sort: &Sort,
    k: u64,
    value: &Value,
    want: &str,
) -> Result<bool, AllocError>
    requires finite { is_finite sort.now ≡ true }
    requires few { length (carrier widths.now sort.now) < 2 ^ 64 }
    requires below { k < length (carrier widths.now sort.now) }
    requires member { IsMember widths.now value.now sort.now }
{
    let has_place = ordinal_of_nth(alloc, widths, sort, k)? == k;
    let is_again = is_found_again(alloc, widths, sort, value, want)?;
    let is_here = has_value(widths, sort, value) && ordinal(widths, sort, value) == k;
    Ok(is_here && has_place && is_again && is_written(value, want))
}

/// Whether at the place `k` of a small finite sort stands the value with this text.
fn is_at(
    alloc: Global,
    widths: &[u32],
    sort: &Sort,
    k: u64,
    want: &str,
) -> Result<bool, AllocError> {
    match size(widths, sort) {
        Size::Finite(count) => {
            if u128::from(k) >= count || count >= 1000 {
                return Ok(false);
            }
            let value = nth(alloc, widths, sort, k)?;
            stands_at(alloc, widths, sort, k, &value, want)
        }
        Size::Infinite => Ok(false),
    }
}

/// Each place of the sort has the value of the text that stands there, and gives it back.
fn are_at(
    rt: &impl Abort,
    alloc: Global,
    widths: &[u32],
    sort: &Sort,
    texts: &str,
) -> Result<(), AllocError> {
    let mut k = 0u64;
    for want in texts.split_whitespace() {
        assert!(rt; is_at(alloc, widths, sort, k, want)?);
        k = k.saturating_add(1);
    }
    assert!(rt; size(widths, sort) == Size::Finite(u128::from(k)));
    Ok(())
}

/// Sorts, with their values in lexicographic order.
const FINITE: &str = "\
Product/2 Bool Range/3/5: (false,3,), (false,4,), (false,5,), (true,3,), (true,4,), (true,5,),
Product/2 Product/2 Enumeration/0 Product/2 Range/-1/1 Partition/2 Bool: \
((#0,(-1,#0,),),false,), ((#0,(-1,#0,),),true,), ((#0,(-1,#1,),),false,), ((#0,(-1,#1,),),true,), \
((#0,(0,#0,),),false,), ((#0,(0,#0,),),true,), ((#0,(0,#1,),),false,), ((#0,(0,#1,),),true,), \
((#0,(1,#0,),),false,), ((#0,(1,#0,),),true,), ((#0,(1,#1,),),false,), ((#0,(1,#1,),),true,), \
((#1,(-1,#0,),),false,), ((#1,(-1,#0,),),true,), ((#1,(-1,#1,),),false,), ((#1,(-1,#1,),),true,), \
((#1,(0,#0,),),false,), ((#1,(0,#0,),),true,), ((#1,(0,#1,),),false,), ((#1,(0,#1,),),true,), \
((#1,(1,#0,),),false,), ((#1,(1,#0,),),true,), ((#1,(1,#1,),),false,), ((#1,(1,#1,),),true,), \
((#2,(-1,#0,),),false,), ((#2,(-1,#0,),),true,), ((#2,(-1,#1,),),false,), ((#2,(-1,#1,),),true,), \
((#2,(0,#0,),),false,), ((#2,(0,#0,),),true,), ((#2,(0,#1,),),false,), ((#2,(0,#1,),),true,), \
((#2,(1,#0,),),false,), ((#2,(1,#0,),),true,), ((#2,(1,#1,),),false,), ((#2,(1,#1,),),true,),
Product/0: (),
Product/2 Dot Partition/1:
Range/5/3:";

fn has_values(
    rt: &impl Abort,
    alloc: Global,
    widths: &[u32],
    words: &str,
    texts: &str,
) -> Result<(), AllocError> {
    let sort = sort_of(alloc, words)?;
    are_at(rt, alloc, widths, &sort, texts)
}

#[test]
fn values_in_order(rt: HostRuntime) -> Result<(), Fail> {
    for row in FINITE.lines() {
        let (words, texts) = row.split_once(':').ok_or("no sort")?;
        has_values(&rt, rt.alloc(), &WIDTHS, words, texts)?;
    }
    Ok(())
}

/// Sorts, with their sizes: a number, or `no`.
const SIZES: &str = "\
Range/-9223372036854775808/9223372036854775807: 18446744073709551616
Range/-9223372036854775808/9223372036854775806: 18446744073709551615
Enumeration/0: 3
Enumeration/3: 0
Text: no
Product/2 Range/-9223372036854775808/9223372036854775807 Bool: 18446744073709551616
Product/2 Range/-9223372036854775808/9223372036854775807 Range/-9223372036854775808/9223372036854775807: 18446744073709551616
Product/2 Range/-9223372036854775808/9223372036854775807 Range/5/3: 0
Product/2 Integer Range/5/3: no
List Dot: no";

fn is_size(size: Size, want: &str) -> bool {
    match size {
        Size::Finite(count) => want.parse() == Ok(count),
        Size::Infinite => want == "no",
    }
}

fn has_size(alloc: Global, words: &str, want: &str) -> Result<bool, AllocError> {
    let sort = sort_of(alloc, words)?;
    Ok(is_size(size(&WIDTHS, &sort), want))
}

#[test]
fn sizes_are_capped(rt: HostRuntime) -> Result<(), Fail> {
    for row in SIZES.lines() {
        let (words, want) = row.split_once(": ").ok_or("no sort")?;
        assert!(rt; has_size(rt.alloc(), words, want)?);
    }
    Ok(())
}

/// Numbers, with the sorts that have them.
const NUMBERS: &str = "\
-9223372036854775808 Integer
-1 Integer
0 Integer Natural
1 Integer Natural Positive
9223372036854775807 Integer Natural Positive";

/// Whether a sort has the number where its name is one of these.
fn is_as_told(sort: &Sort, number: i64, name: &str, names: &str) -> bool {
    has_value(&WIDTHS, sort, &Value::Int(number)) == names.contains(name)
}

fn is_in_each(number: i64, names: &str) -> bool {
    is_as_told(&Sort::Integer, number, "Integer", names)
        && is_as_told(&Sort::Natural, number, "Natural", names)
        && is_as_told(&Sort::Positive, number, "Positive", names)
}

#[test]
fn numbers(rt: HostRuntime) -> Result<(), Fail> {
    for row in NUMBERS.lines() {
        let (number, names) = row.split_once(' ').ok_or("no number")?;
        assert!(rt; is_in_each(number.parse().unwrap_or(7), names));
    }
    Ok(())
}

/// Texts that are values, and texts that are none.
const TEXTS: &str = "|a\t\r\n\u{20}é\u{D7FF}\u{E000}\u{FFFD}\u{10000}\u{10FFFF}";

const NO_TEXTS: &str = "\u{0}|a\u{1F}|\u{FFFE}b|\u{FFFF}";

fn is_text(alloc: Global, text: &str) -> Result<bool, AllocError> {
    let value = Value::Text(Text::from_str(alloc, text)?);
    Ok(has_value(&WIDTHS, &Sort::Text, &value))
}

#[test]
fn texts(rt: HostRuntime) -> Result<(), Fail> {
    for text in TEXTS.split('|') {
        assert!(rt; is_text(rt.alloc(), text)?);
    }
    for text in NO_TEXTS.split('|') {
        assert!(rt; !is_text(rt.alloc(), text)?);
    }
    Ok(())
}

fn put_constants(values: &mut Items<Value>, constants: &[u32]) -> Result<(), AllocError> {
    for constant in constants {
        values.push(Value::Const(*constant))?;
    }
    Ok(())
}

/// Whether the sort has the list of these constants.
fn has_list(alloc: Global, sort: &Sort, constants: &[u32]) -> Result<bool, AllocError> {
    let mut values = Items::new(alloc);
    put_constants(&mut values, constants)?;
    Ok(has_value(&WIDTHS, sort, &Value::List(values)))
}

/// Whether the sort has the lists of none and of the third constant, and no list with a fourth.
fn has_lists(alloc: Global, sort: &Sort) -> Result<bool, AllocError> {
    let short = has_list(alloc, sort, &[])? && has_list(alloc, sort, &[2])?;
    Ok(short && !has_list(alloc, sort, &[2, 3])?)
}

#[test]
fn lists(rt: HostRuntime) -> Result<(), Fail> {
    let sort = sort_of(rt.alloc(), "List Enumeration/0")?;
    assert!(rt; has_lists(rt.alloc(), &sort)?);
    assert!(rt; !has_value(&WIDTHS, &sort, &Value::Const(2)));
    Ok(())
}
