//! Mode words, read on worked nets.

use pn_checks::Checked;
use pn_mode_text::{Counted, ModeTextFault, put_mode, read_mode};
use pn_net_samples::{net_with, value_of};
use pn_outside::MemorySink;
use std::alloc::Global;
use std::process::Abort;
use std::test::Fail;

/// Whether a mode has the values of these words, one by one.
fn has_values(counted: &Counted, words: &str) -> bool {
    let values = counted.mode.values.as_slice();
    let mut at = 0;
    for word in words.split_whitespace() {
        if at >= values.len() || values[at] != value_of(word) {
            return false;
        }
        at += 1;
    }
    at == values.len()
}

/// Whether a mode is so many times one of the transition of this id, with these values.
fn is_such(net: &Checked, counted: &Counted, count: &str, mode: &str) -> bool {
    let (id, words) = mode.split_once(' ').unwrap_or((mode, ""));
    let number = count.parse::<u64>().unwrap_or(0);
    counted.count == number
        && Some(counted.mode.transition) == net.typed().find_transition(id)
        && has_values(counted, words)
}

/// Whether a word is broken behind so many bytes, or is read as this.
fn is_read(alloc: Global, net: &Checked, word: &str, first: &str, rest: &str) -> bool {
    match read_mode(alloc, net.typed(), word) {
        Ok(counted) => is_such(net, &counted, first, rest),
        Err(ModeTextFault::BadMode(place)) => first == "bad" && rest.parse() == Ok(place),
        Err(ModeTextFault::Memory(_)) => false,
    }
}

/// Whether a row is right: a word, and behind `|` the number, the id of the transition and the values,
/// or `bad` and the number of bytes.
fn is_right(alloc: Global, net: &Checked, row: &str) -> bool {
    let Some((word, want)) = row.split_once('|') else {
        return false;
    };
    let Some((first, rest)) = want.split_once(' ') else {
        return false;
    };
    is_read(alloc, net, word, first, rest)
}

fn all_right(rt: &impl Abort, alloc: Global, net: &Checked, rows: &str) {
    for row in rows.lines() {
        assert!(rt; is_right(alloc, net, row));
    }
}

fn reads(rt: &impl Abort, alloc: Global, net: Option<Checked>, rows: &str) -> Result<(), Fail> {
    match net {
        Some(net) => {
            all_right(rt, alloc, &net, rows);
            Ok(())
        }
        None => Err(Fail::from("a fault")),
    }
}

/// Transitions whose ids are escaped, begin with one another, or begin with digits.
const PLAIN: &str =
    r#"<transition id="a,b"/><transition id="a"/><transition id="ab"/><transition id="12"/><transition id="1a"/><transition id="grün"/>"#;

const PLAIN_ROWS: &str = "a%2Cb[]|1 a,b
a[]|1 a
ab[]|1 ab
7*ab[]|7 ab
12[]|1 12
12*12[]|12 12
1*1a[]|1 1a
9223372036854775807*a[]|9223372036854775807 a
9223372036854775808*a[]|bad 18
grün[]|1 grün
a,b[]|bad 1
a%2cb[]|bad 3
abc[]|bad 2
a[x|bad 2
a[|bad 2
a[]]|bad 3
1b[]|bad 1
123|bad 3
12]|bad 2
12*]|bad 3
1*1*a[]|bad 3
0*a[]|bad 0
01*a[]|bad 0
[]|bad 0
|bad 0";

#[test]
fn words_without_variables(rt: HostRuntime) -> Result<(), Fail> {
    let net = net_with(rt.alloc(), "symmetricnet", "", PLAIN);
    reads(&rt, rt.alloc(), net, PLAIN_ROWS)
}

#[test]
fn a_net_without_transitions_has_no_words(rt: HostRuntime) -> Result<(), Fail> {
    let net = net_with(rt.alloc(), "symmetricnet", "", "");
    reads(&rt, rt.alloc(), net, "1*t[]|bad 0\n|bad 0")
}

/// Five philosophers, the sort of their constants, and a variable of it.
const PHILOSOPHERS: &str =
    r#"<namedsort id="P"><cyclicenumeration><feconstant id="c1"/><feconstant id="c2"/><feconstant id="c3"/><feconstant id="c4"/><feconstant id="c5"/></cyclicenumeration></namedsort><variabledecl id="x"><usersort declaration="P"/></variabledecl>"#;

/// `take` and `release` have the variable x.
const TABLE: &str =
    r#"<place id="eat"><type><structure><usersort declaration="P"/></structure></type></place><transition id="take"/><transition id="release"/><arc id="b" source="take" target="eat"><hlinscription><structure><variable refvariable="x"/></structure></hlinscription></arc><arc id="c" source="eat" target="release"><hlinscription><structure><variable refvariable="x"/></structure></hlinscription></arc>"#;

/// The first seven are the worked row 29.
const TABLE_ROWS: &str = "2*take[x=c1]|2 take c1
1*take[x=c1]|1 take c1
take[x=c6]|bad 8
tale|bad 2
0*take[x=c1]|bad 0
take[x=c1|bad 9
take[x=c1]]|bad 10
take[x=c5]|1 take c5
release[x=c2]|1 release c2
take[x=c1,|bad 9
take[]|bad 5
take[y=c1]|bad 5
take[x=]|bad 7";

#[test]
fn words_at_the_table(rt: HostRuntime) -> Result<(), Fail> {
    let net = net_with(rt.alloc(), "symmetricnet", PHILOSOPHERS, TABLE);
    reads(&rt, rt.alloc(), net, TABLE_ROWS)
}

/// Four variables of sorts with many values.
const SORTS: &str =
    r#"<variabledecl id="a"><integer/></variabledecl><variabledecl id="b"><string/></variabledecl><variabledecl id="c"><list><integer/></list></variabledecl><variabledecl id="d"><productsort><bool/><finiteintrange start="-2" end="12"/></productsort></variabledecl>"#;

/// `t` has all of them.
const FOUR: &str =
    r#"<transition id="t"><condition><structure><and><subterm><equality><subterm><variable refvariable="a"/></subterm><subterm><variable refvariable="a"/></subterm></equality></subterm><subterm><equality><subterm><variable refvariable="b"/></subterm><subterm><variable refvariable="b"/></subterm></equality></subterm><subterm><equality><subterm><variable refvariable="c"/></subterm><subterm><variable refvariable="c"/></subterm></equality></subterm><subterm><equality><subterm><variable refvariable="d"/></subterm><subterm><variable refvariable="d"/></subterm></equality></subterm></and></structure></condition></transition>"#;

const FOUR_ROWS: &str = "t[a=-0,|bad 5
t[a=9223372036854775808,|bad 22
t[a=5,c=|bad 6
t[a=5,b=\"%41\"|bad 11
t[a=5,b=\"%2d\"|bad 11
t[a=5,b=\"%00\"|bad 11
t[a=5,b=\"\u{ffff}\"|bad 11
t[a=5,b=\"\",c=[1,]|bad 16
t[a=5,b=\"\",c=[],d=(true,13)]|bad 25
t[a=5,b=\"\",c=[],d=(tru)]|bad 22
t[a=5,b=\"\",c=[],d=(true,-2)|bad 27";

#[test]
fn values_of_many_sorts_are_broken(rt: HostRuntime) -> Result<(), Fail> {
    let net = net_with(rt.alloc(), "highlevelnet", SORTS, FOUR);
    reads(&rt, rt.alloc(), net, FOUR_ROWS)
}

/// What is put of the mode that a word is read as.
fn put_again(
    alloc: Global,
    net: &Checked,
    word: &str,
    sink: &mut MemorySink,
) -> Result<(), ModeTextFault> {
    let counted = read_mode(alloc, net.typed(), word)?;
    let _done = put_mode(net.typed(), &counted.mode, sink);
    Ok(())
}

fn is_put_again(alloc: Global, net: &Checked, word: &str) -> Result<bool, ModeTextFault> {
    let mut sink = MemorySink::new(alloc, word.len(), Vec::new(alloc))?;
    put_again(alloc, net, word, &mut sink)?;
    Ok(sink.bytes() == word.as_bytes())
}

fn all_put_again(rt: &impl Abort, alloc: Global, net: &Checked, rows: &str) {
    for row in rows.lines() {
        assert!(rt; is_put_again(alloc, net, row).unwrap_or(false));
    }
}

fn puts(rt: &impl Abort, alloc: Global, net: Option<Checked>, rows: &str) -> Result<(), Fail> {
    match net {
        Some(net) => {
            all_put_again(rt, alloc, &net, rows);
            Ok(())
        }
        None => Err(Fail::from("a fault")),
    }
}

const FOUR_WORDS: &str = "t[a=0,b=\"\",c=[],d=(true,-2)]
t[a=-9223372036854775808,b=\"a%20%25-\",c=[-1],d=(false,0)]
t[a=9223372036854775807,b=\"grün%0A\",c=[1,2,30],d=(true,12)]";

#[test]
fn words_are_put_as_they_are_read(rt: HostRuntime) -> Result<(), Fail> {
    let net = net_with(rt.alloc(), "highlevelnet", SORTS, FOUR);
    puts(&rt, rt.alloc(), net, FOUR_WORDS)
}
