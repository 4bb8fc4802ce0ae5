//! Worked examples of sorts, terms and declarations.

use crate::scanned::scanned;
use crate::shown::{put_declarations, put_fault, put_sort, put_term};
use pn_faults::Refusal;
use pn_hl_grammar::{read_declarations, read_sort, read_term};
use pn_operators::Kind;
use pn_tree::{Tree, View};
use std::alloc::{AllocError, Global};
use std::process::Abort;
use std::test::Fail;

/// What an element is to spell.
#[derive(Clone, Copy)]
enum Part {
    Sort,
    Term,
    Declarations,
}

/// Sorts of symmetric nets, with what they spell.
const SORTS: &str = "\
<dot/> is dot()@0
<bool/> is bool()@0
<finiteintrange start=' -0 ' end='007'/> is range(0 7)@0
<finiteintrange end='9223372036854775807' start='-9223372036854775808' x:y='z'/> is range(-9223372036854775808 9223372036854775807)@0
<productsort> <bool/><!-- --><productsort><dot/></productsort> <usersort declaration='é'/></productsort> is product( bool()@14 product( dot()@42)@29 user(é)@63)@0";

/// Sorts of high-level nets alone.
const HIGH_LEVEL_SORTS: &str = "\
<integer/> is integer()@0
<natural/> is natural()@0
<positive/> is positive()@0
<string></string> is string()@0
<list> <list><string/></list></list> is list(list(string()@13)@7)@0";

/// Terms of symmetric nets.
const TERMS: &str = "\
<variable refvariable='x'/> is variable(x)@0
<useroperator declaration='c1'/> is constant(c1)@0
<booleanconstant value='true'/> is true()@0
<booleanconstant value='false'/> is false()@0
<numberconstant value='5'><integer/></numberconstant> is integer(5)@0
<numberconstant value='-3'><natural/></numberconstant> is natural(-3)@0
<numberconstant value='01'> <positive/> </numberconstant> is positive(1)@0
<finiteintrangeconstant value='4'><finiteintrange start='3' end='5'/></finiteintrangeconstant> is range(4 3 5)@0
<partitionelementof refpartition='q'><subterm><variable refvariable='x'/></subterm></partitionelementof> is of(q variable(x)@46)@0
<all><usersort declaration='P'/></all> is all(user(P)@5)@0
<all><multisetsort> <usersort declaration='P'/></multisetsort></all> is all(user(P)@20)@0
<empty><multisetsort><dot/></multisetsort></empty> is empty(dot()@21)@0
<dotconstant/> is dotconstant()@0
<equality><subterm><successor><subterm><variable refvariable='x'/></subterm></successor></subterm><subterm><variable refvariable='x'/></subterm></equality> is equality( successor( variable(x)@39)@19 variable(x)@107)@0
<numberof> <subterm><numberconstant value='1'><positive/></numberconstant></subterm> <subterm> <variable refvariable='x'/> </subterm> </numberof> is numberof( positive(1)@20 variable(x)@95)@0";

/// Terms of high-level nets alone.
const HIGH_LEVEL_TERMS: &str = "\
<stringconstant value=' a&amp;b '/> is text( a&b )@0
<stringconstant value=''/> is text()@0
<emptylist><integer/></emptylist> is emptylist(integer()@11)@0
<mult><subterm><variable refvariable='x'/></subterm><subterm><variable refvariable='x'/></subterm></mult> is mult( variable(x)@15 variable(x)@61)@0
<memberatindex><subterm><makelist><subterm><booleanconstant value='true'/></subterm></makelist></subterm><subterm><numberconstant value='0'><natural/></numberconstant></subterm></memberatindex> is memberatindex( makelist( true()@43)@24 natural(0)@114)@0";

/// Declarations of symmetric nets.
const DECLARATIONS: &str = "\
<declarations/> is ()
<declarations><namedsort id='p'><productsort><usersort declaration='c'/><usersort declaration='c'/></productsort></namedsort><namedsort id='c'><cyclicenumeration><feconstant id='c1'/></cyclicenumeration></namedsort></declarations> is ( named(p product( user(c)@45 user(c)@72)@32)@14 named(c cyclic (c1)@162)@125)
<declarations><namedsort id='f' name='f'><finiteenumeration><feconstant id='f1' name='1'/></finiteenumeration></namedsort><variabledecl id='x' name='x'><usersort declaration='f'/></variabledecl></declarations> is ( named(f=f finite (f1=1)@60)@14 variable(x=x user(f)@152)@122)
<declarations> <variabledecl id='x'><dot/></variabledecl> <partition id='q'> <partitionelement id='a' name=''><useroperator declaration='c1'/><useroperator declaration='c2'/></partitionelement> <usersort declaration='c'/> <partitionelement id='b'><finiteintrangeconstant value='2'><finiteintrange start='1' end='3'/></finiteintrangeconstant></partitionelement> </partition></declarations> is ( variable(x dot()@36)@15 partition(q user(c)@194 (a= constant(c1)@110 constant(c2)@142)@77 (b range(2 1 3)@247)@222)@58)";

/// What is no sort of symmetric nets, with the least fault in it.
const NO_SORTS: &str = "\
<int/> is unknown element@0 int
<integer/> is unknown element@0 integer
<list><dot/></list> is unknown element@0 list
<finiteintrange end='y' start='x'/> is bad number@0 end
<finiteintrange end='9223372036854775808' start='1'/> is bad number@0 end
<finiteintrange/> is missing attribute@0 start
<productsort/> is missing element@0 sort
<productsort><string/></productsort> is missing element@0 sort
<productsort><dot/><bool>x</bool></productsort> is stray text@19 bool
<usersort id='u' declaration='c'/> is unknown attribute@0 id
<dot xmlns='urn:x'/> is wrong namespace@0 xmlns";

/// What is no term of symmetric nets.
const NO_TERMS: &str = "\
<addition/> is unknown element@0 addition
<booleanconstant value=' true'/> is bad value@0 value
<finiteintrangeconstant value='1'/> is missing element@0 finiteintrange
<numberconstant value='+1'><natural/></numberconstant> is bad number@0 value
<and/> is missing element@0 subterm
<all/> is missing element@0 sort
<not><subterm><dotconstant/></subterm><subterm><dotconstant/></subterm></not> is repeated element@38 subterm
<dotconstant><subterm/></dotconstant> is unknown element@13 subterm
<not><subterm/></not> is missing element@5 term";

/// What is no declarations of symmetric nets.
const NO_DECLARATIONS: &str = "\
<declaration/> is unknown element@0 declaration
<declarations><partition id='q'/></declarations> is missing element@14 sort
<declarations><partition id='q'><dot/></partition></declarations> is missing element@14 partitionelement
<declarations><partition id='q'><partitionelement id='a'/><dot/></partition></declarations> is missing element@32 constant
<declarations><namedsort id='a b'><dot/></namedsort></declarations> is bad id@14 id
<declarations><variabledecl id='x'><dot/><bool/></variabledecl></declarations> is repeated element@41 bool";

/// The fault, or that there was no memory.
pub(crate) fn put_refusal(text: &mut String, refusal: &Refusal) -> Result<(), AllocError> {
    match refusal {
        Refusal::Memory(_) => text.push_str("no memory"),
        Refusal::Fault(fault) => put_fault(text, fault),
    }
}

/// What is read of an element in a net of this kind, in few words.
fn put_read(
    alloc: Global,
    text: &mut String,
    kind: Kind,
    part: Part,
    view: View<'_>,
) -> Result<(), AllocError> {
    match part {
        Part::Sort => match read_sort(alloc, kind, view) {
            Ok(sort) => put_sort(text, &sort),
            Err(refusal) => put_refusal(text, &refusal),
        },
        Part::Term => match read_term(alloc, kind, view) {
            Ok(term) => put_term(text, &term),
            Err(refusal) => put_refusal(text, &refusal),
        },
        Part::Declarations => match read_declarations(alloc, kind, view) {
            Ok(all) => put_declarations(text, &all),
            Err(refusal) => put_refusal(text, &refusal),
        },
    }
}

/// Whether these words show what is read of the root of a tree.
fn shows(
    alloc: Global,
    kind: Kind,
    part: Part,
    tree: &Tree,
    want: &str,
) -> Result<bool, AllocError> {
    let mut text = String::new(alloc);
    put_read(alloc, &mut text, kind, part, tree.root())?;
    Ok(text.as_str() == want)
}

/// Whether the words of a row show what is read of its text.
fn is_shown(alloc: Global, kind: Kind, part: Part, row: &str) -> Result<bool, AllocError> {
    match row.split_once(" is ") {
        Some((text, want)) => match scanned(alloc, text) {
            Ok(tree) => shows(alloc, kind, part, &tree, want),
            Err(_) => Ok(false),
        },
        None => Ok(false),
    }
}

fn are_shown(
    rt: &impl Abort,
    alloc: Global,
    kind: Kind,
    part: Part,
    rows: &str,
) -> Result<(), AllocError> {
    for row in rows.lines() {
        assert!(rt; is_shown(alloc, kind, part, row)?, "{row}");
    }
    Ok(())
}

#[test]
fn sorts(rt: HostRuntime) -> Result<(), Fail> {
    are_shown(&rt, rt.alloc(), Kind::Symmetric, Part::Sort, SORTS)?;
    are_shown(&rt, rt.alloc(), Kind::HighLevel, Part::Sort, SORTS)?;
    are_shown(
        &rt,
        rt.alloc(),
        Kind::HighLevel,
        Part::Sort,
        HIGH_LEVEL_SORTS,
    )?;
    are_shown(&rt, rt.alloc(), Kind::Symmetric, Part::Sort, NO_SORTS)?;
    Ok(())
}

#[test]
fn terms(rt: HostRuntime) -> Result<(), Fail> {
    are_shown(&rt, rt.alloc(), Kind::Symmetric, Part::Term, TERMS)?;
    are_shown(&rt, rt.alloc(), Kind::HighLevel, Part::Term, TERMS)?;
    are_shown(
        &rt,
        rt.alloc(),
        Kind::HighLevel,
        Part::Term,
        HIGH_LEVEL_TERMS,
    )?;
    are_shown(&rt, rt.alloc(), Kind::Symmetric, Part::Term, NO_TERMS)?;
    Ok(())
}

#[test]
fn declarations(rt: HostRuntime) -> Result<(), Fail> {
    are_shown(
        &rt,
        rt.alloc(),
        Kind::Symmetric,
        Part::Declarations,
        DECLARATIONS,
    )?;
    are_shown(
        &rt,
        rt.alloc(),
        Kind::Symmetric,
        Part::Declarations,
        NO_DECLARATIONS,
    )?;
    Ok(())
}
