//! Each fault of shape at each element that can have it where that differs, and which of two comes
//! first. A row is a part of a document with its fault at the mark `^`.

use crate::documents::{Frame, HIGH_LEVEL, PLAIN, ROOT, SYMMETRIC, expect_fault, expect_faults};
use std::alloc::Global;
use std::process::Abort;
use std::test::Fail;

/// Whole documents.
const WHOLE: &str = "\
^<a/> => unknown element: a
^<net/> => unknown element: net
^<pnml/> => missing element: net
^<pnml><net id='n' type='http://www.pnml.org/version-2009/grammar/ptnet'><page id='g'/></net></pnml> => missing attribute: xmlns
^<pnml xmlns='x'><net id='n' type='http://www.pnml.org/version-2009/grammar/ptnet'><page id='g'/></net></pnml> => wrong namespace: xmlns
^<pnml xmlns='http://www.pnml.org/version-2009/grammar/pnml'>a<net id='n' type='http://www.pnml.org/version-2009/grammar/ptnet'><page id='g'/></net></pnml> => stray text: pnml
^<pnml xmlns='http://www.pnml.org/version-2009/grammar/pnml' x='1'><net id='n' type='http://www.pnml.org/version-2009/grammar/ptnet'><page id='g'/></net></pnml> => unknown attribute: x";

/// What stands in the root.
const IN_ROOT: &str = "\
^<net/> => missing element: page
^<net><page id='g'/></net> => missing attribute: id
^<net id='n'><page id='g'/></net> => missing attribute: type
^<net id='n' type='x'><page id='g'/></net> => wrong net type: type
^<net id='n' type='http://www.pnml.org/version-2009/grammar/pt-hlpng'><page id='g'/></net> => wrong net type: type
^<net id='' type='x'/> => missing element: page
^<net id='' type='x'><page id='g'/></net> => wrong net type: type
^<net id='n' type='x'>a<page id='g'/></net> => stray text: net
^<net id='n' type='x'><a/><page id='g'/></net> => wrong net type: type
^<net id='' type='http://www.pnml.org/version-2009/grammar/ptnet'><page id='g'/></net> => bad id: id
^<net id='n' type='http://www.pnml.org/version-2009/grammar/ptnet' x='1'><page id='g'/></net> => unknown attribute: x
<net id='n' type='http://www.pnml.org/version-2009/grammar/ptnet'><page id='g'/></net>^<net/> => second net: net
<net id='n' type='http://www.pnml.org/version-2009/grammar/ptnet'><page id='g'/></net>^<a/> => unknown element: a";

/// What stands in a place/transition net.
const IN_PLAIN: &str = "\
^<page/> => missing attribute: id
^<page id=''/> => bad id: id
^<page id='a b'/> => bad id: id
^<page id='g' x='1'/> => unknown attribute: x
^<page id='g' xmlns='x'/> => wrong namespace: xmlns
^<page id='g'>a</page> => stray text: page
<page id='g'>^<b/></page> => unknown element: b
<page id='g'>^<net/></page> => unknown element: net
<page id='g'>^<declaration/></page> => unknown element: declaration
<page id='g'><name/>^<name/></page> => repeated element: name
<page id='g'/>^<declaration/> => unknown element: declaration
<page id='g'/>^<place id='a'/> => unknown element: place
<name/><page id='g'/>^<name/> => repeated element: name
<page id='g'>^<place/></page> => missing attribute: id
<page id='g'>^<place id=' '/></page> => bad id: id
<page id='g'>^<place id='a' x='1'/></page> => unknown attribute: x
<page id='g'>^<place id='a' xmlns='x'/></page> => wrong namespace: xmlns
<page id='g'>^<place id='a'>b</place></page> => stray text: place
<page id='g'><place id='a'>^<type/></place></page> => unknown element: type
<page id='g'><place id='a'>^<hlinitialMarking/></place></page> => unknown element: hlinitialMarking
<page id='g'><place id='a'><name/>^<name/></place></page> => repeated element: name
<page id='g'><place id='a'><initialMarking><text>1</text></initialMarking>^<initialMarking/></place></page> => repeated element: initialMarking
<page id='g'><place id='a'>^<initialMarking/></place></page> => missing element: text
<page id='g'><place id='a'>^<initialMarking x='1'><text>1</text></initialMarking></place></page> => unknown attribute: x
<page id='g'><place id='a'>^<initialMarking>1<text>1</text></initialMarking></place></page> => stray text: initialMarking
<page id='g'><place id='a'><initialMarking>^<text/></initialMarking></place></page> => bad number: text
<page id='g'><place id='a'><initialMarking><text>1</text>^<structure/></initialMarking></place></page> => unknown element: structure
<page id='g'><place id='a'><initialMarking><text>1</text>^<text>1</text></initialMarking></place></page> => repeated element: text
<page id='g'><place id='a'><initialMarking>^<text>a</text></initialMarking></place></page> => bad number: text
<page id='g'><place id='a'><initialMarking>^<text>-1</text></initialMarking></place></page> => bad number: text
<page id='g'><place id='a'><initialMarking>^<text>+1</text></initialMarking></place></page> => bad number: text
<page id='g'><place id='a'><initialMarking>^<text>1 2</text></initialMarking></place></page> => bad number: text
<page id='g'><place id='a'><initialMarking>^<text>9223372036854775808</text></initialMarking></place></page> => bad number: text
<page id='g'><place id='a'><initialMarking>^<text>a<b/></text></initialMarking></place></page> => bad number: text
<page id='g'><place id='a'><initialMarking><text>1^<b/>2</text></initialMarking></place></page> => unknown element: b
<page id='g'><place id='a'><name>^<text x='1'/></name></place></page> => unknown attribute: x
<page id='g'><place id='a'><name><text>^<b/></text></name></place></page> => unknown element: b
<page id='g'><place id='a'>^<name>b</name></place></page> => stray text: name
<page id='g'><place id='a'><name><text/>^<text/></name></place></page> => repeated element: text
<page id='g'><place id='a'><name>^<structure/></name></place></page> => unknown element: structure
<page id='g'>^<transition/></page> => missing attribute: id
<page id='g'>^<transition id=''/></page> => bad id: id
<page id='g'>^<transition id='t'>a</transition></page> => stray text: transition
<page id='g'><transition id='t'>^<condition/></transition></page> => unknown element: condition
<page id='g'>^<arc/></page> => missing attribute: id
<page id='g'>^<arc id='u'/></page> => missing attribute: source
<page id='g'>^<arc id='u' source='a'/></page> => missing attribute: target
<page id='g'>^<arc id='' source='a' target='b'/></page> => bad id: id
<page id='g'>^<arc id='u' source='a' target='b'>c</arc></page> => stray text: arc
<page id='g'><arc id='u' source='a' target='b'>^<hlinscription/></arc></page> => unknown element: hlinscription
<page id='g'><arc id='u' source='a' target='b'>^<inscription/></arc></page> => missing element: text
<page id='g'><arc id='u' source='a' target='b'><inscription>^<text>0</text></inscription></arc></page> => bad number: text
<page id='g'><arc id='u' source='a' target='b'><inscription><text>1</text></inscription>^<inscription><text>1</text></inscription></arc></page> => repeated element: inscription
<page id='g'>^<referencePlace id='r'/></page> => missing attribute: ref
<page id='g'>^<referencePlace ref='a'/></page> => missing attribute: id
<page id='g'>^<referenceTransition id='r'/></page> => missing attribute: ref
<page id='g'>^<referenceTransition id='' ref='a'/></page> => bad id: id
<page id='g'><referencePlace id='r' ref='a'>^<place id='a'/></referencePlace></page> => unknown element: place
<page id='g'>^<place/><place id=''/></page> => missing attribute: id
<page id='g'><name/>^<name><b/></name></page> => repeated element: name
<page id='g'>^<place x='1' y='2'/></page> => unknown attribute: x
<page id='g'>^<place id='' xmlns='x' y='2'>b</place></page> => wrong namespace: xmlns";

/// What stands in a symmetric net.
const IN_SYMMETRIC: &str = "\
<page id='g'>^<place id='a'/></page> => missing element: type
<page id='g'><place id='a'>^<type/></place></page> => missing element: structure
<page id='g'><place id='a'><type>^<structure/></type></place></page> => missing element: sort
<page id='g'><place id='a'><type><structure><dot/>^<dot/></structure></type></place></page> => repeated element: dot
<page id='g'><place id='a'><type>^<structure><integer/></structure></type></place></page> => missing element: sort
<page id='g'><place id='a'><type><structure><dot/>^<integer/></structure></type></place></page> => unknown element: integer
<page id='g'><place id='a'><type><structure><dot/>^<string/></structure></type></place></page> => unknown element: string
<page id='g'><place id='a'><type><structure><dot/>^<list/></structure></type></place></page> => unknown element: list
<page id='g'><place id='a'><type>^<structure>b<dot/></structure></type></place></page> => stray text: structure
<page id='g'><place id='a'><type><structure><dot/></structure></type>^<type/></place></page> => repeated element: type
<page id='g'><place id='a'><type><structure><dot/></structure></type>^<initialMarking/></place></page> => unknown element: initialMarking
<page id='g'><place id='a'><type><structure><dot/></structure></type>^<hlinitialMarking/></place></page> => missing element: structure
<page id='g'><place id='a'><type><structure><dot/></structure></type><hlinitialMarking>^<structure/></hlinitialMarking></place></page> => missing element: term
<page id='g'><transition id='t'>^<condition/></transition></page> => missing element: structure
<page id='g'><transition id='t'><condition>^<structure/></condition></transition></page> => missing element: term
<page id='g'>^<arc id='u' source='a' target='b'/></page> => missing element: hlinscription
<page id='g'><arc id='u' source='a' target='b'><hlinscription><structure><dotconstant/></structure></hlinscription>^<inscription/></arc></page> => unknown element: inscription
<page id='g'><arc id='u' source='a' target='b'>^<hlinscription><text/></hlinscription></arc></page> => missing element: structure
<page id='g'><declaration><structure>^<declarations>a</declarations></structure></declaration></page> => stray text: declarations
<page id='g'/>^<declaration/> => missing element: structure
<page id='g'/><declaration>^<structure/></declaration> => missing element: declarations";

/// What stands in declarations.
const DECLARED: &str = "\
^<a/> => unknown element: a
^<namedsort><dot/></namedsort> => missing attribute: id
^<namedsort id=''><dot/></namedsort> => bad id: id
^<namedsort id='s' x='1'><dot/></namedsort> => unknown attribute: x
^<namedsort id='s'/> => missing element: sort
<namedsort id='s'><dot/>^<bool/></namedsort> => repeated element: bool
^<namedsort id='s'><multisetsort><dot/></multisetsort></namedsort> => missing element: sort
<namedsort id='s'>^<finiteenumeration/></namedsort> => missing element: feconstant
<namedsort id='s'>^<cyclicenumeration/></namedsort> => missing element: feconstant
<namedsort id='s'>^<cyclicenumeration x='1'><feconstant id='c'/></cyclicenumeration></namedsort> => unknown attribute: x
<namedsort id='s'><finiteenumeration>^<feconstant/></finiteenumeration></namedsort> => missing attribute: id
<namedsort id='s'><finiteenumeration><feconstant id='c'>^<name/></feconstant></finiteenumeration></namedsort> => unknown element: name
<namedsort id='s'><finiteenumeration>^<feconstant id='c'>a</feconstant></finiteenumeration></namedsort> => stray text: feconstant
^<variabledecl id='x'/> => missing element: sort
^<variabledecl><dot/></variabledecl> => missing attribute: id
^<partition id='q'/> => missing element: sort
^<partition id='q'><usersort declaration='s'/></partition> => missing element: partitionelement
<partition id='q'><usersort declaration='s'/>^<partitionelement id='e'/></partition> => missing element: constant
<partition id='q'><usersort declaration='s'/>^<partitionelement><useroperator declaration='c'/></partitionelement></partition> => missing attribute: id
<partition id='q'><usersort declaration='s'/><partitionelement id='e'><useroperator declaration='c'/>^<dotconstant/></partitionelement></partition> => unknown element: dotconstant
<variabledecl id='x'>^<finiteintrange/></variabledecl> => missing attribute: start
<variabledecl id='x'>^<finiteintrange start='0'/></variabledecl> => missing attribute: end
<variabledecl id='x'>^<finiteintrange end='y' start='x'/></variabledecl> => bad number: end
<variabledecl id='x'>^<finiteintrange start='9223372036854775808' end='0'/></variabledecl> => bad number: start
<variabledecl id='x'>^<finiteintrange start='-9223372036854775809' end='0'/></variabledecl> => bad number: start
<variabledecl id='x'>^<productsort/></variabledecl> => missing element: sort
<variabledecl id='x'>^<usersort/></variabledecl> => missing attribute: declaration
<variabledecl id='x'><dot>^<dot/></dot></variabledecl> => unknown element: dot
<variabledecl id='x'>^<bool x='1'/></variabledecl> => unknown attribute: x";

/// Terms of symmetric nets.
const TERMS: &str = "\
^<variable/> => missing attribute: refvariable
^<useroperator/> => missing attribute: declaration
<useroperator declaration='c'>^<subterm/></useroperator> => unknown element: subterm
^<booleanconstant/> => missing attribute: value
^<booleanconstant value='TRUE'/> => bad value: value
^<booleanconstant value=' true'/> => bad value: value
^<numberconstant value='1'/> => missing element: sort
^<numberconstant><positive/></numberconstant> => missing attribute: value
^<numberconstant value=''><integer/></numberconstant> => bad number: value
^<numberconstant value='- 1'><integer/></numberconstant> => bad number: value
<numberconstant value='1'><integer/>^<natural/></numberconstant> => repeated element: natural
^<numberconstant value='1'><dot/></numberconstant> => missing element: sort
^<finiteintrangeconstant value='1'/> => missing element: finiteintrange
^<finiteintrangeconstant value='a'><finiteintrange start='0' end='1'/></finiteintrangeconstant> => bad number: value
^<partitionelementof refpartition='q'/> => missing element: subterm
^<partitionelementof><subterm><dotconstant/></subterm></partitionelementof> => missing attribute: refpartition
^<all/> => missing element: sort
^<empty/> => missing element: sort
<all>^<multisetsort/></all> => missing element: sort
<all><multisetsort><dot/></multisetsort>^<dot/></all> => repeated element: dot
^<and/> => missing element: subterm
^<imply><subterm><dotconstant/></subterm></imply> => missing element: subterm
<not><subterm><dotconstant/></subterm>^<subterm><dotconstant/></subterm></not> => repeated element: subterm
<dotconstant>^<subterm><dotconstant/></subterm></dotconstant> => unknown element: subterm
<numberof><subterm><dotconstant/></subterm><subterm><dotconstant/></subterm>^<subterm><dotconstant/></subterm></numberof> => repeated element: subterm
^<numberof/> => missing element: subterm
^<subtract><subterm><dotconstant/></subterm></subtract> => missing element: subterm
^<add/> => missing element: subterm
<add>^<subterm/></add> => missing element: term
<add><subterm><dotconstant/>^<dotconstant/></subterm></add> => repeated element: dotconstant
<add>^<subterm x='1'><dotconstant/></subterm></add> => unknown attribute: x
^<and x='1'><subterm><dotconstant/></subterm></and> => unknown attribute: x
^<and>a<subterm><dotconstant/></subterm></and> => stray text: and";

/// Terms of high-level nets in a symmetric net.
const NO_TERMS: &str = "\
^<structure><addition/></structure> => missing element: term
^<structure><stringconstant value='a'/></structure> => missing element: term
^<structure><emptylist><dot/></emptylist></structure> => missing element: term
^<structure><cardinality><subterm><all><dot/></all></subterm></cardinality></structure> => missing element: term
^<structure><memberatindex/></structure> => missing element: term
<structure><dotconstant/>^<addition/></structure> => unknown element: addition
<structure><dotconstant/>^<stringconstant/></structure> => unknown element: stringconstant
<structure><dotconstant/>^<emptylist/></structure> => unknown element: emptylist
<structure><dotconstant/>^<geqs/></structure> => unknown element: geqs";

/// Terms of high-level nets.
const HIGH_LEVEL_TERMS: &str = "\
^<stringconstant/> => missing attribute: value
^<emptylist/> => missing element: sort
<emptylist>^<list/></emptylist> => missing element: sort
<emptylist><string/>^<integer/></emptylist> => repeated element: integer
<emptylist><natural>^<a/></natural></emptylist> => unknown element: a
^<addition/> => missing element: subterm
<div><subterm><dotconstant/></subterm><subterm><dotconstant/></subterm>^<subterm/></div> => repeated element: subterm
^<cardinality/> => missing element: subterm
^<makelist/> => missing element: subterm
^<memberatindex><subterm><dotconstant/></subterm></memberatindex> => missing element: subterm";

fn expect_whole(rt: &impl Abort, alloc: Global) -> Result<(), Fail> {
    let frame = Frame {
        kind: "",
        head: "",
        tail: "",
    };
    expect_faults(rt, alloc, frame, WHOLE)
}

fn expect_in_root(rt: &impl Abort, alloc: Global) -> Result<(), Fail> {
    let frame = Frame {
        kind: ROOT,
        head: "",
        tail: "</pnml>",
    };
    expect_faults(rt, alloc, frame, IN_ROOT)
}

fn expect_in_net(rt: &impl Abort, alloc: Global, kind: &str, rows: &str) -> Result<(), Fail> {
    let frame = Frame {
        kind,
        head: "",
        tail: "</net></pnml>",
    };
    expect_faults(rt, alloc, frame, rows)
}

fn expect_declared(rt: &impl Abort, alloc: Global) -> Result<(), Fail> {
    let frame = Frame {
        kind: SYMMETRIC,
        head: "<page id='g'/><declaration><structure><declarations>",
        tail: "</declarations></structure></declaration></net></pnml>",
    };
    expect_faults(rt, alloc, frame, DECLARED)
}

fn expect_terms(rt: &impl Abort, alloc: Global, kind: &str, rows: &str) -> Result<(), Fail> {
    let frame = Frame {
        kind,
        head: "<page id='g'><transition id='t'><condition><structure>",
        tail: "</structure></condition></transition></page></net></pnml>",
    };
    expect_faults(rt, alloc, frame, rows)
}

fn expect_structures(rt: &impl Abort, alloc: Global) -> Result<(), Fail> {
    let frame = Frame {
        kind: SYMMETRIC,
        head: "<page id='g'><transition id='t'><condition>",
        tail: "</condition></transition></page></net></pnml>",
    };
    expect_faults(rt, alloc, frame, NO_TERMS)
}

/// A place/transition net with one place, whose number of tokens is too great.
const TOO_MANY_TOKENS: &str =
    "<pnml xmlns=\"http://www.pnml.org/version-2009/grammar/pnml\"><net id=\"n\" type=\"http://www.pnml.org/version-2009/grammar/ptnet\"><page id=\"g\"><place id=\"a\"><initialMarking><text>9223372036854775808</text></initialMarking></place><place id=\"b\"/><transition id=\"t\"/><arc id=\"u\" source=\"a\" target=\"t\"/><arc id=\"v\" source=\"t\" target=\"b\"/></page></net></pnml>";

/// The same with another number, and with an element that has no place.
const NO_PLACE: &str =
    "<pnml xmlns=\"http://www.pnml.org/version-2009/grammar/pnml\"><net id=\"n\" type=\"http://www.pnml.org/version-2009/grammar/ptnet\"><page id=\"g\"><place id=\"a\"><arctype/><initialMarking><text>3</text></initialMarking></place><place id=\"b\"/><transition id=\"t\"/><arc id=\"u\" source=\"a\" target=\"t\"/><arc id=\"v\" source=\"t\" target=\"b\"/></page></net></pnml>";

#[test]
fn faults_of_whole_nets(rt: HostRuntime) -> Result<(), Fail> {
    expect_fault(&rt, rt.alloc(), TOO_MANY_TOKENS, 169, "bad number", "text")?;
    expect_fault(&rt, rt.alloc(), NO_PLACE, 153, "unknown element", "arctype")
}

#[test]
fn faults_of_roots_and_nets(rt: HostRuntime) -> Result<(), Fail> {
    expect_whole(&rt, rt.alloc())?;
    expect_in_root(&rt, rt.alloc())
}

#[test]
fn faults_of_objects(rt: HostRuntime) -> Result<(), Fail> {
    expect_in_net(&rt, rt.alloc(), PLAIN, IN_PLAIN)?;
    expect_in_net(&rt, rt.alloc(), SYMMETRIC, IN_SYMMETRIC)
}

#[test]
fn faults_of_declarations(rt: HostRuntime) -> Result<(), Fail> {
    expect_declared(&rt, rt.alloc())
}

#[test]
fn faults_of_terms(rt: HostRuntime) -> Result<(), Fail> {
    expect_terms(&rt, rt.alloc(), SYMMETRIC, TERMS)?;
    expect_terms(&rt, rt.alloc(), HIGH_LEVEL, HIGH_LEVEL_TERMS)?;
    expect_structures(&rt, rt.alloc())
}
