//! Worked examples of nets.

use crate::reading::put_refusal;
use crate::scanned::scanned;
use crate::shown_nets::put_net;
use pn_core_grammar::shape;
use pn_objects::{Arc, Place};
use pn_tree::Tree;
use std::alloc::{AllocError, Global};
use std::mem::size_of;
use std::process::Abort;
use std::test::Fail;

/// What stands in the `net` of a place/transition net, with what its document spells.
const PLAIN_NETS: &str = "\
<page id='g'><place id='a'><initialMarking><text>3</text></initialMarking></place><place id='b'/><transition id='t'/><arc id='u' source='a' target='t'/><arc id='v' source='t' target='b'/></page> is ptnet(n page(g place(a count(3)@153)@139 place(b)@208 transition(t)@223 arc(u a>t)@243 arc(v t>b)@278)@126)@60
<page id='g'><place id='a'/><place id='b'/><referencePlace id='r' ref='b'/><arc id='u' source='a' target='r'/></page> is ptnet(n page(g place(a)@139 place(b)@154 of_place(r=b)@169 arc(u a>r)@201)@126)@60
<page id='g'><referencePlace id='r' ref='s'/><referencePlace id='s' ref='r'/></page> is ptnet(n page(g of_place(r=s)@139 of_place(s=r)@171)@126)@60
<page id='g'><arc id='u' source='r' target='t'/><page id='h'><place id='b'/></page><referenceTransition id='s' ref='t'/><transition id='t'/><referencePlace id='r' ref='a'/> <place id='a'/><!-- --><transition id='q'/></page> <page id='i'/> is ptnet(n page(g place(a)@299 transition(t)@246 transition(q)@322 of_place(r=a)@266 of_transition(s=t)@209 arc(u r>t)@139 page(h place(b)@187)@174)@126 page(i)@350)@60
<page id='g'><place id='a'><initialMarking><graphics/><text> 003 </text><toolspecific tool='d' version='1'> </toolspecific></initialMarking><graphics><position x='1' y='2'/></graphics><name><toolspecific tool='d' version='1'/><text> é&lt;<!-- --> </text></name></place><arc id='u' source='a' target='t'><graphics/><inscription><text>01</text><graphics/></inscription><toolspecific tool='d' version='1'/></arc><transition id='t'><name/></transition></page><name><text></text></name> is ptnet(n name( '')@582 page(g place(a name( ' é< ' toolspecific(tool=d version=1 0)@316)@310 graphics(1)@266 count(3 graphics(0)@169 toolspecific(tool=d version=1 1)@198)@153)@139 transition(t name()@555)@536 arc(u a>t graphics(0)@430 toolspecific(tool=d version=1 0)@494 count(1 graphics(0)@469)@441)@396)@126)@60";

/// The same of symmetric nets.
const SYMMETRIC_NETS: &str = "\
<declaration><structure><declarations><namedsort id='f' name='f'><finiteenumeration><feconstant id='f1' name='1'/></finiteenumeration></namedsort><variabledecl id='x' name='x'><usersort declaration='f'/></variabledecl></declarations></structure></declaration><page id='g'><transition id='t'><condition><structure><equality><subterm><successor><subterm><variable refvariable='x'/></subterm></successor></subterm><subterm><variable refvariable='x'/></subterm></equality></structure></condition></transition></page> is symmetricnet(n declaration(( named(f=f finite (f1=1)@217)@171 variable(x=x user(f)@309)@279))@133 page(g transition(t term(equality( successor( variable(x)@485)@465 variable(x)@553)@446)@424)@405)@392)@60
<page id='g'><declaration><graphics/><structure><declarations/></structure><text>none</text></declaration><place id='a'><hlinitialMarking><toolspecific tool='d' version='1'/><structure><dotconstant/></structure></hlinitialMarking><type><structure> <dot/> </structure><graphics/><text>DOT</text></type></place><arc id='u' source='a' target='t'><hlinscription><text>1</text><structure><dotconstant/></structure></hlinscription></arc></page><declaration><structure><declarations/></structure></declaration> is symmetricnet(n declaration(())@571 page(g declaration(() 'none' graphics(0)@159)@146 place(a sort(dot()@381 'DOT' graphics(0)@400)@363 term(dotconstant()@318 toolspecific(tool=d version=1 0)@271)@253)@239 arc(u a>t term(dotconstant()@516 '1')@476)@442)@133)@60";

/// A document with a prefix and what an unknown tool wrote.
pub(crate) const PREFIXED: &str =
    "<pnml xmlns='http://www.pnml.org/version-2009/grammar/pnml' xmlns:x='urn:x'><net id='n' type='http://www.pnml.org/version-2009/grammar/ptnet'><page id='g'><page id='h'><place id='a'><toolspecific tool='d' version='1'><x:k v='1&lt;2'></x:k> </toolspecific></place></page><referencePlace id='r' ref='s'/><referencePlace id='s' ref='a'/><transition id='t'/><arc id='u' source='r' target='t'/></page></net></pnml>";

const PREFIXED_NET: &str =
    "ptnet(n xmlns:x=urn:x page(g transition(t)@334 of_place(r=s)@270 of_place(s=a)@302 arc(u r>t)@354 page(h place(a toolspecific(tool=d version=1 2)@182)@168)@155)@142)@76";

/// A document as the usual tool writes it.
pub(crate) const USUAL: &str = "<?xml version='1.0' encoding='UTF-8'?>
<pnml xmlns='http://www.pnml.org/version-2009/grammar/pnml'>
<!-- two philosophers -->
<net id='philosophers' type='http://www.pnml.org/version-2009/grammar/symmetricnet'>
<declaration>
<structure>
<declarations>
<namedsort id='P' name='P'>
<cyclicenumeration>
<feconstant id='c1' name='c1'/>
<feconstant id='c2' name='c2'/>
</cyclicenumeration>
</namedsort>
<variabledecl id='x' name='x'>
<usersort declaration='P'/>
</variabledecl>
</declarations>
</structure>
</declaration>
<page id='page'>
<toolspecific tool='t' version='1'>
<size x='100'/>
</toolspecific>
<place id='think'>
<name>
<graphics>
<offset x='0' y='-10'/>
</graphics>
<text>think</text>
</name>
<graphics>
<position x='10' y='20'/>
</graphics>
<type>
<text>P</text>
<structure>
<usersort declaration='P'/>
</structure>
</type>
<hlinitialMarking>
<structure>
<all>
<usersort declaration='P'/>
</all>
</structure>
</hlinitialMarking>
</place>
<place id='eat'>
<name>
<graphics>
<offset x='0' y='-10'/>
</graphics>
<text>eat</text>
</name>
<graphics>
<position x='10' y='20'/>
</graphics>
<type>
<text>P</text>
<structure>
<usersort declaration='P'/>
</structure>
</type>
</place>
<place id='fork'>
<name>
<graphics>
<offset x='0' y='-10'/>
</graphics>
<text>fork</text>
</name>
<graphics>
<position x='10' y='20'/>
</graphics>
<type>
<text>P</text>
<structure>
<usersort declaration='P'/>
</structure>
</type>
<hlinitialMarking>
<structure>
<all>
<usersort declaration='P'/>
</all>
</structure>
</hlinitialMarking>
</place>
<transition id='take'>
<name>
<graphics>
<offset x='0' y='-10'/>
</graphics>
<text>take</text>
</name>
<graphics>
<position x='10' y='20'/>
</graphics>
</transition>
<transition id='release'>
<name>
<graphics>
<offset x='0' y='-10'/>
</graphics>
<text>release</text>
</name>
<graphics>
<position x='10' y='20'/>
</graphics>
</transition>
<arc id='a1' source='think' target='take'>
<name>
<graphics>
<offset x='0' y='-10'/>
</graphics>
<text>a1</text>
</name>
<graphics>
<position x='10' y='20'/>
</graphics>
<hlinscription>
<text>x</text>
<structure>
<numberof><subterm><numberconstant value='1'><positive/></numberconstant></subterm><subterm><variable refvariable='x'/></subterm></numberof>
</structure>
</hlinscription>
</arc>
<arc id='a2' source='fork' target='take'>
<name>
<graphics>
<offset x='0' y='-10'/>
</graphics>
<text>a2</text>
</name>
<graphics>
<position x='10' y='20'/>
</graphics>
<hlinscription>
<text>x, x+1</text>
<structure>
<add><subterm><numberof><subterm><numberconstant value='1'><positive/></numberconstant></subterm><subterm><variable refvariable='x'/></subterm></numberof></subterm><subterm><numberof><subterm><numberconstant value='1'><positive/></numberconstant></subterm><subterm><successor><subterm><variable refvariable='x'/></subterm></successor></subterm></numberof></subterm></add>
</structure>
</hlinscription>
</arc>
<arc id='a3' source='take' target='eat'>
<name>
<graphics>
<offset x='0' y='-10'/>
</graphics>
<text>a3</text>
</name>
<graphics>
<position x='10' y='20'/>
</graphics>
<hlinscription>
<text>x</text>
<structure>
<numberof><subterm><numberconstant value='1'><positive/></numberconstant></subterm><subterm><variable refvariable='x'/></subterm></numberof>
</structure>
</hlinscription>
</arc>
<arc id='a4' source='eat' target='release'>
<name>
<graphics>
<offset x='0' y='-10'/>
</graphics>
<text>a4</text>
</name>
<graphics>
<position x='10' y='20'/>
</graphics>
<hlinscription>
<text>x</text>
<structure>
<numberof><subterm><numberconstant value='1'><positive/></numberconstant></subterm><subterm><variable refvariable='x'/></subterm></numberof>
</structure>
</hlinscription>
</arc>
<arc id='a5' source='release' target='think'>
<name>
<graphics>
<offset x='0' y='-10'/>
</graphics>
<text>a5</text>
</name>
<graphics>
<position x='10' y='20'/>
</graphics>
<hlinscription>
<text>x</text>
<structure>
<numberof><subterm><numberconstant value='1'><positive/></numberconstant></subterm><subterm><variable refvariable='x'/></subterm></numberof>
</structure>
</hlinscription>
</arc>
<arc id='a6' source='release' target='fork'>
<name>
<graphics>
<offset x='0' y='-10'/>
</graphics>
<text>a6</text>
</name>
<graphics>
<position x='10' y='20'/>
</graphics>
<hlinscription>
<text>x, x+1</text>
<structure>
<add><subterm><numberof><subterm><numberconstant value='1'><positive/></numberconstant></subterm><subterm><variable refvariable='x'/></subterm></numberof></subterm><subterm><numberof><subterm><numberconstant value='1'><positive/></numberconstant></subterm><subterm><successor><subterm><variable refvariable='x'/></subterm></successor></subterm></numberof></subterm></add>
</structure>
</hlinscription>
</arc>
</page>
</net>
</pnml>
";

const USUAL_NET: &str =
    "symmetricnet(philosophers declaration(( named(P=P cyclic (c1=c1)@300 (c2=c2)@332)@252 variable(x=x user(P)@429)@398))@211 page(page toolspecific(tool=t version=1 3)@534 place(think name( 'think' graphics(3)@628)@621 graphics(3)@702 sort(user(P)@785 'P')@751 term(all(user(P)@871)@865)@834)@602 place(eat name( 'eat' graphics(3)@972)@965 graphics(3)@1044 sort(user(P)@1127 'P')@1093)@948 place(fork name( 'fork' graphics(3)@1210)@1203 graphics(3)@1283 sort(user(P)@1366 'P')@1332 term(all(user(P)@1452)@1446)@1415)@1185 transition(take name( 'take' graphics(3)@1559)@1552 graphics(3)@1632)@1529 transition(release name( 'release' graphics(3)@1728)@1721 graphics(3)@1804)@1695 arc(a1 think>take name( 'a1' graphics(3)@1917)@1910 graphics(3)@1988 term(numberof( positive(1)@2099 variable(x)@2172)@2080 'x')@2037)@1867 arc(a2 fork>take name( 'a2' graphics(3)@2307)@2300 graphics(3)@2378 term(add( numberof( positive(1)@2508 variable(x)@2581)@2489 numberof( positive(1)@2667 successor( variable(x)@2760)@2740)@2648)@2475 'x, x+1')@2427)@2258 arc(a3 take>eat name( 'a3' graphics(3)@2932)@2925 graphics(3)@3003 term(numberof( positive(1)@3114 variable(x)@3187)@3095 'x')@3052)@2884 arc(a4 eat>release name( 'a4' graphics(3)@3324)@3317 graphics(3)@3395 term(numberof( positive(1)@3506 variable(x)@3579)@3487 'x')@3444)@3273 arc(a5 release>think name( 'a5' graphics(3)@3718)@3711 graphics(3)@3789 term(numberof( positive(1)@3900 variable(x)@3973)@3881 'x')@3838)@3665 arc(a6 release>fork name( 'a6' graphics(3)@4111)@4104 graphics(3)@4182 term(add( numberof( positive(1)@4312 variable(x)@4385)@4293 numberof( positive(1)@4471 successor( variable(x)@4564)@4544)@4452)@4279 'x, x+1')@4231)@4059)@517)@126";

/// What may not stand in the `net` of a place/transition net, with the least fault of its document.
const NO_PLAIN_NETS: &str = "\
<page id='g'><place id='a'><initialMarking><text>9223372036854775808</text></initialMarking></place><place id='b'/><transition id='t'/><arc id='u' source='a' target='t'/><arc id='v' source='t' target='b'/></page> is bad number@169 text
<page id='g'><place id='a'><arctype/><initialMarking><text>3</text></initialMarking></place><place id='b'/><transition id='t'/><arc id='u' source='a' target='t'/><arc id='v' source='t' target='b'/></page> is unknown element@153 arctype
<page id='g'><place id='a'><initialMarking><text>3</text></initialMarking></place><place id='b'><type><structure><dot/></structure></type></place><transition id='t'/><arc id='u' source='a' target='t'/><arc id='v' source='t' target='b'/></page> is unknown element@222 type";

/// The same of symmetric nets.
const NO_SYMMETRIC_NETS: &str = "\
<page id='g'><arc id='u' source='a' target='t'><inscription><text>1</text></inscription></arc><place id='a'/></page> is missing element@146 hlinscription";

/// The same of a net of an unknown type.
const NO_TYPE: &str = "\
<page id=''/> is wrong net type@60 type";

/// The document of a net of this type.
pub(crate) fn document(alloc: Global, net_type: &str, inside: &str) -> Result<String, AllocError> {
    let mut text = String::new(alloc);
    put_document(&mut text, net_type, inside)?;
    Ok(text)
}

pub(crate) fn put_document(
    text: &mut String,
    net_type: &str,
    inside: &str,
) -> Result<(), AllocError> {
    text.push_str("<pnml xmlns='http://www.pnml.org/version-2009/grammar/pnml'>")?;
    text.push_str("<net id='n' type='http://www.pnml.org/version-2009/grammar/")?;
    text.push_str(net_type)?;
    text.push_str("'>")?;
    text.push_str(inside)?;
    text.push_str("</net></pnml>")
}

/// The net of a tree, or the least fault of its shape, in few words.
fn put_shape(alloc: Global, text: &mut String, tree: &Tree) -> Result<(), AllocError> {
    match shape(alloc, tree) {
        Ok(net) => put_net(text, &net),
        Err(refusal) => put_refusal(text, &refusal),
    }
}

fn shows(alloc: Global, tree: &Tree, want: &str) -> Result<bool, AllocError> {
    let mut text = String::new(alloc);
    put_shape(alloc, &mut text, tree)?;
    Ok(text.as_str() == want)
}

/// Whether these words show what the document spells.
fn spells(alloc: Global, document: &str, want: &str) -> Result<bool, AllocError> {
    match scanned(alloc, document) {
        Ok(tree) => shows(alloc, &tree, want),
        Err(_) => Ok(false),
    }
}

fn is_shown(alloc: Global, net_type: &str, row: &str) -> Result<bool, AllocError> {
    match row.split_once(" is ") {
        Some((inside, want)) => {
            let document = document(alloc, net_type, inside)?;
            spells(alloc, document.as_str(), want)
        }
        None => Ok(false),
    }
}

fn are_shown(rt: &impl Abort, alloc: Global, net_type: &str, rows: &str) -> Result<(), AllocError> {
    for row in rows.lines() {
        assert!(rt; is_shown(alloc, net_type, row)?, "{row}");
    }
    Ok(())
}

#[test]
fn nets(rt: HostRuntime) -> Result<(), Fail> {
    are_shown(&rt, rt.alloc(), "ptnet", PLAIN_NETS)?;
    are_shown(&rt, rt.alloc(), "symmetricnet", SYMMETRIC_NETS)?;
    are_shown(&rt, rt.alloc(), "ptnet", NO_PLAIN_NETS)?;
    are_shown(&rt, rt.alloc(), "symmetricnet", NO_SYMMETRIC_NETS)?;
    are_shown(&rt, rt.alloc(), "pt", NO_TYPE)?;
    Ok(())
}

#[test]
fn files_of_tools(rt: HostRuntime) -> Result<(), Fail> {
    assert!(rt; spells(rt.alloc(), PREFIXED, PREFIXED_NET)?);
    assert!(rt; spells(rt.alloc(), USUAL, USUAL_NET)?);
    Ok(())
}

/// What a place or an arc takes, besides the bytes of its ids.
#[test]
fn sizes(rt: HostRuntime) -> Result<(), Fail> {
    assert!(rt; size_of::<Place>() <= 160);
    assert!(rt; size_of::<Arc>() <= 160);
    Ok(())
}
