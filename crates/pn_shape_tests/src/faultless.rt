//! Documents without a fault of shape.

use crate::documents::{Frame, HIGH_LEVEL, PLAIN, SYMMETRIC, expect_faultless};
use std::alloc::Global;
use std::process::Abort;
use std::test::Fail;

/// Place/transition nets.
const IN_PLAIN: &str = "\
<page id='g'/>
<name/><graphics><x y='1'>z</x></graphics><toolspecific tool='a' version='1'/><page id='g'/><page id='h'/>
<page id='g'><page id='h'><place id='a'/></page><name><text>b<!-- -->c</text><graphics/></name><arc id='u' source='a' target='t'/><transition id='t'/></page>
<page id='g'><place id='a'><initialMarking><text> 007 </text><graphics/></initialMarking></place></page>
<page id='g'><place id='a'><initialMarking><text>9223372036854775807</text></initialMarking></place></page>
<page id='g'><arc id='u' source='' target='b'><inscription><text>1</text></inscription></arc></page>
<page id='g' x:y='1' xmlns:x='u'><place id='a' xmlns='http://www.pnml.org/version-2009/grammar/pnml'><name/></place> </page>
<page id='g'><referencePlace id='r' ref='s'/><referenceTransition id='s' ref='r'/></page>";

/// Symmetric nets.
const IN_SYMMETRIC: &str = "\
<page id='g'><place id='a'><type><text>x</text><structure><dot/></structure></type></place></page>
<page id='g'><declaration><structure><declarations/></structure></declaration></page><declaration><structure><declarations/></structure></declaration>
<declaration><structure><declarations><namedsort id='f' name='f'><finiteenumeration><feconstant id='f1' name='1'/></finiteenumeration></namedsort><variabledecl id='x' name='x'><usersort declaration='f'/></variabledecl></declarations></structure></declaration><page id='g'><transition id='t'><condition><structure><equality><subterm><successor><subterm><variable refvariable='x'/></subterm></successor></subterm><subterm><variable refvariable='x'/></subterm></equality></structure></condition></transition></page>
<declaration><structure><declarations><partition id='q'><finiteintrange start='-9223372036854775808' end='9223372036854775807'/><partitionelement id='e'><finiteintrangeconstant value=' -1 '><finiteintrange start='0' end='1'/></finiteintrangeconstant><useroperator declaration='c'/></partitionelement></partition></declarations></structure></declaration><page id='g'/>
<page id='g'><arc id='u' source='a' target='t'><hlinscription><structure><add><subterm><all><multisetsort><usersort declaration='c'/></multisetsort></all></subterm><subterm><numberof><subterm><numberconstant value='1'><positive/></numberconstant></subterm><subterm><dotconstant/></subterm></numberof></subterm></add></structure></hlinscription></arc></page>";

/// High-level nets.
const IN_HIGH_LEVEL: &str = "\
<page id='g'><place id='p'><type><structure><list><integer/></list></structure></type><hlinitialMarking><structure><makelist><subterm><numberconstant value='5'><integer/></numberconstant></subterm></makelist></structure></hlinitialMarking></place></page>
<page id='g'><transition id='t'><condition><structure><lts><subterm><stringconstant value=''/></subterm><subterm><stringconstant value='a'/></subterm></lts></structure></condition></transition></page>
<page id='g'><arc id='u' source='t' target='p'><hlinscription><structure><mult><subterm><variable refvariable='x'/></subterm><subterm><variable refvariable='x'/></subterm></mult></structure></hlinscription></arc></page>";

fn expect_in_net(rt: &impl Abort, alloc: Global, kind: &str, rows: &str) -> Result<(), Fail> {
    let frame = Frame {
        kind,
        head: "",
        tail: "</net></pnml>",
    };
    expect_faultless(rt, alloc, frame, rows)
}

#[test]
fn nets_without_faults(rt: HostRuntime) -> Result<(), Fail> {
    expect_in_net(&rt, rt.alloc(), PLAIN, IN_PLAIN)?;
    expect_in_net(&rt, rt.alloc(), SYMMETRIC, IN_SYMMETRIC)?;
    expect_in_net(&rt, rt.alloc(), HIGH_LEVEL, IN_HIGH_LEVEL)
}
