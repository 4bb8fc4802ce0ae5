//! Worked examples of documents that are read, written and read again.

use crate::nets::{PREFIXED, USUAL, document, put_document};
use crate::scanned::scanned;
use pn_core_grammar::shape;
use pn_outside::MemorySink;
use pn_tree::{Tree, put_tree};
use pn_writer::tree_of;
use std::alloc::{AllocError, Global};
use std::process::Abort;
use std::test::Fail;

/// What stands in the `net` of a place/transition net, and what is written there.
const PLAIN_NETS: &str = "\
<page id='g'><place id='a'><initialMarking><text>3</text></initialMarking></place><place id='b'/><transition id='t'/><arc id='u' source='a' target='t'/><arc id='v' source='t' target='b'/></page> is written <page id='g'><place id='a'><initialMarking><text>3</text></initialMarking></place><place id='b'/><transition id='t'/><arc id='u' source='a' target='t'/><arc id='v' source='t' target='b'/></page>
<page id='g'><place id='a'/><place id='b'/><referencePlace id='r' ref='b'/><arc id='u' source='a' target='r'/></page> is written <page id='g'><place id='a'/><place id='b'/><referencePlace id='r' ref='b'/><arc id='u' source='a' target='r'/></page>
<page id='g'><arc id='u' source='r' target='t'/><page id='h'><place id='b'/></page><referenceTransition id='s' ref='t'/><transition id='t'/><referencePlace id='r' ref='a'/> <place id='a'/><!-- --><transition id='q'/></page> <page id='i'/> is written <page id='g'><place id='a'/><transition id='t'/><transition id='q'/><referencePlace id='r' ref='a'/><referenceTransition id='s' ref='t'/><arc id='u' source='r' target='t'/><page id='h'><place id='b'/></page></page><page id='i'/>
<page id='g'><place id='a'><initialMarking><graphics/><text> 003 </text><toolspecific tool='d' version='1'> </toolspecific></initialMarking><graphics><position x='1' y='2'/></graphics><name><toolspecific tool='d' version='1'/><text> é&lt;<!-- --> </text></name></place><arc id='u' source='a' target='t'><graphics/><inscription><text>01</text><graphics/></inscription><toolspecific tool='d' version='1'/></arc><transition id='t'><name/></transition></page><name><text></text></name> is written <name><text/></name><page id='g'><place id='a'><name><text> é&lt; </text><toolspecific tool='d' version='1'/></name><graphics><position x='1' y='2'/></graphics><initialMarking><text>3</text><graphics/><toolspecific tool='d' version='1'> </toolspecific></initialMarking></place><transition id='t'><name/></transition><arc id='u' source='a' target='t'><graphics/><toolspecific tool='d' version='1'/><inscription><text>1</text><graphics/></inscription></arc></page>";

/// The same of symmetric nets.
const SYMMETRIC_NETS: &str = "\
<declaration><structure><declarations><namedsort id='f' name='f'><finiteenumeration><feconstant id='f1' name='1'/></finiteenumeration></namedsort><variabledecl id='x' name='x'><usersort declaration='f'/></variabledecl></declarations></structure></declaration><page id='g'><transition id='t'><condition><structure><equality><subterm><successor><subterm><variable refvariable='x'/></subterm></successor></subterm><subterm><variable refvariable='x'/></subterm></equality></structure></condition></transition></page> is written <declaration><structure><declarations><namedsort id='f' name='f'><finiteenumeration><feconstant id='f1' name='1'/></finiteenumeration></namedsort><variabledecl id='x' name='x'><usersort declaration='f'/></variabledecl></declarations></structure></declaration><page id='g'><transition id='t'><condition><structure><equality><subterm><successor><subterm><variable refvariable='x'/></subterm></successor></subterm><subterm><variable refvariable='x'/></subterm></equality></structure></condition></transition></page>
<page id='g'><declaration><graphics/><structure><declarations/></structure><text>none</text></declaration><place id='a'><hlinitialMarking><toolspecific tool='d' version='1'/><structure><dotconstant/></structure></hlinitialMarking><type><structure> <dot/> </structure><graphics/><text>DOT</text></type></place><arc id='u' source='a' target='t'><hlinscription><text>1</text><structure><dotconstant/></structure></hlinscription></arc></page><declaration><structure><declarations/></structure></declaration> is written <declaration><structure><declarations/></structure></declaration><page id='g'><declaration><text>none</text><structure><declarations/></structure><graphics/></declaration><place id='a'><type><text>DOT</text><structure><dot/></structure><graphics/></type><hlinitialMarking><structure><dotconstant/></structure><toolspecific tool='d' version='1'/></hlinitialMarking></place><arc id='u' source='a' target='t'><hlinscription><text>1</text><structure><dotconstant/></structure></hlinscription></arc></page>
<declaration><structure><declarations><partition id='q' name=''><partitionelement id='e'><finiteintrangeconstant value='02'><finiteintrange end='3' start='-0'/></finiteintrangeconstant></partitionelement><finiteintrange end='3' start='0'/></partition><namedsort name='P' id='p'><productsort><bool/><usersort declaration='q'/></productsort></namedsort></declarations></structure></declaration><page id='g'><place id='a'><type><structure><bool/></structure></type><hlinitialMarking><structure><add><subterm><all><multisetsort><bool/></multisetsort></all></subterm><subterm><numberof><subterm><numberconstant value=' 007 '><positive/></numberconstant></subterm><subterm><booleanconstant value='true'/></subterm></numberof></subterm></add></structure></hlinitialMarking></place></page> is written <declaration><structure><declarations><partition id='q' name=''><finiteintrange start='0' end='3'/><partitionelement id='e'><finiteintrangeconstant value='2'><finiteintrange start='0' end='3'/></finiteintrangeconstant></partitionelement></partition><namedsort id='p' name='P'><productsort><bool/><usersort declaration='q'/></productsort></namedsort></declarations></structure></declaration><page id='g'><place id='a'><type><structure><bool/></structure></type><hlinitialMarking><structure><add><subterm><all><bool/></all></subterm><subterm><numberof><subterm><numberconstant value='7'><positive/></numberconstant></subterm><subterm><booleanconstant value='true'/></subterm></numberof></subterm></add></structure></hlinitialMarking></place></page>";

/// The same of high-level nets.
const HIGH_LEVEL_NETS: &str = "\
<declaration><structure><declarations><namedsort id='l'><list><string/></list></namedsort><variabledecl name='X' id='x'><usersort declaration='l'/></variabledecl></declarations></structure></declaration><page id='g'><transition id='t'><condition><structure><equality><subterm><variable refvariable='x'/></subterm><subterm><listconcatenation><subterm><makelist><subterm><stringconstant value=' a&amp;b '/></subterm></makelist></subterm><subterm><emptylist><string/></emptylist></subterm></listconcatenation></subterm></equality></structure></condition></transition></page> is written <declaration><structure><declarations><namedsort id='l'><list><string/></list></namedsort><variabledecl id='x' name='X'><usersort declaration='l'/></variabledecl></declarations></structure></declaration><page id='g'><transition id='t'><condition><structure><equality><subterm><variable refvariable='x'/></subterm><subterm><listconcatenation><subterm><makelist><subterm><stringconstant value=' a&amp;b '/></subterm></makelist></subterm><subterm><emptylist><string/></emptylist></subterm></listconcatenation></subterm></equality></structure></condition></transition></page>";

/// What is written of a document with a prefix and an element of an unknown tool.
const PREFIXED_WRITTEN: &str = "<?xml version='1.0' encoding='UTF-8'?>
<pnml xmlns='http://www.pnml.org/version-2009/grammar/pnml' xmlns:x='urn:x'><net id='n' type='http://www.pnml.org/version-2009/grammar/ptnet'><page id='g'><transition id='t'/><referencePlace id='r' ref='s'/><referencePlace id='s' ref='a'/><arc id='u' source='r' target='t'/><page id='h'><place id='a'><toolspecific tool='d' version='1'><x:k v='1&lt;2'/> </toolspecific></place></page></page></net></pnml>
";

/// What is written of a file of the usual tool.
const USUAL_WRITTEN: &str = "<?xml version='1.0' encoding='UTF-8'?>
<pnml xmlns='http://www.pnml.org/version-2009/grammar/pnml'><net id='philosophers' type='http://www.pnml.org/version-2009/grammar/symmetricnet'><declaration><structure><declarations><namedsort id='P' name='P'><cyclicenumeration><feconstant id='c1' name='c1'/><feconstant id='c2' name='c2'/></cyclicenumeration></namedsort><variabledecl id='x' name='x'><usersort declaration='P'/></variabledecl></declarations></structure></declaration><page id='page'><toolspecific tool='t' version='1'>
<size x='100'/>
</toolspecific><place id='think'><name><text>think</text><graphics>
<offset x='0' y='-10'/>
</graphics></name><graphics>
<position x='10' y='20'/>
</graphics><type><text>P</text><structure><usersort declaration='P'/></structure></type><hlinitialMarking><structure><all><usersort declaration='P'/></all></structure></hlinitialMarking></place><place id='eat'><name><text>eat</text><graphics>
<offset x='0' y='-10'/>
</graphics></name><graphics>
<position x='10' y='20'/>
</graphics><type><text>P</text><structure><usersort declaration='P'/></structure></type></place><place id='fork'><name><text>fork</text><graphics>
<offset x='0' y='-10'/>
</graphics></name><graphics>
<position x='10' y='20'/>
</graphics><type><text>P</text><structure><usersort declaration='P'/></structure></type><hlinitialMarking><structure><all><usersort declaration='P'/></all></structure></hlinitialMarking></place><transition id='take'><name><text>take</text><graphics>
<offset x='0' y='-10'/>
</graphics></name><graphics>
<position x='10' y='20'/>
</graphics></transition><transition id='release'><name><text>release</text><graphics>
<offset x='0' y='-10'/>
</graphics></name><graphics>
<position x='10' y='20'/>
</graphics></transition><arc id='a1' source='think' target='take'><name><text>a1</text><graphics>
<offset x='0' y='-10'/>
</graphics></name><graphics>
<position x='10' y='20'/>
</graphics><hlinscription><text>x</text><structure><numberof><subterm><numberconstant value='1'><positive/></numberconstant></subterm><subterm><variable refvariable='x'/></subterm></numberof></structure></hlinscription></arc><arc id='a2' source='fork' target='take'><name><text>a2</text><graphics>
<offset x='0' y='-10'/>
</graphics></name><graphics>
<position x='10' y='20'/>
</graphics><hlinscription><text>x, x+1</text><structure><add><subterm><numberof><subterm><numberconstant value='1'><positive/></numberconstant></subterm><subterm><variable refvariable='x'/></subterm></numberof></subterm><subterm><numberof><subterm><numberconstant value='1'><positive/></numberconstant></subterm><subterm><successor><subterm><variable refvariable='x'/></subterm></successor></subterm></numberof></subterm></add></structure></hlinscription></arc><arc id='a3' source='take' target='eat'><name><text>a3</text><graphics>
<offset x='0' y='-10'/>
</graphics></name><graphics>
<position x='10' y='20'/>
</graphics><hlinscription><text>x</text><structure><numberof><subterm><numberconstant value='1'><positive/></numberconstant></subterm><subterm><variable refvariable='x'/></subterm></numberof></structure></hlinscription></arc><arc id='a4' source='eat' target='release'><name><text>a4</text><graphics>
<offset x='0' y='-10'/>
</graphics></name><graphics>
<position x='10' y='20'/>
</graphics><hlinscription><text>x</text><structure><numberof><subterm><numberconstant value='1'><positive/></numberconstant></subterm><subterm><variable refvariable='x'/></subterm></numberof></structure></hlinscription></arc><arc id='a5' source='release' target='think'><name><text>a5</text><graphics>
<offset x='0' y='-10'/>
</graphics></name><graphics>
<position x='10' y='20'/>
</graphics><hlinscription><text>x</text><structure><numberof><subterm><numberconstant value='1'><positive/></numberconstant></subterm><subterm><variable refvariable='x'/></subterm></numberof></structure></hlinscription></arc><arc id='a6' source='release' target='fork'><name><text>a6</text><graphics>
<offset x='0' y='-10'/>
</graphics></name><graphics>
<position x='10' y='20'/>
</graphics><hlinscription><text>x, x+1</text><structure><add><subterm><numberof><subterm><numberconstant value='1'><positive/></numberconstant></subterm><subterm><variable refvariable='x'/></subterm></numberof></subterm><subterm><numberof><subterm><numberconstant value='1'><positive/></numberconstant></subterm><subterm><successor><subterm><variable refvariable='x'/></subterm></successor></subterm></numberof></subterm></add></structure></hlinscription></arc></page></net></pnml>
";

/// Whether two bytes are the same, where a single quote stands for a double one in the second.
fn is_byte(byte: u8, want: u8) -> bool {
    if want == b'\'' {
        byte == b'"'
    } else {
        byte == want
    }
}

/// Whether these bytes are this text, where single quotes stand for double ones.
fn is_text(bytes: &[u8], want: &[u8]) -> bool {
    if bytes.len() != want.len() {
        return false;
    }
    for i in 0..bytes.len() {
        if !is_byte(bytes[i], want[i]) {
            return false;
        }
    }
    true
}

/// Whether this is the canonical text of a tree.
fn has_text(alloc: Global, tree: &Tree, want: &str) -> Result<bool, AllocError> {
    let mut sink = MemorySink::new(alloc, want.len(), Vec::new(alloc))?;
    let is_whole = put_tree(tree, &mut sink).is_ok();
    Ok(is_whole && is_text(sink.bytes(), want.as_bytes()))
}

/// Whether this is what is written of the net that a tree spells.
fn is_written(alloc: Global, tree: &Tree, want: &str) -> Result<bool, AllocError> {
    match shape(alloc, tree) {
        Ok(net) => {
            let written = tree_of(alloc, &net)?;
            has_text(alloc, &written, want)
        }
        Err(_) => Ok(false),
    }
}

/// Whether this is what is written of the net that a tree spells, and of what was written.
fn is_written_again(alloc: Global, tree: &Tree, want: &str) -> Result<bool, AllocError> {
    match shape(alloc, tree) {
        Ok(net) => {
            let written = tree_of(alloc, &net)?;
            Ok(has_text(alloc, &written, want)? && is_written(alloc, &written, want)?)
        }
        Err(_) => Ok(false),
    }
}

fn is_written_of(alloc: Global, document: &str, want: &str) -> Result<bool, AllocError> {
    match scanned(alloc, document) {
        Ok(tree) => is_written_again(alloc, &tree, want),
        Err(_) => Ok(false),
    }
}

/// The canonical text of a document in whose `net` this stands.
fn canonical(alloc: Global, net_type: &str, inside: &str) -> Result<String, AllocError> {
    let mut text = String::new(alloc);
    text.push_str("<?xml version='1.0' encoding='UTF-8'?>\n")?;
    put_document(&mut text, net_type, inside)?;
    text.push_str("\n")?;
    Ok(text)
}

fn row_is_written(alloc: Global, net_type: &str, row: &str) -> Result<bool, AllocError> {
    match row.split_once(" is written ") {
        Some((inside, want)) => {
            let document = document(alloc, net_type, inside)?;
            let text = canonical(alloc, net_type, want)?;
            is_written_of(alloc, document.as_str(), text.as_str())
        }
        None => Ok(false),
    }
}

fn are_written(
    rt: &impl Abort,
    alloc: Global,
    net_type: &str,
    rows: &str,
) -> Result<(), AllocError> {
    for row in rows.lines() {
        assert!(rt; row_is_written(alloc, net_type, row)?, "{row}");
    }
    Ok(())
}

#[test]
fn nets_are_written_and_read_again(rt: HostRuntime) -> Result<(), Fail> {
    are_written(&rt, rt.alloc(), "ptnet", PLAIN_NETS)?;
    are_written(&rt, rt.alloc(), "symmetricnet", SYMMETRIC_NETS)?;
    are_written(&rt, rt.alloc(), "highlevelnet", HIGH_LEVEL_NETS)?;
    Ok(())
}

#[test]
fn files_of_tools_are_written_and_read_again(rt: HostRuntime) -> Result<(), Fail> {
    assert!(rt; is_written_of(rt.alloc(), PREFIXED, PREFIXED_WRITTEN)?);
    assert!(rt; is_written_of(rt.alloc(), USUAL, USUAL_WRITTEN)?);
    Ok(())
}
