use crate::sample::sample_net;
use pn_outside::MemorySink;
use pn_tree::{Tree, put_tree};
use pn_writer::tree_of;
use std::alloc::Global;
use std::process::Abort;
use std::test::Fail;

/// The text of the tree is this.
pub(crate) fn is_written(
    rt: &impl Abort,
    alloc: Global,
    tree: &Tree,
    want: &str,
) -> Result<(), Fail> {
    let mut sink = MemorySink::new(alloc, want.len(), Vec::new(alloc))?;
    assert!(rt; put_tree(tree, &mut sink).is_ok(), "{want}");
    assert!(rt; sink.bytes() == want.as_bytes());
    Ok(())
}

#[test]
fn nets_are_written(rt: HostRuntime) -> Result<(), Fail> {
    let alloc = rt.alloc();
    let net = sample_net(alloc)?;
    let tree = tree_of(alloc, &net)?;
    is_written(
        &rt,
        alloc,
        &tree,
        "<?xml version=\"1.0\" encoding=\"UTF-8\"?>\n\
         <pnml xmlns=\"http://www.pnml.org/version-2009/grammar/pnml\" xmlns:x=\"urn:x\">\
         <net id=\"n\" type=\"http://www.pnml.org/version-2009/grammar/ptnet\"><page id=\"g\">\
         <place id=\"a\"><name><text>a&lt;b</text></name><graphics/>\
         <initialMarking><text>3</text></initialMarking></place><transition id=\"t\"/>\
         <referencePlace id=\"r\" ref=\"a\"/><arc id=\"u\" source=\"r\" target=\"t\"/>\
         </page></net></pnml>\n",
    )
}
