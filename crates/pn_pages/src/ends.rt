//! What the ends of arcs name.

ghost use Rattle.std.specs.Prelude.{List, Option, IfOk};
ghost use Rattle.std.specs.List.{AllZip};
ghost use Rattle.pn_faults.specs.declared.fault.Fault.{Fault};
ghost use Rattle.pn_net.specs.Ids.{IdHolder};
ghost use Rattle.pn_pages.specs.Linking.{AreEnds};
ghost use Rattle.pn_pages.specs.Naming.{AreNamed, told_by};
ghost use Rattle.pn_pages.specs.declared.numbered.Objects.{Objects};

use crate::names::{Names, Node};
use pn_objects::Arc;
use std::alloc::{AllocError, Global};

/// What the two ends of an arc name.
#[derive(Clone, Copy)]
pub(crate) struct Ends {
    pub(crate) source: Option<Node>,
    pub(crate) target: Option<Node>,
}

/// What the ends of each arc name.
pub(crate) fn ends_of(
    alloc: Global,
    names: &Names<'_>,
    arcs: &[Arc],
) -> Result<Vec<Ends>, AllocError>
    ensures { IfOk result (λ ends. (o : Objects) (hs : List IdHolder) (least : Option Fault) → AreNamed o hs (told_by names.now) least → AllZip (AreEnds o hs) arcs.now ends.items) }
{
    let mut ends = Vec::new(alloc);
    for arc in arcs {
        let source = names.find(arc.source.as_str());
        let target = names.find(arc.target.as_str());
        ends.push(Ends { source, target })?;
    }
    Ok(ends)
}
