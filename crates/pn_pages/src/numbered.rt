//! The objects of a net by their numbers.

ghost use Rattle.std.specs.Prelude.{◌≡◌, ◌++◌, [], IfOk, OnOk};
ghost use Rattle.pn_pages.specs.Gathering.{AreGathered, nothing_gathered, with_labels};
ghost use Rattle.pn_pages.specs.Sides.{HoldsAll, objects_of};

use crate::gather::{Gathered, Title, add_labels, gather, nothing};
use pn_objects::{Arc, Label, Page, Place, Reference, Transition};
use pn_syntax::Declaration;
use sqlite_items::Items;
use std::alloc::{AllocError, Global};

/// What stands in a net, kind by kind. References to places come before those to transitions.
#[derive(Drop)]
pub(crate) struct Objects {
    pub(crate) titles: Items<Title>,
    pub(crate) declarations: Items<Declaration>,
    pub(crate) places: Items<Place>,
    pub(crate) transitions: Items<Transition>,
    pub(crate) references: Items<Reference>,
    /// How many references are to places.
    pub(crate) place_refs: usize,
    pub(crate) arcs: Items<Arc>,
}

/// The same objects, with all references side by side.
pub(crate) fn in_order(all: Gathered) -> Result<Objects, AllocError>
    ensures { IfOk result (λ o. o ≡ objects_of all) }
{
    let place_refs = all.place_refs.len();
    let references = side_by_side(all.place_refs, all.transition_refs)?;
    Ok(Objects {
        titles: all.titles,
        declarations: all.declarations,
        places: all.places,
        transitions: all.transitions,
        references,
        place_refs,
        arcs: all.arcs,
    })
}

fn side_by_side(
    mut front: Items<Reference>,
    behind: Items<Reference>,
) -> Result<Items<Reference>, AllocError>
    ensures { IfOk result (λ all. all ≡ front ++ behind) }
{
    front.append(behind)?;
    Ok(front)
}

/// The objects of all pages, with what elements `declaration` of the net declare before what those of
/// the pages do.
pub(crate) fn objects_in(
    alloc: Global,
    labels: Items<Label<Items<Declaration>>>,
    pages: Items<Page>,
) -> Result<Objects, AllocError>
    ensures { IfOk result (λ o. HoldsAll labels pages o) }
{
    let mut all = nothing(alloc);
    gather_all(alloc, labels, pages, &mut all)?;
    in_order(all)
}

fn gather_all(
    alloc: Global,
    labels: Items<Label<Items<Declaration>>>,
    pages: Items<Page>,
    all: &mut Gathered,
) -> Result<(), AllocError>
    ensures { OnOk result (all.old ≡ nothing_gathered → AreGathered (with_labels labels) pages all.new []) }
{
    add_labels(alloc, labels, &mut all.declarations)?;
    gather(alloc, pages, all)
}
