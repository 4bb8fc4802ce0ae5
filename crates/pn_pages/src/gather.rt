//! The objects and declarations of all pages of a net, in the order of their numbers.

ghost use Rattle.std.specs.Prelude.{◌≡◌, ◌++◌, [], OnOk, IfOk};
ghost use Rattle.std.specs.Prelude.{reverse};
ghost use Rattle.pn_net.specs.Objects.{declared_by};
ghost use Rattle.pn_objects.specs.declared.net.Page.TheViews.{out-Page};
ghost use Rattle.pn_pages.specs.Gathering.{AreGathered, nothing_gathered, with_page};

use pn_objects::{Arc, Head, Label, Page, Place, Reference, Transition};
use pn_syntax::Declaration;
use pn_text::Text;
use sqlite_items::Items;
use std::alloc::{AllocError, Global};

/// What a page keeps for itself.
#[derive(Drop)]
pub(crate) struct Title {
    pub(crate) id: Text,
    pub(crate) head: Head,
    pub(crate) at: u64,
}

/// What stands in pages, kind by kind, and the pages themselves.
#[derive(Drop)]
pub(crate) struct Gathered {
    pub(crate) titles: Items<Title>,
    pub(crate) declarations: Items<Declaration>,
    pub(crate) places: Items<Place>,
    pub(crate) transitions: Items<Transition>,
    pub(crate) place_refs: Items<Reference>,
    pub(crate) transition_refs: Items<Reference>,
    pub(crate) arcs: Items<Arc>,
}

pub(crate) fn nothing(alloc: Global) -> Gathered
    ensures { result ≡ nothing_gathered }
{
    Gathered {
        titles: Items::new(alloc),
        declarations: Items::new(alloc),
        places: Items::new(alloc),
        transitions: Items::new(alloc),
        place_refs: Items::new(alloc),
        transition_refs: Items::new(alloc),
        arcs: Items::new(alloc),
    }
}

/// Adds what stands in pages and in the pages in them, page by page, those of a page before those of
/// the pages in it.
pub(crate) fn gather(
    alloc: Global,
    pages: Items<Page>,
    all: &mut Gathered,
) -> Result<(), AllocError>
    ensures { OnOk result (AreGathered all.old pages all.new []) }
{
    let mut left = Items::new(alloc);
    put_reversed(pages, &mut left)?;
    gather_left(alloc, &mut left, all)
}

/// Adds what stands in the pages that are left, of which the last comes first.
fn gather_left(alloc: Global, left: &mut Items<Page>, all: &mut Gathered) -> Result<(), AllocError>
    ensures { OnOk result (AreGathered all.old (reverse left.old) all.new []) }
{
    while let Some(page) = left.pop() {
        add_page(alloc, page, all, left)?;
    }
    Ok(())
}

/// Adds what stands in a page, and leaves the pages in it, the last first, for later.
fn add_page(
    alloc: Global,
    page: Page,
    all: &mut Gathered,
    left: &mut Items<Page>,
) -> Result<(), AllocError>
    ensures all { OnOk result (all.new ≡ with_page (out-Page page) all.old) }
    ensures left { OnOk result (left.new ≡ left.old ++ reverse (out-Page page).pages) }
{
    put_reversed(page.pages, left)?;
    add_labels(alloc, page.declarations, &mut all.declarations)?;
    add_nodes(page.places, page.transitions, all)?;
    add_links(page.place_refs, page.transition_refs, page.arcs, all)?;
    all.titles.push(Title {
        id: page.id,
        head: page.head,
        at: page.at,
    })
}

fn add_nodes(
    places: Items<Place>,
    transitions: Items<Transition>,
    all: &mut Gathered,
) -> Result<(), AllocError>
    ensures { OnOk result (all.new ≡ record all.old {
      places = all.old.places ++ places;
      transitions = all.old.transitions ++ transitions;
    }) }
{
    all.places.append(places)?;
    all.transitions.append(transitions)
}

fn add_links(
    place_refs: Items<Reference>,
    transition_refs: Items<Reference>,
    arcs: Items<Arc>,
    all: &mut Gathered,
) -> Result<(), AllocError>
    ensures { OnOk result (all.new ≡ record all.old {
      place_refs = all.old.place_refs ++ place_refs;
      transition_refs = all.old.transition_refs ++ transition_refs;
      arcs = all.old.arcs ++ arcs;
    }) }
{
    all.place_refs.append(place_refs)?;
    all.transition_refs.append(transition_refs)?;
    all.arcs.append(arcs)
}

/// Adds what elements `declaration` declare.
pub(crate) fn add_labels(
    alloc: Global,
    labels: Items<Label<Items<Declaration>>>,
    all: &mut Items<Declaration>,
) -> Result<(), AllocError>
    ensures { OnOk result (all.new ≡ all.old ++ declared_by labels) }
{
    let mut left = Items::new(alloc);
    put_reversed(labels, &mut left)?;
    add_left(&mut left, all)
}

/// Adds what the elements that are left declare, of which the last comes first.
fn add_left(
    left: &mut Items<Label<Items<Declaration>>>,
    all: &mut Items<Declaration>,
) -> Result<(), AllocError>
    ensures { OnOk result (all.new ≡ all.old ++ declared_by (reverse left.old)) }
{
    while let Some(label) = left.pop() {
        all.append(label.value)?;
    }
    Ok(())
}

/// Puts items behind others, the last first.
pub(crate) fn put_reversed<T: Drop>(
    mut items: Items<T>,
    onto: &mut Items<T>,
) -> Result<(), AllocError>
    ensures { OnOk result (onto.new ≡ onto.old ++ reverse items) }
{
    move_reversed(&mut items, onto)
}

/// Moves all items behind others, the last first.
fn move_reversed<T: Drop>(items: &mut Items<T>, onto: &mut Items<T>) -> Result<(), AllocError>
    ensures { OnOk result (onto.new ≡ onto.old ++ reverse items.old) }
{
    while let Some(item) = items.pop() {
        onto.push(item)?;
    }
    Ok(())
}
