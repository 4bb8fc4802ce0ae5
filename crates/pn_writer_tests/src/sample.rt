//! A net with each object of place/transition nets.

ghost use Rattle.std.specs.Prelude.{◌≡◌, [], ◌∷◌, Some, IfOk, OnOk};
ghost use Rattle.pn_tree.specs.Building.{nothing_built};
ghost use Rattle.pn_writer_tests.specs.Sample.{no_head, graphics, sample_head, sample_place, sample_transition, sample_arc, sample_reference, sample_page, sample_net};

use pn_objects::{Arc, Head, Label, Net, Page, Place, Prefix, Reference, Transition};
use pn_operators::Kind;
use pn_text::Text;
use pn_tree::{Builder, Tree};
use sqlite_items::{Boxed, Items};
use std::alloc::{AllocError, Global};

pub(crate) fn no_head(alloc: Global) -> Head
    ensures { result ≡ no_head }
{
    Head {
        name: None,
        opaque: Items::new(alloc),
    }
}

fn build_graphics(builder: &mut Builder) -> Result<(), AllocError>
    requires { builder.old ≡ nothing_built }
    ensures { OnOk result (builder.new.root ≡ Some graphics) }
{
    builder.begin("graphics", 7)?;
    builder.end();
    Ok(())
}

fn graphics(alloc: Global) -> Result<Tree, AllocError>
    ensures { IfOk result (λ t. t ≡ graphics) }
{
    let mut builder = Builder::new(alloc);
    build_graphics(&mut builder)?;
    Ok(builder.finish())
}

pub(crate) fn one_graphics(alloc: Global) -> Result<Items<Tree>, AllocError>
    ensures { IfOk result (λ ts. ts ≡ graphics ∷ []) }
{
    let mut parts = Items::new(alloc);
    parts.push(graphics(alloc)?)?;
    Ok(parts)
}

fn sample_name(alloc: Global) -> Result<Boxed<Label<()>>, AllocError>
    ensures { IfOk result (λ l. Some l ≡ sample_head.name) }
{
    Boxed::new(
        alloc,
        Label {
            value: (),
            text: Some(Text::from_str(alloc, "a<b")?),
            opaque: Items::new(alloc),
            at: 5,
        },
    )
}

fn sample_head(alloc: Global) -> Result<Head, AllocError>
    ensures { IfOk result (λ h. h ≡ sample_head) }
{
    Ok(Head {
        name: Some(sample_name(alloc)?),
        opaque: one_graphics(alloc)?,
    })
}

fn sample_marking(alloc: Global) -> Result<Boxed<Label<u64>>, AllocError>
    ensures { IfOk result (λ l. Some l ≡ sample_place.marking) }
{
    Boxed::new(
        alloc,
        Label {
            value: 3,
            text: None,
            opaque: Items::new(alloc),
            at: 6,
        },
    )
}

fn sample_place(alloc: Global) -> Result<Place, AllocError>
    ensures { IfOk result (λ p. p ≡ sample_place) }
{
    Ok(Place {
        id: Text::from_str(alloc, "a")?,
        head: sample_head(alloc)?,
        marking: Some(sample_marking(alloc)?),
        sort: None,
        hl_marking: None,
        at: 4,
    })
}

fn sample_transition(alloc: Global) -> Result<Transition, AllocError>
    ensures { IfOk result (λ t. t ≡ sample_transition) }
{
    Ok(Transition {
        id: Text::from_str(alloc, "t")?,
        head: no_head(alloc),
        condition: None,
        at: 8,
    })
}

fn sample_reference(alloc: Global) -> Result<Reference, AllocError>
    ensures { IfOk result (λ r. r ≡ sample_reference) }
{
    Ok(Reference {
        id: Text::from_str(alloc, "r")?,
        head: no_head(alloc),
        refers: Text::from_str(alloc, "a")?,
        at: 9,
    })
}

fn sample_arc(alloc: Global) -> Result<Arc, AllocError>
    ensures { IfOk result (λ a. a ≡ sample_arc) }
{
    Ok(Arc {
        id: Text::from_str(alloc, "u")?,
        head: no_head(alloc),
        source: Text::from_str(alloc, "r")?,
        target: Text::from_str(alloc, "t")?,
        weight: None,
        inscription: None,
        at: 9,
    })
}

/// A list of one item.
pub(crate) fn one<T: Drop>(alloc: Global, item: T) -> Result<Items<T>, AllocError>
    ensures { IfOk result (λ items. items ≡ item ∷ []) }
{
    let mut items = Items::new(alloc);
    items.push(item)?;
    Ok(items)
}

fn sample_page(alloc: Global) -> Result<Page, AllocError>
    ensures { IfOk result (λ p. p ≡ sample_page) }
{
    Ok(Page {
        id: Text::from_str(alloc, "g")?,
        head: no_head(alloc),
        declarations: Items::new(alloc),
        places: one(alloc, sample_place(alloc)?)?,
        transitions: one(alloc, sample_transition(alloc)?)?,
        place_refs: one(alloc, sample_reference(alloc)?)?,
        transition_refs: Items::new(alloc),
        arcs: one(alloc, sample_arc(alloc)?)?,
        pages: Items::new(alloc),
        at: 3,
    })
}

fn sample_prefix(alloc: Global) -> Result<Prefix, AllocError>
    ensures { IfOk result (λ p. p ∷ [] ≡ sample_net.prefixes) }
{
    Ok(Prefix {
        name: Text::from_str(alloc, "xmlns:x")?,
        address: Text::from_str(alloc, "urn:x")?,
    })
}

pub(crate) fn sample_net(alloc: Global) -> Result<Net, AllocError>
    ensures { IfOk result (λ n. n ≡ sample_net) }
{
    Ok(Net {
        id: Text::from_str(alloc, "n")?,
        kind: Kind::PtNet,
        prefixes: one(alloc, sample_prefix(alloc)?)?,
        head: no_head(alloc),
        declarations: Items::new(alloc),
        pages: one(alloc, sample_page(alloc)?)?,
        at: 2,
    })
}
