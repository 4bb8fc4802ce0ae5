//! The elements of pages, and the tree of a net.

ghost use Rattle.std.specs.Prelude.{◌≡◌, [], codes, true, Some, IfOk, OnOk};
ghost use Rattle.pn_tree.specs.Building.{at_innermost, nothing_built, with_kid};
ghost use Rattle.pn_tree.specs.Copies.{with_kids};
ghost use Rattle.pn_tree.specs.Elements.{are_attrs};
ghost use Rattle.pn_tree.specs.declared.element.Child.TheVariants as children;
ghost use Rattle.pn_spelling.specs.Writing.{made, all_kids};
ghost use Rattle.pn_spelling.specs.WriteNets.{declaration_label, page_element, net_element, own_kids, root_attrs, tree_of_net};
ghost use Rattle.pn_spelling.specs.Writable.{IsWritable};
ghost use Rattle.pn_writer.specs.Giving.{MayTake, MayTakeElement, MayBegin, opened};
ghost use Rattle.pn_objects.specs.declared.net.Page.TheViews.{out-Page};

use crate::giving::{begin_with, begin_with_id};
use crate::labels::{add_declaration_label, add_head};
use crate::objects::{add_arcs, add_places, add_references, add_transitions};
use pn_objects::{Label, Net, Page, Prefix};
use pn_shape::{address_of, namespace};
use pn_syntax::Declaration;
use pn_tree::{Builder, Tree};
use sqlite_items::Items;
use std::alloc::{AllocError, Global};

/// The element tree of a net: the one that spells it. Parts that are kept as they are keep their
/// offsets, all other offsets are 0. The time is linear in the tree; the recursion goes by the depth of
/// pages, sorts and terms.
pub fn tree_of(alloc: Global, net: &Net) -> Result<Tree, AllocError>
    requires { IsWritable net.now }
    ensures { IfOk result (λ t. t ≡ tree_of_net net.now) }
{
    let mut builder = Builder::new(alloc);
    build(&mut builder, net)?;
    Ok(builder.finish())
}

/// Builds the tree of a net from nothing.
fn build(into: &mut Builder, net: &Net) -> Result<(), AllocError>
    requires is_writable { IsWritable net.now }
    requires is_new { into.old ≡ nothing_built }
    ensures { OnOk result (into.new.root ≡ Some (tree_of_net net.now)) }
{
    begin_root(into, net.prefixes.as_slice())?;
    add_net(into, net)?;
    into.end();
    Ok(())
}

/// Begins the root with its attributes.
fn begin_root(into: &mut Builder, prefixes: &[Prefix]) -> Result<(), AllocError>
    requires room { MayBegin into.old }
    requires attrs { are_attrs (root_attrs prefixes.now) ≡ true }
    ensures { OnOk result (into.new ≡ opened (made (codes "pnml") (root_attrs prefixes.now) []) into.old) }
{
    begin_with(into, "pnml", "xmlns", namespace())?;
    for prefix in prefixes {
        into.attr(prefix.name.as_str(), prefix.address.as_str())?;
    }
    Ok(())
}

/// Adds the element `net`.
fn add_net(into: &mut Builder, net: &Net) -> Result<(), AllocError>
    requires { MayTakeElement (net_element net.now) into.old }
    ensures { OnOk result (into.new ≡ at_innermost (with_kid (children.Element (net_element net.now))) into.old) }
{
    begin_net(into, net)?;
    add_head(into, &net.head)?;
    add_declarations(into, net.declarations.as_slice())?;
    add_pages(into, net.pages.as_slice())?;
    into.end();
    Ok(())
}

/// Begins the element `net` with its attributes.
fn begin_net(into: &mut Builder, net: &Net) -> Result<(), AllocError>
    requires room { MayBegin into.old }
    requires attrs { are_attrs (net_element net.now).attrs ≡ true }
    ensures { OnOk result (into.new ≡ opened (made (codes "net") (net_element net.now).attrs []) into.old) }
{
    begin_with_id(into, "net", &net.id)?;
    into.attr("type", address_of(net.kind))
}

/// Adds pages in their order.
#[cycle(add_page)]
fn add_pages(into: &mut Builder, pages: &[Page]) -> Result<(), AllocError>
    requires { MayTake (all_kids page_element pages.now) into.old }
    ensures { OnOk result (into.new ≡ at_innermost (with_kids (all_kids page_element pages.now)) into.old) }
{
    for page in pages {
        add_page(into, page)?;
    }
    Ok(())
}

/// Adds a page.
#[cycle(add_page)]
fn add_page(into: &mut Builder, page: &Page) -> Result<(), AllocError>
    requires { MayTakeElement (page_element page.now) into.old }
    ensures { OnOk result (into.new ≡ at_innermost (with_kid (children.Element (page_element page.now))) into.old) }
{
    begin_with_id(into, "page", &page.id)?;
    add_own(into, page)?;
    add_pages(into, page.pages.as_slice())?;
    into.end();
    Ok(())
}

/// Adds what stands on a page itself.
fn add_own(into: &mut Builder, page: &Page) -> Result<(), AllocError>
    requires { MayTake (own_kids (out-Page page.now)) into.old }
    ensures { OnOk result (into.new ≡ at_innermost (with_kids (own_kids (out-Page page.now))) into.old) }
{
    add_head(into, &page.head)?;
    add_declarations(into, page.declarations.as_slice())?;
    add_places(into, page.places.as_slice())?;
    add_transitions(into, page.transitions.as_slice())?;
    add_references(into, "referencePlace", page.place_refs.as_slice())?;
    add_references(into, "referenceTransition", page.transition_refs.as_slice())?;
    add_arcs(into, page.arcs.as_slice())
}

/// Adds the elements `declaration` in their order.
fn add_declarations(
    into: &mut Builder,
    labels: &[Label<Items<Declaration>>],
) -> Result<(), AllocError>
    requires { MayTake (all_kids declaration_label labels.now) into.old }
    ensures { OnOk result (into.new ≡ at_innermost (with_kids (all_kids declaration_label labels.now)) into.old) }
{
    for label in labels {
        add_declaration_label(into, label)?;
    }
    Ok(())
}
