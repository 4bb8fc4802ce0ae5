//! The net that the root of a document's tree spells.

ghost use Rattle.std.specs.Prelude.{◌≡◌, codes, IfOk, OnOk};
ghost use Rattle.pn_markup.specs.Bytes.{begins_with};
ghost use Rattle.pn_tree.specs.Views.{element_of};
ghost use Rattle.pn_spelling.specs.ReadNets.{kind_read, net_of, net_read, prefixes_read};
ghost use Rattle.pn_core_grammar.specs.Prefixes.{prefix_next};

use crate::page::page_parts;
use crate::search::first_or_self;
use pn_objects::{Net, Prefix};
use pn_operators::Kind;
use pn_shape::net_kind;
use pn_spelling::{attribute, copy_attribute};
use pn_text::Text;
use pn_tree::View;
use sqlite_items::Items;
use std::alloc::{AllocError, Global};

/// The net that the root of a document's tree spells.
pub(crate) fn make_net(alloc: Global, root: View<'_>) -> Result<Net, AllocError>
    ensures { IfOk result (λ n. n ≡ net_of (element_of root.entry)) }
{
    let prefixes = make_prefixes(alloc, root)?;
    net_within(alloc, first_or_self(root, "net"), prefixes)
}

/// The net that a `net` element spells, where these prefixes are bound.
fn net_within(alloc: Global, view: View<'_>, prefixes: Items<Prefix>) -> Result<Net, AllocError>
    ensures { IfOk result (λ n. n ≡ net_read prefixes (element_of view.entry)) }
{
    let id = copy_attribute(alloc, view, "id")?;
    let parts = page_parts(alloc, view)?;
    Ok(Net {
        id,
        kind: kind_of(view),
        prefixes,
        head: parts.head,
        declarations: parts.declarations,
        pages: parts.pages,
        at: view.at(),
    })
}

/// The kind of a net by its type.
fn kind_of(view: View<'_>) -> Kind
    ensures { result ≡ kind_read (element_of view.entry) }
{
    match net_kind(attribute(view, "type")) {
        Some(kind) => kind,
        None => Kind::PtNet,
    }
}

/// The prefixes that an element binds.
fn make_prefixes(alloc: Global, root: View<'_>) -> Result<Items<Prefix>, AllocError>
    ensures { IfOk result (λ all. all ≡ prefixes_read (element_of root.entry)) }
{
    let mut all = Items::new(alloc);
    for i in 0..root.attr_count() {
        let (name, address) = root.attr(i);
        add_prefix(alloc, &mut all, name, address)?;
    }
    Ok(all)
}

fn add_prefix(
    alloc: Global,
    all: &mut Items<Prefix>,
    name: &str,
    address: &str,
) -> Result<(), AllocError>
    ensures { OnOk result (all.new ≡ prefix_next (record { name = name.now; value = address.now }) all.old) }
{
    if begins_as_prefix(name) {
        all.push(make_prefix(alloc, name, address)?)?;
    }
    Ok(())
}

fn begins_as_prefix(name: &str) -> bool
    ensures { result ≡ begins_with (codes "xmlns:") name.now }
{
    name.as_bytes().starts_with(b"xmlns:")
}

fn make_prefix(alloc: Global, name: &str, address: &str) -> Result<Prefix, AllocError>
    ensures { IfOk result (λ p. p ≡ record { name = name.now; address = address.now }) }
{
    Ok(Prefix {
        name: Text::from_str(alloc, name)?,
        address: Text::from_str(alloc, address)?,
    })
}
