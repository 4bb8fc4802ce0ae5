//! The flat net of a net, or the least fault of its ids and links.

ghost use Rattle.std.specs.Prelude.{◌≡◌, ◌<◌, ◌≤◌, [], length, slice_get, None, Some, Err, IfOk, OnOk};
ghost use Rattle.std.specs.List.{Contains};
ghost use Rattle.pn_faults.specs.Standing.{IsLeastOf};
ghost use Rattle.pn_faults.specs.declared.fault.Fault.{Fault};
ghost use Rattle.pn_faults.specs.declared.fault.Refusal.TheVariants as Refusal;
ghost use Rattle.pn_net.specs.Flattening.{IsFlattened, net_of_flat};
ghost use Rattle.pn_net.specs.Links.{StandsInLinks};
ghost use Rattle.pn_net.specs.Typed.{HasNumbers, IsWired};
ghost use Rattle.pn_net.specs.declared.flat.FlatArc.{FlatArc};
ghost use Rattle.pn_objects.specs.declared.net.Net.{Net};
ghost use Rattle.pn_pages.specs.Judging.{IsFlatOf, AreFoundIn, IsLeastInLinks, IsLinkedFlat, IsLookedAt, IsNumbered};
ghost use Rattle.pn_pages.specs.Linking.{AreApart};
ghost use Rattle.pn_pages.specs.Naming.{AreNamed, all_holders, told_by};
ghost use Rattle.pn_pages.specs.Wiring.{AreLinked, AreOfNet};
ghost use Rattle.pn_spelling.specs.Writable.{IsWritable};

use crate::ends::{Ends, ends_of};
use crate::follow::{goals, targets};
use crate::gather::Title;
use crate::linking::{tell_arcs, tell_references};
use crate::names::{Names, Node};
use crate::noting::note_all;
use crate::numbered::{Objects, objects_in};
use crate::wiring::{Wire, wired_arcs, wires};
use indexmap::IndexMap;
use pn_faults::{Fault, Refusal};
use pn_net::Flat;
use pn_objects::{Head, Net, Prefix};
use pn_operators::Kind;
use pn_text::Text;
use sqlite_items::Items;
use std::alloc::{AllocError, Global};

/// What a net keeps for itself.
#[derive(Drop)]
pub(crate) struct Outer {
    pub(crate) id: Text,
    pub(crate) kind: Kind,
    pub(crate) prefixes: Items<Prefix>,
    pub(crate) head: Head,
    pub(crate) at: u64,
}

/// What references refer to, and what the ends of arcs name.
#[derive(Drop)]
pub(crate) struct Found {
    pub(crate) targets: Vec<Option<Node>>,
    pub(crate) ends: Vec<Ends>,
}

/// The flat net of a net (ISO/IEC 15909-2, pages and references): one page without references, all
/// objects in the order of their numbers, and each arc with the place and the transition to which its
/// ends lead. The net is used up. The time is linear in the net, but for looking up ids.
///
/// # Errors
///
/// `Refusal::Fault` with the least fault of ids and links exactly where one stands; `Refusal::Memory`
/// where there is no memory for the flat net or for a fault, or where there are 2^32 places,
/// transitions or arcs or more.
pub fn flatten(alloc: Global, net: Net) -> Result<Flat, Refusal>
    requires has_page { 1 ≤ length net.pages }
    ensures flat { IfOk result (λ flat. IsFlattened net (net_of_flat flat)) }
    ensures wired { IfOk result (λ flat. (a : FlatArc) → Contains flat.arcs a → IsWired flat a) }
    ensures numbers { IfOk result (λ flat. HasNumbers flat) }
    ensures sound { OnOk result ((f : Fault) → StandsInLinks net f → ⊥) }
    ensures stands { (f : Fault) → result ≡ Err (Refusal.Fault f) → StandsInLinks net f }
    ensures least { (f : Fault) → result ≡ Err (Refusal.Fault f) → AreApart net → IsLeastOf (StandsInLinks net) (Some f) }
    ensures writable { IsWritable net → IfOk result (λ flat. IsWritable (net_of_flat flat)) }
{
    let outer = Outer {
        id: net.id,
        kind: net.kind,
        prefixes: net.prefixes,
        head: net.head,
        at: net.at,
    };
    match objects_in(alloc, net.declarations, net.pages) {
        Ok(objects) => flat_of(alloc, outer, objects),
        Err(error) => Err(Refusal::Memory(error)),
    }
}

/// The flat net with these objects, or the least fault of their ids and links.
fn flat_of(alloc: Global, outer: Outer, objects: Objects) -> Result<Flat, Refusal>
    requires { 0 < length objects.titles }
    ensures linked { IfOk result (λ flat. (n : Net) → AreOfNet n outer.id outer.at objects → IsLinkedFlat n outer objects flat) }
    ensures numbers { IfOk result (λ flat. HasNumbers flat) }
    ensures fault { (f : Fault) → result ≡ Err (Refusal.Fault f) → (n : Net) → AreOfNet n outer.id outer.at objects → IsLeastInLinks n f }
{
    match link(alloc, outer.id.as_str(), outer.at, &objects) {
        Ok(wires) => match assemble(alloc, outer, objects, &wires) {
            Ok(flat) => Ok(flat),
            Err(error) => Err(Refusal::Memory(error)),
        },
        Err(refusal) => Err(refusal),
    }
}

/// The flat net with these objects, by what its arcs join.
fn assemble(
    alloc: Global,
    outer: Outer,
    objects: Objects,
    wires: &[Wire],
) -> Result<Flat, AllocError>
    requires titles { 0 < length objects.titles }
    requires wires { length wires.now ≡ length objects.arcs }
    ensures flat { IfOk result (λ flat. IsFlatOf outer objects wires.now flat) }
    ensures numbers { IfOk result (λ flat. HasNumbers flat) }
{
    let title = first_title(alloc, &objects)?;
    let arcs = wired_arcs(
        alloc,
        objects.arcs,
        wires,
        objects.places.as_slice(),
        objects.transitions.as_slice(),
    )?;
    Ok(Flat {
        id: outer.id,
        kind: outer.kind,
        prefixes: outer.prefixes,
        head: outer.head,
        page_id: title.id,
        page_head: title.head,
        declarations: objects.declarations,
        places: objects.places,
        transitions: objects.transitions,
        arcs,
    })
}

/// The title of the first page, where places, transitions and arcs are fewer than 2^32.
fn first_title(alloc: Global, objects: &Objects) -> Result<Title, AllocError>
    requires { 0 < length objects.now.titles }
    ensures first { IfOk result (λ title. slice_get objects.now.titles 0 ≡ Some title) }
    ensures numbers { OnOk result (IsNumbered objects.now) }
{
    let most = u32::MAX as usize;
    if objects.places.len() > most
        || objects.transitions.len() > most
        || objects.arcs.len() > most
    {
        return Err(AllocError);
    }
    copy_title(alloc, &objects.titles.as_slice()[0])
}

fn copy_title(alloc: Global, title: &Title) -> Result<Title, AllocError>
    ensures { IfOk result (λ copied. copied ≡ title.now) }
{
    Ok(Title {
        id: title.id.copy(alloc)?,
        head: title.head.copy(alloc)?,
        at: title.at,
    })
}

/// What the arcs of a net join, or the least fault of its ids and links.
fn link(alloc: Global, id: &str, at: u64, objects: &Objects) -> Result<Vec<Wire>, Refusal>
    ensures size { IfOk result (λ wires. length wires.items ≡ length objects.now.arcs) }
    ensures linked { IfOk result (λ wires. (n : Net) → AreOfNet n id.now at objects.now → AreLinked n wires.items) }
    ensures fault { (f : Fault) → result ≡ Err (Refusal.Fault f) → (n : Net) → AreOfNet n id.now at objects.now → IsLeastInLinks n f }
{
    let mut least = None;
    match look(alloc, id, at, objects, &mut least) {
        Ok(wires) => match least {
            Some(fault) => Err(Refusal::Fault(fault)),
            None => Ok(wires),
        },
        Err(error) => Err(Refusal::Memory(error)),
    }
}

/// What the arcs of a net join where no fault of its ids and links is told.
fn look(
    alloc: Global,
    id: &str,
    at: u64,
    objects: &Objects,
    least: &mut Option<Fault>,
) -> Result<Vec<Wire>, AllocError>
    requires { least.old ≡ None }
    ensures size { IfOk result (λ wires. length wires.items ≡ length objects.now.arcs) }
    ensures looked { IfOk result (λ wires. (n : Net) → AreOfNet n id.now at objects.now → IsLookedAt n wires.items least.new) }
{
    let place_refs = objects.place_refs;
    let references = objects.references.as_slice();
    let arcs = objects.arcs.as_slice();
    let found = find(alloc, id, at, objects, least)?;
    let goals = goals(alloc, &found.targets, place_refs)?;
    tell_references(alloc, place_refs, references, &found.targets, &goals, least)?;
    tell_arcs(alloc, place_refs, arcs, &found.ends, least)?;
    wires(alloc, place_refs, &goals, &found.ends)
}

/// What references refer to and what the ends of arcs name, with the least fault of ids.
fn find(
    alloc: Global,
    id: &str,
    at: u64,
    objects: &Objects,
    least: &mut Option<Fault>,
) -> Result<Found, AllocError>
    requires { least.old ≡ None }
    ensures { IfOk result (λ found. AreFoundIn objects.now (all_holders id.now at objects.now) found least.new) }
{
    let mut names = Names {
        index: IndexMap::with_capacity(alloc, id_count(objects))?,
    };
    find_by(alloc, id, at, objects, &mut names, least)
}

/// About how many elements have ids: all but the constants and elements of declarations.
fn id_count(objects: &Objects) -> usize {
    let places = objects.places.len();
    places
        .saturating_add(objects.transitions.len())
        .saturating_add(objects.references.len())
        .saturating_add(objects.arcs.len())
        .saturating_add(objects.titles.len())
        .saturating_add(objects.declarations.len())
        .saturating_add(1)
}

fn find_by<'a>(
    alloc: Global,
    id: &'a str,
    at: u64,
    objects: &'a Objects,
    names: &mut Names<'a>,
    least: &mut Option<Fault>,
) -> Result<Found, AllocError>
    requires { AreNamed objects.now [] (told_by names.old) least.old }
    ensures { IfOk result (λ found. AreFoundIn objects.now (all_holders id.now at objects.now) found least.new) }
{
    note_all(alloc, id, at, objects, names, least)?;
    let targets = targets(alloc, names, objects.references.as_slice())?;
    let ends = ends_of(alloc, names, objects.arcs.as_slice())?;
    Ok(Found { targets, ends })
}
