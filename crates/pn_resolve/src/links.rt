//! Which declarations the sort expressions of declarations name.

ghost use Rattle.std.specs.Prelude.{◌≡◌, ◌++◌, ◌∷◌, [], IfOk, OnOk, map};
ghost use Rattle.std.specs.List.{flat_map};
ghost use Rattle.std.specs.Option.{option_copied};
ghost use Rattle.pn_resolve.specs.Standing.{expr_of, is_named};
ghost use Rattle.pn_resolve.specs.Links.{places_of, place_by, leads_from, row_of, IsGraph};

use pn_cycles::Graph;
use pn_names::Index;
use pn_syntax::{Declaration, SortBody, SortExpr, SortNode};
use std::alloc::{AllocError, Global};

/// The declarations from which edges lead in a graph.
#[derive(Clone, Copy, Debug)]
pub(crate) enum Sources {
    All,
    Named,
    /// Each `namedsort` and the declaration at this place.
    NamedAnd(usize),
}

/// The graph whose nodes are the declarations. An edge leads to each declaration that a sort
/// expression names.
pub(crate) fn graph_of(
    alloc: Global,
    index: &Index,
    items: &[Declaration],
    sources: Sources,
) -> Result<Graph, AllocError>
    ensures { IfOk result (IsGraph items.now index.now sources) }
{
    let mut graph = Graph::new(alloc);
    for place in 0..items.len() {
        let ends = row(alloc, index, sources, place, &items[place])?;
        add_node(&mut graph, &ends)?;
    }
    Ok(graph)
}

/// One more node with edges to these.
fn add_node(graph: &mut Graph, ends: &[usize]) -> Result<(), AllocError>
    ensures { OnOk result (graph.new ≡ graph.old ++ ends.now ∷ []) }
{
    graph.node()?;
    for end in ends {
        graph.edge(*end)?;
    }
    Ok(())
}

/// Where the edges from a declaration lead.
fn row(
    alloc: Global,
    index: &Index,
    sources: Sources,
    place: usize,
    declaration: &Declaration,
) -> Result<Vec<usize>, AllocError>
    ensures { IfOk result (λ ends. ends.items ≡ row_of index.now sources place declaration.now) }
{
    let mut ends = Vec::new(alloc);
    if !is_source(sources, place, declaration) {
        return Ok(ends);
    }
    match sort_of(declaration) {
        Some(expr) => {
            places_in(index, expr, &mut ends)?;
            Ok(ends)
        }
        None => Ok(ends),
    }
}

/// Whether edges lead from a declaration.
fn is_source(sources: Sources, place: usize, declaration: &Declaration) -> bool
    ensures { result ≡ leads_from sources place declaration.now }
{
    match sources {
        Sources::All => true,
        Sources::Named => is_namedsort(declaration),
        Sources::NamedAnd(other) => is_namedsort(declaration) || place == other,
    }
}

/// Whether a declaration is a `namedsort`.
pub(crate) fn is_namedsort(declaration: &Declaration) -> bool
    ensures { result ≡ is_named declaration.now }
{
    matches!(declaration, Declaration::Named { .. })
}

/// The sort expression of a declaration, which an enumeration lacks.
pub(crate) fn sort_of(declaration: &Declaration) -> Option<&SortExpr>
    ensures { option_copied result ≡ expr_of declaration.now }
{
    match declaration {
        Declaration::Named { body, .. } => match body {
            SortBody::Plain(sort) => Some(sort),
            _ => None,
        },
        Declaration::Variable { sort, .. } => Some(sort),
        Declaration::Partition { sort, .. } => Some(sort),
    }
}

/// Puts the places of the declarations that an expression names at the end. The recursion goes by
/// the depth of the expression.
#[cycle(places)]
fn places_in(index: &Index, expr: &SortExpr, places: &mut Vec<usize>) -> Result<(), AllocError>
    ensures { OnOk result (places.new.items ≡ places.old.items ++ places_of (place_by index.now) expr.now) }
{
    match &expr.node {
        SortNode::Product(parts) => places_in_all(index, parts.as_slice(), places),
        SortNode::User(name) => match index.sort_place(name.as_str()) {
            Some(place) => {
                places.push(place as usize)?;
                Ok(())
            }
            None => Ok(()),
        },
        SortNode::List(part) => places_in(index, part.get(), places),
        _ => Ok(()),
    }
}

/// The same for parts one after another.
#[cycle(places)]
fn places_in_all(
    index: &Index,
    parts: &[SortExpr],
    places: &mut Vec<usize>,
) -> Result<(), AllocError>
    ensures { OnOk result (places.new.items ≡ places.old.items ++ flat_map (λ p. p) (map (places_of (place_by index.now)) parts.now)) }
{
    for part in parts {
        places_in(index, part, places)?;
    }
    Ok(())
}
