//! Declarations from elements.

ghost use Rattle.std.specs.Prelude.{◌≡◌, ◌++◌, IfOk, OnOk, codes, map};
ghost use Rattle.std.specs.Option.{option_map, unwrap_or};
ghost use Rattle.pn_tree.specs.Views.{element_of};
ghost use Rattle.pn_spelling.specs.Parts.{child_elements, children_named, other_child};
ghost use Rattle.pn_spelling.specs.ReadDeclarations.{body_in, body_of, constant_read, declaration_read, declarations_read, named_read, part_read, partition_read, value_read, variable_read};
ghost use Rattle.pn_spelling.specs.ReadSorts.{no_sort, sort_read};

use crate::parts::{inner_number, number};
use crate::sorts::{make_inner_sort, make_sort};
use pn_spelling::{copy_attribute, copy_optional_attribute, first_element, has_name};
use pn_syntax::{ConstExpr, Constant, Declaration, PartElement, SortBody, SortExpr, SortNode};
use pn_tree::{Kid, View};
use sqlite_items::Items;
use std::alloc::{AllocError, Global};

/// The declarations that a `declarations` spells in which no fault of shape stands, in order.
pub fn make_declarations(alloc: Global, view: View<'_>) -> Result<Vec<Declaration>, AllocError>
    ensures { IfOk result (λ all. all.items ≡ declarations_read (element_of view.entry)) }
{
    let mut all = Vec::new(alloc);
    for i in 0..view.kid_count() {
        if let Kid::Element(inner) = view.kid(i) {
            all.push(make_declaration(alloc, inner)?)?;
        }
    }
    Ok(all)
}

fn make_declaration(alloc: Global, view: View<'_>) -> Result<Declaration, AllocError>
    ensures { IfOk result (λ d. d ≡ declaration_read (element_of view.entry)) }
{
    match view.name() {
        "variabledecl" => make_variable(alloc, view),
        "partition" => make_partition(alloc, view),
        _ => make_named(alloc, view),
    }
}

fn make_variable(alloc: Global, view: View<'_>) -> Result<Declaration, AllocError>
    ensures { IfOk result (λ d. d ≡ variable_read (element_of view.entry)) }
{
    Ok(Declaration::Variable {
        id: copy_attribute(alloc, view, "id")?,
        name: copy_optional_attribute(alloc, view, "name")?,
        sort: make_inner_sort(alloc, view)?,
        at: view.at(),
    })
}

fn make_named(alloc: Global, view: View<'_>) -> Result<Declaration, AllocError>
    ensures { IfOk result (λ d. d ≡ named_read (element_of view.entry)) }
{
    Ok(Declaration::Named {
        id: copy_attribute(alloc, view, "id")?,
        name: copy_optional_attribute(alloc, view, "name")?,
        body: make_body(alloc, view)?,
        at: view.at(),
    })
}

/// What the `namedsort` names.
fn make_body(alloc: Global, view: View<'_>) -> Result<SortBody, AllocError>
    ensures { IfOk result (λ b. b ≡ body_in (element_of view.entry)) }
{
    match first_element(view) {
        Some(inner) => make_body_of(alloc, inner),
        None => Ok(SortBody::Plain(SortExpr {
            at: 0,
            node: SortNode::Dot,
        })),
    }
}

/// What the element in a `namedsort` says.
fn make_body_of(alloc: Global, view: View<'_>) -> Result<SortBody, AllocError>
    ensures { IfOk result (λ b. b ≡ body_of (element_of view.entry)) }
{
    match view.name() {
        "finiteenumeration" => Ok(SortBody::Finite(make_constants(alloc, view)?)),
        "cyclicenumeration" => Ok(SortBody::Cyclic(make_constants(alloc, view)?)),
        _ => Ok(SortBody::Plain(make_sort(alloc, view)?)),
    }
}

/// The constants of an enumeration, in order.
fn make_constants(alloc: Global, view: View<'_>) -> Result<Items<Constant>, AllocError>
    ensures { IfOk result (λ all. all ≡ map constant_read (child_elements (element_of view.entry))) }
{
    let mut all = Items::new(alloc);
    for i in 0..view.kid_count() {
        if let Kid::Element(inner) = view.kid(i) {
            all.push(make_constant(alloc, inner)?)?;
        }
    }
    Ok(all)
}

fn make_constant(alloc: Global, view: View<'_>) -> Result<Constant, AllocError>
    ensures { IfOk result (λ c. c ≡ constant_read (element_of view.entry)) }
{
    Ok(Constant {
        id: copy_attribute(alloc, view, "id")?,
        name: copy_optional_attribute(alloc, view, "name")?,
        at: view.at(),
    })
}

fn make_partition(alloc: Global, view: View<'_>) -> Result<Declaration, AllocError>
    ensures { IfOk result (λ d. d ≡ partition_read (element_of view.entry)) }
{
    let mut elements = Items::new(alloc);
    let base = split_partition(alloc, view, &mut elements)?;
    Ok(Declaration::Partition {
        id: copy_attribute(alloc, view, "id")?,
        name: copy_optional_attribute(alloc, view, "name")?,
        sort: make_base(alloc, base)?,
        elements,
        at: view.at(),
    })
}

/// The sort of this element: that which stands where none is written, if there is none.
fn make_base(alloc: Global, base: Option<View<'_>>) -> Result<SortExpr, AllocError>
    ensures { IfOk result (λ s. s ≡ unwrap_or (option_map (λ v. sort_read (element_of v)) base.entry) no_sort) }
{
    match base {
        Some(inner) => make_sort(alloc, inner),
        None => Ok(SortExpr {
            at: 0,
            node: SortNode::Dot,
        }),
    }
}

/// Puts the elements of a partition into `elements`, and finds the element of its sort, before or
/// behind them.
fn split_partition<'a>(
    alloc: Global,
    view: View<'a>,
    elements: &mut Items<PartElement>,
) -> Result<Option<View<'a>>, AllocError>
    ensures base { IfOk result (λ base. option_map element_of base ≡ other_child (codes "partitionelement") (element_of view.entry)) }
    ensures elements { OnOk result (elements.new ≡ elements.old ++ map part_read (children_named (codes "partitionelement") (element_of view.entry))) }
{
    let mut base = None;
    for i in 0..view.kid_count() {
        if let Kid::Element(inner) = view.kid(i) {
            if has_name(inner, "partitionelement") {
                elements.push(make_part(alloc, inner)?)?;
            } else if base.is_none() {
                base = Some(inner);
            }
        }
    }
    Ok(base)
}

fn make_part(alloc: Global, view: View<'_>) -> Result<PartElement, AllocError>
    ensures { IfOk result (λ p. p ≡ part_read (element_of view.entry)) }
{
    Ok(PartElement {
        id: copy_attribute(alloc, view, "id")?,
        name: copy_optional_attribute(alloc, view, "name")?,
        values: make_values(alloc, view)?,
        at: view.at(),
    })
}

/// The values that an element of a partition lists, in order.
fn make_values(alloc: Global, view: View<'_>) -> Result<Items<ConstExpr>, AllocError>
    ensures { IfOk result (λ all. all ≡ map value_read (child_elements (element_of view.entry))) }
{
    let mut all = Items::new(alloc);
    for i in 0..view.kid_count() {
        if let Kid::Element(inner) = view.kid(i) {
            all.push(make_value(alloc, inner)?)?;
        }
    }
    Ok(all)
}

fn make_value(alloc: Global, view: View<'_>) -> Result<ConstExpr, AllocError>
    ensures { IfOk result (λ v. v ≡ value_read (element_of view.entry)) }
{
    match view.name() {
        "finiteintrangeconstant" => Ok(ConstExpr::Range {
            value: number(view, "value"),
            start: inner_number(view, "start"),
            end: inner_number(view, "end"),
            at: view.at(),
        }),
        _ => Ok(ConstExpr::Named {
            id: copy_attribute(alloc, view, "declaration")?,
            at: view.at(),
        }),
    }
}
