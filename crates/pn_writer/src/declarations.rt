//! The elements of declarations.

ghost use Rattle.std.specs.Prelude.{◌≡◌, [], codes, true, OnOk};
ghost use Rattle.pn_text.specs.Characters.{is_name};
ghost use Rattle.pn_tree.specs.Building.{at_innermost, with_kid};
ghost use Rattle.pn_tree.specs.Copies.{with_kids};
ghost use Rattle.pn_tree.specs.Elements.{are_attrs};
ghost use Rattle.pn_tree.specs.declared.element.Child.TheVariants as children;
ghost use Rattle.pn_syntax.specs.declared.declaration.Declaration.TheVariants as declared;
ghost use Rattle.pn_spelling.specs.Writing.{made, enclosing, all_kids};
ghost use Rattle.pn_spelling.specs.WriteDeclarations.{named_attrs, constant_element, body_element, value_element, part_element, declaration_element, declarations_element};
ghost use Rattle.pn_writer.specs.Giving.{MayTake, MayTakeElement, MayBegin, opened};

use crate::giving::{add_attributed, begin_with};
use crate::sorts::add_sort;
use crate::terms::add_range_constant;
use pn_syntax::{ConstExpr, Constant, Declaration, PartElement, SortBody, SortExpr};
use pn_text::Text;
use pn_tree::Builder;
use sqlite_items::Items;
use std::alloc::AllocError;

/// Adds an element that has the element `declarations` in it.
pub(crate) fn add_declarations_in(
    into: &mut Builder,
    name: &str,
    items: &Items<Declaration>,
) -> Result<(), AllocError>
    requires { MayTakeElement (enclosing name.now (declarations_element items.now)) into.old }
    ensures { OnOk result
        (into.new ≡ at_innermost (with_kid (children.Element (enclosing name.now (declarations_element items.now)))) into.old) }
{
    into.begin(name, 0)?;
    add_declarations(into, items.as_slice())?;
    into.end();
    Ok(())
}

/// Adds the element `declarations`.
fn add_declarations(into: &mut Builder, items: &[Declaration]) -> Result<(), AllocError>
    requires { MayTakeElement (declarations_element items.now) into.old }
    ensures { OnOk result (into.new ≡ at_innermost (with_kid (children.Element (declarations_element items.now))) into.old) }
{
    into.begin("declarations", 0)?;
    add_each(into, items)?;
    into.end();
    Ok(())
}

/// Adds declarations in their order.
fn add_each(into: &mut Builder, items: &[Declaration]) -> Result<(), AllocError>
    requires { MayTake (all_kids declaration_element items.now) into.old }
    ensures { OnOk result (into.new ≡ at_innermost (with_kids (all_kids declaration_element items.now)) into.old) }
{
    for item in items {
        add_declaration(into, item)?;
    }
    Ok(())
}

fn add_declaration(into: &mut Builder, item: &Declaration) -> Result<(), AllocError>
    requires { MayTakeElement (declaration_element item.now) into.old }
    ensures { OnOk result (into.new ≡ at_innermost (with_kid (children.Element (declaration_element item.now))) into.old) }
{
    match item {
        Declaration::Named { id, name, body, .. } => add_named_sort(into, id, name, body),
        Declaration::Variable { id, name, sort, .. } => add_variable(into, id, name, sort),
        Declaration::Partition {
            id,
            name,
            sort,
            elements,
            ..
        } => add_partition(into, id, name, sort, elements.as_slice()),
    }
}

fn add_named_sort(
    into: &mut Builder,
    id: &Text,
    name: &Option<Text>,
    body: &SortBody,
) -> Result<(), AllocError>
    requires { MayTakeElement (declaration_element (declared.Named id.now name.now body.now 0)) into.old }
    ensures { OnOk result
        (into.new ≡ at_innermost (with_kid (children.Element (declaration_element (declared.Named id.now name.now body.now 0)))) into.old) }
{
    begin_named(into, "namedsort", id, name)?;
    add_body(into, body)?;
    into.end();
    Ok(())
}

fn add_variable(
    into: &mut Builder,
    id: &Text,
    name: &Option<Text>,
    sort: &SortExpr,
) -> Result<(), AllocError>
    requires { MayTakeElement (declaration_element (declared.Variable id.now name.now sort.now 0)) into.old }
    ensures { OnOk result
        (into.new ≡ at_innermost (with_kid (children.Element (declaration_element (declared.Variable id.now name.now sort.now 0)))) into.old) }
{
    begin_named(into, "variabledecl", id, name)?;
    add_sort(into, sort)?;
    into.end();
    Ok(())
}

fn add_partition(
    into: &mut Builder,
    id: &Text,
    name: &Option<Text>,
    sort: &SortExpr,
    elements: &[PartElement],
) -> Result<(), AllocError>
    requires { MayTakeElement (declaration_element (declared.Partition id.now name.now sort.now elements.now 0)) into.old }
    ensures { OnOk result
        (into.new ≡ at_innermost (with_kid (children.Element (declaration_element (declared.Partition id.now name.now sort.now elements.now 0)))) into.old) }
{
    begin_named(into, "partition", id, name)?;
    add_sort(into, sort)?;
    add_elements(into, elements)?;
    into.end();
    Ok(())
}

/// Adds what a `namedsort` names.
fn add_body(into: &mut Builder, body: &SortBody) -> Result<(), AllocError>
    requires { MayTakeElement (body_element body.now) into.old }
    ensures { OnOk result (into.new ≡ at_innermost (with_kid (children.Element (body_element body.now))) into.old) }
{
    match body {
        SortBody::Plain(sort) => add_sort(into, sort),
        SortBody::Finite(constants) => {
            add_enumeration(into, "finiteenumeration", constants.as_slice())
        }
        SortBody::Cyclic(constants) => {
            add_enumeration(into, "cyclicenumeration", constants.as_slice())
        }
    }
}

fn add_enumeration(into: &mut Builder, name: &str, constants: &[Constant]) -> Result<(), AllocError>
    requires { MayTakeElement (made name.now [] (all_kids constant_element constants.now)) into.old }
    ensures { OnOk result
        (into.new ≡ at_innermost (with_kid (children.Element (made name.now [] (all_kids constant_element constants.now)))) into.old) }
{
    into.begin(name, 0)?;
    add_constants(into, constants)?;
    into.end();
    Ok(())
}

/// Adds constants of an enumeration in their order.
fn add_constants(into: &mut Builder, constants: &[Constant]) -> Result<(), AllocError>
    requires { MayTake (all_kids constant_element constants.now) into.old }
    ensures { OnOk result (into.new ≡ at_innermost (with_kids (all_kids constant_element constants.now)) into.old) }
{
    for constant in constants {
        add_constant(into, constant)?;
    }
    Ok(())
}

fn add_constant(into: &mut Builder, constant: &Constant) -> Result<(), AllocError>
    requires { MayTakeElement (constant_element constant.now) into.old }
    ensures { OnOk result (into.new ≡ at_innermost (with_kid (children.Element (constant_element constant.now))) into.old) }
{
    begin_named(into, "feconstant", &constant.id, &constant.name)?;
    into.end();
    Ok(())
}

/// Adds elements of a partition in their order.
fn add_elements(into: &mut Builder, elements: &[PartElement]) -> Result<(), AllocError>
    requires { MayTake (all_kids part_element elements.now) into.old }
    ensures { OnOk result (into.new ≡ at_innermost (with_kids (all_kids part_element elements.now)) into.old) }
{
    for element in elements {
        add_element(into, element)?;
    }
    Ok(())
}

fn add_element(into: &mut Builder, element: &PartElement) -> Result<(), AllocError>
    requires { MayTakeElement (part_element element.now) into.old }
    ensures { OnOk result (into.new ≡ at_innermost (with_kid (children.Element (part_element element.now))) into.old) }
{
    begin_named(into, "partitionelement", &element.id, &element.name)?;
    add_values(into, element.values.as_slice())?;
    into.end();
    Ok(())
}

/// Adds the values that an element of a partition lists, in their order.
fn add_values(into: &mut Builder, values: &[ConstExpr]) -> Result<(), AllocError>
    requires { MayTake (all_kids value_element values.now) into.old }
    ensures { OnOk result (into.new ≡ at_innermost (with_kids (all_kids value_element values.now)) into.old) }
{
    for value in values {
        add_value(into, value)?;
    }
    Ok(())
}

fn add_value(into: &mut Builder, value: &ConstExpr) -> Result<(), AllocError>
    requires { MayTakeElement (value_element value.now) into.old }
    ensures { OnOk result (into.new ≡ at_innermost (with_kid (children.Element (value_element value.now))) into.old) }
{
    match value {
        ConstExpr::Named { id, .. } => {
            add_attributed(into, "useroperator", "declaration", id.as_str())
        }
        ConstExpr::Range {
            value,
            start,
            end,
            ..
        } => add_range_constant(into, value, start, end),
    }
}

/// Begins an element with an id, and with a name where there is one.
fn begin_named(
    into: &mut Builder,
    name: &str,
    id: &Text,
    own_name: &Option<Text>,
) -> Result<(), AllocError>
    requires room { MayBegin into.old }
    requires name { is_name name.now ≡ true }
    requires attrs { are_attrs (named_attrs id.now own_name.now) ≡ true }
    ensures { OnOk result (into.new ≡ opened (made name.now (named_attrs id.now own_name.now) []) into.old) }
{
    begin_with(into, name, "id", id.as_str())?;
    match own_name {
        Some(text) => into.attr("name", text.as_str()),
        None => Ok(()),
    }
}
