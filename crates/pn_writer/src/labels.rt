//! The elements of labels, and of what any part may have whatever it is.

ghost use Rattle.std.specs.Prelude.{◌≡◌, [], map, codes, true, OnOk};
ghost use Rattle.pn_text.specs.Characters.{is_name};
ghost use Rattle.pn_tree.specs.Building.{at_innermost, ended, with_kid};
ghost use Rattle.pn_tree.specs.Copies.{with_kids};
ghost use Rattle.pn_tree.specs.declared.element.Child.TheVariants as children;
ghost use Rattle.pn_spelling.specs.Writing.{made, text_element};
ghost use Rattle.pn_spelling.specs.WriteSorts.{sort_element};
ghost use Rattle.pn_spelling.specs.WriteTerms.{term_element};
ghost use Rattle.pn_spelling.specs.WriteNets.{kids_of, label_element, number_label, name_element, head_kids, declaration_label};
ghost use Rattle.pn_writer.specs.Giving.{MayTake, MayTakeElement, MayBegin, opened};

use crate::declarations::add_declarations_in;
use crate::giving::{add_opaque, add_text};
use crate::sorts::add_sort_in;
use crate::terms::add_term_in;
use itoa::Buffer;
use pn_objects::{Head, Label};
use pn_syntax::{Declaration, SortExpr, Term};
use pn_text::Text;
use pn_tree::Builder;
use sqlite_items::{Boxed, Items};
use std::alloc::AllocError;

/// Adds the element `text`, where there is a text.
fn add_optional_text(into: &mut Builder, text: &Option<Text>) -> Result<(), AllocError>
    requires { MayTake (kids_of text_element text.now) into.old }
    ensures { OnOk result (into.new ≡ at_innermost (with_kids (kids_of text_element text.now)) into.old) }
{
    match text {
        Some(text) => add_text(into, text.as_str()),
        None => Ok(()),
    }
}

/// Adds the label `name`.
fn add_name(into: &mut Builder, label: &Label<()>) -> Result<(), AllocError>
    requires { MayTakeElement (name_element label.now) into.old }
    ensures { OnOk result (into.new ≡ at_innermost (with_kid (children.Element (name_element label.now))) into.old) }
{
    into.begin("name", 0)?;
    add_optional_text(into, &label.text)?;
    add_opaque(into, &label.opaque)?;
    into.end();
    Ok(())
}

/// Adds the label `name`, where there is one.
fn add_optional_name(into: &mut Builder, name: &Option<Boxed<Label<()>>>) -> Result<(), AllocError>
    requires { MayTake (kids_of name_element name.now) into.old }
    ensures { OnOk result (into.new ≡ at_innermost (with_kids (kids_of name_element name.now)) into.old) }
{
    match name {
        Some(label) => add_name(into, label.get()),
        None => Ok(()),
    }
}

/// Adds a name and parts that are kept as they are.
pub(crate) fn add_head(into: &mut Builder, head: &Head) -> Result<(), AllocError>
    requires { MayTake (head_kids head.now) into.old }
    ensures { OnOk result (into.new ≡ at_innermost (with_kids (head_kids head.now)) into.old) }
{
    add_optional_name(into, &head.name)?;
    add_opaque(into, &head.opaque)
}

/// Adds a label that says a number.
fn add_number_label(into: &mut Builder, name: &str, label: &Label<u64>) -> Result<(), AllocError>
    requires { MayTakeElement (number_label name.now label.now) into.old }
    ensures { OnOk result (into.new ≡ at_innermost (with_kid (children.Element (number_label name.now label.now))) into.old) }
{
    let mut digits = Buffer::new();
    into.begin(name, 0)?;
    add_text(into, digits.format(label.value))?;
    add_opaque(into, &label.opaque)?;
    into.end();
    Ok(())
}

/// Adds a label that says a number, where there is one.
pub(crate) fn add_optional_number(
    into: &mut Builder,
    name: &str,
    label: &Option<Boxed<Label<u64>>>,
) -> Result<(), AllocError>
    requires { MayTake (kids_of (number_label name.now) label.now) into.old }
    ensures { OnOk result (into.new ≡ at_innermost (with_kids (kids_of (number_label name.now) label.now)) into.old) }
{
    match label {
        Some(label) => add_number_label(into, name, label.get()),
        None => Ok(()),
    }
}

/// Begins a label with its text, where it has one.
fn begin_label(into: &mut Builder, name: &str, text: &Option<Text>) -> Result<(), AllocError>
    requires room { MayBegin into.old }
    requires name { is_name name.now ≡ true }
    requires text { MayTake (kids_of text_element text.now) (opened (made name.now [] []) into.old) }
    ensures { OnOk result (into.new ≡ opened (made name.now [] (kids_of text_element text.now)) into.old) }
{
    into.begin(name, 0)?;
    add_optional_text(into, text)
}

/// Adds a label that says a sort.
fn add_sort_label(into: &mut Builder, name: &str, label: &Label<SortExpr>) -> Result<(), AllocError>
    requires { MayTakeElement (label_element name.now sort_element label.now) into.old }
    ensures { OnOk result (into.new ≡ at_innermost (with_kid (children.Element (label_element name.now sort_element label.now))) into.old) }
{
    begin_label(into, name, &label.text)?;
    add_sort_in(into, "structure", &label.value)?;
    add_opaque(into, &label.opaque)?;
    into.end();
    Ok(())
}

/// Adds a label that says a sort, where there is one.
pub(crate) fn add_optional_sort(
    into: &mut Builder,
    name: &str,
    label: &Option<Boxed<Label<SortExpr>>>,
) -> Result<(), AllocError>
    requires { MayTake (kids_of (label_element name.now sort_element) label.now) into.old }
    ensures { OnOk result (into.new ≡ at_innermost (with_kids (kids_of (label_element name.now sort_element) label.now)) into.old) }
{
    match label {
        Some(label) => add_sort_label(into, name, label.get()),
        None => Ok(()),
    }
}

/// Adds a label that says a term.
fn add_term_label(into: &mut Builder, name: &str, label: &Label<Term>) -> Result<(), AllocError>
    requires { MayTakeElement (label_element name.now term_element label.now) into.old }
    ensures { OnOk result (into.new ≡ at_innermost (with_kid (children.Element (label_element name.now term_element label.now))) into.old) }
{
    begin_label(into, name, &label.text)?;
    add_term_in(into, "structure", &label.value)?;
    add_opaque(into, &label.opaque)?;
    into.end();
    Ok(())
}

/// Adds a label that says a term, where there is one.
pub(crate) fn add_optional_term(
    into: &mut Builder,
    name: &str,
    label: &Option<Boxed<Label<Term>>>,
) -> Result<(), AllocError>
    requires { MayTake (kids_of (label_element name.now term_element) label.now) into.old }
    ensures { OnOk result (into.new ≡ at_innermost (with_kids (kids_of (label_element name.now term_element) label.now)) into.old) }
{
    match label {
        Some(label) => add_term_label(into, name, label.get()),
        None => Ok(()),
    }
}

/// Adds the declarations of one `declaration`.
pub(crate) fn add_declaration_label(
    into: &mut Builder,
    label: &Label<Items<Declaration>>,
) -> Result<(), AllocError>
    requires { MayTakeElement (declaration_label label.now) into.old }
    ensures { OnOk result (into.new ≡ at_innermost (with_kid (children.Element (declaration_label label.now))) into.old) }
{
    begin_label(into, "declaration", &label.text)?;
    add_declarations_in(into, "structure", &label.value)?;
    add_opaque(into, &label.opaque)?;
    into.end();
    Ok(())
}
