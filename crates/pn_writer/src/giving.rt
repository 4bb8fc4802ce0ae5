//! Elements of few parts.

ghost use Rattle.std.specs.Prelude.{◌≡◌, [], ◌∷◌, map, true, None, IsSome, IfSome, OnOk};
ghost use Rattle.std.specs.Fmt.{signed_decimal};
ghost use Rattle.pn_text.specs.Characters.{is_name, is_text};
ghost use Rattle.pn_tree.specs.Building.{innermost, at_innermost, with_attr, with_kid};
ghost use Rattle.pn_tree.specs.Elements.{attr_value, are_attrs};
ghost use Rattle.pn_tree.specs.Copies.{with_kids};
ghost use Rattle.pn_tree.specs.declared.element.Child.TheVariants as children;
ghost use Rattle.pn_spelling.specs.Writing.{attribute, made, attributed, text_element};
ghost use Rattle.pn_spelling.specs.WriteNets.{id_attr};
ghost use Rattle.pn_writer.specs.Giving.{MayTake, MayTakeElement, MayBegin, opened};

use itoa::Buffer;
use pn_text::Text;
use pn_tree::{Builder, Tree};
use sqlite_items::Items;
use std::alloc::AllocError;

/// Adds an element with nothing in it.
pub(crate) fn add_leaf(into: &mut Builder, name: &str) -> Result<(), AllocError>
    requires { MayTakeElement (made name.now [] []) into.old }
    ensures { OnOk result (into.new ≡ at_innermost (with_kid (children.Element (made name.now [] []))) into.old) }
{
    into.begin(name, 0)?;
    into.end();
    Ok(())
}

/// Begins an element with one attribute.
pub(crate) fn begin_with(
    into: &mut Builder,
    name: &str,
    key: &str,
    value: &str,
) -> Result<(), AllocError>
    requires room { MayBegin into.old }
    requires name { is_name name.now ≡ true }
    requires key { is_name key.now ≡ true }
    requires value { is_text value.now ≡ true }
    ensures { OnOk result (into.new ≡ opened (attributed name.now key.now value.now) into.old) }
{
    into.begin(name, 0)?;
    into.attr(key, value)
}

/// Gives the innermost open element a whole number as an attribute.
pub(crate) fn add_number_attr(into: &mut Builder, key: &str, value: &i64) -> Result<(), AllocError>
    requires key { is_name key.now ≡ true }
    requires value { is_text (signed_decimal value.now) ≡ true }
    requires is_open { IsSome (innermost into.old) }
    requires before_kids { IfSome (innermost into.old) (λ e. e.kids ≡ []) }
    requires is_new { IfSome (innermost into.old) (λ e. attr_value key.now e.attrs ≡ None) }
    ensures { OnOk result (into.new ≡ at_innermost (with_attr key.now (signed_decimal value.now)) into.old) }
{
    let mut digits = Buffer::new();
    into.attr(key, digits.format(*value))
}

/// Begins an element with one attribute, which is a whole number.
pub(crate) fn begin_number(
    into: &mut Builder,
    name: &str,
    key: &str,
    value: &i64,
) -> Result<(), AllocError>
    requires room { MayBegin into.old }
    requires name { is_name name.now ≡ true }
    requires key { is_name key.now ≡ true }
    requires value { is_text (signed_decimal value.now) ≡ true }
    ensures { OnOk result (into.new ≡ opened (attributed name.now key.now (signed_decimal value.now)) into.old) }
{
    into.begin(name, 0)?;
    add_number_attr(into, key, value)
}

/// Begins an element with an id.
pub(crate) fn begin_with_id(into: &mut Builder, name: &str, id: &Text) -> Result<(), AllocError>
    requires room { MayBegin into.old }
    requires name { is_name name.now ≡ true }
    requires id { is_text id.now ≡ true }
    ensures { OnOk result (into.new ≡ opened (made name.now (id_attr id.now ∷ []) []) into.old) }
{
    begin_with(into, name, "id", id.as_str())
}

/// Begins an element with an id and one more attribute.
pub(crate) fn begin_with_two(
    into: &mut Builder,
    name: &str,
    id: &Text,
    key: &str,
    value: &Text,
) -> Result<(), AllocError>
    requires room { MayBegin into.old }
    requires name { is_name name.now ≡ true }
    requires attrs { are_attrs (id_attr id.now ∷ attribute key.now value.now ∷ []) ≡ true }
    ensures { OnOk result (into.new ≡ opened (made name.now (id_attr id.now ∷ attribute key.now value.now ∷ []) []) into.old) }
{
    begin_with_id(into, name, id)?;
    into.attr(key, value.as_str())
}

/// Adds an element with one attribute, and nothing in it.
pub(crate) fn add_attributed(
    into: &mut Builder,
    name: &str,
    key: &str,
    value: &str,
) -> Result<(), AllocError>
    requires { MayTakeElement (attributed name.now key.now value.now) into.old }
    ensures { OnOk result
        (into.new ≡ at_innermost (with_kid (children.Element (attributed name.now key.now value.now))) into.old) }
{
    begin_with(into, name, key, value)?;
    into.end();
    Ok(())
}

/// Adds the element `text`.
pub(crate) fn add_text(into: &mut Builder, text: &str) -> Result<(), AllocError>
    requires { MayTakeElement (text_element text.now) into.old }
    ensures { OnOk result (into.new ≡ at_innermost (with_kid (children.Element (text_element text.now))) into.old) }
{
    into.begin("text", 0)?;
    into.text(text)?;
    into.end();
    Ok(())
}

/// Adds parts that are kept as they are, offsets and all.
pub(crate) fn add_opaque(into: &mut Builder, parts: &Items<Tree>) -> Result<(), AllocError>
    requires { MayTake (map children.Element parts.now) into.old }
    ensures { OnOk result (into.new ≡ at_innermost (with_kids (map children.Element parts.now)) into.old) }
{
    add_parts(into, parts.as_slice())
}

fn add_parts(into: &mut Builder, parts: &[Tree]) -> Result<(), AllocError>
    requires { MayTake (map children.Element parts.now) into.old }
    ensures { OnOk result (into.new ≡ at_innermost (with_kids (map children.Element parts.now)) into.old) }
{
    for part in parts {
        into.place(part.root())?;
    }
    Ok(())
}
