//! Parts of an element. None of these calls looks at what stands deeper in it.

ghost use Rattle.std.specs.Prelude.{◌≡◌, ◌<◌, IfOk, IfSome};
ghost use Rattle.std.specs.Option.{option_map};
ghost use Rattle.pn_tree.specs.Depth.{depth_of};
ghost use Rattle.pn_tree.specs.Elements.{attr_value};
ghost use Rattle.pn_tree.specs.Views.{element_of};
ghost use Rattle.pn_spelling.specs.Parts;

use pn_text::Text;
use pn_tree::{Kid, View};
use std::alloc::{AllocError, Global};

/// Whether an element has this name.
pub fn has_name(view: View<'_>, name: &str) -> bool
    ensures { result ≡ Parts.has_name name.now (element_of view.entry) }
{
    view.name() == name
}

/// The first element in an element.
pub fn first_element<'a>(view: View<'a>) -> Option<View<'a>>
    ensures first { option_map element_of result ≡ Parts.first_child (element_of view.entry) }
    ensures depth { IfSome result (λ v. depth_of (element_of v) < depth_of (element_of view.entry)) }
{
    for i in 0..view.kid_count() {
        if let Kid::Element(inner) = view.kid(i) {
            return Some(inner);
        }
    }
    None
}

/// The value of the attribute of this name: empty where there is none.
pub fn attribute<'a>(view: View<'a>, name: &str) -> &'a str
    ensures { result.now ≡ Parts.attribute_of name.now (element_of view.entry) }
{
    match view.find_attr(name) {
        Some(value) => value,
        None => "",
    }
}

/// The same, in memory of its own.
pub fn copy_attribute(alloc: Global, view: View<'_>, name: &str) -> Result<Text, AllocError>
    ensures { IfOk result (λ t. t ≡ Parts.attribute_of name.now (element_of view.entry)) }
{
    Text::from_str(alloc, attribute(view, name))
}

/// The value of the attribute of this name, where there is one, in memory of its own.
pub fn copy_optional_attribute(
    alloc: Global,
    view: View<'_>,
    name: &str,
) -> Result<Option<Text>, AllocError>
    ensures { IfOk result (λ t. t ≡ attr_value name.now (element_of view.entry).attrs) }
{
    match view.find_attr(name) {
        Some(value) => Ok(Some(Text::from_str(alloc, value)?)),
        None => Ok(None),
    }
}
