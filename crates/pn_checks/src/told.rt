//! The offset at which an empty range is told.

ghost use Rattle.std.specs.Prelude.{◌≡◌};
ghost use Rattle.std.specs.List.{find, flat_map};
ghost use Rattle.std.specs.Option.{option_map, unwrap_or};
ghost use Rattle.pn_checks.specs.Told.{elements_at, elements_of};
ghost use Rattle.pn_net.specs.Documents.{is_constant_at, range_offset, told_in};
ghost use Rattle.pn_spelling.specs.Parts.{child_elements, child_named};
ghost use Rattle.pn_spelling.specs.ReadNets.{is_opaque_part};
ghost use Rattle.pn_tree.specs.Views.{element_of};

use pn_faults::{Fault, Reason};
use pn_spelling::has_name;
use pn_tree::{Kid, Tree, View};

/// A fault of sorts as it is told of a document: an empty range that stands at a constant is told at the
/// range in it. The time of this case is linear in the tree, that of all others constant.
pub(crate) fn told(tree: &Tree, fault: Fault) -> Fault
    ensures { result ≡ told_in tree.now fault }
{
    if fault.reason.number() != Reason::EmptyRange.number() {
        return fault;
    }
    Fault {
        reason: fault.reason,
        at: range_at(tree.root(), fault.at),
        detail: fault.detail,
    }
}

/// The offset of the range in the constant at this offset; the offset itself where there is none.
fn range_at(root: View<'_>, offset: u64) -> u64
    ensures { result ≡ unwrap_or (range_offset (element_of root.entry) offset) offset }
{
    match constant_in(root, offset) {
        Some(constant) => match child_called(constant, "finiteintrange") {
            Some(range) => range.at(),
            None => offset,
        },
        None => offset,
    }
}

/// The first element of this name in an element.
fn child_called<'a>(view: View<'a>, name: &str) -> Option<View<'a>>
    ensures { option_map element_of result ≡ child_named name.now (element_of view.entry) }
{
    for i in 0..view.kid_count() {
        if let Kid::Element(inner) = view.kid(i) {
            if has_name(inner, name) {
                return Some(inner);
            }
        }
    }
    None
}

/// The first constant of a range at this offset: an element or one in it. The recursion goes by the
/// depth of the element.
#[cycle(constants)]
fn constant_in<'a>(view: View<'a>, offset: u64) -> Option<View<'a>>
    ensures { option_map element_of result ≡ find (is_constant_at offset) (elements_of (element_of view.entry)) }
{
    if is_constant(view, offset) {
        return Some(view);
    }
    constant_inside(view, offset)
}

/// The same of what stands in an element.
#[cycle(constants)]
fn constant_inside<'a>(view: View<'a>, offset: u64) -> Option<View<'a>>
    ensures { option_map element_of result ≡ find (is_constant_at offset) (flat_map elements_at (child_elements (element_of view.entry))) }
{
    for i in 0..view.kid_count() {
        if let Kid::Element(inner) = view.kid(i) {
            let found = constant_at(inner, offset);
            if found.is_some() {
                return found;
            }
        }
    }
    None
}

/// The same of a kid: parts that are kept as they are aren't looked into.
#[cycle(constants)]
fn constant_at<'a>(view: View<'a>, offset: u64) -> Option<View<'a>>
    ensures { option_map element_of result ≡ find (is_constant_at offset) (elements_at (element_of view.entry)) }
{
    if is_kept(view) {
        return None;
    }
    constant_in(view, offset)
}

/// Whether an element is a constant of a range at this offset.
fn is_constant(view: View<'_>, offset: u64) -> bool
    ensures { result ≡ is_constant_at offset (element_of view.entry) }
{
    has_name(view, "finiteintrangeconstant") && view.at() == offset
}

/// Whether an element is a part that is kept as it is.
fn is_kept(view: View<'_>) -> bool
    ensures { result ≡ is_opaque_part (element_of view.entry) }
{
    has_name(view, "graphics") || has_name(view, "toolspecific")
}
