//! Numbers in attributes.

ghost use Rattle.std.specs.Prelude.{◌≡◌, pos};
ghost use Rattle.pn_tree.specs.Views.{element_of};
ghost use Rattle.pn_spelling.specs.Parts.{first_child, number_at};
ghost use Rattle.std.specs.Option.{option_map, unwrap_or};

use pn_shape::number_in;
use pn_spelling::{attribute, first_element};
use pn_tree::View;

/// The whole number in the attribute of this name: 0 where there is none.
pub(crate) fn number(view: View<'_>, name: &str) -> i64
    ensures { result ≡ number_at name.now (element_of view.entry) }
{
    match number_in(attribute(view, name)) {
        Some(number) => number,
        None => 0,
    }
}

/// The whole number in the attribute of this name of the first element in the element: 0 where there
/// is none.
pub(crate) fn inner_number(view: View<'_>, name: &str) -> i64
    ensures { result ≡ unwrap_or (option_map (number_at name.now) (first_child (element_of view.entry))) (pos 0) }
{
    match first_element(view) {
        Some(inner) => number(inner, name),
        None => 0,
    }
}
