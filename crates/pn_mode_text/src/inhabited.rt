//! Which sorts have values.

ghost use Rattle.std.specs.Prelude.{◌≡◌, true};
ghost use Rattle.pn_carriers.specs.Carriers.{is_finite};
ghost use Rattle.pn_mode_text.specs.ValueReadings.{TellsParts, TellsValues};

use pn_sorts::{Decls, Size, Sort};

/// Whether a sort has a value. A range may be empty, and so may an enumeration in declarations that
/// were made by hand; a product has values where all its parts have. The recursion goes by the depth
/// of the sort.
#[cycle(has_values)]
pub(crate) fn has_values(decls: &Decls, sort: &Sort) -> bool
    ensures { TellsValues decls.now sort.now result }
{
    match sort {
        Sort::Enumeration(_) => has_some(decls, sort),
        Sort::Partition(_) => has_some(decls, sort),
        Sort::Range { .. } => has_some(decls, sort),
        Sort::Product(parts) => have_values(decls, parts.as_slice()),
        Sort::Dot => true,
        Sort::Bool => true,
        Sort::Integer => true,
        Sort::Natural => true,
        Sort::Positive => true,
        Sort::Text => true,
        Sort::List(_) => true,
    }
}

/// Whether each of the sorts has a value.
#[cycle(has_values)]
fn have_values(decls: &Decls, sorts: &[Sort]) -> bool
    ensures { TellsParts decls.now sorts.now result }
{
    for i in 0..sorts.len() {
        if !has_values(decls, &sorts[i]) {
            return false;
        }
    }
    true
}

/// Whether a finite sort has a value.
fn has_some(decls: &Decls, sort: &Sort) -> bool
    requires { is_finite sort.now ≡ true }
    ensures { TellsValues decls.now sort.now result }
{
    match decls.size(sort) {
        Size::Finite(count) => 0 < count,
        Size::Infinite => unreachable!(),
    }
}
