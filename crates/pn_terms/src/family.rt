//! Which sorts an operator takes.

ghost use Rattle.std.specs.Prelude.{◌≡◌, ◌↔◌, ◌<◌, IsTrue, length, slice_index_or};
ghost use Rattle.std.specs.List.{list_all};
ghost use Rattle.pn_terms.specs.Rows.{AreAlike, is_basis_in, is_in, is_round};
ghost use Rattle.pn_terms.specs.declared.term_sort.TermSort.{TermSort};
ghost use Rattle.pn_values.specs.declared.sort.Sort.{Sort};

use crate::TermSort;
use pn_sorts::{Decls, Sort};

/// A family of sorts of terms.
#[derive(Clone, Copy)]
pub(crate) enum Family {
    /// The truth values.
    Truths,
    /// The integers.
    Integers,
    /// Cyclic enumerations.
    Rounds,
    /// Ranges and enumerations.
    Ordered,
    /// Partitions.
    Elements,
    /// Texts.
    Texts,
    /// Lists.
    Lists,
    /// All that are no multisets.
    Basis,
    /// Multisets.
    Bags,
}

/// Whether a basis sort is of this family.
fn is_basis_in(decls: &Decls, family: Family, sort: &Sort) -> bool
    ensures { result ≡ is_basis_in decls.now family sort.now }
{
    match family {
        Family::Truths => matches!(sort, Sort::Bool),
        Family::Integers => matches!(sort, Sort::Integer),
        Family::Rounds => is_round(decls, sort),
        Family::Ordered => matches!(sort, Sort::Enumeration(_) | Sort::Range { .. }),
        Family::Elements => matches!(sort, Sort::Partition(_)),
        Family::Texts => matches!(sort, Sort::Text),
        Family::Lists => matches!(sort, Sort::List(_)),
        Family::Basis => true,
        Family::Bags => false,
    }
}

/// Whether a sort is a cyclic enumeration.
fn is_round(decls: &Decls, sort: &Sort) -> bool
    ensures { result ≡ is_round decls.now sort.now }
{
    match sort {
        Sort::Enumeration(place) => decls.is_cyclic(*place),
        _ => false,
    }
}

/// Whether a sort is of this family.
pub(crate) fn is_in(decls: &Decls, family: Family, sort: &TermSort) -> bool
    ensures { result ≡ is_in decls.now family sort.now }
{
    match sort {
        TermSort::Basis(sort) => is_basis_in(decls, family, sort),
        TermSort::Bag(_) => matches!(family, Family::Bags),
    }
}

/// Whether all sorts are of this family.
pub(crate) fn are_in(decls: &Decls, family: Family, sorts: &[TermSort]) -> bool
    ensures { result ≡ list_all (is_in decls.now family) sorts.now }
{
    for sort in sorts {
        if !is_in(decls, family, sort) {
            return false;
        }
    }
    true
}

/// The sort at a place.
pub(crate) fn sort_at(sorts: &[TermSort], place: usize) -> &TermSort
    requires { place < length sorts.now }
    ensures { result.now ≡ slice_index_or sorts.now place (TermSort.Basis Sort.Dot) }
{
    &sorts[place]
}

/// Whether any two of the sorts are the same.
pub(crate) fn are_alike(sorts: &[TermSort]) -> bool
    ensures { IsTrue result ↔ AreAlike sorts.now }
{
    for sort in sorts {
        if !sort.is_same(sort_at(sorts, 0)) {
            return false;
        }
    }
    true
}
