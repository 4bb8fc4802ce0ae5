//! Where the sorts of variables, and the base sorts of partitions, are kept.

ghost use Rattle.std.specs.Prelude.{◌≡◌, Some, IsSome};
ghost use Rattle.pn_resolve.specs.Tables.{sort_in};
ghost use Rattle.pn_sorts.specs.Kept.{sort_kept};

use pn_resolve::Table;
use pn_values::Sort;

/// Where the sort of a declaration's expression is kept.
#[derive(Drop)]
pub(crate) enum Kept {
    /// Nowhere: none is asked for, or the declarations have a fault for which there is none.
    Nowhere,
    Here(Sort),
    /// In the table, at the place of the declaration that the expression names.
    Named(u32),
}

/// The sort that is kept for the declaration at a place.
pub(crate) fn sort_at<'a>(table: &'a Table, kept: &'a [Kept], place: u32) -> &'a Sort
    requires { IsSome (sort_kept table.now.sorts kept.now place) }
    ensures { sort_kept table.now.sorts kept.now place ≡ Some result.now }
{
    match &kept[place as usize] {
        Kept::Here(sort) => sort,
        Kept::Named(place) => named(table, *place),
        Kept::Nowhere => unreachable!(),
    }
}

/// The sort that the table has at a place.
fn named(table: &Table, place: u32) -> &Sort
    requires { IsSome (sort_in table.now.sorts place) }
    ensures { sort_in table.now.sorts place ≡ Some result.now }
{
    match table.named(place) {
        Some(sort) => sort,
        None => unreachable!(),
    }
}
