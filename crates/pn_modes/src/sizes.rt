//! The sorts of the variables of a transition, and how many values they have.

ghost use Rattle.std.specs.Prelude.{◌≡◌, ◌<◌, ℕ, length, IfOk};
ghost use Rattle.std.specs.List.{AllZip, Contains};
ghost use Rattle.pn_carriers.specs.Carriers.{is_finite};
ghost use Rattle.pn_carriers.specs.Sizes.{capped_size, size_of_product};
ghost use Rattle.pn_modes.specs.Causes.{is_infinite};
ghost use Rattle.pn_modes.specs.Sizes.{is_large};
ghost use Rattle.pn_names.specs.Names.{variables_of, widths_of};
ghost use Rattle.pn_sorts.specs.Lookups.{IsVariableSort};
ghost use Rattle.pn_sorts.specs.Standing.{IsFaultless};

use pn_sorts::{Decls, Size, Sort};
use sqlite_items::Items;
use std::alloc::{AllocError, Global};

/// The most values of a sort that are searched, and the most assignments that are listed.
pub(crate) const MOST: u128 = 16_777_216;

/// The sorts of variables.
pub(crate) fn sorts_of(
    alloc: Global,
    decls: &Decls,
    vars: &[u32],
) -> Result<Items<Sort>, AllocError>
    requires faultless { IsFaultless decls.now }
    requires declared { (v : ℕ) → Contains vars.now v → v < length (variables_of decls.now) }
    ensures { IfOk result (λ sorts. AllZip (IsVariableSort decls.now) vars.now sorts) }
{
    let mut sorts = Items::new(alloc);
    for v in vars {
        sorts.push(decls.variable_sort(*v).copy(alloc)?)?;
    }
    Ok(sorts)
}

/// Whether a sort has infinitely many values.
pub(crate) fn is_infinite(decls: &Decls, sort: &Sort) -> bool
    ensures { result ≡ is_infinite sort.now }
{
    match decls.size(sort) {
        Size::Finite(_) => false,
        Size::Infinite => true,
    }
}

/// Whether a sort has too many values to be searched.
pub(crate) fn is_too_large(decls: &Decls, sort: &Sort) -> bool
    ensures { result ≡ is_large (widths_of decls.now) sort.now }
{
    match decls.size(sort) {
        Size::Finite(size) => size > MOST,
        Size::Infinite => true,
    }
}

/// How many assignments there are of values to variables of these sorts, capped at 2^64.
pub(crate) fn assignments(decls: &Decls, sorts: Items<Sort>) -> Size
    ensures { result ≡ capped_size (size_of_product (widths_of decls.now) sorts) }
{
    let product = Sort::Product(sorts);
    decls.size(&product)
}
