//! Why the modes of a transition are not searched or not listed.

ghost use Rattle.std.specs.Prelude.{◌≡◌, ◌<◌, ◌≤◌, ◌^◌, min, ℕ, List, length, None, Some, Err, IfOk, IfSome, Ok, OnOk};
ghost use Rattle.pn_carriers.specs.Sizes.{capped_size, size_of_product};
ghost use Rattle.pn_modes.specs.Causes.{HasAssignments, HasFewAssignments, HasManyAssignments, IsFirstInfinite, IsFirstLarge, first_with, is_infinite};
ghost use Rattle.pn_modes.specs.Parts.{AreSearchable};
ghost use Rattle.pn_modes.specs.Sizes.{HaveSortsAt, is_large, most_assignments};
ghost use Rattle.pn_names.specs.Names.{widths_of};
ghost use Rattle.pn_net.specs.Typed.{AreVariablesAt};
ghost use Rattle.pn_values.specs.declared.sort.Size.TheVariants as sizes;

use crate::sizes::{MOST, assignments, is_infinite, is_too_large, sorts_of};
use pn_net::Typed;
use pn_sorts::{Decls, Size, Sort};
use sqlite_items::Items;
use std::alloc::{AllocError, Global};
use thiserror::Error;

/// Why the modes of a transition are not searched.
#[derive(Debug, Drop, Error)]
pub enum SearchFault {
    #[error(transparent)]
    Memory(#[from(alloc)] AllocError),
    /// The first variable of the transition that has an infinite sort.
    #[error("a variable has infinitely many values")]
    InfiniteSort(u32),
    /// All sorts are finite, and this is the first variable whose sort has more than 16777216
    /// values.
    #[error("a variable has too many values")]
    SortTooLarge(u32),
}

/// Why the modes of a transition are not listed.
#[derive(Debug, Drop, Error)]
pub enum ModesFault {
    #[error(transparent)]
    Memory(#[from(alloc)] AllocError),
    /// The first variable of the transition that has an infinite sort.
    #[error("a variable has infinitely many values")]
    InfiniteSort(u32),
    /// All sorts are finite, and the product of their numbers of values, capped at 2^64, passes
    /// 16777216.
    #[error("there are too many assignments")]
    TooManyAssignments(u128),
}

/// The first of these variables that has an infinite sort.
fn first_infinite(decls: &Decls, vars: &[u32], sorts: &[Sort]) -> Option<u32>
    requires { length vars.now ≡ length sorts.now }
    ensures { result ≡ first_with is_infinite vars.now sorts.now }
{
    for i in 0..vars.len() {
        if is_infinite(decls, &sorts[i]) {
            return Some(vars[i]);
        }
    }
    None
}

/// The first of these variables whose sort has too many values to be searched.
fn first_large(decls: &Decls, vars: &[u32], sorts: &[Sort]) -> Option<u32>
    requires { length vars.now ≡ length sorts.now }
    ensures { result ≡ first_with (is_large (widths_of decls.now)) vars.now sorts.now }
{
    for i in 0..vars.len() {
        if is_too_large(decls, &sorts[i]) {
            return Some(vars[i]);
        }
    }
    None
}

/// The sorts of the variables of a transition.
fn sorts_at(alloc: Global, net: &Typed, transition: u32) -> Result<Items<Sort>, AllocError>
    requires within { transition < length net.now.transitions }
    ensures { IfOk result (λ sorts. (vars : List ℕ) → AreVariablesAt net.now transition vars → HaveSortsAt net.now transition vars sorts) }
{
    sorts_of(alloc, net.decls(), net.variables(transition))
}

/// The sorts of the variables of a transition, where none of them has too many values to be searched.
pub(crate) fn searched_sorts(
    alloc: Global,
    net: &Typed,
    transition: u32,
) -> Result<Items<Sort>, SearchFault>
    requires within { transition < length net.now.transitions }
    ensures sorts { IfOk result (λ sorts. (vars : List ℕ) × HaveSortsAt net.now transition vars sorts) }
    ensures searchable { IfOk result (AreSearchable net.now) }
    ensures small { OnOk result (IsFirstLarge net.now transition None) }
    ensures infinite { (v : ℕ) → result ≡ Err (SearchFault.InfiniteSort v) → IsFirstInfinite net.now transition (Some v) }
    ensures large { (v : ℕ) → result ≡ Err (SearchFault.SortTooLarge v) → IsFirstInfinite net.now transition None × IsFirstLarge net.now transition (Some v) }
{
    match sorts_at(alloc, net, transition) {
        Ok(sorts) => {
            few_values(net.decls(), net.variables(transition), sorts.as_slice())?;
            Ok(sorts)
        }
        Err(error) => Err(SearchFault::Memory(error)),
    }
}

/// Whether no sort has too many values to be searched.
fn few_values(decls: &Decls, vars: &[u32], sorts: &[Sort]) -> Result<(), SearchFault>
    requires { length vars.now ≡ length sorts.now }
    ensures small { OnOk result (first_with (is_large (widths_of decls.now)) vars.now sorts.now ≡ None) }
    ensures infinite { (v : ℕ) → result ≡ Err (SearchFault.InfiniteSort v) → first_with is_infinite vars.now sorts.now ≡ Some v }
    ensures large { (v : ℕ) → result ≡ Err (SearchFault.SortTooLarge v)
        → (first_with is_infinite vars.now sorts.now ≡ None) × (first_with (is_large (widths_of decls.now)) vars.now sorts.now ≡ Some v) }
{
    match first_infinite(decls, vars, sorts) {
        Some(v) => Err(SearchFault::InfiniteSort(v)),
        None => match first_large(decls, vars, sorts) {
            Some(v) => Err(SearchFault::SortTooLarge(v)),
            None => Ok(()),
        },
    }
}

/// The sorts of the variables of a transition, where it has no more assignments than are listed;
/// nothing where it has no assignment.
pub(crate) fn listed_sorts(
    alloc: Global,
    net: &Typed,
    transition: u32,
) -> Result<Option<Items<Sort>>, ModesFault>
    requires within { transition < length net.now.transitions }
    ensures sorts { IfOk result (λ o. IfSome o (λ sorts. ((vars : List ℕ) × HaveSortsAt net.now transition vars sorts) × AreSearchable net.now sorts)) }
    ensures none { result ≡ Ok None → HasAssignments net.now transition 0 }
    ensures few { OnOk result (HasFewAssignments net.now transition) }
    ensures infinite { (v : ℕ) → result ≡ Err (ModesFault.InfiniteSort v) → IsFirstInfinite net.now transition (Some v) }
    ensures many { (n : ℕ) → result ≡ Err (ModesFault.TooManyAssignments n) → HasManyAssignments net.now transition n }
{
    let count = listed_assignments(alloc, net, transition)?;
    if count == 0 {
        return Ok(None);
    }
    match sorts_at(alloc, net, transition) {
        Ok(sorts) => Ok(Some(sorts)),
        Err(error) => Err(ModesFault::Memory(error)),
    }
}

/// How many assignments a transition has, where they are no more than are listed.
fn listed_assignments(alloc: Global, net: &Typed, transition: u32) -> Result<u128, ModesFault>
    requires within { transition < length net.now.transitions }
    ensures few { IfOk result (λ n. HasAssignments net.now transition n × (n ≤ most_assignments)) }
    ensures infinite { (v : ℕ) → result ≡ Err (ModesFault.InfiniteSort v) → IsFirstInfinite net.now transition (Some v) }
    ensures many { (n : ℕ) → result ≡ Err (ModesFault.TooManyAssignments n) → HasManyAssignments net.now transition n }
{
    match sorts_at(alloc, net, transition) {
        Ok(sorts) => few_assignments(net.decls(), net.variables(transition), sorts),
        Err(error) => Err(ModesFault::Memory(error)),
    }
}

/// How many assignments there are of values to these variables, where they are no more than are
/// listed.
fn few_assignments(decls: &Decls, vars: &[u32], sorts: Items<Sort>) -> Result<u128, ModesFault>
    requires { length vars.now ≡ length sorts }
    ensures few { IfOk result (λ n. (size_of_product (widths_of decls.now) sorts ≡ Some n) × (n ≤ most_assignments)) }
    ensures infinite { (v : ℕ) → result ≡ Err (ModesFault.InfiniteSort v) → first_with is_infinite vars.now sorts ≡ Some v }
    ensures many { (told : ℕ) → result ≡ Err (ModesFault.TooManyAssignments told)
        → (n : ℕ) × (size_of_product (widths_of decls.now) sorts ≡ Some n) × (most_assignments < n) × (told ≡ min n (2 ^ 64)) }
{
    if let Some(v) = first_infinite(decls, vars, sorts.as_slice()) {
        return Err(ModesFault::InfiniteSort(v));
    }
    within_limit(assignments(decls, sorts))
}

/// A number of assignments, where it is no more than are listed.
fn within_limit(size: Size) -> Result<u128, ModesFault>
    requires { (n : ℕ) × (size ≡ capped_size (Some n)) }
    ensures few { IfOk result (λ told. (size ≡ sizes.Finite told) × (told ≤ most_assignments)) }
    ensures infinite { (v : ℕ) → result ≡ Err (ModesFault.InfiniteSort v) → ⊥ }
    ensures many { (told : ℕ) → result ≡ Err (ModesFault.TooManyAssignments told) → (size ≡ sizes.Finite told) × (most_assignments < told) }
{
    match size {
        Size::Finite(n) => {
            if n > MOST {
                return Err(ModesFault::TooManyAssignments(n));
            }
            Ok(n)
        }
        Size::Infinite => unreachable!(),
    }
}
