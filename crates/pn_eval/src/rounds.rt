//! The sorts of terms that have one, and the number at which operators go round.

ghost use Rattle.std.specs.Prelude.{◌≡◌, List, Some, true, IfOk};
ghost use Rattle.std.specs.List.{Contains};
ghost use Rattle.pn_carriers.specs.Carriers.{is_finite};
ghost use Rattle.pn_carriers.specs.Sizes.{size_of};
ghost use Rattle.pn_eval.specs.Values.{GoesRound, IsRound};
ghost use Rattle.pn_names.specs.Names.{widths_of};
ghost use Rattle.pn_sorts.specs.Standing.{IsFaultless};
ghost use Rattle.pn_syntax.specs.declared.term.Term.{Term};
ghost use Rattle.pn_terms.specs.Rows.{Fits, is_round};
ghost use Rattle.pn_terms.specs.Sorts.{HasSort, HaveSorts};
ghost use Rattle.pn_terms.specs.Standing.{HasSoundSorts};
ghost use Rattle.pn_terms.specs.declared.term_sort.TermSort.{TermSort};
ghost use Rattle.pn_terms.specs.declared.term_sort.TermSort.TheVariants as terms;
ghost use Rattle.pn_values.specs.declared.sort.Sort.{Sort};

use pn_operators::Op;
use pn_sorts::{Decls, Refusal, Size, Sort};
use pn_terms::{Term, TermSort, sort_of};
use std::alloc::{AllocError, Global};

/// The sort of a term that has one.
pub(crate) fn known_sort(alloc: Global, decls: &Decls, term: &Term) -> Result<TermSort, AllocError>
    requires faultless { IsFaultless decls.now }
    requires sound { HasSoundSorts decls.now term.now }
    requires sorted { (s : TermSort) × HasSort decls.now term.now s }
    ensures { IfOk result (HasSort decls.now term.now) }
{
    match sort_of(alloc, decls, term) {
        Ok(sort) => Ok(sort),
        Err(Refusal::Memory(error)) => Err(error),
        Err(Refusal::Fault(_)) => unreachable!(),
    }
}

/// The number at which an operator goes round: that of the constants of the enumeration that the
/// first argument has, for `successor` and `predecessor`.
///
/// It asks for the sort of the argument, in time linear in it; where such operators are nested, that
/// adds up to the square of their depth.
pub(crate) fn round(alloc: Global, decls: &Decls, op: Op, args: &[Term]) -> Result<u32, AllocError>
    requires faultless { IsFaultless decls.now }
    requires sound { (e : Term) → Contains args.now e → HasSoundSorts decls.now e }
    requires fit { (ts : List TermSort) × HaveSorts decls.now args.now ts × Fits decls.now op ts }
    ensures { IfOk result (GoesRound decls.now op args.now) }
{
    match op {
        Op::Successor => constants(alloc, decls, &args[0]),
        Op::Predecessor => constants(alloc, decls, &args[0]),
        _ => Ok(0),
    }
}

/// The number of constants of the cyclic enumeration that a term has. More than a constant can
/// count are as want of memory.
fn constants(alloc: Global, decls: &Decls, term: &Term) -> Result<u32, AllocError>
    requires faultless { IsFaultless decls.now }
    requires sound { HasSoundSorts decls.now term.now }
    requires round { (s : Sort) × HasSort decls.now term.now (terms.Basis s) × (is_round decls.now s ≡ true) }
    ensures { IfOk result (λ round. (s : TermSort) × HasSort decls.now term.now s × IsRound decls.now s round) }
{
    match known_sort(alloc, decls, term)? {
        TermSort::Basis(sort) => size(decls, &sort),
        TermSort::Bag(_) => unreachable!(),
    }
}

/// How many values a finite sort has.
fn size(decls: &Decls, sort: &Sort) -> Result<u32, AllocError>
    requires { is_finite sort.now ≡ true }
    ensures { IfOk result (λ size. size_of (widths_of decls.now) sort.now ≡ Some size) }
{
    match decls.size(sort) {
        Size::Finite(size) => match u32::try_from(size) {
            Ok(size) => Ok(size),
            Err(_) => Err(AllocError),
        },
        Size::Infinite => unreachable!(),
    }
}
