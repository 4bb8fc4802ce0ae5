//! The whole verdict on a document.

ghost use Rattle.std.specs.Prelude.{◌≡◌, Err, IfOk, IsOk};
ghost use Rattle.pn_checks.specs.Initial.{IsInitial};
ghost use Rattle.pn_checks.specs.Linked.{IsLeastInTree, IsLinked};
ghost use Rattle.pn_checks.specs.Verdicts.{IsAccepted, IsFaultOf};
ghost use Rattle.pn_faults.specs.declared.fault.Fault.{Fault};
ghost use Rattle.pn_faults.specs.declared.fault.Refusal.TheVariants as Refusal;
ghost use Rattle.pn_ids.specs.Names.{AreDistinct};
ghost use Rattle.pn_markup.specs.Offsets.{HasRisingOffsets};
ghost use Rattle.pn_names.specs.Names.{names_of};
ghost use Rattle.pn_net.specs.Typed.{HasTypedLabels, IsTyped};

use crate::Checked;
use crate::links::linked;
use crate::net_sorts::sort_fault;
use crate::told::told;
use crate::typing::typing;
use pn_faults::Refusal;
use pn_net::{Flat, Marking, Typed};
use pn_sorts::{Decls, are_numbered};
use pn_tree::Tree;
use std::alloc::{AllocError, Global};

/// The flat net of the net that a document's tree spells, with its initial marking (ISO/IEC 15909-2).
/// Its time is linear in the tree, but for sorts and values that are big by themselves.
///
/// # Errors
///
/// `Refusal::Fault` with the least fault of the tree exactly where one stands, and
/// `Refusal::Memory` where there is no memory. In a tree whose offsets don't rise, as those of a
/// document do, it is some fault that stands.
pub fn verdict(alloc: Global, tree: &Tree) -> Result<Checked, Refusal>
    ensures checked { IfOk result (λ checked. IsLinked tree.now checked × IsAccepted tree.now) }
    ensures stands { (f : Fault) → result ≡ Err (Refusal.Fault f) → IsFaultOf tree.now f }
    ensures least { (f : Fault) → result ≡ Err (Refusal.Fault f) → HasRisingOffsets tree.now → IsLeastInTree tree.now f }
{
    match linked(alloc, tree) {
        Ok(flat) => check(alloc, tree, flat),
        Err(refusal) => Err(refusal),
    }
}

/// What is made of a flat net beside it.
#[derive(Drop)]
struct Parts {
    decls: Decls,
    initial: Marking,
}

/// The same, where the flat net is known.
fn check(alloc: Global, tree: &Tree, flat: Flat) -> Result<Checked, Refusal>
    requires linked { IsLinked tree.now flat }
    ensures checked { IfOk result (λ checked. IsLinked tree.now checked × IsAccepted tree.now) }
    ensures stands { (f : Fault) → result ≡ Err (Refusal.Fault f) → IsFaultOf tree.now f }
    ensures least { (f : Fault) → result ≡ Err (Refusal.Fault f) → HasRisingOffsets tree.now → IsLeastInTree tree.now f }
{
    match make_parts(alloc, tree, &flat) {
        Ok(parts) => match finish(alloc, flat, parts) {
            Ok(checked) => Ok(checked),
            Err(error) => Err(Refusal::Memory(error)),
        },
        Err(refusal) => Err(refusal),
    }
}

/// The declarations and the initial marking, or the least fault of sorts or of typing.
fn make_parts(alloc: Global, tree: &Tree, flat: &Flat) -> Result<Parts, Refusal>
    requires linked { IsLinked tree.now flat.now }
    ensures declared { IfOk result (λ parts. parts.decls ≡ flat.now.declarations) }
    ensures initial { IfOk result (λ parts. IsInitial flat.now parts.initial) }
    ensures typed { IsOk result → HasTypedLabels flat.now }
    ensures accepted { IsOk result → IsAccepted tree.now }
    ensures stands { (f : Fault) → result ≡ Err (Refusal.Fault f) → IsFaultOf tree.now f }
    ensures least { (f : Fault) → result ≡ Err (Refusal.Fault f) → HasRisingOffsets tree.now → IsLeastInTree tree.now f }
{
    match declare(alloc, flat) {
        Ok(decls) => match mark(alloc, tree, flat, &decls) {
            Ok(initial) => Ok(Parts { decls, initial }),
            Err(refusal) => Err(refusal),
        },
        Err(error) => Err(Refusal::Memory(error)),
    }
}

/// The declarations of a flat net.
fn declare(alloc: Global, flat: &Flat) -> Result<Decls, AllocError>
    requires { AreDistinct (names_of flat.now.declarations) }
    ensures { IfOk result (λ decls. decls ≡ flat.now.declarations) }
{
    let items = flat.declarations.as_slice();
    if !are_numbered(items) {
        return Err(AllocError);
    }
    Decls::build(alloc, items)
}

/// The initial marking, or the least fault of sorts or of typing.
fn mark(alloc: Global, tree: &Tree, flat: &Flat, decls: &Decls) -> Result<Marking, Refusal>
    requires linked { IsLinked tree.now flat.now }
    requires declared { decls.now ≡ flat.now.declarations }
    ensures initial { IfOk result (IsInitial flat.now) }
    ensures typed { IsOk result → HasTypedLabels flat.now }
    ensures accepted { IsOk result → IsAccepted tree.now }
    ensures stands { (f : Fault) → result ≡ Err (Refusal.Fault f) → IsFaultOf tree.now f }
    ensures least { (f : Fault) → result ≡ Err (Refusal.Fault f) → HasRisingOffsets tree.now → IsLeastInTree tree.now f }
{
    match sort_fault(alloc, flat, decls) {
        Ok(Some(fault)) => Err(Refusal::Fault(told(tree, fault))),
        Ok(None) => typing(alloc, flat, decls),
        Err(error) => Err(Refusal::Memory(error)),
    }
}

/// The flat net, with what was made of it.
fn finish(alloc: Global, flat: Flat, parts: Parts) -> Result<Checked, AllocError>
    requires declared { parts.decls ≡ flat.declarations }
    requires typed { IsTyped flat }
    requires initial { IsInitial flat parts.initial }
    ensures { IfOk result (λ checked. checked ≡ flat) }
{
    let typed = Typed::new(alloc, flat, parts.decls)?;
    Ok(Checked::new(typed, parts.initial))
}
