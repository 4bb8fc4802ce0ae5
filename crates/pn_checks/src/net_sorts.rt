//! The least fault of sorts of a flat net.

ghost use Rattle.std.specs.Prelude.{◌≡◌, IfOk, OnOk};
ghost use Rattle.pn_checks.specs.Sorts.{ArcStands, InSaid, KnowsDeclared, PlaceStands, SortsStandIn, TransitionStands};
ghost use Rattle.pn_faults.specs.Standing.{IsLeastOf};
ghost use Rattle.pn_faults.specs.Walks.{KeepsLeast, StandsInSome};
ghost use Rattle.pn_net.specs.Flattening.{IsFlattened, net_of_flat};
ghost use Rattle.pn_net.specs.Labels.{said};
ghost use Rattle.pn_net.specs.Typing.{StandsInSorts};
ghost use Rattle.pn_objects.specs.declared.net.Net.{Net};
ghost use Rattle.pn_resolve.specs.Standing.{StandsInSort};
ghost use Rattle.pn_sorts.specs.Standing.{Stands};

use crate::sorts::{keep_sort, keep_sorts};
use pn_faults::Fault;
use pn_net::{Flat, FlatArc};
use pn_objects::{Label, Place, Transition};
use pn_sorts::Decls;
use pn_syntax::{SortExpr, Term};
use sqlite_items::Boxed;
use std::alloc::{AllocError, Global};

/// The least fault of sorts of the net whose flat net it is, with these declarations: an unknown sort, a sort cycle, a
/// sort that is too big, an empty range or a bad partition. An empty range in a constant stands at
/// the constant. Its time is linear in the net and in the sorts that its types and terms write.
pub(crate) fn sort_fault(
    alloc: Global,
    flat: &Flat,
    decls: &Decls,
) -> Result<Option<Fault>, AllocError>
    requires { decls.now ≡ flat.now.declarations }
    ensures { IfOk result (λ least. (net : Net) → IsFlattened net (net_of_flat flat.now) → IsLeastOf (StandsInSorts net) least) }
{
    let mut least = declared_fault(alloc, decls)?;
    keep_places(alloc, decls, flat.places.as_slice(), &mut least)?;
    keep_transitions(alloc, decls, flat.transitions.as_slice(), &mut least)?;
    keep_arcs(alloc, decls, flat.arcs.as_slice(), &mut least)?;
    Ok(least)
}

/// The least fault of the declarations.
fn declared_fault(alloc: Global, decls: &Decls) -> Result<Option<Fault>, AllocError>
    ensures { IfOk result (IsLeastOf (Stands decls.now)) }
{
    match decls.fault() {
        Some(fault) => Ok(Some(fault.copy(alloc)?)),
        None => Ok(None),
    }
}

/// Keeps the least fault of the one so far and those of the types and the initial markings of places.
fn keep_places(
    alloc: Global,
    decls: &Decls,
    places: &[Place],
    least: &mut Option<Fault>,
) -> Result<(), AllocError>
    requires { KnowsDeclared decls.now least.old }
    ensures { OnOk result (KeepsLeast (StandsInSome (PlaceStands decls.now) places.now) least.old least.new) }
{
    for place in places {
        keep_place(alloc, decls, place, least)?;
    }
    Ok(())
}

/// The same of one place.
fn keep_place(
    alloc: Global,
    decls: &Decls,
    place: &Place,
    least: &mut Option<Fault>,
) -> Result<(), AllocError>
    requires { KnowsDeclared decls.now least.old }
    ensures { OnOk result (KeepsLeast (PlaceStands decls.now place.now) least.old least.new) }
{
    keep_type(alloc, decls, &place.sort, least)?;
    keep_term(alloc, decls, &place.hl_marking, least)
}

/// The same of the conditions of transitions.
fn keep_transitions(
    alloc: Global,
    decls: &Decls,
    transitions: &[Transition],
    least: &mut Option<Fault>,
) -> Result<(), AllocError>
    requires { KnowsDeclared decls.now least.old }
    ensures { OnOk result (KeepsLeast (StandsInSome (TransitionStands decls.now) transitions.now) least.old least.new) }
{
    for transition in transitions {
        keep_term(alloc, decls, &transition.condition, least)?;
    }
    Ok(())
}

/// The same of the inscriptions of arcs.
fn keep_arcs(
    alloc: Global,
    decls: &Decls,
    arcs: &[FlatArc],
    least: &mut Option<Fault>,
) -> Result<(), AllocError>
    requires { KnowsDeclared decls.now least.old }
    ensures { OnOk result (KeepsLeast (StandsInSome (ArcStands decls.now) arcs.now) least.old least.new) }
{
    for arc in arcs {
        keep_term(alloc, decls, &arc.arc.inscription, least)?;
    }
    Ok(())
}

/// The same of a type, where there is one.
fn keep_type(
    alloc: Global,
    decls: &Decls,
    label: &Option<Boxed<Label<SortExpr>>>,
    least: &mut Option<Fault>,
) -> Result<(), AllocError>
    requires { KnowsDeclared decls.now least.old }
    ensures { OnOk result (KeepsLeast (InSaid (StandsInSort decls.now) (said label.now)) least.old least.new) }
{
    match label {
        Some(label) => keep_sort(alloc, decls, &label.get().value, least),
        None => Ok(()),
    }
}

/// The same of a term, where there is one.
fn keep_term(
    alloc: Global,
    decls: &Decls,
    label: &Option<Boxed<Label<Term>>>,
    least: &mut Option<Fault>,
) -> Result<(), AllocError>
    requires { KnowsDeclared decls.now least.old }
    ensures { OnOk result (KeepsLeast (InSaid (SortsStandIn decls.now) (said label.now)) least.old least.new) }
{
    match label {
        Some(label) => keep_sorts(alloc, decls, &label.get().value, least),
        None => Ok(()),
    }
}
