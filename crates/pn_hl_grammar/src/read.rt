//! What elements spell, or the least of their faults of shape.

ghost use Rattle.std.specs.Prelude.{◌≡◌, [], IfOk, Err, Some};
ghost use Rattle.pn_faults.specs.Least.{least_fault};
ghost use Rattle.pn_faults.specs.declared.fault.Fault.{Fault};
ghost use Rattle.pn_faults.specs.declared.fault.Refusal.{Refusal};
ghost use Rattle.pn_shape.specs.Faults.{IsShapedSort, IsShapedTerm, fill_faults};
ghost use Rattle.pn_shape.specs.declared.rule.Fill.TheVariants as fill;
ghost use Rattle.pn_shape.specs.declared.tag.Tag.TheVariants.{Declarations};
ghost use Rattle.pn_tree.specs.Views.{element_of};
ghost use Rattle.pn_spelling.specs.ReadDeclarations.{declarations_read};
ghost use Rattle.pn_spelling.specs.ReadSorts.{sort_read};
ghost use Rattle.pn_spelling.specs.ReadTerms.{term_read};

use crate::{make_declarations, make_sort, make_term};
use pn_faults::Refusal;
use pn_operators::Kind;
use pn_shape::{Fill, Tag};
use pn_shape_faults::fill_fault;
use pn_syntax::{Declaration, SortExpr, Term};
use pn_tree::View;
use std::alloc::Global;

/// The sort that an element spells in a net of this kind (ISO/IEC 15909-2, sorts), or the least fault
/// of shape at or inside it. An element that is no sort in such a net is an unknown element. The time
/// is linear in the element.
pub fn read_sort(alloc: Global, kind: Kind, element: View<'_>) -> Result<SortExpr, Refusal>
    ensures spelled { IfOk result (λ s. s ≡ sort_read (element_of element.entry)) }
    ensures shaped { IfOk result (λ s. IsShapedSort kind (element_of element.entry)) }
    ensures fault { (f : Fault) → result ≡ Err (Refusal.Fault f) → least_fault (fill_faults kind fill.Sort (element_of element.entry)) ≡ Some f }
{
    match fill_fault(alloc, kind, Fill::Sort, element) {
        Ok(None) => match make_sort(alloc, element) {
            Ok(sort) => Ok(sort),
            Err(error) => Err(Refusal::Memory(error)),
        },
        Ok(Some(fault)) => Err(Refusal::Fault(fault)),
        Err(error) => Err(Refusal::Memory(error)),
    }
}

/// The term that an element spells in a net of this kind (ISO/IEC 15909-2, terms), or the least fault
/// of shape at or inside it. An element that is no term in such a net is an unknown element. The time
/// is linear in the element.
pub fn read_term(alloc: Global, kind: Kind, element: View<'_>) -> Result<Term, Refusal>
    ensures spelled { IfOk result (λ t. t ≡ term_read (element_of element.entry)) }
    ensures shaped { IfOk result (λ t. IsShapedTerm kind (element_of element.entry)) }
    ensures fault { (f : Fault) → result ≡ Err (Refusal.Fault f) → least_fault (fill_faults kind fill.Term (element_of element.entry)) ≡ Some f }
{
    match fill_fault(alloc, kind, Fill::Term, element) {
        Ok(None) => match make_term(alloc, element) {
            Ok(term) => Ok(term),
            Err(error) => Err(Refusal::Memory(error)),
        },
        Ok(Some(fault)) => Err(Refusal::Fault(fault)),
        Err(error) => Err(Refusal::Memory(error)),
    }
}

/// The declarations that a `declarations` spells in a net of this kind (ISO/IEC 15909-2,
/// declarations), in order, or the least fault of shape at or inside it. An element of another name is
/// an unknown element. The time is linear in the element.
pub fn read_declarations(
    alloc: Global,
    kind: Kind,
    element: View<'_>,
) -> Result<Vec<Declaration>, Refusal>
    ensures spelled { IfOk result (λ all. all.items ≡ declarations_read (element_of element.entry)) }
    ensures shaped { IfOk result (λ all. fill_faults kind (fill.One Declarations) (element_of element.entry) ≡ []) }
    ensures fault { (f : Fault) → result ≡ Err (Refusal.Fault f) → least_fault (fill_faults kind (fill.One Declarations) (element_of element.entry)) ≡ Some f }
{
    match fill_fault(alloc, kind, Fill::One(Tag::Declarations), element) {
        Ok(None) => match make_declarations(alloc, element) {
            Ok(all) => Ok(all),
            Err(error) => Err(Refusal::Memory(error)),
        },
        Ok(Some(fault)) => Err(Refusal::Fault(fault)),
        Err(error) => Err(Refusal::Memory(error)),
    }
}
