//! The sort of an expression, or its least fault.

ghost use Rattle.std.specs.Prelude.{◌≡◌, List, Some, None, Ok, Err, IfOk, OnOk, IfSome};
ghost use Rattle.pn_faults.specs.declared.fault.Fault.{Fault};
ghost use Rattle.pn_faults.specs.Standing.{IsLeastOf};
ghost use Rattle.pn_syntax.specs.declared.declaration.Declaration.{Declaration};
ghost use Rattle.pn_values.specs.declared.sort.Sort.{Sort};
ghost use Rattle.pn_resolve.specs.Meaning.{Resolves, HasNoSort};
ghost use Rattle.pn_resolve.specs.Standing.{IsBig, IsTooBig, StandsInSort, StandsBesides};
ghost use Rattle.pn_faults.specs.Walks.{KeepsLeast};
ghost use Rattle.pn_resolve.specs.Tables.{IsTable, IsExtent};

use crate::build::build_within;
use crate::walk::walk;
use crate::{Extent, Table};
use pn_faults::Fault;
use pn_names::Index;
use pn_syntax::SortExpr;
use pn_values::Sort;
use std::alloc::{AllocError, Global};
use thiserror::Error;

/// Why an expression was not resolved.
#[derive(Debug, Drop, Error)]
pub enum ResolveFault {
    #[error(transparent)]
    Memory(#[from(alloc)] AllocError),
    #[error("the sort has a fault")]
    Fault(Fault),
    /// It has no sort, though it has no fault: it leads to a declaration that has one.
    #[error("the sort leads to a declaration with a fault")]
    Elsewhere,
}

impl Table {
    /// The extent of the sort of an expression, which is not built. The least of the faults in the
    /// expression and of the one so far is kept.
    pub fn walk(
        &self,
        alloc: Global,
        index: &Index,
        expr: &SortExpr,
        least: &mut Option<Fault>,
    ) -> Result<Extent, AllocError>
        ensures extent { IfOk result (λ extent. (items : List Declaration) → IsTable items index.now self.now → IsExtent items expr.now extent) }
        ensures least { OnOk result ((items : List Declaration) → IsTable items index.now self.now → KeepsLeast (StandsInSort items expr.now) least.old least.new) }
    {
        walk(alloc, index, &self.extents, expr, least)
    }

    /// The sort of an expression, where it has one that keeps within the limits.
    pub fn sort(
        &self,
        alloc: Global,
        index: &Index,
        expr: &SortExpr,
    ) -> Result<Option<Sort>, AllocError>
        ensures some { (sort : Sort) → result ≡ Ok (Some sort) → (items : List Declaration) → IsTable items index.now self.now → Resolves items expr.now sort × (IsBig sort → ⊥) }
        ensures none { result ≡ Ok None → (items : List Declaration) → IsTable items index.now self.now → (sort : Sort) → Resolves items expr.now sort → IsBig sort }
    {
        let mut least = None;
        let extent = walk(alloc, index, &self.extents, expr, &mut least)?;
        build_within(alloc, index, &self.sorts, expr, extent)
    }

    /// The sort of an expression in which no fault stands, or the least fault in it. Where it has no
    /// sort though no fault stands in it, the declarations have one.
    pub fn resolve(
        &self,
        alloc: Global,
        index: &Index,
        expr: &SortExpr,
    ) -> Result<Sort, ResolveFault>
        ensures ok { (sort : Sort) → result ≡ Ok sort → (items : List Declaration) → IsTable items index.now self.now
            → Resolves items expr.now sort × ((f : Fault) → StandsInSort items expr.now f → ⊥) }
        ensures fault { (fault : Fault) → result ≡ Err (ResolveFault.Fault fault) → (items : List Declaration) → IsTable items index.now self.now
            → IsLeastOf (StandsInSort items expr.now) (Some fault) }
        ensures elsewhere { result ≡ Err ResolveFault.Elsewhere → (items : List Declaration) → IsTable items index.now self.now
            → HasNoSort items expr.now × ((f : Fault) → StandsInSort items expr.now f → ⊥) × ((f : Fault) × StandsBesides items f) }
    {
        let mut least = None;
        let Ok(extent) = walk(alloc, index, &self.extents, expr, &mut least) else {
            return Err(ResolveFault::Memory(AllocError));
        };
        if let Some(fault) = least {
            return Err(ResolveFault::Fault(fault));
        }
        match build_within(alloc, index, &self.sorts, expr, extent) {
            Ok(Some(sort)) => Ok(sort),
            Ok(None) => Err(ResolveFault::Elsewhere),
            Err(_) => Err(ResolveFault::Memory(AllocError)),
        }
    }
}
