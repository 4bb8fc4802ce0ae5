//! The declarations of a document, with the tables by which they are asked.

ghost use Rattle.std.specs.Prelude.{◌≡◌, IfOk};
ghost use Rattle.pn_faults.specs.declared.fault.Fault.{Fault};
ghost use Rattle.pn_faults.specs.declared.fault.Refusal.{Refusal};

use crate::kept::{Kept, sort_at};
use crate::lookups::{constant_sort, entry, is_cyclic, place_of};
use crate::settle::settle;
use pn_carriers::{has_value, is_text, nth, ordinal, size};
use pn_faults::{Fault, Refusal};
use pn_names::{Index, constant_id, declaration_id, variable_id, variable_places, widths};
use pn_resolve::{ResolveFault, Table};
use pn_syntax::{Declaration, SortExpr};
use pn_values::{ConstantRef, Size, Sort, Value};
use sqlite_items::Items;
use std::alloc::{AllocError, Global};
use std::marker::Model;

/// The declarations of a document. Contracts see them as the list that they were made from.
///
/// Declarations, enumerations and partitions are numbered by their places in that list, variables
/// among themselves.
#[derive(Drop)]
pub struct Decls {
    items: Items<Declaration>,
    index: Index,
    table: Table,
    widths: Vec<u32>,
    variables: Vec<u32>,
    /// The sorts of variables and the base sorts of partitions, where no fault stands. What is the
    /// sort of a name stands in `table` alone.
    sorts: Vec<Kept>,
    /// For each partition the elements that list the values of its base sort, in order, where no
    /// fault stands.
    tables: Vec<Option<Items<u32>>>,
    fault: Option<Fault>,
}

impl Model for Decls {
    ghost use Rattle.std.specs.Prelude.{List};
    ghost use Rattle.std.specs.Coded.{codes};
    ghost use Rattle.pn_syntax.specs.declared.declaration.Declaration.{Declaration};
    ghost use Rattle.pn_syntax.specs.contracts.declaration.Declaration as declaration;
    ghost use Rattle.pn_sorts.specs.Keeping.{PartsKeep};

    ghost Value = { List Declaration };

    ghost coded = { Prim.hlevel (codes, declaration.the_row.coded) };

    ghost view = { λ d. d.items };

    ghost invariant = { λ d. PartsKeep d.items d.index d.table d.widths.items d.variables.items d.sorts.items d.tables.items d.fault };
}

/// Copies of all declarations.
fn copy_all(alloc: Global, items: &[Declaration]) -> Result<Items<Declaration>, AllocError>
    ensures { IfOk result (λ all. all ≡ items.now) }
{
    let mut all = Items::new(alloc);
    for item in items {
        all.push(item.copy(alloc)?)?;
    }
    Ok(all)
}

/// The refusal for a fault that is kept.
fn refused(alloc: Global, fault: &Fault) -> Refusal
    ensures { (f : Fault) → result ≡ Refusal.Fault f → f ≡ fault.now }
{
    match fault.copy(alloc) {
        Ok(fault) => Refusal::Fault(fault),
        Err(error) => Refusal::Memory(error),
    }
}

impl Decls {
    ghost use Rattle.std.specs.Prelude.{◌≡◌, ◌<◌, ◌^◌, true, length, slice_get, Some, Err, IfOk, IfSome, IsOk, IsSome, option_copied};
    ghost use Rattle.std.specs.Option.{option_map};
    ghost use Rattle.pn_carriers.specs.Carriers.{carrier, is_finite};
    ghost use Rattle.pn_carriers.specs.Members.{is_member, IsMember};
    ghost use Rattle.pn_carriers.specs.Sizes.{capped_size, size_of};
    ghost use Rattle.pn_ids.specs.Names.{AreDistinct};
    ghost use Rattle.pn_names.specs.Names.{AreNumbered, IsConstant, constant_named, id_of, id_of_constant, names_of, partition_named, variable_name, variable_named, variables_of, widths_of};
    ghost use Rattle.pn_faults.specs.Standing.{IsLeastOf};
    ghost use Rattle.pn_faults.specs.declared.fault.Fault.{Fault};
    ghost use Rattle.pn_faults.specs.declared.fault.Refusal.{Refusal};
    ghost use Rattle.pn_resolve.specs.Meaning.{Resolves};
    ghost use Rattle.pn_resolve.specs.Standing.{StandsInSort};
    ghost use Rattle.pn_sorts.specs.Standing.{IsFaultless, Stands};
    ghost use Rattle.pn_sorts.specs.Keeping.{IsRefusedFor};
    ghost use Rattle.pn_values.specs.declared.sort.Sort.{Sort};
    ghost use Rattle.pn_values.specs.declared.sort.Sort.TheVariants as sorts;
    ghost use Rattle.pn_values.specs.declared.value.Value.TheVariants as values;
    ghost use Rattle.pn_sorts.specs.Lookups.{IsBaseSort, IsPartOf, IsVariableSort, base_expr, is_cyclic, sort_of_constant};

    /// The declarations of a document. The time is linear in them and in the sorts that keep within
    /// the limits, but for sorting cycles that go through several partitions.
    pub fn build(alloc: Global, items: &[Declaration]) -> Result<Decls, AllocError>
        requires distinct { AreDistinct (names_of items.now) }
        requires numbered { AreNumbered items.now }
        ensures { IfOk result (λ d. d ≡ items.now) }
    {
        let widths = widths(alloc, items)?;
        let variables = variable_places(alloc, items)?;
        let copies = copy_all(alloc, items)?;
        let index = Index::of(alloc, items)?;
        let settled = settle(alloc, &index, items)?;
        Ok(Decls {
            items: copies,
            index,
            table: settled.table,
            widths,
            variables,
            sorts: settled.sorts,
            tables: settled.tables,
            fault: settled.fault,
        })
    }

    /// The sort that an expression writes.
    ///
    /// Else the answer is the least fault in it: an unknown sort, a sort that is too big or an empty
    /// range. Where there is none, and it has no sort since it leads to a declaration with a fault,
    /// the answer is the fault that `fault` shows.
    pub fn resolve(&self, alloc: Global, expr: &SortExpr) -> Result<Sort, Refusal>
        ensures ok { IfOk result (Resolves self.now expr.now) }
        ensures clean { IsOk result → (f : Fault) → StandsInSort self.now expr.now f → ⊥ }
        ensures fault { (f : Fault) → result ≡ Err (Refusal.Fault f) → IsRefusedFor self.now expr.now f }
    {
        match self.table.resolve(alloc, &self.index, expr) {
            Ok(sort) => Ok(sort),
            Err(ResolveFault::Memory(error)) => Err(Refusal::Memory(error)),
            Err(ResolveFault::Fault(fault)) => Err(Refusal::Fault(fault)),
            Err(ResolveFault::Elsewhere) => match &self.fault {
                Some(fault) => Err(refused(alloc, fault)),
                None => unreachable!(),
            },
        }
    }

    /// The least fault of the sorts in these declarations, where there is one: an unknown sort, a
    /// sort cycle, a sort that is too big, an empty range or a bad partition.
    pub fn fault(&self) -> Option<&Fault>
        ensures { IsLeastOf (Stands self.now) (option_copied result) }
    {
        self.fault.as_ref()
    }

    /// The number of the variable of this id.
    pub fn variable(&self, id: &str) -> Option<u32>
        ensures found { result ≡ variable_named self.now id.now }
        ensures declared { IfSome result (λ v. v < length (variables_of self.now)) }
    {
        self.index.variable(id)
    }

    /// The id of a variable.
    pub fn variable_id(&self, v: u32) -> &str
        requires { v < length (variables_of self.now) }
        ensures { option_map variable_name (slice_get (variables_of self.now) v) ≡ Some result.now }
    {
        variable_id(self.items.as_slice(), &self.variables, v)
    }

    /// The sort of a variable.
    pub fn variable_sort(&self, v: u32) -> &Sort
        requires faultless { IsFaultless self.now }
        requires within { v < length (variables_of self.now) }
        ensures { IsVariableSort self.now v result.now }
    {
        let place = place_of(&self.variables, v);
        sort_at(&self.table, &self.sorts, place)
    }

    /// The base sort of the partition at this place.
    pub fn base_sort(&self, partition: u32) -> &Sort
        requires faultless { IsFaultless self.now }
        requires partition { IsSome (base_expr self.now partition) }
        ensures { IsBaseSort self.now partition result.now }
    {
        sort_at(&self.table, &self.sorts, partition)
    }

    /// The element of the partition at this place that lists a value of its base sort.
    pub fn part_of(&self, partition: u32, value: &Value) -> u32
        requires faultless { IsFaultless self.now }
        requires partition { IsSome (base_expr self.now partition) }
        requires member { (base : Sort) → IsBaseSort self.now partition base → IsMember (widths_of self.now) value.now base }
        ensures { IsPartOf self.now partition value.now result }
    {
        let base = sort_at(&self.table, &self.sorts, partition);
        let place = ordinal(&self.widths, base, value);
        entry(&self.tables, partition, place)
    }

    /// The constant or partition element of this id.
    pub fn constant(&self, id: &str) -> Option<ConstantRef>
        ensures found { result ≡ constant_named self.now id.now }
        ensures declared { IfSome result (λ c. IsConstant self.now c × IsSome (sort_of_constant self.now c)) }
    {
        self.index.constant(id)
    }

    /// The id of a constant or partition element.
    pub fn constant_id(&self, c: ConstantRef) -> &str
        requires { IsConstant self.now c }
        ensures { id_of_constant self.now c ≡ Some result.now }
    {
        constant_id(self.items.as_slice(), c)
    }

    /// The enumeration or partition that declares a constant.
    pub fn constant_sort(&self, c: ConstantRef) -> Sort
        requires { IsSome (sort_of_constant self.now c) }
        ensures { sort_of_constant self.now c ≡ Some result }
    {
        constant_sort(self.items.as_slice(), c)
    }

    /// The place of the partition of this id in the list of declarations.
    pub fn partition(&self, id: &str) -> Option<u32>
        ensures found { result ≡ partition_named self.now id.now }
        ensures declared { IfSome result (λ p. IsSome (base_expr self.now p)) }
    {
        self.index.partition(id)
    }

    /// Whether the declaration at this place is a cyclic enumeration.
    pub fn is_cyclic(&self, enumeration: u32) -> bool
        ensures { result ≡ is_cyclic self.now enumeration }
    {
        is_cyclic(self.items.as_slice(), enumeration)
    }

    /// The id of the declaration at this place.
    pub fn declaration_id(&self, declaration: u32) -> &str
        requires { declaration < length self.now }
        ensures { option_map id_of (slice_get self.now declaration) ≡ Some result.now }
    {
        declaration_id(self.items.as_slice(), declaration)
    }

    /// The number of values of a sort, capped at 2^64.
    pub fn size(&self, sort: &Sort) -> Size
        ensures { result ≡ capped_size (size_of (widths_of self.now) sort.now) }
    {
        size(&self.widths, sort)
    }

    /// Whether a value is of a sort.
    pub fn has_value(&self, sort: &Sort, value: &Value) -> bool
        ensures { result ≡ is_member (widths_of self.now) sort.now value.now }
    {
        has_value(&self.widths, sort, value)
    }

    /// Whether a text is of the sort of texts: its characters are those that a document may have.
    pub fn has_text(&self, text: &str) -> bool
        ensures { result ≡ is_member (widths_of self.now) sorts.Text (values.Text text.now) }
    {
        is_text(text)
    }

    /// The place of a value among the values of its sort.
    pub fn ordinal(&self, sort: &Sort, value: &Value) -> u64
        requires finite { is_finite sort.now ≡ true }
        requires few { length (carrier (widths_of self.now) sort.now) < 2 ^ 64 }
        requires member { IsMember (widths_of self.now) value.now sort.now }
        ensures { slice_get (carrier (widths_of self.now) sort.now) result ≡ Some value.now }
    {
        ordinal(&self.widths, sort, value)
    }

    /// The value at a place among the values of a sort.
    pub fn nth(&self, alloc: Global, sort: &Sort, k: u64) -> Result<Value, AllocError>
        requires finite { is_finite sort.now ≡ true }
        requires below { k < length (carrier (widths_of self.now) sort.now) }
        ensures { IfOk result (λ v. slice_get (carrier (widths_of self.now) sort.now) k ≡ Some v) }
    {
        nth(alloc, &self.widths, sort, k)
    }
}
