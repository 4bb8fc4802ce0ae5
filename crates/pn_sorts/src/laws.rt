//! Laws of declarations, of their sorts and values, and of walks over faults. Each function does
//! nothing; its contract is the law.

ghost use Rattle.std.specs.Prelude.{◌≡◌, ℕ, List, Some};
ghost use Rattle.pn_carriers.specs.Members.{IsMember};
ghost use Rattle.pn_faults.specs.declared.fault.Fault.{Fault};
ghost use Rattle.pn_faults.specs.Rising.{Rise};
ghost use Rattle.pn_faults.specs.Standing.{IsLeastOf};
ghost use Rattle.pn_names.specs.Names.{widths_of};
ghost use Rattle.pn_resolve.specs.Naming.{NamesDeclared};
ghost use Rattle.pn_resolve.specs.Standing.{StandsInSort};
ghost use Rattle.pn_sorts.specs.Lookups.{IsDeclaredConstant};
ghost use Rattle.pn_sorts.specs.Order.{AreOrdered, offsets_of_sort};
ghost use Rattle.pn_sorts.specs.Standing.{Stands};
ghost use Rattle.pn_syntax.specs.declared.declaration.Declaration.{Declaration};
ghost use Rattle.pn_syntax.specs.declared.sort_expr.SortExpr.{SortExpr};
ghost use Rattle.pn_values.specs.declared.sort.Sort.TheVariants as sorts;
ghost use Rattle.pn_values.specs.declared.value.Value.{Value};

pub use pn_carriers::laws::finite_is_its_own_kin;
pub use pn_faults::laws::{
    faults_are_ordered, least_is_first, least_of_each, least_of_parts, least_of_two,
};
pub use pn_resolve::laws::{
    limits_as_numbers, offsets_change_no_sort, resolved_sorts_name_declared,
};

/// Each value of an enumeration or of a partition of the declarations is a constant or an element
/// that they declare, and its sort is that enumeration or partition.
pub fn members_are_declared()
    ensures enumeration { (items : List Declaration) (place : ℕ) (value : Value) → NamesDeclared items (sorts.Enumeration place)
        → IsMember (widths_of items) value (sorts.Enumeration place) → IsDeclaredConstant items place (sorts.Enumeration place) value }
    ensures partition { (items : List Declaration) (place : ℕ) (value : Value) → NamesDeclared items (sorts.Partition place)
        → IsMember (widths_of items) value (sorts.Partition place) → IsDeclaredConstant items place (sorts.Partition place) value }
{}

/// In declarations whose offsets rise in document order the least fault is one.
pub fn the_least_fault_of_declarations_is_one()
    ensures { (items : List Declaration) (f g : Fault) → AreOrdered items → IsLeastOf (Stands items) (Some f) → IsLeastOf (Stands items) (Some g) → f ≡ g }
{}

/// In a sort expression whose offsets rise in document order the least fault is one.
pub fn the_least_fault_of_a_sort_is_one()
    ensures { (items : List Declaration) (e : SortExpr) (f g : Fault) → Rise (offsets_of_sort e) → IsLeastOf (StandsInSort items e) (Some f) → IsLeastOf (StandsInSort items e) (Some g) → f ≡ g }
{}
