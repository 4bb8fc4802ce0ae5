//! The laws of the least fault. Each function does nothing; its contract is the law.

ghost use Rattle.std.specs.Prelude.{◌≡◌, ◌++◌, ◌↔◌, [], None, Some, List, flat_map, filter_map};
ghost use Rattle.std.specs.Cmp.{IsTotalOrder};
ghost use Rattle.pn_faults.specs.Order.{fault_cmp};
ghost use Rattle.pn_faults.specs.Least.{least_fault, lower, IsLeast};
ghost use Rattle.pn_faults.specs.declared.fault.Fault.{Fault};

/// The least fault of a list of parts is the least of the parts' least faults, and of equal ones
/// the earlier part's is taken. A part without a fault gives none.
pub fn least_of_parts()
    ensures { (parts : List (List Fault)) → least_fault (flat_map (λ part. part) parts)
        ≡ least_fault (filter_map least_fault parts) }
{}

/// The same where each thing of a list has faults of its own.
pub fn least_of_each<T>()
    ensures { (faults_of : T → List Fault) (things : List T)
        → least_fault (flat_map faults_of things)
        ≡ least_fault (filter_map (λ thing. least_fault (faults_of thing)) things) }
{}

/// The least fault of two parts, of which the first is the earlier.
pub fn least_of_two()
    ensures { (first second : List Fault) → least_fault (first ++ second)
        ≡ lower (least_fault first) (least_fault second) }
{}

/// What the least fault of a list is: it stands in the list, comes before each one earlier there,
/// and none later comes before it. There is one exactly where the list has a fault.
pub fn least_is_first()
    ensures some { (faults : List Fault) (least : Fault) → (least_fault faults ≡ Some least)
        ↔ IsLeast faults least }
    ensures none { (faults : List Fault) → (least_fault faults ≡ None) ↔ (faults ≡ []) }
{}

/// Any two faults compare, and what comes before is before all that comes after.
pub fn faults_are_ordered()
    ensures { IsTotalOrder fault_cmp }
{}
