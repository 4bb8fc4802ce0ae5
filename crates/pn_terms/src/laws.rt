//! The laws of sorts of terms. A function here does nothing; its contract is the law.

ghost use Rattle.std.specs.Prelude.{◌≡◌, List, Some, map};
ghost use Rattle.pn_faults.specs.declared.fault.Fault.{Fault};
ghost use Rattle.pn_faults.specs.Standing.{IsLeastOf};
ghost use Rattle.pn_syntax.specs.Offsets.{declaration_without_offsets};
ghost use Rattle.pn_syntax.specs.TermOffsets.{term_without_offsets};
ghost use Rattle.pn_terms.specs.Order.{HasOrderedSorts, IsOrdered};
ghost use Rattle.pn_terms.specs.Sorts.{HasSort};
ghost use Rattle.pn_terms.specs.Standing.{SortStandsIn, StandsIn};
ghost use Rattle.pn_terms.specs.Variables.{variables_in_term};
ghost use Rattle.pn_syntax.specs.declared.term.Term.{Term};
ghost use Rattle.pn_terms.specs.declared.term_sort.TermSort.{TermSort};
ghost use Rattle.pn_syntax.specs.declared.declaration.Declaration.{Declaration};

/// A term has at most one sort.
pub fn a_term_has_one_sort()
    ensures { (items : List Declaration) (e : Term) (s t : TermSort) → HasSort items e s → HasSort items e t → s ≡ t }
{}

/// Where a term has a sort, no fault stands in it.
pub fn what_has_a_sort_has_no_fault()
    ensures { (items : List Declaration) (e : Term) (s : TermSort) (f : Fault) → HasSort items e s → StandsIn items e f → ⊥ }
{}

/// In a term whose offsets rise in document order the least fault is one.
pub fn the_least_fault_is_one()
    ensures { (items : List Declaration) (e : Term) (f g : Fault) → IsOrdered e → IsLeastOf (StandsIn items e) (Some f) → IsLeastOf (StandsIn items e) (Some g) → f ≡ g }
{}

/// In a term in whose sorts the offsets rise in document order, the least fault of those sorts is
/// one.
pub fn the_least_fault_of_its_sorts_is_one()
    ensures { (items : List Declaration) (e : Term) (f g : Fault) → HasOrderedSorts e → IsLeastOf (SortStandsIn items e) (Some f) → IsLeastOf (SortStandsIn items e) (Some g) → f ≡ g }
{}

/// Terms that are equal but for their offsets have the same sort, in declarations that are equal
/// but for theirs.
pub fn offsets_change_no_sort_of_a_term()
    ensures { (items others : List Declaration) (e other : Term) (s : TermSort)
        → map declaration_without_offsets items ≡ map declaration_without_offsets others
        → term_without_offsets e ≡ term_without_offsets other
        → HasSort items e s → HasSort others other s }
{}

/// Terms that are equal but for their offsets have the same variables, in declarations that are
/// equal but for theirs.
pub fn offsets_change_no_variables()
    ensures { (items others : List Declaration) (e other : Term)
        → map declaration_without_offsets items ≡ map declaration_without_offsets others
        → term_without_offsets e ≡ term_without_offsets other
        → variables_in_term items e ≡ variables_in_term others other }
{}
