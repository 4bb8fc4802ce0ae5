//! The laws of the values of terms. A function here does nothing; its contract is the law.

ghost use Rattle.std.specs.Prelude.{◌≡◌, ℕ, List};
ghost use Rattle.pn_eval.specs.Assignments.{IsAssignment};
ghost use Rattle.pn_eval.specs.Outcomes.{IsOutcomeOf};
ghost use Rattle.pn_eval.specs.Values.{HasValue};
ghost use Rattle.pn_operations.specs.declared.outcome.Outcome.{Outcome};
ghost use Rattle.pn_sorts.specs.Standing.{IsFaultless};
ghost use Rattle.pn_syntax.specs.declared.declaration.Declaration.{Declaration};
ghost use Rattle.pn_syntax.specs.declared.term.Term.{Term};
ghost use Rattle.pn_terms.specs.Sorts.{HasSort};
ghost use Rattle.pn_terms.specs.declared.term_sort.TermSort.{TermSort};
ghost use Rattle.pn_values.specs.declared.value.Value.{Value};

/// A term gives one thing at most, in declarations without a fault.
pub fn a_term_has_one_value()
    ensures { (items : List Declaration) (vars : List ℕ) (values : List Value) (e : Term) (o p : Outcome) → IsFaultless items
        → HasValue items vars values e o → HasValue items vars values e p → o ≡ p }
{}

/// What a term gives is of its sort, where each variable has a value of its own.
pub fn values_keep_sorts()
    ensures { (items : List Declaration) (vars : List ℕ) (values : List Value) (e : Term) (s : TermSort) (o : Outcome)
        → IsAssignment items vars values → HasSort items e s → HasValue items vars values e o → IsOutcomeOf items s o }
{}
