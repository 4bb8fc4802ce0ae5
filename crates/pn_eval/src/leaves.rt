//! What a node of a term gives that is no operator.

ghost use Rattle.std.specs.Prelude.{◌≡◌, ℕ, [], length, Some, IfOk, IsSome};
ghost use Rattle.std.specs.List.{Contains};
ghost use Rattle.std.specs.List.Sorted.{IsStrictlyIncreasing};
ghost use Rattle.pn_carriers.specs.Members.{IsMember};
ghost use Rattle.pn_eval.specs.Assignments.{value_of_variable};
ghost use Rattle.pn_eval.specs.Outcomes.{IsOutcomeOf};
ghost use Rattle.pn_eval.specs.Values.{IsConstantValue, IsEachOnce, IsElementValue, IsVariableValue};
ghost use Rattle.pn_names.specs.Names.{constant_named, partition_named, variable_named, widths_of};
ghost use Rattle.pn_operations.specs.declared.outcome.Outcome.TheVariants as outcomes;
ghost use Rattle.pn_sorts.specs.Lookups.{IsBaseSort};
ghost use Rattle.pn_sorts.specs.Standing.{IsFaultless};
ghost use Rattle.pn_syntax.specs.declared.sort_expr.SortExpr.{SortExpr};
ghost use Rattle.pn_syntax.specs.declared.term.TermNode.TheVariants as nodes;
ghost use Rattle.pn_terms.specs.Sorts.{HasSort};
ghost use Rattle.pn_terms.specs.Standing.{HasSoundSorts};
ghost use Rattle.pn_terms.specs.declared.term_sort.TermSort.{TermSort};
ghost use Rattle.pn_terms.specs.declared.term_sort.TermSort.TheVariants as terms;
ghost use Rattle.pn_values.specs.declared.sort.Sort.{Sort};

use crate::every::each_once;
use crate::rounds::known_sort;
use pn_operations::outcome::Outcome;
use pn_sorts::{Decls, Value};
use pn_terms::{Term, TermSort};
use pn_text::Text;
use sqlite_items::Items;
use std::alloc::{AllocError, Global};

/// A variable has the value that is given for it.
pub(crate) fn variable(
    alloc: Global,
    decls: &Decls,
    name: &str,
    vars: &[u32],
    values: &[Value],
) -> Result<Outcome, AllocError>
    requires ascending { IsStrictlyIncreasing vars.now }
    requires size { length values.now ≡ length vars.now }
    requires known { (v : ℕ) × (variable_named decls.now name.now ≡ Some v) × Contains vars.now v }
    ensures { IfOk result (IsVariableValue decls.now vars.now values.now name.now) }
{
    match decls.variable(name) {
        Some(v) => Ok(Outcome::Value(value_of(vars, values, v).copy(alloc)?)),
        None => unreachable!(),
    }
}

/// The value that is given for a variable.
fn value_of<'a>(vars: &[u32], values: &'a [Value], v: u32) -> &'a Value
    requires ascending { IsStrictlyIncreasing vars.now }
    requires size { length values.now ≡ length vars.now }
    requires known { Contains vars.now v }
    ensures { value_of_variable vars.now values.now v ≡ Some result.now }
{
    match vars.binary_search(&v) {
        Ok(place) => &values[place],
        Err(_) => unreachable!(),
    }
}

/// A constant is its place in its enumeration or partition.
pub(crate) fn constant(decls: &Decls, name: &str) -> Outcome
    requires { IsSome (constant_named decls.now name.now) }
    ensures { IsConstantValue decls.now name.now result }
{
    match decls.constant(name) {
        Some(c) => Outcome::Value(Value::Const(c.index)),
        None => unreachable!(),
    }
}

/// A number is itself.
pub(crate) fn number(value: &i64) -> Outcome
    ensures { result ≡ outcomes.Value (Value.Int value.now) }
{
    Outcome::Value(Value::Int(*value))
}

/// A text is itself.
pub(crate) fn text(alloc: Global, text: &Text) -> Result<Outcome, AllocError>
    ensures { IfOk result (λ outcome. outcome ≡ outcomes.Value (Value.Text text.now)) }
{
    Ok(Outcome::Value(Value::Text(text.copy(alloc)?)))
}

/// `all` is the multiset of the values of its sort, which is finite and so the very sort that the
/// term's multisets are over.
pub(crate) fn all(alloc: Global, decls: &Decls, term: &Term) -> Result<Outcome, AllocError>
    requires faultless { IsFaultless decls.now }
    requires sound { HasSoundSorts decls.now term.now }
    requires sorted { (s : TermSort) × HasSort decls.now term.now s }
    requires all { (e : SortExpr) × (term.now.node ≡ nodes.All e) }
    ensures { IfOk result (λ outcome. (e : SortExpr) → term.now.node ≡ nodes.All e → IsEachOnce decls.now e outcome) }
{
    match known_sort(alloc, decls, term)? {
        TermSort::Bag(sort) => Ok(Outcome::Bag(each_once(alloc, decls, &sort)?)),
        TermSort::Basis(_) => unreachable!(),
    }
}

/// The empty list has no items.
pub(crate) fn empty_list(alloc: Global) -> Outcome
    ensures { result ≡ outcomes.Value (Value.List []) }
{
    Outcome::Value(Value::List(Items::new(alloc)))
}

/// The element of a partition that lists a value of its base sort; none where there is no value.
pub(crate) fn element(decls: &Decls, name: &str, outcome: &Outcome) -> Outcome
    requires faultless { IsFaultless decls.now }
    requires listed { (p : ℕ) × (base : Sort) × (partition_named decls.now name.now ≡ Some p) × IsBaseSort decls.now p base × IsOutcomeOf decls.now (terms.Basis base) outcome.now }
    ensures { IsElementValue decls.now name.now outcome.now result }
{
    match outcome {
        Outcome::Value(value) => element_of(decls, name, value),
        Outcome::NoValue => Outcome::NoValue,
        Outcome::Bag(_) => unreachable!(),
    }
}

/// The element of a partition that lists a value of its base sort.
fn element_of(decls: &Decls, name: &str, value: &Value) -> Outcome
    requires faultless { IsFaultless decls.now }
    requires listed { (p : ℕ) × (base : Sort) × (partition_named decls.now name.now ≡ Some p) × IsBaseSort decls.now p base × IsMember (widths_of decls.now) value.now base }
    ensures { IsElementValue decls.now name.now (outcomes.Value value.now) result }
{
    match decls.partition(name) {
        Some(partition) => Outcome::Value(Value::Const(decls.part_of(partition, value))),
        None => unreachable!(),
    }
}
