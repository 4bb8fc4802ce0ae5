//! The variables of a term.

ghost use Rattle.std.specs.Prelude.{◌≡◌, ◌++◌, ◌↔◌, ℕ, IfOk, OnOk};
ghost use Rattle.std.specs.List.{Contains, flat_map};
ghost use Rattle.std.specs.List.Sorted.{IsStrictlyIncreasing};
ghost use Rattle.std.specs.Option.{option_to_list};
ghost use Rattle.pn_names.specs.Names.{variable_named};
ghost use Rattle.pn_terms.specs.Variables.{variables_in_term};

use crate::{Term, TermNode};
use pn_sorts::Decls;
use std::alloc::{AllocError, Global};

/// The numbers of the variables in a term, ascending, each once. Names that no variable has are
/// passed over. The time is linear in the nodes of the term but for sorting.
pub fn variables(alloc: Global, decls: &Decls, term: &Term) -> Result<Vec<u32>, AllocError>
    ensures ascending { IfOk result (λ vs. IsStrictlyIncreasing vs.items) }
    ensures each { IfOk result (λ vs. (v : ℕ) → Contains vs.items v ↔ Contains (variables_in_term decls.now term.now) v) }
{
    let mut all = Vec::new(alloc);
    gather(decls, term, &mut all)?;
    all.sort_unstable();
    all.dedup();
    Ok(all)
}

/// Puts the numbers of the variables in a term behind those that are there.
#[cycle(gather)]
fn gather(decls: &Decls, term: &Term, all: &mut Vec<u32>) -> Result<(), AllocError>
    ensures { OnOk result (all.new.items ≡ all.old.items ++ variables_in_term decls.now term.now) }
{
    match &term.node {
        TermNode::Variable(name) => put_variable(decls, name.as_str(), all),
        TermNode::PartitionOf { arg, .. } => gather(decls, arg.get(), all),
        TermNode::Apply { args, .. } => gather_all(decls, args.as_slice(), all),
        _ => Ok(()),
    }
}

#[cycle(gather)]
fn gather_all(decls: &Decls, terms: &[Term], all: &mut Vec<u32>) -> Result<(), AllocError>
    ensures { OnOk result (all.new.items ≡ all.old.items ++ flat_map (variables_in_term decls.now) terms.now) }
{
    for term in terms {
        gather(decls, term, all)?;
    }
    Ok(())
}

/// Puts the number of the variable of this name, where there is one.
fn put_variable(decls: &Decls, name: &str, all: &mut Vec<u32>) -> Result<(), AllocError>
    ensures { OnOk result (all.new.items ≡ all.old.items ++ option_to_list (variable_named decls.now name.now)) }
{
    if let Some(v) = decls.variable(name) {
        all.push(v)?;
    }
    Ok(())
}
