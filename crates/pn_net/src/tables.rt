//! The tables by which a typed net is asked.

ghost use Rattle.std.specs.Prelude.{◌≡◌, ◌<◌, ◌^◌, ◌++◌, ◌∷◌, [], ◌↔◌, ℕ, List, Option, Some, length, slice_get, IfOk, IfSome, OnOk};
ghost use Rattle.std.specs.List.{AllZip, Contains, flat_map};
ghost use Rattle.std.specs.List.Sorted.{IsStrictlyIncreasing};
ghost use Rattle.std.specs.Option.{option_to_list};
ghost use Rattle.pn_faults.specs.declared.fault.Fault.{Fault};
ghost use Rattle.pn_ids.specs.Names.{named_in};
ghost use Rattle.pn_resolve.specs.Meaning.{Resolves};
ghost use Rattle.pn_resolve.specs.Standing.{StandsInSort};
ghost use Rattle.pn_sorts.specs.Standing.{IsFaultless};
ghost use Rattle.pn_syntax.specs.declared.term.Term.{Term};
ghost use Rattle.pn_terms.specs.Variables.{variables_in_term};
ghost use Rattle.pn_net.specs.Labels.{IsPlaceSort, said};
ghost use Rattle.pn_net.specs.Typed.{AreRowsBy, AreSettled, HasNumbers, IsRowBy, TablesKeep, condition_of, transitions_from};
ghost use Rattle.pn_net.specs.Sound.{HasSoundSort, HaveSoundSorts, HasRow};
ghost use Rattle.pn_net.specs.declared.flat.FlatArc.{FlatArc};

use crate::{Flat, FlatArc};
use pn_ids::Ids;
use pn_objects::{Label, Place, Transition};
use pn_sorts::{Decls, Refusal, Sort, SortExpr};
use pn_syntax::Term;
use pn_terms::variables;
use sqlite_items::{Boxed, Items};
use std::alloc::{AllocError, Global};

/// What is known of a transition: the numbers of its arcs, and its variables.
#[derive(Drop)]
pub(crate) struct Row {
    pub(crate) arcs: Vec<u32>,
    pub(crate) variables: Vec<u32>,
}

/// The tables of a typed net.
#[derive(Drop)]
pub(crate) struct Tables {
    /// The sorts of places.
    pub(crate) sorts: Items<Sort>,
    /// What is known of each transition.
    pub(crate) rows: Vec<Row>,
    /// The transitions by their ids.
    pub(crate) ids: Ids<u32>,
}

/// The tables of a flat net with these declarations.
pub(crate) fn make_tables(alloc: Global, flat: &Flat, decls: &Decls) -> Result<Tables, AllocError>
    requires declared { decls.now ≡ flat.now.declarations }
    requires faultless { IsFaultless flat.now.declarations }
    requires sound { HaveSoundSorts flat.now.declarations flat.now.places }
    requires rows { HasRow flat.now.arcs (length flat.now.transitions) }
    requires numbered { HasNumbers flat.now }
    ensures { IfOk result (λ t. TablesKeep flat.now t.sorts t.rows.items t.ids) }
{
    let sorts = place_sorts(alloc, decls, flat.places.as_slice())?;
    let rows = transition_rows(
        alloc,
        decls,
        flat.transitions.as_slice(),
        flat.arcs.as_slice(),
    )?;
    let ids = transition_ids(alloc, flat.transitions.as_slice())?;
    Ok(Tables { sorts, rows, ids })
}

/// The sort of a place in the tables of a flat net.
pub(crate) fn sort_in(tables: &Tables, place: u32) -> &Sort
    requires { place < length tables.now.sorts }
    ensures { slice_get tables.now.sorts place ≡ Some result.now }
{
    &tables.sorts.as_slice()[place as usize]
}

/// The variables of a transition in the tables of a flat net.
pub(crate) fn variables_in(tables: &Tables, transition: u32) -> &[u32]
    requires { transition < length tables.now.rows.items }
    ensures { IfSome (slice_get tables.now.rows.items transition) (λ row. result.now ≡ row.variables.items) }
{
    &tables.rows[transition as usize].variables
}

/// The numbers of a transition's arcs in the tables of a flat net.
pub(crate) fn arcs_in(tables: &Tables, transition: u32) -> &[u32]
    requires { transition < length tables.now.rows.items }
    ensures { IfSome (slice_get tables.now.rows.items transition) (λ row. result.now ≡ row.arcs.items) }
{
    &tables.rows[transition as usize].arcs
}

/// The number of the transition of this id in the tables of a flat net.
pub(crate) fn find(tables: &Tables, id: &str) -> Option<u32>
    ensures { result ≡ named_in tables.now.ids id.now }
{
    tables.ids.find(id)
}

/// The sorts of places.
fn place_sorts(alloc: Global, decls: &Decls, places: &[Place]) -> Result<Items<Sort>, AllocError>
    requires faultless { IsFaultless decls.now }
    requires sound { HaveSoundSorts decls.now places.now }
    ensures { IfOk result (AllZip (IsPlaceSort decls.now) places.now) }
{
    let mut sorts = Items::new(alloc);
    for place in places {
        sorts.push(place_sort(alloc, decls, place)?)?;
    }
    Ok(sorts)
}

/// The sort of a place.
fn place_sort(alloc: Global, decls: &Decls, place: &Place) -> Result<Sort, AllocError>
    requires faultless { IsFaultless decls.now }
    requires sound { HasSoundSort decls.now (said place.now.sort) }
    ensures { IfOk result (IsPlaceSort decls.now place.now) }
{
    match &place.sort {
        Some(label) => resolved(alloc, decls, &label.get().value),
        None => Ok(Sort::Dot),
    }
}

/// The sort that a sound expression writes.
fn resolved(alloc: Global, decls: &Decls, expr: &SortExpr) -> Result<Sort, AllocError>
    requires faultless { IsFaultless decls.now }
    requires sound { (f : Fault) → StandsInSort decls.now expr.now f → ⊥ }
    ensures { IfOk result (Resolves decls.now expr.now) }
{
    match decls.resolve(alloc, expr) {
        Ok(sort) => Ok(sort),
        Err(Refusal::Memory(error)) => Err(error),
        Err(Refusal::Fault(_)) => unreachable!(),
    }
}

/// The transitions by their ids; of an id that is given twice the first.
fn transition_ids(alloc: Global, transitions: &[Transition]) -> Result<Ids<u32>, AllocError>
    requires { length transitions.now < 2 ^ 32 }
    ensures { IfOk result (λ ids. (id : List ℕ) → named_in ids id ≡ named_in (transitions_from 0 transitions.now) id) }
{
    let mut ids = Ids::new(alloc);
    for i in 0..transitions.len() {
        ids.note(alloc, transitions[i].id.as_str(), i as u32)?;
    }
    Ok(ids)
}

/// What is known of each transition.
fn transition_rows(
    alloc: Global,
    decls: &Decls,
    transitions: &[Transition],
    arcs: &[FlatArc],
) -> Result<Vec<Row>, AllocError>
    requires within { HasRow arcs.now (length transitions.now) }
    requires numbered { length arcs.now < 2 ^ 32 }
    ensures rows { IfOk result (λ rows. AreRowsBy decls.now transitions.now arcs.now rows.items) }
    ensures settled { IfOk result (λ rows. AreSettled rows.items) }
{
    let mut rows = begin_rows(alloc, decls, transitions)?;
    fill_rows(alloc, decls, transitions, arcs, &mut rows)?;
    settle_rows(decls, transitions, arcs, &mut rows);
    Ok(rows)
}

/// What is known of each transition without its arcs.
fn begin_rows(
    alloc: Global,
    decls: &Decls,
    transitions: &[Transition],
) -> Result<Vec<Row>, AllocError>
    ensures { IfOk result (λ rows. AreRowsBy decls.now transitions.now [] rows.items) }
{
    let mut rows = Vec::new(alloc);
    for transition in transitions {
        rows.push(begin_row(alloc, decls, transition)?)?;
    }
    Ok(rows)
}

/// What is known of a transition without its arcs.
fn begin_row(alloc: Global, decls: &Decls, transition: &Transition) -> Result<Row, AllocError>
    ensures { IfOk result (λ row. (t : ℕ) → IsRowBy decls.now (condition_of transition.now) [] t row) }
{
    let mut row = Row {
        arcs: Vec::new(alloc),
        variables: Vec::new(alloc),
    };
    add_variables(alloc, decls, &transition.condition, &mut row.variables)?;
    Ok(row)
}

/// Puts the variables in the term of a label, where there is one, behind those that are there.
fn add_variables(
    alloc: Global,
    decls: &Decls,
    label: &Option<Boxed<Label<Term>>>,
    all: &mut Vec<u32>,
) -> Result<(), AllocError>
    ensures { OnOk result ((v : ℕ) → Contains all.new.items v
        ↔ Contains (all.old.items ++ flat_map (variables_in_term decls.now) (option_to_list (said label.now))) v) }
{
    if let Some(label) = label {
        let more = variables(alloc, decls, &label.get().value)?;
        all.extend_from_slice(&more)?;
    }
    Ok(())
}

/// Puts each arc into the row of its transition.
fn fill_rows(
    alloc: Global,
    decls: &Decls,
    transitions: &[Transition],
    arcs: &[FlatArc],
    rows: &mut [Row],
) -> Result<(), AllocError>
    requires begun { AreRowsBy decls.now transitions.now [] rows.old }
    requires within { HasRow arcs.now (length transitions.now) }
    requires numbered { length arcs.now < 2 ^ 32 }
    ensures { OnOk result (AreRowsBy decls.now transitions.now arcs.now rows.new) }
{
    for k in 0..arcs.len() {
        let arc = &arcs[k];
        fill_row(
            alloc,
            decls,
            arc,
            k as u32,
            &mut rows[arc.transition as usize],
        )?;
    }
    Ok(())
}

/// Puts an arc of this number into the row of its transition.
fn fill_row(
    alloc: Global,
    decls: &Decls,
    arc: &FlatArc,
    number: u32,
    row: &mut Row,
) -> Result<(), AllocError>
    ensures { (condition : Option Term) (before : List FlatArc) → length before ≡ number
        → IsRowBy decls.now condition before arc.now.transition row.old
        → OnOk result (IsRowBy decls.now condition (before ++ arc.now ∷ []) arc.now.transition row.new) }
{
    row.arcs.push(number)?;
    add_variables(alloc, decls, &arc.arc.inscription, &mut row.variables)
}

/// Puts the variables of each transition in order, each once.
fn settle_rows(decls: &Decls, transitions: &[Transition], arcs: &[FlatArc], rows: &mut [Row])
    requires { AreRowsBy decls.now transitions.now arcs.now rows.old }
    ensures rows { AreRowsBy decls.now transitions.now arcs.now rows.new }
    ensures settled { AreSettled rows.new }
{
    for i in 0..rows.len() {
        settle(&mut rows[i].variables);
    }
}

/// Puts numbers in order, each once.
fn settle(numbers: &mut Vec<u32>)
    ensures ascending { IsStrictlyIncreasing numbers.new.items }
    ensures each { (v : ℕ) → Contains numbers.new.items v ↔ Contains numbers.old.items v }
{
    numbers.sort_unstable();
    numbers.dedup();
}
