//! Firing the modes that words tell, all at once, at the initial marking.

ghost use Rattle.std.specs.Prelude.{◌≡◌, ◌+◌, ℕ, List, [], map, string_bytes, IfErr, IfOk, OnOk};
ghost use Rattle.std.specs.List.{Contains};
ghost use Rattle.pn_bag.specs.Bag.{IsBag};
ghost use Rattle.pn_bag.specs.Counts.{IsSame, count_in, count_of};
ghost use Rattle.pn_marking.specs.Modes.{IsAssigned};
ghost use Rattle.pn_marking.specs.Steps.{AreModes};
ghost use Rattle.pn_mode_text.specs.declared.words.Counted.{Counted};
ghost use Rattle.pn_net.specs.Orders.{mode_cmp, token_cmp};
ghost use Rattle.pn_stepping.specs.Stepping.{AreJoined, AreTold, IsUnfired, LeadTo};
ghost use Rattle.pn_stepping.specs.Telling.{AreTheEntry, AreToldHere, FiresTo, IsNotAllModes, IsOfMode, HasNoSum, HasNoSumAt, IsUnfiredAt, IsUnfit, IsUntold, IsUntoldAt, PassesTo, entries_of, entry_of};

use pn_bag::{Bag, BagFault};
use pn_checks::Checked;
use pn_marking::{FireFault, fire, is_mode};
use pn_mode_text::{Counted, ModeTextFault, read_mode};
use pn_net::{Marking, Mode, Token, Typed};
use std::alloc::{AllocError, Global};

/// Why the modes of some words do not fire.
#[derive(Debug, Drop)]
pub enum StepFault {
    Memory(AllocError),
    /// The first word that is no mode word, by its place, and how many bytes its longest front has with
    /// which one begins.
    BadMode(usize, usize),
    /// The first word whose transition with these values is no mode, by its place.
    NotAMode(usize),
    /// The mode of the first word with which the count of its mode in the words so far passes 2^63 - 1.
    ModeTooLarge(Mode),
    /// The least token that the modes together take more often than it is there: how often, 2^63 where it
    /// is more often, and how often it is there.
    NotEnabled { token: Token, need: u64, has: u64 },
    /// The least token whose count in the new marking would pass 2^63 - 1.
    TokenTooLarge(Token),
}

/// Fires the modes of these words, all at once, at the initial marking (ISO/IEC 15909-1, transition
/// rule), and answers the marking that they lead to.
///
/// The time is linear in the words and the marking, but for the logarithm of the number of modes.
pub fn step(alloc: Global, net: &Checked, words: &[String]) -> Result<Marking, StepFault>
    ensures led { IfOk result (LeadTo net.now (map string_bytes words.now)) }
    ensures unfired { IfErr result (IsUnfired net.now (map string_bytes words.now)) }
{
    match join_words(alloc, net.typed(), words) {
        Ok(modes) => fire_from(alloc, net, &modes),
        Err(fault) => Err(fault),
    }
}

/// Fires modes at the initial marking.
fn fire_from(alloc: Global, net: &Checked, modes: &Bag<Mode>) -> Result<Marking, StepFault>
    requires { AreModes net.now modes.now }
    ensures led { IfOk result (FiresTo net.now modes.now) }
    ensures unfired { IfErr result (IsUnfiredAt net.now modes.now) }
{
    match fire(alloc, net.typed(), net.initial(), modes) {
        Ok(marking) => {
            is_marking(&marking);
            Ok(marking)
        }
        Err(FireFault::Memory(error)) => Err(StepFault::Memory(error)),
        Err(FireFault::NotEnabled { token, need, has }) => {
            Err(StepFault::NotEnabled { token, need, has })
        }
        Err(FireFault::CountTooLarge(token)) => Err(StepFault::TokenTooLarge(token)),
    }
}

/// The multiset of the modes of these words.
fn join_words(alloc: Global, net: &Typed, words: &[String]) -> Result<Bag<Mode>, StepFault>
    ensures joined { IfOk result (AreJoined net.now (map string_bytes words.now)) }
    ensures unfired { IfErr result (IsUnfired net.now (map string_bytes words.now)) }
{
    let mut entries = Vec::new(alloc);
    match tell_all(alloc, net, words, &mut entries) {
        Ok(()) => join(alloc, net, &entries),
        Err(fault) => Err(fault),
    }
}

/// Reads the modes of these words.
fn tell_all(
    alloc: Global,
    net: &Typed,
    words: &[String],
    entries: &mut Vec<Counted>,
) -> Result<(), StepFault>
    requires { entries.old.items ≡ [] }
    ensures told { OnOk result (AreTold net.now (map string_bytes words.now) (entries_of entries.new.items)) }
    ensures untold { IfErr result (IsUntold net.now (map string_bytes words.now)) }
{
    for i in 0..words.len() {
        match tell_next(alloc, net, i, &words[i], entries) {
            Ok(()) => {}
            Err(fault) => return Err(fault),
        }
    }
    Ok(())
}

/// Reads the mode of a word, which stands at this place, behind those before.
fn tell_next(
    alloc: Global,
    net: &Typed,
    place: usize,
    word: &String,
    entries: &mut Vec<Counted>,
) -> Result<(), StepFault>
    ensures told { OnOk result (PassesTo net.now (string_bytes word.now) entries.old.items entries.new.items) }
    ensures untold { IfErr result (IsUntoldAt net.now (string_bytes word.now) place) }
{
    match tell(alloc, net, place, word) {
        Ok(counted) => match entries.push(counted) {
            Ok(()) => Ok(()),
            Err(error) => Err(StepFault::Memory(error.into())),
        },
        Err(fault) => Err(fault),
    }
}

/// Reads the mode of a word, which stands at this place.
fn tell(alloc: Global, net: &Typed, place: usize, word: &String) -> Result<Counted, StepFault>
    ensures told { IfOk result (AreTheEntry net.now (string_bytes word.now)) }
    ensures untold { IfErr result (IsUntoldAt net.now (string_bytes word.now) place) }
{
    match read_mode(alloc, net, word.as_str()) {
        Ok(counted) => Ok(counted),
        Err(ModeTextFault::Memory(error)) => Err(StepFault::Memory(error)),
        Err(ModeTextFault::BadMode(length)) => Err(StepFault::BadMode(place, length)),
    }
}

/// The sum of these, where each is a mode.
fn join(alloc: Global, net: &Typed, entries: &[Counted]) -> Result<Bag<Mode>, StepFault>
    requires { (c : Counted) → Contains entries.now c → (vars : List ℕ) × IsAssigned net.now c.mode vars }
    ensures joined { IfOk result (AreToldHere net.now (entries_of entries.now)) }
    ensures unfired { IfErr result (IsUnfit net.now (entries_of entries.now)) }
{
    let mut sum = Bag::new(alloc);
    match join_into(alloc, net, entries, &mut sum) {
        Ok(()) => Ok(sum),
        Err(fault) => Err(fault),
    }
}

/// Adds these up, where each is a mode.
fn join_into(
    alloc: Global,
    net: &Typed,
    entries: &[Counted],
    sum: &mut Bag<Mode>,
) -> Result<(), StepFault>
    requires assigned { (c : Counted) → Contains entries.now c → (vars : List ℕ) × IsAssigned net.now c.mode vars }
    requires none { sum.old ≡ [] }
    ensures joined { OnOk result (AreToldHere net.now (entries_of entries.now) sum.new) }
    ensures unfired { IfErr result (IsUnfit net.now (entries_of entries.now)) }
{
    match are_modes(alloc, net, entries) {
        Ok(()) => add_all(alloc, entries, sum),
        Err(fault) => Err(fault),
    }
}

/// That each of these is a mode.
fn are_modes(alloc: Global, net: &Typed, entries: &[Counted]) -> Result<(), StepFault>
    requires { (c : Counted) → Contains entries.now c → (vars : List ℕ) × IsAssigned net.now c.mode vars }
    ensures all { OnOk result (AreModes net.now (entries_of entries.now)) }
    ensures unfit { IfErr result (IsNotAllModes net.now (entries_of entries.now)) }
{
    for i in 0..entries.len() {
        match is_mode(alloc, net, &entries[i].mode) {
            Ok(true) => {}
            Ok(false) => return Err(StepFault::NotAMode(i)),
            Err(error) => return Err(StepFault::Memory(error)),
        }
    }
    Ok(())
}

/// Adds these up.
fn add_all(alloc: Global, entries: &[Counted], sum: &mut Bag<Mode>) -> Result<(), StepFault>
    requires { sum.old ≡ [] }
    ensures same { OnOk result (IsSame mode_cmp sum.new (entries_of entries.now)) }
    ensures bag { OnOk result (IsBag mode_cmp sum.new) }
    ensures over { IfErr result (HasNoSum (entries_of entries.now)) }
{
    for i in 0..entries.len() {
        match add(alloc, &entries[i], sum) {
            Ok(()) => {}
            Err(fault) => return Err(fault),
        }
    }
    is_bag(sum);
    Ok(())
}

/// A multiset of modes has each once, and its counts are within their bounds: asked for what it ensures alone.
fn is_bag(modes: &Bag<Mode>)
    ensures { IsBag mode_cmp modes.now }
{
    let _entries = modes.iter();
}

/// A marking has each token once, and its counts are within their bounds: asked for what it ensures alone.
fn is_marking(marking: &Marking)
    ensures { IsBag token_cmp marking.now }
{
    let _entries = marking.iter();
}

/// Adds a mode so often.
fn add(alloc: Global, counted: &Counted, sum: &mut Bag<Mode>) -> Result<(), StepFault>
    ensures added { OnOk result ((k : Mode) → count_of mode_cmp sum.new k ≡ count_of mode_cmp sum.old k + count_in mode_cmp (entry_of counted.now) k) }
    ensures over { IfErr result (HasNoSumAt sum.old (entry_of counted.now)) }
{
    is_bag(sum);
    match counted.mode.copy(alloc) {
        Ok(mode) => match sum.add(mode, counted.count) {
            Ok(()) => Ok(()),
            Err(BagFault::Memory(error)) => Err(StepFault::Memory(error)),
            Err(BagFault::TooLarge) => Err(too_large(alloc, &counted.mode)),
        },
        Err(error) => Err(StepFault::Memory(error)),
    }
}

/// The fault of a mode that comes too often.
fn too_large(alloc: Global, mode: &Mode) -> StepFault
    ensures { IsOfMode mode.now result }
{
    match mode.copy(alloc) {
        Ok(mode) => StepFault::ModeTooLarge(mode),
        Err(error) => StepFault::Memory(error),
    }
}
