//! The answer that is due.

ghost use Rattle.std.specs.Prelude.{◌≡◌, ◌≢◌, ◌≤◌, ◌⊎◌, ℕ, List, IfOk, IfSome, Err, Ok, None, map, string_bytes};
ghost use Rattle.std.specs.Io.KnownBytes.{IsAtEnd};
ghost use Rattle.pn_checks.specs.Linked.{IsLinked};
ghost use Rattle.pn_markup.specs.Offsets.{HasRisingOffsets};
ghost use Rattle.pn_net.specs.Flattening.{net_of_flat};
ghost use Rattle.pn_spelling.specs.WriteNets.{tree_of_net};
ghost use Rattle.pn_tree.specs.declared.element.Element.{Element};
ghost use Rattle.pn_outside.specs.Cause.{Rose};
ghost use Rattle.pn_command.specs.Answer.{IsDueFor, IsDueForNet, IsDueForTree, IsTextDue, IsTheDue, SaysSuch, status_of_due, usage_due};
ghost use Rattle.pn_command.specs.Reading.{IsReadToEnd, IsScanned, ReadsNoFurther, TakesBegun};
ghost use Rattle.pn_command.specs.Verdict.{IsAcceptedAs};
ghost use Rattle.pn_command.specs.Words.{asked_of};

use crate::Status;
use crate::input::{Scanned, Stop, scan_all};
use crate::lines::{Limit, Line, Refusal};
use crate::listing::list_modes;
use crate::outputs::{Output, discard_net, flat_tree, summary};
use crate::stepping::step_due;
use crate::verdict::{Verdict, find_verdict};
use crate::words::{Asked, argument, asks};
use pn_checks::Checked;
use pn_outside::Source;
use pn_outside::limits::BYTES;
use pn_tree::{Tree, text_length};
use std::alloc::{AllocError, Global};

/// The answer that is due, before it is written: a line on the standard error, or an output.
#[derive(Drop)]
pub(crate) enum Due {
    Line(Line),
    Output(Output),
}

/// The text of a net, or the line for one that is longer than it may be.
pub(crate) fn text_due(tree: Tree) -> Due
    ensures { IsTextDue tree result }
{
    if text_length(&tree) > BYTES {
        return Due::Line(Line::Limit(Limit::Output));
    }
    Due::Output(Output::Net(tree))
}

/// What `flatten` answers for a net.
fn flat_due(alloc: Global, checked: Checked) -> Result<Due, AllocError>
    requires { (tree : Element) × IsLinked tree checked }
    ensures { IfOk result (IsTextDue (tree_of_net (net_of_flat checked))) }
{
    let tree = flat_tree(alloc, &checked);
    discard_net(checked);
    Ok(text_due(tree?))
}

/// What a command answers for a net.
fn net_due(
    alloc: Global,
    asked: Asked,
    words: &[String],
    checked: Checked,
) -> Result<Due, AllocError>
    requires accepted { (tree : Element) × IsAcceptedAs tree checked }
    ensures { IfOk result (SaysSuch (IsDueForNet asked (map string_bytes words.now) checked)) }
{
    match asked {
        Asked::Check => Ok(Due::Output(summary(checked))),
        Asked::Flatten => flat_due(alloc, checked),
        Asked::Step => step_due(alloc, checked, words),
        Asked::Modes => list_modes(alloc, checked, argument(words)),
    }
}

/// What is due for a command and a tree.
fn tree_due(alloc: Global, asked: Asked, words: &[String], tree: &Tree) -> Result<Due, AllocError>
    ensures due { IfOk result (λ d. HasRisingOffsets tree.now → SaysSuch (IsDueForTree asked (map string_bytes words.now) tree.now) d) }
    ensures asked { IfOk result (λ d. status_of_due d ≢ Status.Usage) }
{
    match find_verdict(alloc, tree)? {
        Verdict::Accepted(checked) => net_due(alloc, asked, words, checked),
        Verdict::Refused(refusal) => Ok(Due::Line(Line::Refusal(refusal))),
    }
}

/// What is due for a command and an input that was read.
fn scanned_due(
    alloc: Global,
    asked: Asked,
    words: &[String],
    scanned: &Scanned,
) -> Result<Due, AllocError>
    ensures due { IfOk result (λ d. (bytes : List ℕ) → IsScanned bytes scanned.now → SaysSuch (IsDueFor asked (map string_bytes words.now) bytes) d) }
    ensures whole { IfOk result (λ d. status_of_due d ≡ Status.Done → IsReadToEnd scanned.now) }
    ensures asked { IfOk result (λ d. status_of_due d ≢ Status.Usage) }
{
    match scanned {
        Scanned::Document(tree) => tree_due(alloc, asked, words, tree),
        Scanned::Broken(at) => Ok(Due::Line(Line::Refusal(Refusal::Broken(*at)))),
        Scanned::TooLong => Ok(Due::Line(Line::Limit(Limit::Input))),
    }
}

/// What is due for a command and an input that was read, or that memory was wanted.
fn due_or_stop(
    alloc: Global,
    asked: Asked,
    words: &[String],
    scanned: &Scanned,
) -> Result<Due, Stop>
    ensures due { IfOk result (λ d. (bytes : List ℕ) → IsScanned bytes scanned.now → SaysSuch (IsDueFor asked (map string_bytes words.now) bytes) d) }
    ensures whole { IfOk result (λ d. status_of_due d ≡ Status.Done → IsReadToEnd scanned.now) }
    ensures asked { IfOk result (λ d. status_of_due d ≢ Status.Usage) }
    ensures no_fault { result ≢ Err Stop.Fault }
{
    match scanned_due(alloc, asked, words, scanned) {
        Ok(due) => Ok(due),
        Err(_) => Err(Stop::Memory),
    }
}

/// What is due for these words, once the input that they want is read.
pub(crate) fn decide<S: Source>(
    alloc: Global,
    words: &[String],
    source: &mut S,
) -> Result<Due, Stop>
    ensures due { IfOk result (λ d. IfSome (S.left source.old) (λ b. SaysSuch (IsTheDue (map string_bytes words.now) b) d)) }
    ensures misused { asked_of (map string_bytes words.now) ≡ None → (result ≡ Ok usage_due) × (source.new ≡ source.old) }
    ensures asked { IfOk result (λ d. status_of_due d ≡ Status.Usage → asked_of (map string_bytes words.now) ≡ None) }
    ensures ended { IfOk result (λ d. status_of_due d ≡ Status.Done → IsAtEnd (S.left source.new)) }
    ensures no_further { ReadsNoFurther (S.left source.old) (S.left source.new) }
    ensures at_fault { result ≡ Err Stop.Fault → TakesBegun (S.left source.old) (S.left source.new) }
    ensures later { S.faults source.old ≤ S.faults source.new }
    ensures cause { result ≡ Err Stop.Fault → Rose (S.faults source.old) (S.faults source.new) }
    ensures told { (result ≡ Err Stop.Fault) ⊎ (S.faults source.new ≡ S.faults source.old) }
{
    let Some(asked) = asks(words) else {
        return Ok(Due::Line(Line::Usage));
    };
    let scanned = scan_all(alloc, source)?;
    due_or_stop(alloc, asked, words, &scanned)
}
