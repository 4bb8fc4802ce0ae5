//! What `step` gives.

ghost use Rattle.std.specs.Prelude.{◌≡◌, ◌+◌, ◌<◌, ℕ, List, IfErr, IfOk, Some, length, map, string_bytes};
ghost use Rattle.pn_bag.specs.Bag.{IsBag};
ghost use Rattle.pn_marked.specs.Marked.{IsMarkedNet};
ghost use Rattle.pn_net.specs.Orders.{token_cmp};
ghost use Rattle.pn_marking.specs.Totals.{AreTokensOf};
ghost use Rattle.pn_net.specs.declared.flat.Flat.{Flat};
ghost use Rattle.pn_objects.specs.declared.net.Net.{Net};
ghost use Rattle.pn_spelling.specs.WriteNets.{tree_of_net};
ghost use Rattle.pn_stepping.specs.Refusing.{IsRefusedStep};
ghost use Rattle.pn_tree.specs.declared.element.Element.{Element};
ghost use Rattle.pn_command.specs.Answer.{IsDueForNet, SaysSuch};
ghost use Rattle.pn_command.specs.Outputs.{IsStepTree, line_of_unfired};
ghost use Rattle.pn_command.specs.Verdict.{IsAcceptedAs};
ghost use Rattle.pn_command.specs.Words.{arguments_of};

use crate::due::{Due, text_due};
use crate::lines::{Limit, Line, Refusal};
use crate::outputs::discard_net;
use crate::words::{Asked, arguments};
use pn_checks::Checked;
use pn_marked::with_marking;
use pn_net::Marking;
use pn_stepping::{StepRefusal, step_told};
use pn_tree::Tree;
use pn_writer::tree_of;
use std::alloc::{AllocError, Global};

/// What `step` answers for a net: its text with the marking to which the modes of the words behind the
/// command lead, or the line that tells why they do not fire.
pub(crate) fn step_due(alloc: Global, checked: Checked, words: &[String]) -> Result<Due, AllocError>
    requires { (tree : Element) × IsAcceptedAs tree checked }
    ensures { IfOk result (SaysSuch (IsDueForNet Asked.Step (map string_bytes words.now) checked)) }
{
    let stepped = step_tree(alloc, &checked, arguments(words));
    discard_net(checked);
    match stepped {
        Ok(tree) => Ok(text_due(tree)),
        Err(refusal) => unfired_due(words, refusal),
    }
}

/// The element tree of the net with the marking to which the modes of these words lead.
fn step_tree(alloc: Global, checked: &Checked, modes: &[String]) -> Result<Tree, StepRefusal>
    requires { (tree : Element) × IsAcceptedAs tree checked.now }
    ensures led { IfOk result (IsStepTree checked.now (map string_bytes modes.now)) }
    ensures refused { IfErr result (IsRefusedStep checked.now (map string_bytes modes.now)) }
{
    match step_told(alloc, checked, modes) {
        Ok(marking) => match marked_tree(alloc, checked, &marking) {
            Ok(tree) => Ok(tree),
            Err(error) => Err(StepRefusal::Memory(error)),
        },
        Err(refusal) => Err(refusal),
    }
}

/// The element tree of the net with another marking as its initial one.
fn marked_tree(alloc: Global, checked: &Checked, marking: &Marking) -> Result<Tree, AllocError>
    requires accepted { (tree : Element) × IsAcceptedAs tree checked.now }
    requires tokens { AreTokensOf checked.now marking.now }
    requires bag { IsBag token_cmp marking.now }
    ensures { IfOk result (λ t. (n : Net) × IsMarkedNet checked.now marking.now n × (t ≡ tree_of_net n)) }
{
    let net = with_marking(alloc, checked.typed(), marking)?;
    tree_of(alloc, &net)
}

/// Why the modes of the words behind the command do not fire, as what is due.
fn unfired_due(words: &[String], refusal: StepRefusal) -> Result<Due, AllocError>
    requires { (f : Flat) × IsRefusedStep f (arguments_of (map string_bytes words.now)) refusal }
    ensures { (f : Flat) → IsRefusedStep f (arguments_of (map string_bytes words.now)) refusal
        → IfOk result (SaysSuch (IsDueForNet Asked.Step (map string_bytes words.now) f)) }
{
    Ok(Due::Line(unfired_line(words, refusal)?))
}

/// The line that tells why the modes of the words behind the command do not fire.
fn unfired_line(words: &[String], refusal: StepRefusal) -> Result<Line, AllocError>
    requires { (f : Flat) × IsRefusedStep f (arguments_of (map string_bytes words.now)) refusal }
    ensures { IfOk result (λ line. line_of_unfired refusal ≡ Some line) }
{
    match refusal {
        StepRefusal::Memory(error) => Err(error),
        StepRefusal::BadMode(place, length) => {
            let word = number_of(words, place);
            Ok(Line::Refusal(Refusal::BadMode(word, length as u64)))
        }
        StepRefusal::NotAMode(place) => {
            Ok(Line::Refusal(Refusal::NotAMode(number_of(words, place))))
        }
        StepRefusal::ModeTooLarge(text) => Ok(Line::Limit(Limit::Count(text))),
        StepRefusal::NotEnabled { token, need, has } => {
            Ok(Line::Refusal(Refusal::NotEnabled(token, need, has)))
        }
        StepRefusal::TokenTooLarge(text) => Ok(Line::Limit(Limit::Count(text))),
    }
}

/// The number of the word at this place behind the command, which is word 1.
fn number_of(words: &[String], place: usize) -> u64
    requires { place + 1 < length words.now }
    ensures { result ≡ place + 2 }
{
    let _count = words.len();
    (place + 2) as u64
}
