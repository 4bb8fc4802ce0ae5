//! What the program writes to the standard output.

ghost use Rattle.std.specs.Prelude.{◌≡◌, ℕ, List, IfOk, OnOk};
ghost use Rattle.pn_checks.specs.Linked.{IsLinked};
ghost use Rattle.pn_net.specs.Flattening.{net_of_flat};
ghost use Rattle.pn_outside.specs.Cause.{CountsFault, HasCause};
ghost use Rattle.pn_outside.specs.Taking.{Puts};
ghost use Rattle.pn_spelling.specs.WriteNets.{tree_of_net};
ghost use Rattle.pn_sorts.specs.Standing.{IsFaultless};
ghost use Rattle.pn_tree.specs.declared.element.Element.{Element};
ghost use Rattle.pn_command.specs.Outputs.{HasText, IsSummed};

use crate::mode_list::ModeList;
use pn_checks::Checked;
use pn_outside::{Failed, Sink};
use pn_pages::typed_net;
use pn_report::put_summary;
use pn_tree::{Tree, put_tree};
use pn_writer::tree_of;
use std::alloc::{AllocError, Global};

/// What a command gives.
#[derive(Drop)]
pub(crate) enum Output {
    /// A net, to be summed up.
    Summary(Checked),
    /// A net, by its tree.
    Net(Tree),
    /// Modes.
    Modes(ModeList),
}

/// The element tree of a flat net.
pub(crate) fn flat_tree(alloc: Global, checked: &Checked) -> Result<Tree, AllocError>
    requires { (tree : Element) × IsLinked tree checked.now }
    ensures { IfOk result (λ t. t ≡ tree_of_net (net_of_flat checked.now)) }
{
    let net = typed_net(alloc, checked.typed())?;
    tree_of(alloc, &net)
}

/// Gives a net's memory back: one place for it, since each costs the proof some time.
pub(crate) fn discard_net(_checked: Checked) {}

/// A net, to be summed up.
pub(crate) fn summary(checked: Checked) -> Output
    ensures is { result ≡ Output.Summary checked }
    ensures summed { (text : List ℕ) × IsSummed checked text }
{
    let _marking = checked.initial();
    Output::Summary(checked)
}

/// The declarations of a checked net have no fault.
fn has_sound_declarations(checked: &Checked)
    ensures { IsFaultless checked.now.declarations }
{
    let _decls = checked.typed().decls();
}

/// Puts the line that sums a net up.
fn put_summed<K: Sink>(sink: &mut K, checked: &Checked) -> Result<(), Failed>
    ensures puts { (text : List ℕ) → IsSummed checked.now text → Puts K.taken K.number result sink.old sink.new text }
    ensures cause { HasCause (K.faults sink.old) (K.faults sink.new) result }
    ensures counted { CountsFault (K.faults sink.old) (K.faults sink.new) result }
{
    has_sound_declarations(checked);
    put_summary(checked.typed(), checked.initial(), sink)
}

/// Puts an output.
fn put_output<K: Sink>(sink: &mut K, output: &Output) -> Result<(), Failed>
    ensures puts { (text : List ℕ) → HasText output.now text → Puts K.taken K.number result sink.old sink.new text }
    ensures cause { HasCause (K.faults sink.old) (K.faults sink.new) result }
    ensures counted { CountsFault (K.faults sink.old) (K.faults sink.new) result }
{
    match output {
        Output::Summary(checked) => put_summed(sink, checked),
        Output::Net(tree) => put_tree(tree, sink),
        Output::Modes(list) => list.put(sink),
    }
}

/// Writes an output and passes it on.
pub(crate) fn write_output<K: Sink>(sink: &mut K, output: &Output) -> Result<(), Failed>
    ensures puts { (text : List ℕ) → HasText output.now text → Puts K.taken K.number result sink.old sink.new text }
    ensures settled { OnOk result (K.settled sink.new) }
    ensures cause { HasCause (K.faults sink.old) (K.faults sink.new) result }
    ensures counted { CountsFault (K.faults sink.old) (K.faults sink.new) result }
{
    put_output(sink, output)?;
    sink.done()
}
