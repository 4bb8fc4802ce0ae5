ghost use Rattle.std.specs.Prelude.{◌≡◌, Err, IfOk};
ghost use Rattle.pn_checks.specs.Linked.{IsLeastInTree, IsLinked};
ghost use Rattle.pn_checks.specs.Verdicts.{IsFaultOf};
ghost use Rattle.pn_faults.specs.declared.fault.Fault.{Fault};
ghost use Rattle.pn_faults.specs.declared.fault.Refusal.TheVariants as Refusal;
ghost use Rattle.pn_markup.specs.Offsets.{HasRisingOffsets};
ghost use Rattle.pn_net.specs.Documents.{HasSoundLinks};
ghost use Rattle.pn_tree.specs.Elements.{IsTree};

use pn_core_grammar::shape;
use pn_faults::Refusal;
use pn_net::Flat;
use pn_pages::flatten;
use pn_pages::laws::offsets_tell_ids_apart;
use pn_tree::Tree;
use std::alloc::Global;

/// The flat net of the net that a document's tree spells (ISO/IEC 15909-2, pages and references). Its
/// time is linear in the tree.
///
/// # Errors
///
/// `Refusal::Fault` with the least fault of shape or of ids and links exactly where one stands, and
/// `Refusal::Memory` where there is no memory. In a tree whose offsets don't rise, as those of a
/// document do, it is some fault that stands.
pub fn linked(alloc: Global, tree: &Tree) -> Result<Flat, Refusal>
    ensures linked { IfOk result (IsLinked tree.now) }
    ensures early { (f : Fault) → result ≡ Err (Refusal.Fault f) → HasSoundLinks tree.now → ⊥ }
    ensures stands { (f : Fault) → result ≡ Err (Refusal.Fault f) → IsFaultOf tree.now f }
    ensures least { (f : Fault) → result ≡ Err (Refusal.Fault f) → HasRisingOffsets tree.now → IsLeastInTree tree.now f }
{
    offsets_tell_ids_apart();
    keeps_a_tree(tree);
    match shape(alloc, tree) {
        Ok(net) => flatten(alloc, net),
        Err(refusal) => Err(refusal),
    }
}

/// A tree keeps an element that a document may have.
fn keeps_a_tree(tree: &Tree)
    ensures { IsTree tree.now }
{
    let _root = tree.root();
}
