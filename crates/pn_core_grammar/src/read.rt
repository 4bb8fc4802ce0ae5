ghost use Rattle.std.specs.Prelude.{◌≡◌, [], Some, Err, IfOk, OnOk};
ghost use Rattle.pn_faults.specs.Least.{least_fault};
ghost use Rattle.pn_faults.specs.declared.fault.Fault.{Fault};
ghost use Rattle.pn_faults.specs.declared.fault.Refusal.TheVariants as Refusal;
ghost use Rattle.pn_shape.specs.Faults.{shape_faults};
ghost use Rattle.pn_spelling.specs.ReadNets.{net_of};
ghost use Rattle.pn_spelling.specs.Writable.{IsWritable};

use crate::net::make_net;
use pn_faults::Refusal;
use pn_objects::Net;
use pn_shape_faults::shape_fault;
use pn_tree::Tree;
use std::alloc::Global;

/// The net that a document's tree spells (ISO/IEC 15909-2). Its time is linear in the tree, and each
/// text that the net keeps is copied once.
///
/// # Errors
///
/// `Refusal::Fault` with the least fault of shape exactly where one stands, `Refusal::Memory` where
/// there is no memory for the net or for a fault.
pub fn shape(alloc: Global, tree: &Tree) -> Result<Net, Refusal>
    ensures net { IfOk result (λ net. net ≡ net_of tree.now) }
    ensures clean { OnOk result (shape_faults tree.now ≡ []) }
    ensures writable { IfOk result (λ net. IsWritable net) }
    ensures fault { (f : Fault) → result ≡ Err (Refusal.Fault f) → least_fault (shape_faults tree.now) ≡ Some f }
{
    match shape_fault(alloc, tree) {
        Ok(Some(fault)) => Err(Refusal::Fault(fault)),
        Ok(None) => match make_net(alloc, tree.root()) {
            Ok(net) => Ok(net),
            Err(error) => Err(Refusal::Memory(error)),
        },
        Err(error) => Err(Refusal::Memory(error)),
    }
}
