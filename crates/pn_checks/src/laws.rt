//! The laws of verdicts. Each function does nothing; its contract is the law.

ghost use Rattle.std.specs.Prelude.{◌≡◌, ℕ, List};
ghost use Rattle.pn_checks.specs.Initial.{IsInitial};
ghost use Rattle.pn_checks.specs.Linked.{IsLeastInTree};
ghost use Rattle.pn_checks.specs.Verdicts.{IsAccepted};
ghost use Rattle.pn_faults.specs.declared.fault.Fault.{Fault};
ghost use Rattle.pn_markup.specs.Offsets.{HasRisingOffsets};
ghost use Rattle.pn_net.specs.Documents.{HasSoundLinks};
ghost use Rattle.pn_net.specs.declared.flat.Flat.{Flat};
ghost use Rattle.pn_net.specs.declared.token.Token.{Token};
ghost use Rattle.pn_operators.specs.declared.kind.Kind.TheVariants as kinds;
ghost use Rattle.pn_sorts.specs.Standing.{IsFaultless};
ghost use Rattle.pn_spelling.specs.ReadNets.{net_of};
ghost use Rattle.pn_tree.specs.declared.element.Element.{Element};

use pn_bag::laws::same_counts_same_entries;
use pn_eval::laws::a_term_has_one_value;
use pn_net::Token;
use pn_net::laws::tokens_are_ordered;

/// In a place/transition net without a fault of shape or of ids and links no fault stands.
pub fn plain_nets_are_accepted()
    ensures { (tree : Element) → HasSoundLinks tree → (net_of tree).kind ≡ kinds.PtNet → IsAccepted tree }
{}

/// A flat net whose declarations have no fault has one initial marking, which its places and
/// declarations tell.
pub fn the_initial_marking_is_one()
    ensures { (f g : Flat) (m k : List (Token × ℕ)) → IsFaultless f.declarations → f.places ≡ g.places → f.declarations ≡ g.declarations
        → IsInitial f m → IsInitial g k → m ≡ k }
{
    same_counts_same_entries::<Token>();
    tokens_are_ordered();
    a_term_has_one_value();
}

/// In a tree whose offsets rise, as those of a document do, the least fault is one.
pub fn the_least_fault_is_one()
    ensures { (tree : Element) (f g : Fault) → HasRisingOffsets tree → IsLeastInTree tree f → IsLeastInTree tree g → f ≡ g }
{}
