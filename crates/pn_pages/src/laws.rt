//! What follows of the definitions. Each function does nothing; its contract is the law.

ghost use Rattle.std.specs.Prelude.{◌≡◌, length};
ghost use Rattle.pn_markup.specs.Offsets.{HasRisingOffsets};
ghost use Rattle.pn_net.specs.Flattening.{IsFlattened, net_of_flat};
ghost use Rattle.pn_net.specs.Objects.{net_arcs, net_places, net_transitions};
ghost use Rattle.pn_net.specs.declared.flat.Flat.{Flat};
ghost use Rattle.pn_objects.specs.declared.net.Net.{Net};
ghost use Rattle.pn_pages.specs.Linking.{AreApart};
ghost use Rattle.pn_round_trip.specs.Spellable.{IsSpellableNet};
ghost use Rattle.pn_spelling.specs.ReadNets.{net_of};
ghost use Rattle.pn_spelling.specs.Writable.{IsWritable};
ghost use Rattle.pn_tree.specs.declared.element.Element.{Element};

/// Where the offsets of a tree rise, as in each document, no two elements with ids in the net that it
/// spells have one id and one offset.
pub fn offsets_tell_ids_apart()
    ensures { (tree : Element) → HasRisingOffsets tree → AreApart (net_of tree) }
{}

/// The flat net of a net that can be written can be written.
pub fn flat_nets_are_writable()
    ensures { (n flat : Net) → IsFlattened n flat → IsWritable n → IsWritable flat }
{}

/// The flat net of a net of which each part is such as a document may spell is such a net.
pub fn flat_nets_are_spellable()
    ensures { (n flat : Net) → IsFlattened n flat → IsSpellableNet n → IsSpellableNet flat }
{}

/// A flat net has the kind of its net, its places and transitions, and as many arcs.
pub fn flat_net_has_the_objects()
    ensures kind { (n : Net) (f : Flat) → IsFlattened n (net_of_flat f) → f.kind ≡ n.kind }
    ensures places { (n : Net) (f : Flat) → IsFlattened n (net_of_flat f) → f.places ≡ net_places n }
    ensures transitions { (n : Net) (f : Flat) → IsFlattened n (net_of_flat f) → f.transitions ≡ net_transitions n }
    ensures arcs { (n : Net) (f : Flat) → IsFlattened n (net_of_flat f) → length f.arcs ≡ length (net_arcs n) }
{}
