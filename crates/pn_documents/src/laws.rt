//! The laws of the documents that are written. Each is a function with an empty body, and its clause is the
//! law.

ghost use Rattle.std.specs.Prelude.{◌≡◌, ◌↔◌, ℕ, List};
ghost use Rattle.pn_checks.specs.Initial.{IsInitial};
ghost use Rattle.pn_checks.specs.Linked.{IsLinked};
ghost use Rattle.pn_checks.specs.Verdicts.{IsAccepted};
ghost use Rattle.pn_flat_laws.specs.AlikeNets.{AreAlikeNets};
ghost use Rattle.pn_marking.specs.Steps.{IsStep};
ghost use Rattle.pn_marking.specs.Totals.{AreTokensOf};
ghost use Rattle.pn_markup.specs.Document.{IsDocument};
ghost use Rattle.pn_net.specs.Flattening.{IsFlattened, net_of_flat};
ghost use Rattle.pn_net.specs.declared.flat.Flat.{Flat};
ghost use Rattle.pn_net.specs.declared.mode.Mode.{Mode};
ghost use Rattle.pn_net.specs.declared.token.Token.{Token};
ghost use Rattle.pn_objects.specs.declared.net.Net.{Net};
ghost use Rattle.pn_spelling.specs.ReadNets.{net_of};
ghost use Rattle.pn_spelling.specs.Writable.{IsWritable};
ghost use Rattle.pn_spelling.specs.WriteNets.{tree_of_net};
ghost use Rattle.pn_tree.specs.Canonical.{canonical_text};
ghost use Rattle.pn_tree.specs.Elements.{IsTree};
ghost use Rattle.pn_tree.specs.declared.element.Element.{Element};
ghost use Rattle.pn_documents.specs.Written.{IsFitToWrite, IsOtherMarking, SpellsNet};

/// What is written of a flat net that is fit for it is a document that is accepted, of the same net.
pub fn what_is_written_spells_its_net()
    ensures { (n flat : Net) → IsFitToWrite n flat → SpellsNet flat (canonical_text (tree_of_net flat)) }
{}

/// What `flatten` writes for a document that is accepted is again a document that is accepted, and its net
/// is the same net as the flat net of the input.
pub fn what_is_written_spells_the_flat_net()
    ensures { (tree : Element) (flat : Net) → IsTree tree → IsAccepted tree → IsFlattened (net_of tree) flat
        → SpellsNet flat (canonical_text (tree_of_net flat)) }
{}

/// `flatten` keeps every step: where a document is accepted, and another is what is written of its flat
/// net, the flat nets of both have places, transitions, variables and declarations under the same numbers, the
/// same steps from each marking, and the same initial marking (ISO/IEC 15909-1, enabling and
/// transition rule).
pub fn what_is_written_keeps_every_step()
    ensures alike { (tree other : Element) (f g : Flat) → IsAccepted tree → IsLinked tree f → IsDocument other (canonical_text (tree_of_net (net_of_flat f))) → IsLinked other g
        → AreAlikeNets f g }
    ensures steps { (tree other : Element) (f g : Flat) → IsAccepted tree → IsLinked tree f → IsDocument other (canonical_text (tree_of_net (net_of_flat f))) → IsLinked other g
        → (old new : List (Token × ℕ)) (modes : List (Mode × ℕ)) → IsStep f old modes new ↔ IsStep g old modes new }
    ensures initial { (tree other : Element) (f g : Flat) → IsAccepted tree → IsLinked tree f → IsDocument other (canonical_text (tree_of_net (net_of_flat f))) → IsLinked other g
        → (marking : List (Token × ℕ)) → IsInitial f marking ↔ IsInitial g marking }
{}

/// What is written of the net that has another marking as its initial one is a document that is accepted, of
/// the same net; the initial marking of that document is this marking and no other; and it has the same
/// steps as the document that the flat net is of (ISO/IEC 15909-1, enabling and transition rule).
pub fn what_is_written_has_the_marking()
    ensures spells { (f : Flat) (m : List (Token × ℕ)) (n : Net) → IsOtherMarking f m n → SpellsNet n (canonical_text (tree_of_net n)) }
    ensures writable { (f : Flat) (m : List (Token × ℕ)) (n : Net) → IsOtherMarking f m n → IsWritable n }
    ensures initial { (f g : Flat) (m : List (Token × ℕ)) (n : Net) (other : Element) → IsOtherMarking f m n → IsDocument other (canonical_text (tree_of_net n)) → IsLinked other g
        → (marking : List (Token × ℕ)) → IsInitial g marking ↔ (marking ≡ m) }
    ensures keeps { (f g : Flat) (m : List (Token × ℕ)) (n : Net) (other : Element) → IsOtherMarking f m n → IsDocument other (canonical_text (tree_of_net n)) → IsLinked other g
        → (old new : List (Token × ℕ)) (modes : List (Mode × ℕ)) → IsStep f old modes new ↔ IsStep g old modes new }
{}

/// Each token of the initial marking of a document that is accepted has a value of its place's sort (ISO/IEC 15909-1,
/// markings).
pub fn initial_markings_are_of_the_net()
    ensures { (tree : Element) (f : Flat) (m : List (Token × ℕ)) → IsAccepted tree → IsLinked tree f → IsInitial f m → AreTokensOf f m }
{}
