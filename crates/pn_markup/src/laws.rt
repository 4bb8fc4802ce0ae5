//! Laws of documents. Each is a function with an empty body, and its clause is the law.

ghost use Rattle.std.specs.Prelude.{◌≡◌, ℕ, List};
ghost use Rattle.pn_tree.specs.Canonical.{canonical_text};
ghost use Rattle.pn_tree.specs.Elements.{IsTree};
ghost use Rattle.pn_tree.specs.declared.element.Element.{Element};
ghost use Rattle.pn_markup.specs.Document.{IsDocument};
ghost use Rattle.pn_markup.specs.Offsets.{SpellsAlike, HasRisingOffsets};

/// The canonical text of a tree is a document. Its tree is that tree but for the offsets.
pub fn canonical_text_is_a_document()
    ensures { (e : Element) → IsTree e → SpellsAlike e (canonical_text e) }
{}

/// What a document spells is a tree: its names are names, its values and texts are texts, no
/// attribute is given twice, no two texts are neighbours, and it has at most 256 levels.
pub fn trees_of_documents_are_trees()
    ensures { (t : Element) (b : List ℕ) → IsDocument t b → IsTree t }
{}

/// The offsets in the tree of a document rise in document order.
pub fn offsets_rise()
    ensures { (t : Element) (b : List ℕ) → IsDocument t b → HasRisingOffsets t }
{}
