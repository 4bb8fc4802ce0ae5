//! The laws that join reading and writing. Each function does nothing; its contract is the law.
//!
//! A part of a document that is, offsets aside, what an element without a fault of shape spells in
//! a kind of nets is written as an element without a fault of shape in that kind, and this element
//! spells the same part, offsets aside.

ghost use Rattle.std.specs.Prelude.{◌≡◌, true, List, [], map};
ghost use Rattle.pn_operators.specs.declared.kind.Kind.{Kind};
ghost use Rattle.pn_tree.specs.Elements.{IsTree};
ghost use Rattle.pn_tree.specs.declared.element.Element.{Element};
ghost use Rattle.pn_syntax.specs.Offsets.{declaration_without_offsets, sort_without_offsets};
ghost use Rattle.pn_syntax.specs.TermOffsets.{term_without_offsets};
ghost use Rattle.pn_syntax.specs.declared.declaration.Declaration.{Declaration};
ghost use Rattle.pn_syntax.specs.declared.sort_expr.SortExpr.{SortExpr};
ghost use Rattle.pn_syntax.specs.declared.term.Term.{Term};
ghost use Rattle.pn_objects.specs.Offsets.{IsSameNet};
ghost use Rattle.pn_objects.specs.declared.net.Net.{Net};
ghost use Rattle.pn_shape.specs.Faults.{shape_faults, IsShaped, IsShapedSort, IsShapedTerm};
ghost use Rattle.pn_shape.specs.Rules.{is_had};
ghost use Rattle.pn_shape.specs.declared.tag.Tag.TheVariants as tag;
ghost use Rattle.pn_round_trip.specs.Spellable.{IsSpellableNet};
ghost use Rattle.pn_spelling.specs.ReadDeclarations.{declarations_read};
ghost use Rattle.pn_spelling.specs.ReadNets.{net_of};
ghost use Rattle.pn_spelling.specs.ReadSorts.{sort_read};
ghost use Rattle.pn_spelling.specs.ReadTerms.{term_read};
ghost use Rattle.pn_spelling.specs.Writable.{IsWritable};
ghost use Rattle.pn_spelling.specs.WriteDeclarations.{declarations_element};
ghost use Rattle.pn_spelling.specs.WriteNets.{tree_of_net};
ghost use Rattle.pn_spelling.specs.WriteSorts.{sort_element};
ghost use Rattle.pn_spelling.specs.WriteTerms.{term_element};

/// Sorts (ISO/IEC 15909-2, sorts).
pub fn sorts_read_back()
    ensures shaped { (kind : Kind) (e : Element) (sort : SortExpr) → IsShapedSort kind e
        → sort_without_offsets sort ≡ sort_without_offsets (sort_read e) → IsShapedSort kind (sort_element sort) }
    ensures same { (kind : Kind) (e : Element) (sort : SortExpr) → IsShapedSort kind e
        → sort_without_offsets sort ≡ sort_without_offsets (sort_read e)
        → sort_without_offsets (sort_read (sort_element sort)) ≡ sort_without_offsets sort }
{}

/// Terms (ISO/IEC 15909-2, terms).
pub fn terms_read_back()
    ensures shaped { (kind : Kind) (e : Element) (term : Term) → IsShapedTerm kind e
        → term_without_offsets term ≡ term_without_offsets (term_read e) → IsShapedTerm kind (term_element term) }
    ensures same { (kind : Kind) (e : Element) (term : Term) → IsShapedTerm kind e
        → term_without_offsets term ≡ term_without_offsets (term_read e)
        → term_without_offsets (term_read (term_element term)) ≡ term_without_offsets term }
{}

/// Declarations (ISO/IEC 15909-2, declarations), in the kinds of nets that have them: in others no
/// document has a `declarations`, and there is no sort that a variable could have.
pub fn declarations_read_back()
    ensures shaped { (kind : Kind) (e : Element) (ds : List Declaration) → is_had kind tag.Declaration ≡ true
        → IsShaped kind tag.Declarations e
        → map declaration_without_offsets ds ≡ map declaration_without_offsets (declarations_read e)
        → IsShaped kind tag.Declarations (declarations_element ds) }
    ensures same { (kind : Kind) (e : Element) (ds : List Declaration) → is_had kind tag.Declaration ≡ true
        → IsShaped kind tag.Declarations e
        → map declaration_without_offsets ds ≡ map declaration_without_offsets (declarations_read e)
        → map declaration_without_offsets (declarations_read (declarations_element ds))
        ≡ map declaration_without_offsets ds }
{}

/// Nets (ISO/IEC 15909-2, nets): the tree of a net that some document spells.
pub fn nets_read_back()
    ensures shaped { (root : Element) (net : Net) → shape_faults root ≡ [] → IsSameNet net (net_of root)
        → shape_faults (tree_of_net net) ≡ [] }
    ensures same { (root : Element) (net : Net) → shape_faults root ≡ [] → IsSameNet net (net_of root)
        → IsSameNet (net_of (tree_of_net net)) net }
{}

/// Nets of which each part is such as an element without a fault of shape may spell: the nets of
/// documents are (`spellable`), and so are others that are made of such parts. No other net has a tree
/// without a fault of shape that reads back (`only`), and offsets don't matter (`alike`).
pub fn spellable_nets_read_back()
    ensures spellable { (root : Element) (net : Net) → shape_faults root ≡ [] → IsSameNet net (net_of root)
        → IsSpellableNet net }
    ensures shaped { (net : Net) → IsSpellableNet net → shape_faults (tree_of_net net) ≡ [] }
    ensures same { (net : Net) → IsSpellableNet net → IsSameNet (net_of (tree_of_net net)) net }
    ensures only { (net : Net) → shape_faults (tree_of_net net) ≡ [] → IsSameNet (net_of (tree_of_net net)) net
        → IsSpellableNet net }
    ensures alike { (net other : Net) → IsSpellableNet net → IsSameNet other net → IsSpellableNet other }
{}

/// Nets that can be written (XML 1.0, 2.3, 2.4 and 3.1, in this project's profile).
pub fn nets_are_writable()
    ensures writable { (e : Element) → IsTree e → shape_faults e ≡ [] → IsWritable (net_of e) }
{}
