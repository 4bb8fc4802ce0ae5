//! The laws of flat nets that are equal but for offsets. Each function does nothing; its contract is
//! the law.

ghost use Rattle.std.specs.Prelude.{◌≡◌, ◌↔◌, ℕ, List};
ghost use Rattle.pn_checks.specs.Initial.{IsInitial};
ghost use Rattle.pn_checks.specs.Linked.{IsLinked};
ghost use Rattle.pn_flat_laws.specs.AlikeNets.{AreAlikeButMarked, AreAlikeNets};
ghost use Rattle.pn_marking.specs.Modes.{IsMode, IsPost, IsPre};
ghost use Rattle.pn_marking.specs.Steps.{IsEnabled, IsStep};
ghost use Rattle.pn_net.specs.Flattening.{net_of_flat};
ghost use Rattle.pn_net.specs.Typed.{AreVariablesAt};
ghost use Rattle.pn_net.specs.declared.flat.Flat.{Flat};
ghost use Rattle.pn_net.specs.declared.mode.Mode.{Mode};
ghost use Rattle.pn_net.specs.declared.token.Token.{Token};
ghost use Rattle.pn_objects.specs.Offsets.{IsSameNet};
ghost use Rattle.pn_spelling.specs.ReadNets.{net_of};
ghost use Rattle.pn_tree.specs.declared.element.Element.{Element};

/// Flat nets that are equal but for offsets have the same variables of transitions, the same modes,
/// which take and put the same, and the same steps from each marking, under the same numbers; and they have the same
/// initial markings (ISO/IEC 15909-1, modes, enabling and transition rule).
pub fn alike_nets_have_the_same_steps()
    ensures variables { (f g : Flat) → AreAlikeNets f g → (t : ℕ) (vars : List ℕ) → AreVariablesAt f t vars ↔ AreVariablesAt g t vars }
    ensures modes { (f g : Flat) → AreAlikeNets f g → (m : Mode) → IsMode f m ↔ IsMode g m }
    ensures takes { (f g : Flat) → AreAlikeNets f g → (m : Mode) (taken : List (Token × ℕ)) → IsPre f m taken ↔ IsPre g m taken }
    ensures puts { (f g : Flat) → AreAlikeNets f g → (m : Mode) (put : List (Token × ℕ)) → IsPost f m put ↔ IsPost g m put }
    ensures enabled { (f g : Flat) → AreAlikeNets f g → (marking : List (Token × ℕ)) (modes : List (Mode × ℕ)) → IsEnabled f marking modes ↔ IsEnabled g marking modes }
    ensures steps { (f g : Flat) → AreAlikeNets f g → (old new : List (Token × ℕ)) (modes : List (Mode × ℕ)) → IsStep f old modes new ↔ IsStep g old modes new }
    ensures initial { (f g : Flat) → AreAlikeNets f g → (marking : List (Token × ℕ)) → IsInitial f marking ↔ IsInitial g marking }
{}

/// Which initial markings places have makes no difference to modes and steps.
pub fn initial_markings_move_nothing()
    ensures modes { (f g : Flat) → AreAlikeButMarked f g → (m : Mode) → IsMode f m ↔ IsMode g m }
    ensures enabled { (f g : Flat) → AreAlikeButMarked f g → (marking : List (Token × ℕ)) (modes : List (Mode × ℕ)) → IsEnabled f marking modes ↔ IsEnabled g marking modes }
    ensures steps { (f g : Flat) → AreAlikeButMarked f g → (old new : List (Token × ℕ)) (modes : List (Mode × ℕ)) → IsStep f old modes new ↔ IsStep g old modes new }
{}

/// Where a document's net is the same net as a flat net, that of another document, its own flat net
/// is equal to that one but for offsets: places, transitions, arcs and declarations are numbered
/// alike. What is written of a flat net is read back so.
pub fn what_is_read_back_is_alike()
    ensures { (tree other : Element) (f g : Flat) → IsLinked tree f → IsLinked other g → IsSameNet (net_of other) (net_of_flat f) → AreAlikeNets f g }
{}

/// A document has one flat net (ISO/IEC 15909-2, pages and references).
pub fn a_document_has_one_flat_net()
    ensures { (tree : Element) (f g : Flat) → IsLinked tree f → IsLinked tree g → f ≡ g }
{}
