//! Laws of what the program answers. Each is a function with an empty body, and its clause is the
//! law.

ghost use Rattle.std.specs.Prelude.{◌≡◌, ℕ, List};
ghost use Rattle.pn_net.specs.declared.flat.Flat.{Flat};
ghost use Rattle.pn_tree.specs.declared.element.Element.{Element};
ghost use Rattle.pn_command.specs.Answer.{Answer, IsDueForNet};
ghost use Rattle.pn_command.specs.Outputs.{IsModesText};
ghost use Rattle.pn_command.specs.Stepped.{AreSteppable, IsStepped};
ghost use Rattle.pn_command.specs.Verdict.{IsAcceptedAs};
ghost use Rattle.pn_command.specs.Words.{argument_of, arguments_of};

use crate::{Asked, Status};

/// Where `modes` is done, what it writes is the texts of the modes of the transition that the word behind
/// it names, those that are enabled at the initial marking, ascending, each once, a line each (ISO/IEC
/// 15909-1, enabling).
pub fn modes_are_listed()
    ensures { (words : List (List ℕ)) (f : Flat) (a : Answer) → IsDueForNet Asked.Modes words f a → a.status ≡ Status.Done
        → IsModesText f (argument_of words) a.out }
{}

/// Where `step` is done, what it writes is a document of the same net with the marking M' to which the modes of
/// the words behind it lead from the initial marking: its initial marking is M', and it has the same steps from
/// each marking (ISO/IEC 15909-1, enabling and transition rule).
pub fn what_step_writes_has_the_new_marking()
    ensures { (words : List (List ℕ)) (tree : Element) (f : Flat) (a : Answer) → IsAcceptedAs tree f → IsDueForNet Asked.Step words f a → a.status ≡ Status.Done
        → IsStepped f (arguments_of words) a.out }
{}

/// Where `modes` is done, each line that it writes is a word without white space, and as the only word behind
/// `step` on the same document it is refused neither as a bad mode, nor as no mode, nor as not enabled (ISO/IEC
/// 15909-1, enabling). A limit may still stop it.
pub fn what_modes_lists_steps()
    ensures { (words : List (List ℕ)) (tree : Element) (f : Flat) (a : Answer) → IsAcceptedAs tree f → IsDueForNet Asked.Modes words f a → a.status ≡ Status.Done
        → AreSteppable f a.out }
{}
