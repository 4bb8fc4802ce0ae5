ghost use Rattle.std.specs.Prelude.{◌≡◌, map, string_bytes};
ghost use Rattle.pn_command.specs.Words.{argument_of, arguments_of, asked_alone, asked_of, asked_with_more, asked_with_one};

/// What the words of the command line ask for.
#[derive(Clone, Copy, Debug, PartialEq, Eq)]
pub enum Asked {
    /// The summary of a net.
    Check,
    /// The canonical text of a net.
    Flatten,
    /// The canonical text of a net, with the marking that a step leads to.
    Step,
    /// The modes of a transition that are enabled.
    Modes,
}

/// What these words ask for, where they ask for something. A command that is not built yet is
/// asked for by no words. Takes no memory.
pub fn asks(words: &[String]) -> Option<Asked>
    ensures { result ≡ asked_of (map string_bytes words.now) }
{
    match words {
        [word] => asked_by(word.as_str()),
        [word, _] => asked_of_one(word.as_str()),
        [word, _, _, ..] => asked_of_more(word.as_str()),
        [] => None,
    }
}

/// What this one word asks for.
fn asked_by(word: &str) -> Option<Asked>
    ensures { result ≡ asked_alone word.now }
{
    if word == "check" {
        Some(Asked::Check)
    } else if word == "flatten" {
        Some(Asked::Flatten)
    } else {
        None
    }
}

/// What this word asks for with one word behind it.
fn asked_of_one(word: &str) -> Option<Asked>
    ensures { result ≡ asked_with_one word.now }
{
    if word == "modes" {
        Some(Asked::Modes)
    } else {
        asked_of_more(word)
    }
}

/// What this word asks for with several words behind it.
fn asked_of_more(word: &str) -> Option<Asked>
    ensures { result ≡ asked_with_more word.now }
{
    if word == "step" {
        Some(Asked::Step)
    } else {
        None
    }
}

/// The word behind the command; empty where there is none.
pub(crate) fn argument(words: &[String]) -> &str
    ensures { result.now ≡ argument_of (map string_bytes words.now) }
{
    match words {
        [_, word, ..] => word.as_str(),
        _ => "",
    }
}

/// The words behind the command.
pub(crate) fn arguments(words: &[String]) -> &[String]
    ensures { map string_bytes result.now ≡ arguments_of (map string_bytes words.now) }
{
    match words {
        [_, rest @ ..] => rest,
        [] => words,
    }
}
