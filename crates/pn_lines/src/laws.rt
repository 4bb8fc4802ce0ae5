//! What holds of texts as they stand in lines. Each function does nothing; its contract is the law.

ghost use Rattle.std.specs.Prelude.{◌≡◌, ◌<◌, true, ℕ, List};
ghost use Rattle.std.specs.List.{list_all, AllByRecursion};
ghost use Rattle.pn_lines.specs.Escapes.{escaped, is_plain, is_line_byte};

/// An escaped text has no bytes but those that stand as they are and `%`: no white space, no control
/// character and none of the marks between which it stands. So a line is one line.
pub fn escaped_texts_are_clean()
    ensures { (text : List ℕ) → AllByRecursion (λ b. b < 256) text
        → list_all is_line_byte (escaped text) ≡ true }
{}

/// A text of bytes that stand as they are is its own escaped text.
pub fn plain_texts_stay()
    ensures { (text : List ℕ) → list_all is_plain text ≡ true → escaped text ≡ text }
{}

/// Two texts with the same escaped text are the same.
pub fn escaped_texts_tell_apart()
    ensures { (one two : List ℕ) → AllByRecursion (λ b. b < 256) one → AllByRecursion (λ b. b < 256) two
        → escaped one ≡ escaped two → one ≡ two }
{}
