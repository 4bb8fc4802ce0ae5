//! Modes as lines.

ghost use Rattle.std.specs.Prelude.{ℕ, List};
ghost use Rattle.std.specs.List.{Contains};
ghost use Rattle.pn_marking.specs.Modes.{IsAssigned};
ghost use Rattle.pn_mode_text.specs.Texts.{IsModeText};
ghost use Rattle.pn_net.specs.declared.mode.Mode.{Mode};
ghost use Rattle.pn_outside.specs.Cause.{CountsFault, HasCause};
ghost use Rattle.pn_outside.specs.Taking.{Puts};
ghost use Rattle.pn_firing.specs.Lines.{HasModeLines, mode_line};

use pn_mode_text::put_mode;
use pn_net::{Mode, Typed};
use pn_outside::{Failed, Sink, put_text};

/// Puts the texts of modes as `put_mode` puts them, each with a line end behind it. After `Failed`,
/// which comes only from the sink, a front of them is out. Takes no memory.
pub fn put_mode_lines<K: Sink>(net: &Typed, modes: &[Mode], sink: &mut K) -> Result<(), Failed>
    requires { (m : Mode) → Contains modes.now m → (vars : List ℕ) × IsAssigned net.now m vars }
    ensures puts { (text : List ℕ) → HasModeLines net.now modes.now text → Puts K.taken K.number result sink.old sink.new text }
    ensures cause { HasCause (K.faults sink.old) (K.faults sink.new) result }
    ensures counted { CountsFault (K.faults sink.old) (K.faults sink.new) result }
{
    for i in 0..modes.len() {
        put_mode_line(net, &modes[i], sink)?;
    }
    Ok(())
}

/// Puts the text of a mode and a line end.
fn put_mode_line<K: Sink>(net: &Typed, mode: &Mode, sink: &mut K) -> Result<(), Failed>
    requires { (vars : List ℕ) × IsAssigned net.now mode.now vars }
    ensures puts { (text : List ℕ) → IsModeText net.now mode.now text → Puts K.taken K.number result sink.old sink.new (mode_line text) }
    ensures cause { HasCause (K.faults sink.old) (K.faults sink.new) result }
    ensures counted { CountsFault (K.faults sink.old) (K.faults sink.new) result }
{
    put_mode(net, mode, sink)?;
    put_text(sink, "\n")
}
