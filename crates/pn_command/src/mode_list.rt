//! Enabled modes with their net.

ghost use Rattle.std.specs.Prelude.{◌≡◌, ℕ, List};
ghost use Rattle.std.specs.List.{Contains};
ghost use Rattle.pn_marking.specs.Modes.{IsAssigned};
ghost use Rattle.pn_net.specs.declared.mode.Mode.{Mode};
ghost use Rattle.pn_outside.specs.Cause.{CountsFault, HasCause};
ghost use Rattle.pn_outside.specs.Taking.{Puts};
ghost use Rattle.pn_firing.specs.Lines.{HasModeLines};

use pn_checks::Checked;
use pn_firing::put_mode_lines;
use pn_net::Mode;
use pn_outside::{Failed, Sink};
use std::marker::Model;

/// Modes of a net, each with a value of its sort for each variable of its transition. Contracts see
/// them with the flat net.
#[derive(Drop)]
pub(crate) struct ModeList {
    checked: Checked,
    modes: Vec<Mode>,
}

impl Model for ModeList {
    ghost use Rattle.std.specs.Coded.{codes};
    ghost use Rattle.std.specs.Prelude.{ℕ, List};
    ghost use Rattle.std.specs.List.{Contains};
    ghost use Rattle.pn_command.specs.ModesOfNets.{ModesOfNet};
    ghost use Rattle.pn_marking.specs.Modes.{IsAssigned};
    ghost use Rattle.pn_net.specs.contracts.flat.Flat as f;
    ghost use Rattle.pn_net.specs.contracts.mode.Mode as m;
    ghost use Rattle.pn_net.specs.declared.mode.Mode.{Mode};

    ghost Value = { ModesOfNet };

    ghost coded = { Prim.hlevel (codes, f.the_row.coded, m.the_row.coded) };

    ghost view = { λ l. record { flat = l.checked; modes = l.modes.items } };

    ghost invariant = { λ l. (m : Mode) → Contains l.modes.items m → (vars : List ℕ) × IsAssigned l.checked m vars };
}

impl ModeList {
    /// These modes, of this net.
    pub(crate) fn new(checked: Checked, modes: Vec<Mode>) -> ModeList
        requires { (m : Mode) → Contains modes.items m → (vars : List ℕ) × IsAssigned checked m vars }
        ensures flat { result.flat ≡ checked }
        ensures modes { result.modes ≡ modes.items }
    {
        ModeList { checked, modes }
    }

    /// Puts them, a line each.
    pub(crate) fn put<K: Sink>(&self, sink: &mut K) -> Result<(), Failed>
        ensures puts { (text : List ℕ) → HasModeLines self.now.flat self.now.modes text → Puts K.taken K.number result sink.old sink.new text }
        ensures cause { HasCause (K.faults sink.old) (K.faults sink.new) result }
        ensures counted { CountsFault (K.faults sink.old) (K.faults sink.new) result }
    {
        put_mode_lines(self.checked.typed(), &self.modes, sink)
    }
}
