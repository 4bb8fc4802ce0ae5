//! What is known of a document without a fault.

use pn_net::{Marking, Typed};
use std::marker::Model;

/// The flat net of a document without a fault, with its initial marking. Contracts see it as the
/// flat net.
#[derive(Drop)]
pub struct Checked {
    typed: Typed,
    initial: Marking,
}

impl Model for Checked {
    ghost use Rattle.std.specs.Coded.{codes};
    ghost use Rattle.pn_checks.specs.Initial.{IsInitial};
    ghost use Rattle.pn_net.specs.contracts.flat.Flat as f;
    ghost use Rattle.pn_net.specs.declared.flat.Flat.{Flat};

    ghost Value = { Flat };

    ghost coded = { Prim.hlevel (codes, f.the_row.coded) };

    ghost view = { λ c. c.typed };

    ghost invariant = { λ c. IsInitial c.typed c.initial };
}

impl Checked {
    ghost use Rattle.std.specs.Prelude.{◌≡◌};
    ghost use Rattle.pn_checks.specs.Initial.{IsInitial};

    /// A typed net with its initial marking.
    pub(crate) fn new(typed: Typed, initial: Marking) -> Checked
        requires { IsInitial typed initial }
        ensures { result ≡ typed }
    {
        Checked { typed, initial }
    }

    /// The flat net, with what is known of it.
    pub fn typed(&self) -> &Typed
        ensures { result.now ≡ self.now }
    {
        &self.typed
    }

    /// Its initial marking (ISO/IEC 15909-1, high-level nets).
    pub fn initial(&self) -> &Marking
        ensures { IsInitial self.now result.now }
    {
        &self.initial
    }
}
