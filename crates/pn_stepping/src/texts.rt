//! Texts of tokens and modes, in memory.

ghost use Rattle.std.specs.Prelude.{ℕ, List, IfOk};
ghost use Rattle.pn_marking.specs.Modes.{IsAssigned};
ghost use Rattle.pn_marking.specs.Totals.{IsTokenOf};
ghost use Rattle.pn_mode_text.specs.Texts.{IsModeText, IsTokenText};

use crate::collected::Collected;
use pn_mode_text::{put_mode, put_token};
use pn_net::{Mode, Token, Typed};
use std::alloc::{AllocError, Global};

/// The text of a token, as `put_token` puts it (ISO/IEC 15909-1, markings).
pub(crate) fn token_bytes(alloc: Global, net: &Typed, token: &Token) -> Result<Vec<u8>, AllocError>
    requires { IsTokenOf net.now token.now }
    ensures { IfOk result (λ text. IsTokenText net.now token.now text.items) }
{
    let mut sink = Collected::new(alloc);
    match put_token(net, token, &mut sink) {
        Ok(()) => Ok(sink.into_bytes()),
        Err(_) => Err(AllocError),
    }
}

/// The text of a transition with values for its variables, as `put_mode` puts it (ISO/IEC 15909-1,
/// modes). Whether the condition holds is not asked.
pub(crate) fn mode_bytes(alloc: Global, net: &Typed, mode: &Mode) -> Result<Vec<u8>, AllocError>
    requires { (vars : List ℕ) × IsAssigned net.now mode.now vars }
    ensures { IfOk result (λ text. IsModeText net.now mode.now text.items) }
{
    let mut sink = Collected::new(alloc);
    match put_mode(net, mode, &mut sink) {
        Ok(()) => Ok(sink.into_bytes()),
        Err(_) => Err(AllocError),
    }
}
