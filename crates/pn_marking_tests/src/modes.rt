//! Multisets of modes of nets whose transitions have no variable but `x`.

ghost use Rattle.std.specs.Prelude.{◌<◌, length, OnOk};
ghost use Rattle.pn_marking.specs.Steps.{AreModes};

use pn_bag::Bag;
use pn_net::{Mode, Typed};
use pn_net_samples::is_sound_mode;
use std::alloc::{AllocError, Global};

/// Whether a transition with these values is a mode, which is then added so many times.
pub(crate) fn add_mode(
    alloc: Global,
    net: &Typed,
    modes: &mut Bag<Mode>,
    mode: Mode,
    count: u64,
) -> Result<bool, AllocError>
    requires modes { AreModes net.now modes.old }
    requires within { mode.transition < length net.now.transitions }
    ensures { OnOk result (AreModes net.now modes.new) }
{
    if !is_sound_mode(alloc, net, &mode)? {
        return Ok(false);
    }
    Ok(modes.add(mode, count).is_ok())
}
