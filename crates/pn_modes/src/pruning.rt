ghost use Rattle.std.specs.Prelude.{◌≡◌, ◌<◌, ℕ, List, length, Some, IfOk};
ghost use Rattle.std.specs.List.{slice_get};
ghost use Rattle.pn_values.specs.declared.value.Value.{Value};
ghost use Rattle.pn_modes.specs.Carriers.{IsFrontOf, carrier_at};
ghost use Rattle.pn_modes.specs.Prunes.{Prunes};

use pn_values::Value;
use std::alloc::{AllocError, Global};

/// What a search goes through, which choices of values it is for, and the test that leaves out all
/// that begin with a front.
pub trait Pruning {
    // What its answers rest on.
    ghost is_sound: { Self → Type 0 };

    // The values of each variable, in order.
    ghost carriers: { Self → List (List Value) };

    // The choices that are searched for.
    ghost wanted: { Self → List Value → Type 0 };

    /// How many variables there are.
    fn variables(&self) -> usize
        requires { is_sound self.now }
        ensures { result ≡ length (carriers self.now) };

    /// How many values a variable has.
    fn size(&self, variable: usize) -> u64
        requires sound { is_sound self.now }
        requires within { variable < length (carriers self.now) }
        ensures { result ≡ length (carrier_at (carriers self.now) variable) };

    /// The value at a place among those of a variable.
    fn nth(&self, alloc: Global, variable: usize, place: u64) -> Result<Value, AllocError>
        requires sound { is_sound self.now }
        requires within { variable < length (carriers self.now) }
        requires below { place < length (carrier_at (carriers self.now) variable) }
        ensures { IfOk result (λ v. slice_get (carrier_at (carriers self.now) variable) place ≡ Some v) };

    /// Whether the search goes on from a front, the values of the first variables.
    fn goes_on(&self, alloc: Global, front: &[Value]) -> Result<bool, AllocError>
        requires sound { is_sound self.now }
        requires front { IsFrontOf (carriers self.now) front.now }
        ensures { IfOk result (Prunes (wanted self.now) (length (carriers self.now)) front.now) };
}
