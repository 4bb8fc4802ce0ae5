ghost use Rattle.std.specs.Prelude.{◌≡◌, IfOk, refl};
ghost use Rattle.std.specs.Cmp.{eq_by_cmp_equiv, partial_equiv_from_equiv, partial_order_from_agreeing_total};
ghost use Rattle.std.specs.Ordering.{as_partial_cmp, eq_by_cmp};
ghost use Rattle.pn_net.specs.Orders.{mode_cmp, modes_total};

use pn_values::Value;
use sqlite_items::Items;
use std::alloc::{AllocError, Global};
use std::cmp::Ordering;

/// A transition, by its number, with a value for each of its variables in the order of their
/// declarations (ISO/IEC 15909-1, modes). Modes are ordered by transition, then by the values, the
/// first first.
#[derive(Debug, Drop)]
pub struct Mode {
    pub transition: u32,
    pub values: Items<Value>,
}

impl Mode {
    /// The same mode, in memory of its own.
    pub fn copy(&self, alloc: Global) -> Result<Mode, AllocError>
        ensures { IfOk result (λ mode. mode ≡ self.now) }
    {
        Ok(Mode {
            transition: self.transition,
            values: copy_values(alloc, self.values.as_slice())?,
        })
    }
}

fn copy_values(alloc: Global, values: &[Value]) -> Result<Items<Value>, AllocError>
    ensures { IfOk result (λ all. all ≡ values.now) }
{
    let mut all = Items::new(alloc);
    for value in values {
        all.push(value.copy(alloc)?)?;
    }
    Ok(all)
}

fn compare(one: &Mode, two: &Mode) -> Ordering
    ensures { result ≡ mode_cmp one.now two.now }
{
    let transitions = one.transition.cmp(&two.transition);
    transitions.then(one.values.as_slice().cmp(two.values.as_slice()))
}

impl PartialEq for Mode {
    ghost eq = { eq_by_cmp mode_cmp };

    ghost laws = { partial_equiv_from_equiv (eq_by_cmp_equiv modes_total) };

    fn eq(&self, other: &Mode) -> bool {
        compare(self, other).is_eq()
    }
}

impl Eq for Mode {
    ghost laws = { eq_by_cmp_equiv modes_total };
}

impl PartialOrd for Mode {
    ghost partial_cmp = { as_partial_cmp mode_cmp };

    ghost laws = { partial_order_from_agreeing_total mode_cmp modes_total (λ _ _. refl) (λ _ _. refl) };

    fn partial_cmp(&self, other: &Mode) -> Option<Ordering> {
        Some(compare(self, other))
    }
}

impl Ord for Mode {
    ghost cmp = { mode_cmp };

    ghost total = { modes_total };

    ghost matches_partial_cmp = { λ _ _. refl };

    ghost matches_eq = { λ _ _. refl };

    fn cmp(&self, other: &Mode) -> Ordering {
        compare(self, other)
    }
}
