ghost use Rattle.std.specs.Prelude.{◌≡◌, ◌+◌, ◌≤◌, ◌∷◌, length, OnOk, IsSome};
ghost use Rattle.pn_tree.specs.Building.{innermost, at_innermost, closed};
ghost use Rattle.pn_tree.specs.Copies.{IsBlank, HasNoKids, with_attrs, with_kids, with_shown, KidFits};
ghost use Rattle.pn_tree.specs.Depth.{depth_of};
ghost use Rattle.pn_tree.specs.Views.{element_of};

use crate::{Builder, Kid, View};
use std::alloc::AllocError;

/// Puts an element that equals `part`, offsets and all, within the innermost open one. The recursion
/// goes by the depth of the elements, which is at most 256.
#[cycle(copy)]
pub(crate) fn copy_element(builder: &mut Builder, part: View<'_>) -> Result<(), AllocError>
    requires { length builder.old.open_elements + depth_of (element_of part) ≤ 256 }
    ensures { OnOk result
        (builder.new ≡ closed builder.old.root (element_of part.entry ∷ builder.old.open_elements)) }
{
    builder.begin_next(part.name(), part.at())?;
    copy_attrs(builder, part)?;
    copy_kids(builder, part)?;
    builder.end();
    Ok(())
}

fn copy_attrs(builder: &mut Builder, part: View<'_>) -> Result<(), AllocError>
    requires { IsBlank (innermost builder.old) }
    ensures { OnOk result (builder.new ≡ at_innermost (with_attrs (element_of part.entry).attrs) builder.old) }
{
    for i in 0..part.attr_count() {
        let (name, value) = part.attr(i);
        builder.attr(name, value)?;
    }
    Ok(())
}

#[cycle(copy)]
fn copy_kids(builder: &mut Builder, part: View<'_>) -> Result<(), AllocError>
    requires is_open { HasNoKids (innermost builder.old) }
    requires depth { length builder.old.open_elements + depth_of (element_of part) ≤ 257 }
    ensures { OnOk result (builder.new ≡ at_innermost (with_kids (element_of part.entry).kids) builder.old) }
{
    for i in 0..part.kid_count() {
        copy_kid(builder, part.kid(i))?;
    }
    Ok(())
}

#[cycle(copy)]
fn copy_kid(builder: &mut Builder, kid: Kid<'_>) -> Result<(), AllocError>
    requires is_open { IsSome (innermost builder.old) }
    requires fits { KidFits (length builder.old.open_elements) kid }
    ensures { OnOk result (builder.new ≡ at_innermost (with_shown kid.entry) builder.old) }
{
    match kid {
        Kid::Element(part) => copy_element(builder, part),
        Kid::Text(text) => builder.text(text),
    }
}
