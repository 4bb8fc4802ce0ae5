//! One byte of the markup.

ghost use Rattle.std.specs.Prelude.{◌≡◌, ◌<◌, true, OnOk, IfSome, IfOk};
ghost use Rattle.std.specs.Option.{option_map};
ghost use Rattle.pn_scan.specs.NextState.{next_state};
ghost use Rattle.pn_scan.specs.Nestings.{nesting_of, Belongs};
ghost use Rattle.pn_scan.specs.Contexts.{state_of, Admits, WasChecked, KeepsWhole, is_rare};

use crate::attribute::{attribute, equals, quote, value};
use crate::context::{Context, Kept};
use crate::declaration::{declaration, part_equals, part_quote, part_value};
use crate::misc::{bang, comment, due, instruction, markup, outside, start, target};
use crate::open_tree::OpenTree;
use crate::reference::{entity, number, number_sign, reference};
use crate::run::{between, run, section};
use crate::tag::{end_name, name, tag};
use std::alloc::{AllocError, Global};

/// What a byte at the offset `at` makes of a context, or `None` where no markup goes on so. After
/// an error nothing is known of the tree. The contexts of most bytes come first, apart from the
/// others: a function pays for all that its arms keep.
pub(crate) fn advance(
    alloc: Global,
    tree: &mut OpenTree,
    kept: &mut Kept,
    context: Context,
    at: u64,
    byte: u8,
) -> Result<Option<Context>, AllocError>
    requires belongs { Belongs tree.old }
    requires fits { Admits (nesting_of tree.old) context }
    requires checked { WasChecked (nesting_of tree.old) kept.old context }
    requires whole { byte < 128 → KeepsWhole kept.old context }
    ensures state { IfOk result (λ m. option_map (state_of (nesting_of tree.new) kept.new) m ≡ next_state (state_of (nesting_of tree.old) kept.old context) at byte) }
    ensures fits { IfOk result (λ m. IfSome m (Admits (nesting_of tree.new))) }
    ensures belongs { OnOk result (Belongs tree.new) }
{
    match context {
        Context::Between => between(tree, kept, at, byte),
        Context::Run { brackets, cr } => run(tree, kept, brackets, cr, at, byte),
        Context::Markup { first, begin } => {
            markup(tree.nesting(), tree.has_room(), kept, first, begin, byte)
        }
        Context::Name { begin } => name(tree, kept, begin, at, byte),
        Context::Tag { spaced } => tag(tree, kept, spaced, byte),
        Context::Attribute => attribute(tree, kept, at, byte),
        Context::BehindEquals => Ok(quote(kept, byte)),
        Context::Value { quote, cr } => value(tree, kept, quote, cr, byte),
        Context::Due { word, read, then } => Ok(due(kept, word, read, then, byte)),
        Context::EndName { read } => Ok(end_name(tree, read, at, byte)),
        other => advance_rare(alloc, tree, kept, other, at, byte),
    }
}

/// The same of the other contexts.
#[inline(never)]
fn advance_rare(
    alloc: Global,
    tree: &mut OpenTree,
    kept: &mut Kept,
    context: Context,
    at: u64,
    byte: u8,
) -> Result<Option<Context>, AllocError>
    requires rare { is_rare context ≡ true }
    requires belongs { Belongs tree.old }
    requires fits { Admits (nesting_of tree.old) context }
    requires checked { WasChecked (nesting_of tree.old) kept.old context }
    requires whole { byte < 128 → KeepsWhole kept.old context }
    ensures state { IfOk result (λ m. option_map (state_of (nesting_of tree.new) kept.new) m ≡ next_state (state_of (nesting_of tree.old) kept.old context) at byte) }
    ensures fits { IfOk result (λ m. IfSome m (Admits (nesting_of tree.new))) }
    ensures belongs { OnOk result (Belongs tree.new) }
{
    match context {
        Context::Start => Ok(start(at, byte)),
        Context::First => Ok(outside(true, at, byte)),
        Context::Bang => Ok(bang(tree.nesting(), byte)),
        Context::Comment { dash } => Ok(Some(comment(dash, byte))),
        Context::Target { first } => target(tree.nesting(), kept, first, byte),
        Context::Instruction { question } => Ok(Some(instruction(question, byte))),
        Context::Section { brackets, cr } => section(tree, kept, brackets, cr, byte),
        Context::BeforeEquals => Ok(equals(byte)),
        Context::Reference { holder } => reference(tree, kept, holder, at, byte),
        Context::Entity { holder } => entity(tree, kept, holder, byte),
        Context::NumberSign { holder } => number_sign(alloc, tree, kept, holder, at, byte),
        Context::Number {
            holder,
            base,
            number: so_far,
            any,
        } => number(alloc, tree, kept, holder, base, so_far, any, byte),
        Context::Declaration { stage, spaced } => Ok(declaration(stage, spaced, byte)),
        Context::BeforePartEquals { part } => Ok(part_equals(part, at, byte)),
        Context::BehindPartEquals { part } => Ok(part_quote(kept, part, at, byte)),
        Context::PartValue { part, quote } => part_value(alloc, kept, part, quote, byte),
        _ => unreachable!(),
    }
}
