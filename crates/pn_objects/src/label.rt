ghost use Rattle.std.specs.Prelude.{◌≡◌, IfOk};

use crate::copies::{copy_optional_text, copy_trees};
use pn_syntax::{SortExpr, Term};
use pn_text::Text;
use pn_tree::Tree;
use sqlite_items::{Boxed, Items};
use std::alloc::{AllocError, Global};

/// A label of a net, a page or an object (ISO/IEC 15909-2, labels): what it says, its `text` where
/// it has one, and its parts `graphics` and `toolspecific`, kept as they are. A label whose value is
/// a number has no `text` beside the number.
#[derive(Debug, Drop)]
pub struct Label<T: Drop> {
    pub value: T,
    pub text: Option<Text>,
    pub opaque: Items<Tree>,
    /// The offset of the start tag of its element.
    pub at: u64,
}

/// What a net, a page or an object may have whatever it is: a name, and parts `graphics` and
/// `toolspecific`, kept as they are.
#[derive(Debug, Drop)]
pub struct Head {
    pub name: Option<Boxed<Label<()>>>,
    pub opaque: Items<Tree>,
}

impl Head {
    /// The same head, in memory of its own.
    pub fn copy(&self, alloc: Global) -> Result<Head, AllocError>
        ensures { IfOk result (λ head. head ≡ self.now) }
    {
        Ok(Head {
            name: copy_name(alloc, &self.name)?,
            opaque: copy_trees(alloc, self.opaque.as_slice())?,
        })
    }
}

impl Label<()> {
    /// The same label, in memory of its own.
    pub fn copy(&self, alloc: Global) -> Result<Label<()>, AllocError>
        ensures { IfOk result (λ label. label ≡ self.now) }
    {
        self.with_value(alloc, ())
    }
}

impl<T: Drop> Label<T> {
    /// A label like this one that says something else, in memory of its own.
    fn with_value<U: Drop>(&self, alloc: Global, value: U) -> Result<Label<U>, AllocError>
        ensures { IfOk result (λ label. label ≡ record { value = value; text = self.now.text; opaque = self.now.opaque; at = self.now.at }) }
    {
        Ok(Label {
            value,
            text: copy_optional_text(alloc, &self.text)?,
            opaque: copy_trees(alloc, self.opaque.as_slice())?,
            at: self.at,
        })
    }
}

fn copy_name(
    alloc: Global,
    name: &Option<Boxed<Label<()>>>,
) -> Result<Option<Boxed<Label<()>>>, AllocError>
    ensures { IfOk result (λ copied. copied ≡ name.now) }
{
    match name {
        Some(label) => Ok(Some(Boxed::new(alloc, label.get().copy(alloc)?)?)),
        None => Ok(None),
    }
}

pub(crate) fn copy_number_label(
    alloc: Global,
    label: &Option<Boxed<Label<u64>>>,
) -> Result<Option<Boxed<Label<u64>>>, AllocError>
    ensures { IfOk result (λ copied. copied ≡ label.now) }
{
    match label {
        Some(label) => {
            let label = label.get();
            Ok(Some(Boxed::new(alloc, label.with_value(alloc, label.value)?)?))
        }
        None => Ok(None),
    }
}

pub(crate) fn copy_sort_label(
    alloc: Global,
    label: &Option<Boxed<Label<SortExpr>>>,
) -> Result<Option<Boxed<Label<SortExpr>>>, AllocError>
    ensures { IfOk result (λ copied. copied ≡ label.now) }
{
    match label {
        Some(label) => {
            let label = label.get();
            let value = label.value.copy(alloc)?;
            Ok(Some(Boxed::new(alloc, label.with_value(alloc, value)?)?))
        }
        None => Ok(None),
    }
}

pub(crate) fn copy_term_label(
    alloc: Global,
    label: &Option<Boxed<Label<Term>>>,
) -> Result<Option<Boxed<Label<Term>>>, AllocError>
    ensures { IfOk result (λ copied. copied ≡ label.now) }
{
    match label {
        Some(label) => {
            let label = label.get();
            let value = label.value.copy(alloc)?;
            Ok(Some(Boxed::new(alloc, label.with_value(alloc, value)?)?))
        }
        None => Ok(None),
    }
}
