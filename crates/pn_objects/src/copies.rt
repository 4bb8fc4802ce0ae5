ghost use Rattle.std.specs.Prelude.{◌≡◌, IfOk};

use pn_text::Text;
use pn_tree::Tree;
use sqlite_items::Items;
use std::alloc::{AllocError, Global};

pub(crate) fn copy_optional_text(
    alloc: Global,
    text: &Option<Text>,
) -> Result<Option<Text>, AllocError>
    ensures { IfOk result (λ copied. copied ≡ text.now) }
{
    match text {
        Some(text) => Ok(Some(text.copy(alloc)?)),
        None => Ok(None),
    }
}

pub(crate) fn copy_trees(alloc: Global, trees: &[Tree]) -> Result<Items<Tree>, AllocError>
    ensures { IfOk result (λ all. all ≡ trees.now) }
{
    let mut all = Items::new(alloc);
    for tree in trees {
        all.push(tree.root().copy(alloc)?)?;
    }
    Ok(all)
}
