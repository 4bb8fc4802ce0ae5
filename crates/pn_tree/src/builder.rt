use crate::copy::copy_element;
use crate::site::Site;
use crate::{Tree, View};
use std::alloc::{AllocError, Global};
use std::marker::Model;

/// Makes a tree from its parts, given in their order. Contracts see the root, once it is ended,
/// and the elements that are begun and not ended, the innermost first.
///
/// Each call that may want memory answers `AllocError` for nothing else, also where one of the tree's
/// tables would pass 2^32 - 1 places (bytes of names and texts, attributes, kids or elements), or the
/// offset of an element is past 2^32 - 1. After that a builder may only be dropped.
///
/// Memory is in proportion to what was given. What is filled is one byte for each byte of a name, a
/// value or a text, 8 for an element, 24 more for what it does not share with the element that ended
/// before it, 16 for an attribute, and 16 for a kid, which stands twice until the element around it
/// ends. An element shares its name's bytes where the one that ended before it has the same name, and
/// the 24 where neither attributes nor kids stand between them either. A table has room for at most
/// twice what fills it, and while it grows the table from before stands beside it: so the constant is 3
/// times these figures at most.
#[derive(Debug, Drop)]
pub struct Builder {
    site: Site,
}

impl Model for Builder {
    ghost use Rattle.pn_tree.specs.Building.{Building};
    ghost use Rattle.pn_tree.specs.contracts.element.Element as e;
    ghost use Rattle.std.specs.Coded.{codes};

    ghost Value = { Building };

    ghost coded = { Prim.hlevel (codes, e.the_row.coded) };

    ghost use Rattle.pn_tree.specs.Frames.{IsSite, built};

    ghost view = { λ b. built b.site };

    ghost invariant = { λ b. IsSite b.site };
}

impl Builder {
    ghost use Rattle.std.specs.Prelude.{◌≡◌, ◌+◌, ◌<◌, ◌≤◌, [], length, true, None, Some, OnOk, IsSome, IfSome};
    ghost use Rattle.pn_text.specs.Characters.{is_name, is_text};
    ghost use Rattle.pn_tree.specs.Elements.{attr_value};
    ghost use Rattle.pn_tree.specs.Building.{nothing_built, innermost, begun, at_innermost, with_attr, with_text, with_kid, ended};
    ghost use Rattle.pn_tree.specs.Depth.{depth_of};
    ghost use Rattle.pn_tree.specs.Views.{element_of};
    ghost use Rattle.pn_tree.specs.declared.element.Child.TheVariants as children;

    /// A builder that was given nothing yet. Takes no memory.
    pub fn new(alloc: Global) -> Builder
        ensures { result ≡ nothing_built }
    {
        Builder {
            site: Site::new(alloc),
        }
    }

    /// Begins an element whose start tag has the offset `at`: the root, or a kid of the innermost
    /// element that is open.
    pub fn begin(&mut self, name: &str, at: u64) -> Result<(), AllocError>
        requires name { is_name name.now ≡ true }
        requires one_root { self.old.root ≡ None }
        requires depth { length self.old.open_elements < 256 }
        ensures { OnOk result (self.new ≡ begun name.now at self.old) }
    {
        self.begin_next(name, at)
    }

    /// Begins an element, also where there is a root.
    pub(crate) fn begin_next(&mut self, name: &str, at: u64) -> Result<(), AllocError>
        requires name { is_name name.now ≡ true }
        requires depth { length self.old.open_elements < 256 }
        ensures { OnOk result (self.new ≡ begun name.now at self.old) }
    {
        self.site.begin(name, at)
    }

    /// Gives the innermost open element an attribute, behind those that it has.
    pub fn attr(&mut self, name: &str, value: &str) -> Result<(), AllocError>
        requires name { is_name name.now ≡ true }
        requires value { is_text value.now ≡ true }
        requires is_open { IsSome (innermost self.old) }
        requires before_kids { IfSome (innermost self.old) (λ e. e.kids ≡ []) }
        requires is_new { IfSome (innermost self.old) (λ e. attr_value name.now e.attrs ≡ None) }
        ensures { OnOk result (self.new ≡ at_innermost (with_attr name.now value.now) self.old) }
    {
        self.site.attr(name, value)
    }

    /// Gives the innermost open element a text. It is joined to a text before it, and an empty
    /// one changes nothing.
    pub fn text(&mut self, text: &str) -> Result<(), AllocError>
        requires text { is_text text.now ≡ true }
        requires is_open { IsSome (innermost self.old) }
        ensures { OnOk result (self.new ≡ at_innermost (with_text text.now) self.old) }
    {
        self.site.text(text)
    }

    /// Gives the innermost open element a kid that equals `part`, offsets and all.
    pub fn place(&mut self, part: View<'_>) -> Result<(), AllocError>
        requires is_open { IsSome (innermost self.old) }
        requires depth { length self.old.open_elements + depth_of (element_of part) ≤ 256 }
        ensures { OnOk result
            (self.new ≡ at_innermost (with_kid (children.Element (element_of part.entry))) self.old) }
    {
        copy_element(self, part)
    }

    /// Ends the innermost open element. Takes no memory.
    pub fn end(&mut self)
        requires { IsSome (innermost self.old) }
        ensures { self.new ≡ ended self.old }
    {
        self.site.end()
    }

    /// The tree, once its root is ended. Takes no memory.
    pub fn finish(self) -> Tree
        requires { IsSome self.root }
        ensures { self.root ≡ Some result }
    {
        self.site.into_tree()
    }
}
