ghost use Rattle.std.specs.Prelude.{◌≡◌, IfOk};
ghost use Rattle.pn_syntax.specs.declared.declaration.Declaration.{Declaration};

use crate::SortExpr;
use pn_text::Text;
use sqlite_items::Items;
use std::alloc::{AllocError, Global};

/// What a `namedsort` names: a sort, or an enumeration that it declares.
#[derive(Debug, Drop)]
pub enum SortBody {
    Plain(SortExpr),
    Finite(Items<Constant>),
    Cyclic(Items<Constant>),
}

/// A constant of an enumeration.
#[derive(Debug, Drop)]
pub struct Constant {
    pub id: Text,
    pub name: Option<Text>,
    /// The offset of the start tag of its element.
    pub at: u64,
}

/// A value that an element of a partition lists.
#[derive(Debug, Drop)]
pub enum ConstExpr {
    Named {
        id: Text,
        at: u64,
    },
    Range {
        value: i64,
        start: i64,
        end: i64,
        at: u64,
    },
}

/// An element of a partition, with the values that it lists.
#[derive(Debug, Drop)]
pub struct PartElement {
    pub id: Text,
    pub name: Option<Text>,
    pub values: Items<ConstExpr>,
    /// The offset of the start tag of its element.
    pub at: u64,
}

/// A declaration: a `namedsort`, a `variabledecl` or a `partition`. Each has the offset of the
/// start tag of its element.
#[derive(Debug, Drop)]
pub enum Declaration {
    Named {
        id: Text,
        name: Option<Text>,
        body: SortBody,
        at: u64,
    },
    Variable {
        id: Text,
        name: Option<Text>,
        sort: SortExpr,
        at: u64,
    },
    Partition {
        id: Text,
        name: Option<Text>,
        sort: SortExpr,
        elements: Items<PartElement>,
        at: u64,
    },
}

impl Declaration {
    /// The same declaration, in memory of its own.
    pub fn copy(&self, alloc: Global) -> Result<Declaration, AllocError>
        ensures { IfOk result (λ declaration. declaration ≡ self.now) }
    {
        match self {
            Declaration::Named { id, name, body, at } => copy_named(alloc, id, name, body, *at),
            Declaration::Variable { id, name, sort, at } => {
                copy_variable(alloc, id, name, sort, *at)
            }
            Declaration::Partition {
                id,
                name,
                sort,
                elements,
                at,
            } => copy_partition(alloc, id, name, sort, elements.as_slice(), *at),
        }
    }
}

fn copy_named(
    alloc: Global,
    id: &Text,
    name: &Option<Text>,
    body: &SortBody,
    at: u64,
) -> Result<Declaration, AllocError>
    ensures { IfOk result (λ d. d ≡ Declaration.Named id.now name.now body.now at) }
{
    Ok(Declaration::Named {
        id: id.copy(alloc)?,
        name: copy_name(alloc, name)?,
        body: body.copy(alloc)?,
        at,
    })
}

fn copy_variable(
    alloc: Global,
    id: &Text,
    name: &Option<Text>,
    sort: &SortExpr,
    at: u64,
) -> Result<Declaration, AllocError>
    ensures { IfOk result (λ d. d ≡ Declaration.Variable id.now name.now sort.now at) }
{
    Ok(Declaration::Variable {
        id: id.copy(alloc)?,
        name: copy_name(alloc, name)?,
        sort: sort.copy(alloc)?,
        at,
    })
}

fn copy_partition(
    alloc: Global,
    id: &Text,
    name: &Option<Text>,
    sort: &SortExpr,
    elements: &[PartElement],
    at: u64,
) -> Result<Declaration, AllocError>
    ensures { IfOk result (λ d. d ≡ Declaration.Partition id.now name.now sort.now elements.now at) }
{
    Ok(Declaration::Partition {
        id: id.copy(alloc)?,
        name: copy_name(alloc, name)?,
        sort: sort.copy(alloc)?,
        elements: copy_elements(alloc, elements)?,
        at,
    })
}

impl SortBody {
    /// The same, in memory of its own.
    pub fn copy(&self, alloc: Global) -> Result<SortBody, AllocError>
        ensures { IfOk result (λ body. body ≡ self.now) }
    {
        match self {
            SortBody::Plain(sort) => Ok(SortBody::Plain(sort.copy(alloc)?)),
            SortBody::Finite(constants) => {
                Ok(SortBody::Finite(copy_constants(alloc, constants.as_slice())?))
            }
            SortBody::Cyclic(constants) => {
                Ok(SortBody::Cyclic(copy_constants(alloc, constants.as_slice())?))
            }
        }
    }
}

impl Constant {
    /// The same constant, in memory of its own.
    pub fn copy(&self, alloc: Global) -> Result<Constant, AllocError>
        ensures { IfOk result (λ constant. constant ≡ self.now) }
    {
        Ok(Constant {
            id: self.id.copy(alloc)?,
            name: copy_name(alloc, &self.name)?,
            at: self.at,
        })
    }
}

impl ConstExpr {
    /// The same value, in memory of its own.
    pub fn copy(&self, alloc: Global) -> Result<ConstExpr, AllocError>
        ensures { IfOk result (λ expr. expr ≡ self.now) }
    {
        match self {
            ConstExpr::Named { id, at } => Ok(ConstExpr::Named {
                id: id.copy(alloc)?,
                at: *at,
            }),
            ConstExpr::Range {
                value,
                start,
                end,
                at,
            } => Ok(ConstExpr::Range {
                value: *value,
                start: *start,
                end: *end,
                at: *at,
            }),
        }
    }
}

impl PartElement {
    /// The same element, in memory of its own.
    pub fn copy(&self, alloc: Global) -> Result<PartElement, AllocError>
        ensures { IfOk result (λ element. element ≡ self.now) }
    {
        Ok(PartElement {
            id: self.id.copy(alloc)?,
            name: copy_name(alloc, &self.name)?,
            values: copy_values(alloc, self.values.as_slice())?,
            at: self.at,
        })
    }
}

fn copy_name(alloc: Global, name: &Option<Text>) -> Result<Option<Text>, AllocError>
    ensures { IfOk result (λ copied. copied ≡ name.now) }
{
    match name {
        Some(text) => Ok(Some(text.copy(alloc)?)),
        None => Ok(None),
    }
}

fn copy_constants(alloc: Global, constants: &[Constant]) -> Result<Items<Constant>, AllocError>
    ensures { IfOk result (λ all. all ≡ constants.now) }
{
    let mut all = Items::new(alloc);
    for constant in constants {
        all.push(constant.copy(alloc)?)?;
    }
    Ok(all)
}

fn copy_values(alloc: Global, values: &[ConstExpr]) -> Result<Items<ConstExpr>, AllocError>
    ensures { IfOk result (λ all. all ≡ values.now) }
{
    let mut all = Items::new(alloc);
    for value in values {
        all.push(value.copy(alloc)?)?;
    }
    Ok(all)
}

fn copy_elements(alloc: Global, elements: &[PartElement]) -> Result<Items<PartElement>, AllocError>
    ensures { IfOk result (λ all. all ≡ elements.now) }
{
    let mut all = Items::new(alloc);
    for element in elements {
        all.push(element.copy(alloc)?)?;
    }
    Ok(all)
}
