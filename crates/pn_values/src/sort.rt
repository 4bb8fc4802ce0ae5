ghost use Rattle.std.specs.Prelude.{◌≡◌, ◌↔◌, map, IfOk, IsTrue};
ghost use Rattle.pn_values.specs.Kin.{kin_of};

use sqlite_items::{Boxed, Items};
use std::alloc::{AllocError, Global};

/// A sort. The numbers in `Enumeration` and `Partition` are places in the list of declarations, so
/// two sorts are the same exactly where they are equal.
#[derive(Debug, Drop)]
#[cycle(sort)]
pub enum Sort {
    Dot,
    Bool,
    Enumeration(u32),
    Partition(u32),
    Range { start: i64, end: i64 },
    Product(Items<Sort>),
    Integer,
    Natural,
    Positive,
    Text,
    List(Boxed<Sort>),
}

/// How many values a sort has, capped at 2^64.
#[derive(Clone, Copy, Debug, PartialEq, Eq)]
pub enum Size {
    Finite(u128),
    Infinite,
}

impl Sort {
    /// The same sort, in memory of its own. The recursion goes by the depth of the sort.
    #[cycle(copy)]
    pub fn copy(&self, alloc: Global) -> Result<Sort, AllocError>
        ensures { IfOk result (λ sort. sort ≡ self.now) }
    {
        match self {
            Sort::Dot => Ok(Sort::Dot),
            Sort::Bool => Ok(Sort::Bool),
            Sort::Enumeration(declaration) => Ok(Sort::Enumeration(*declaration)),
            Sort::Partition(declaration) => Ok(Sort::Partition(*declaration)),
            Sort::Range { start, end } => Ok(Sort::Range {
                start: *start,
                end: *end,
            }),
            Sort::Product(parts) => Ok(Sort::Product(copy_all(alloc, parts.as_slice())?)),
            Sort::Integer => Ok(Sort::Integer),
            Sort::Natural => Ok(Sort::Natural),
            Sort::Positive => Ok(Sort::Positive),
            Sort::Text => Ok(Sort::Text),
            Sort::List(item) => Ok(Sort::List(Boxed::new(alloc, item.get().copy(alloc)?)?)),
        }
    }

    /// Whether the two sorts are the same. The recursion goes by the depth of the sorts.
    #[cycle(same)]
    pub fn is_same(&self, other: &Sort) -> bool
        ensures same { IsTrue result ↔ (self.now ≡ other.now) }
    {
        match (self, other) {
            (Sort::Dot, Sort::Dot)
            | (Sort::Bool, Sort::Bool)
            | (Sort::Integer, Sort::Integer)
            | (Sort::Natural, Sort::Natural)
            | (Sort::Positive, Sort::Positive)
            | (Sort::Text, Sort::Text) => true,
            (Sort::Enumeration(one), Sort::Enumeration(two)) => one == two,
            (Sort::Partition(one), Sort::Partition(two)) => one == two,
            (
                Sort::Range { start, end },
                Sort::Range {
                    start: from,
                    end: to,
                },
            ) => { start == from && end == to }
            (Sort::Product(parts), Sort::Product(others)) => {
                all_same(parts.as_slice(), others.as_slice())
            }
            (Sort::List(item), Sort::List(another)) => item.get().is_same(another.get()),
            _ => false,
        }
    }

    /// The sort with Integer in place of Natural and Positive throughout. The recursion goes by the
    /// depth of the sort.
    #[cycle(kin)]
    pub fn kin(&self, alloc: Global) -> Result<Sort, AllocError>
        ensures { IfOk result (λ sort. sort ≡ kin_of self.now) }
    {
        match self {
            Sort::Dot => Ok(Sort::Dot),
            Sort::Bool => Ok(Sort::Bool),
            Sort::Enumeration(declaration) => Ok(Sort::Enumeration(*declaration)),
            Sort::Partition(declaration) => Ok(Sort::Partition(*declaration)),
            Sort::Range { start, end } => Ok(Sort::Range {
                start: *start,
                end: *end,
            }),
            Sort::Product(parts) => Ok(Sort::Product(kin_of_all(alloc, parts.as_slice())?)),
            Sort::Integer | Sort::Natural | Sort::Positive => Ok(Sort::Integer),
            Sort::Text => Ok(Sort::Text),
            Sort::List(item) => Ok(Sort::List(Boxed::new(alloc, item.get().kin(alloc)?)?)),
        }
    }
}

#[cycle(copy)]
fn copy_all(alloc: Global, sorts: &[Sort]) -> Result<Items<Sort>, AllocError>
    ensures { IfOk result (λ all. all ≡ sorts.now) }
{
    let mut all = Items::new(alloc);
    for sort in sorts {
        all.push(sort.copy(alloc)?)?;
    }
    Ok(all)
}

#[cycle(same)]
fn all_same(sorts: &[Sort], others: &[Sort]) -> bool
    ensures { IsTrue result ↔ (sorts.now ≡ others.now) }
{
    if sorts.len() != others.len() {
        return false;
    }
    for i in 0..sorts.len() {
        if !sorts[i].is_same(&others[i]) {
            return false;
        }
    }
    true
}

#[cycle(kin)]
fn kin_of_all(alloc: Global, sorts: &[Sort]) -> Result<Items<Sort>, AllocError>
    ensures { IfOk result (λ all. all ≡ map kin_of sorts.now) }
{
    let mut all = Items::new(alloc);
    for sort in sorts {
        all.push(sort.kin(alloc)?)?;
    }
    Ok(all)
}
