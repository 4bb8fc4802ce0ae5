//! A sort and a term.

ghost use Rattle.std.specs.Prelude.{◌≡◌, [], ◌∷◌, true, IfOk, IsSome, OnOk};
ghost use Rattle.pn_tree.specs.Building.{nothing_built};
ghost use Rattle.pn_tree.specs.Elements.{is_element};
ghost use Rattle.pn_spelling.specs.WriteSorts.{sort_element};
ghost use Rattle.pn_spelling.specs.WriteTerms.{term_element};
ghost use Rattle.pn_writer_tests.specs.Parts.{sample_range, sample_user, sample_sort, sample_number, sample_all, sample_term};

use crate::nets::is_written;
use crate::sample::one;
use pn_operators::Op;
use pn_syntax::{NumberSort, SortExpr, SortNode, Term, TermNode};
use pn_text::Text;
use pn_tree::{Builder, Tree};
use pn_writer::{sort_tree, term_tree};
use sqlite_items::Items;
use std::alloc::{AllocError, Global};
use std::test::Fail;

fn sample_range() -> SortExpr
    ensures { result ≡ sample_range }
{
    SortExpr {
        at: 2,
        node: SortNode::Range { start: -3, end: 7 },
    }
}

pub(crate) fn sample_user(alloc: Global) -> Result<SortExpr, AllocError>
    ensures { IfOk result (λ s. s ≡ sample_user) }
{
    Ok(SortExpr {
        at: 3,
        node: SortNode::User(Text::from_str(alloc, "c")?),
    })
}

/// A list of two items.
fn two<T: Drop>(alloc: Global, first: T, second: T) -> Result<Items<T>, AllocError>
    ensures { IfOk result (λ items. items ≡ first ∷ second ∷ []) }
{
    let mut items = one(alloc, first)?;
    items.push(second)?;
    Ok(items)
}

fn sample_sort(alloc: Global) -> Result<SortExpr, AllocError>
    ensures { IfOk result (λ s. s ≡ sample_sort) }
{
    Ok(SortExpr {
        at: 1,
        node: SortNode::Product(two(alloc, sample_range(), sample_user(alloc)?)?),
    })
}

fn sample_number() -> Term
    ensures { result ≡ sample_number }
{
    Term {
        at: 5,
        node: TermNode::Number {
            value: 2,
            sort: NumberSort::Positive,
        },
    }
}

pub(crate) fn sample_all(alloc: Global) -> Result<Term, AllocError>
    ensures { IfOk result (λ t. t ≡ sample_all) }
{
    Ok(Term {
        at: 6,
        node: TermNode::All(sample_user(alloc)?),
    })
}

fn sample_term(alloc: Global) -> Result<Term, AllocError>
    ensures { IfOk result (λ t. t ≡ sample_term) }
{
    Ok(Term {
        at: 4,
        node: TermNode::Apply {
            op: Op::ScalarProduct,
            args: two(alloc, sample_number(), sample_all(alloc)?)?,
        },
    })
}

fn build_sort(alloc: Global, builder: &mut Builder, sort: &SortExpr) -> Result<(), AllocError>
    requires is_new { builder.old ≡ nothing_built }
    requires fits { is_element 255 (sort_element sort.now) ≡ true }
    ensures { OnOk result (IsSome builder.new.root) }
{
    builder.begin("structure", 0)?;
    sort_tree(alloc, sort, builder)?;
    builder.end();
    Ok(())
}

fn build_term(alloc: Global, builder: &mut Builder, term: &Term) -> Result<(), AllocError>
    requires is_new { builder.old ≡ nothing_built }
    requires fits { is_element 255 (term_element term.now) ≡ true }
    ensures { OnOk result (IsSome builder.new.root) }
{
    builder.begin("structure", 0)?;
    term_tree(alloc, term, builder)?;
    builder.end();
    Ok(())
}

fn tree_of_sort(alloc: Global, sort: &SortExpr) -> Result<Tree, AllocError>
    requires { is_element 255 (sort_element sort.now) ≡ true }
{
    let mut builder = Builder::new(alloc);
    build_sort(alloc, &mut builder, sort)?;
    Ok(builder.finish())
}

fn tree_of_term(alloc: Global, term: &Term) -> Result<Tree, AllocError>
    requires { is_element 255 (term_element term.now) ≡ true }
{
    let mut builder = Builder::new(alloc);
    build_term(alloc, &mut builder, term)?;
    Ok(builder.finish())
}

#[test]
fn sorts_are_written(rt: HostRuntime) -> Result<(), Fail> {
    let alloc = rt.alloc();
    let sort = sample_sort(alloc)?;
    let tree = tree_of_sort(alloc, &sort)?;
    is_written(
        &rt,
        alloc,
        &tree,
        "<?xml version=\"1.0\" encoding=\"UTF-8\"?>\n<structure><productsort>\
         <finiteintrange start=\"-3\" end=\"7\"/><usersort declaration=\"c\"/>\
         </productsort></structure>\n",
    )
}

#[test]
fn terms_are_written(rt: HostRuntime) -> Result<(), Fail> {
    let alloc = rt.alloc();
    let term = sample_term(alloc)?;
    let tree = tree_of_term(alloc, &term)?;
    is_written(
        &rt,
        alloc,
        &tree,
        "<?xml version=\"1.0\" encoding=\"UTF-8\"?>\n<structure><scalarproduct>\
         <subterm><numberconstant value=\"2\"><positive/></numberconstant></subterm>\
         <subterm><all><usersort declaration=\"c\"/></all></subterm>\
         </scalarproduct></structure>\n",
    )
}
