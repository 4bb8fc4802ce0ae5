//! What is written, in few words: each node with its parts in brackets, and its offset behind `@`.

use itoa::Buffer;
use pn_faults::Fault;
use pn_operators::op_name;
use pn_syntax::{
    ConstExpr, Constant, Declaration, NumberSort, PartElement, SortBody, SortExpr, SortNode, Term,
    TermNode,
};
use pn_text::Text;
use std::alloc::AllocError;

fn put_signed(text: &mut String, number: i64) -> Result<(), AllocError> {
    let mut digits = Buffer::new();
    text.push_str(digits.format(number))
}

/// The end of a node.
fn put_at(text: &mut String, at: u64) -> Result<(), AllocError> {
    let mut digits = Buffer::new();
    text.push_str(")@")?;
    text.push_str(digits.format(at))
}

fn put_range(text: &mut String, start: i64, end: i64) -> Result<(), AllocError> {
    put_signed(text, start)?;
    text.push_str(" ")?;
    put_signed(text, end)
}

/// A value with its range.
fn put_value(text: &mut String, value: i64, start: i64, end: i64) -> Result<(), AllocError> {
    put_signed(text, value)?;
    text.push_str(" ")?;
    put_range(text, start, end)
}

/// An id, and a name behind `=` where there is one.
fn put_id(text: &mut String, id: &Text, name: &Option<Text>) -> Result<(), AllocError> {
    text.push_str(id.as_str())?;
    match name {
        Some(name) => {
            text.push_str("=")?;
            text.push_str(name.as_str())
        }
        None => Ok(()),
    }
}

#[cycle(put_sort)]
pub(crate) fn put_sort(text: &mut String, sort: &SortExpr) -> Result<(), AllocError> {
    put_sort_node(text, &sort.node)?;
    put_at(text, sort.at)
}

#[cycle(put_sort)]
fn put_sort_node(text: &mut String, node: &SortNode) -> Result<(), AllocError> {
    match node {
        SortNode::Dot => text.push_str("dot("),
        SortNode::Bool => text.push_str("bool("),
        SortNode::Range { start, end } => {
            text.push_str("range(")?;
            put_range(text, *start, *end)
        }
        SortNode::Product(parts) => {
            text.push_str("product(")?;
            put_sorts(text, parts.as_slice())
        }
        SortNode::User(name) => {
            text.push_str("user(")?;
            text.push_str(name.as_str())
        }
        SortNode::Integer => text.push_str("integer("),
        SortNode::Natural => text.push_str("natural("),
        SortNode::Positive => text.push_str("positive("),
        SortNode::Text => text.push_str("string("),
        SortNode::List(item) => {
            text.push_str("list(")?;
            put_sort(text, item.get())
        }
    }
}

#[cycle(put_sort)]
fn put_sorts(text: &mut String, sorts: &[SortExpr]) -> Result<(), AllocError> {
    for sort in sorts {
        text.push_str(" ")?;
        put_sort(text, sort)?;
    }
    Ok(())
}

#[cycle(put_term)]
pub(crate) fn put_term(text: &mut String, term: &Term) -> Result<(), AllocError> {
    put_term_node(text, &term.node)?;
    put_at(text, term.at)
}

#[cycle(put_term)]
fn put_term_node(text: &mut String, node: &TermNode) -> Result<(), AllocError> {
    match node {
        TermNode::Variable(name) => put_word(text, "variable(", name.as_str()),
        TermNode::UserOp(name) => put_word(text, "constant(", name.as_str()),
        TermNode::Bool(truth) => text.push_str(if *truth { "true(" } else { "false(" }),
        TermNode::Number { value, sort } => {
            text.push_str(number_word(*sort))?;
            put_signed(text, *value)
        }
        TermNode::RangeConst { value, start, end } => {
            text.push_str("range(")?;
            put_value(text, *value, *start, *end)
        }
        TermNode::Text(value) => put_word(text, "text(", value.as_str()),
        TermNode::All(sort) => put_of_sort(text, "all(", sort),
        TermNode::Empty(sort) => put_of_sort(text, "empty(", sort),
        TermNode::EmptyList(sort) => put_of_sort(text, "emptylist(", sort),
        TermNode::PartitionOf { partition, arg } => {
            put_word(text, "of(", partition.as_str())?;
            text.push_str(" ")?;
            put_term(text, arg.get())
        }
        TermNode::Apply { op, args } => {
            text.push_str(op_name(*op))?;
            text.push_str("(")?;
            put_terms(text, args.as_slice())
        }
    }
}

#[cycle(put_term)]
fn put_terms(text: &mut String, terms: &[Term]) -> Result<(), AllocError> {
    for term in terms {
        text.push_str(" ")?;
        put_term(text, term)?;
    }
    Ok(())
}

fn put_word(text: &mut String, word: &str, name: &str) -> Result<(), AllocError> {
    text.push_str(word)?;
    text.push_str(name)
}

fn put_of_sort(text: &mut String, word: &str, sort: &SortExpr) -> Result<(), AllocError> {
    text.push_str(word)?;
    put_sort(text, sort)
}

fn number_word(sort: NumberSort) -> &'static str {
    match sort {
        NumberSort::Integer => "integer(",
        NumberSort::Natural => "natural(",
        NumberSort::Positive => "positive(",
    }
}

pub(crate) fn put_declarations(
    text: &mut String,
    declarations: &[Declaration],
) -> Result<(), AllocError> {
    text.push_str("(")?;
    for declaration in declarations {
        text.push_str(" ")?;
        put_declaration(text, declaration)?;
    }
    text.push_str(")")
}

fn put_declaration(text: &mut String, declaration: &Declaration) -> Result<(), AllocError> {
    match declaration {
        Declaration::Named { id, name, body, at } => {
            text.push_str("named(")?;
            put_id(text, id, name)?;
            put_body(text, body)?;
            put_at(text, *at)
        }
        Declaration::Variable { id, name, sort, at } => {
            text.push_str("variable(")?;
            put_id(text, id, name)?;
            put_of_sort(text, " ", sort)?;
            put_at(text, *at)
        }
        Declaration::Partition {
            id,
            name,
            sort,
            elements,
            at,
        } => {
            text.push_str("partition(")?;
            put_id(text, id, name)?;
            put_of_sort(text, " ", sort)?;
            put_parts(text, elements.as_slice())?;
            put_at(text, *at)
        }
    }
}

fn put_body(text: &mut String, body: &SortBody) -> Result<(), AllocError> {
    match body {
        SortBody::Plain(sort) => put_of_sort(text, " ", sort),
        SortBody::Finite(constants) => {
            text.push_str(" finite")?;
            put_constants(text, constants.as_slice())
        }
        SortBody::Cyclic(constants) => {
            text.push_str(" cyclic")?;
            put_constants(text, constants.as_slice())
        }
    }
}

fn put_constants(text: &mut String, constants: &[Constant]) -> Result<(), AllocError> {
    for constant in constants {
        text.push_str(" (")?;
        put_id(text, &constant.id, &constant.name)?;
        put_at(text, constant.at)?;
    }
    Ok(())
}

fn put_parts(text: &mut String, parts: &[PartElement]) -> Result<(), AllocError> {
    for part in parts {
        text.push_str(" (")?;
        put_id(text, &part.id, &part.name)?;
        put_values(text, part.values.as_slice())?;
        put_at(text, part.at)?;
    }
    Ok(())
}

fn put_values(text: &mut String, values: &[ConstExpr]) -> Result<(), AllocError> {
    for value in values {
        text.push_str(" ")?;
        put_listed(text, value)?;
    }
    Ok(())
}

fn put_listed(text: &mut String, value: &ConstExpr) -> Result<(), AllocError> {
    match value {
        ConstExpr::Named { id, at } => {
            put_word(text, "constant(", id.as_str())?;
            put_at(text, *at)
        }
        ConstExpr::Range {
            value,
            start,
            end,
            at,
        } => {
            text.push_str("range(")?;
            put_value(text, *value, *start, *end)?;
            put_at(text, *at)
        }
    }
}

/// The words, the offset and the detail of a fault.
pub(crate) fn put_fault(text: &mut String, fault: &Fault) -> Result<(), AllocError> {
    let mut digits = Buffer::new();
    text.push_str(fault.reason.words())?;
    text.push_str("@")?;
    text.push_str(digits.format(fault.at))?;
    text.push_str(" ")?;
    text.push_str(fault.detail.as_str())
}
