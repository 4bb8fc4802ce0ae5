//! The faults of an element's attributes.

ghost use Rattle.std.specs.Prelude.{◌≡◌, ◌==◌, OnOk};
ghost use Rattle.std.specs.List.{list_any};
ghost use Rattle.pn_tree.specs.Views.{element_of};
ghost use Rattle.pn_shape.specs.Attributes.{unless, form_fault, rule_named, other_fault, ruled_fault, lack_fault};
ghost use Rattle.pn_shape.specs.Faults.{told, attrs_faults, lacks_faults};
ghost use Rattle.pn_shape.specs.Rules.{said_by};
ghost use Rattle.pn_shape_faults.specs.Keeping.{KeepsLower};

use crate::keep::keep;
use pn_faults::{Fault, Reason};
use pn_shape::{
    AttrRule, Form, Rule, attr_word, may_be_id, namespace, net_kind, number_in, truth_in,
};
use pn_tree::View;
use std::alloc::{AllocError, Global};

/// The reason, unless the test holds.
fn unless(right: bool, reason: Reason) -> Option<Reason>
    ensures { result ≡ unless right reason }
{
    if right { None } else { Some(reason) }
}

/// What is wrong with a value that has to be of a form.
fn form_fault(form: Form, value: &str) -> Option<Reason>
    ensures { result ≡ form_fault form value.now }
{
    match form {
        Form::Any => None,
        Form::Namespace => unless(value == namespace(), Reason::WrongNamespace),
        Form::NetType => unless(net_kind(value).is_some(), Reason::WrongNetType),
        Form::Id => unless(may_be_id(value), Reason::BadId),
        Form::Number => unless(number_in(value).is_some(), Reason::BadNumber),
        Form::Truth => unless(truth_in(value).is_some(), Reason::BadValue),
    }
}

/// What the rules say of the attribute of this name.
fn rule_named(name: &str, rules: &[AttrRule]) -> Option<AttrRule>
    ensures { result ≡ rule_named name.now rules.now }
{
    for rule in rules {
        if name == attr_word(rule.name) {
            return Some(*rule);
        }
    }
    None
}

/// Whether a name has a colon.
fn has_colon(name: &[u8]) -> bool
    ensures { result ≡ list_any (λ b. b == 58) name.now }
{
    for byte in name {
        if *byte == b':' {
            return true;
        }
    }
    false
}

/// What is wrong with an attribute that an element doesn't have of its own.
fn other_fault(name: &str, value: &str) -> Option<Reason>
    ensures { result ≡ other_fault name.now value.now }
{
    if name == "xmlns" {
        form_fault(Form::Namespace, value)
    } else {
        unless(has_colon(name.as_bytes()), Reason::UnknownAttribute)
    }
}

/// What is wrong with an attribute of an element that has these.
fn attr_fault(rules: &[AttrRule], name: &str, value: &str) -> Option<Reason>
    ensures { result ≡ ruled_fault (rule_named name.now rules.now) name.now value.now }
{
    match rule_named(name, rules) {
        Some(rule) => form_fault(rule.form, value),
        None => other_fault(name, value),
    }
}

/// Keeps the least fault of the attributes that are there.
pub(crate) fn ask_attrs(
    least: &mut Option<Fault>,
    alloc: Global,
    rule: Rule,
    view: View<'_>,
) -> Result<(), AllocError>
    ensures { OnOk result (KeepsLower least.old least.new (attrs_faults (said_by rule) (element_of view.entry))) }
{
    for i in 0..view.attr_count() {
        let (name, value) = view.attr(i);
        let reason = attr_fault(rule.attrs, name, value);
        keep(least, alloc, reason, view.at(), name)?;
    }
    Ok(())
}

/// What is wrong where this attribute is asked for.
fn lack_fault(rule: AttrRule, view: View<'_>) -> Option<Reason>
    ensures { result ≡ lack_fault (element_of view.entry).attrs rule }
{
    let is_lacking = rule.is_needed && view.find_attr(attr_word(rule.name)).is_none();
    unless(!is_lacking, Reason::MissingAttribute)
}

/// Keeps the least fault of the attributes that are not there.
pub(crate) fn ask_lacks(
    least: &mut Option<Fault>,
    alloc: Global,
    rule: Rule,
    view: View<'_>,
) -> Result<(), AllocError>
    ensures { OnOk result (KeepsLower least.old least.new (lacks_faults (said_by rule) (element_of view.entry))) }
{
    for attr in rule.attrs {
        let reason = lack_fault(*attr, view);
        keep(least, alloc, reason, view.at(), attr_word(attr.name))?;
    }
    Ok(())
}
