//! A coloured net with each label and each declaration.

ghost use Rattle.std.specs.Prelude.{◌≡◌, [], ◌∷◌, Some, IfOk};
ghost use Rattle.pn_writer_tests.specs.Coloured.{colours, variable_x, elements_of_c, parts_of_c, coloured_declarations, truth, x_itself, type_of_a, plain_label, coloured_place, guarded, coloured_arc, coloured_page, coloured_net};

use crate::nets::is_written;
use crate::parts::{sample_all, sample_user};
use crate::sample::{no_head, one, one_graphics};
use pn_objects::{Arc, Label, Net, Page, Place, Transition};
use pn_operators::Kind;
use pn_syntax::{
    ConstExpr, Constant, Declaration, PartElement, SortBody, SortExpr, Term, TermNode,
};
use pn_text::Text;
use pn_writer::tree_of;
use sqlite_items::{Boxed, Items};
use std::alloc::{AllocError, Global};
use std::test::Fail;

fn colours(alloc: Global) -> Result<Declaration, AllocError>
    ensures { IfOk result (λ d. d ≡ colours) }
{
    let constant = Constant {
        id: Text::from_str(alloc, "c1")?,
        name: None,
        at: 20,
    };
    Ok(Declaration::Named {
        id: Text::from_str(alloc, "c")?,
        name: Some(Text::from_str(alloc, "C")?),
        body: SortBody::Cyclic(one(alloc, constant)?),
        at: 21,
    })
}

fn variable_x(alloc: Global) -> Result<Declaration, AllocError>
    ensures { IfOk result (λ d. d ≡ variable_x) }
{
    Ok(Declaration::Variable {
        id: Text::from_str(alloc, "x")?,
        name: None,
        sort: sample_user(alloc)?,
        at: 22,
    })
}

fn one_element(alloc: Global) -> Result<Items<PartElement>, AllocError>
    ensures { IfOk result (λ es. es ≡ elements_of_c) }
{
    let value = ConstExpr::Named {
        id: Text::from_str(alloc, "c1")?,
        at: 23,
    };
    let element = PartElement {
        id: Text::from_str(alloc, "e")?,
        name: Some(Text::from_str(alloc, "")?),
        values: one(alloc, value)?,
        at: 24,
    };
    one(alloc, element)
}

fn parts_of_c(alloc: Global) -> Result<Declaration, AllocError>
    ensures { IfOk result (λ d. d ≡ parts_of_c) }
{
    Ok(Declaration::Partition {
        id: Text::from_str(alloc, "q")?,
        name: None,
        sort: sample_user(alloc)?,
        elements: one_element(alloc)?,
        at: 25,
    })
}

fn three_declarations(alloc: Global) -> Result<Items<Declaration>, AllocError>
    ensures { IfOk result (λ ds. ds ≡ coloured_declarations.value) }
{
    let mut items = one(alloc, colours(alloc)?)?;
    items.push(variable_x(alloc)?)?;
    items.push(parts_of_c(alloc)?)?;
    Ok(items)
}

fn coloured_declarations(alloc: Global) -> Result<Label<Items<Declaration>>, AllocError>
    ensures { IfOk result (λ l. l ≡ coloured_declarations) }
{
    Ok(Label {
        value: three_declarations(alloc)?,
        text: Some(Text::from_str(alloc, "")?),
        opaque: one_graphics(alloc)?,
        at: 26,
    })
}

fn x_itself(alloc: Global) -> Result<Term, AllocError>
    ensures { IfOk result (λ t. t ≡ x_itself) }
{
    Ok(Term {
        at: 28,
        node: TermNode::Variable(Text::from_str(alloc, "x")?),
    })
}

fn truth() -> Term
    ensures { result ≡ truth }
{
    Term {
        at: 27,
        node: TermNode::Bool(true),
    }
}

fn type_of_a(alloc: Global) -> Result<Boxed<Label<SortExpr>>, AllocError>
    ensures { IfOk result (λ l. l ≡ type_of_a) }
{
    Boxed::new(
        alloc,
        Label {
            value: sample_user(alloc)?,
            text: Some(Text::from_str(alloc, "C")?),
            opaque: one_graphics(alloc)?,
            at: 29,
        },
    )
}

fn plain_label(alloc: Global, term: Term) -> Result<Boxed<Label<Term>>, AllocError>
    ensures { IfOk result (λ l. l ≡ plain_label term) }
{
    Boxed::new(
        alloc,
        Label {
            value: term,
            text: None,
            opaque: Items::new(alloc),
            at: 30,
        },
    )
}

fn coloured_place(alloc: Global) -> Result<Place, AllocError>
    ensures { IfOk result (λ p. p ≡ coloured_place) }
{
    Ok(Place {
        id: Text::from_str(alloc, "a")?,
        head: no_head(alloc),
        marking: None,
        sort: Some(type_of_a(alloc)?),
        hl_marking: Some(plain_label(alloc, sample_all(alloc)?)?),
        at: 31,
    })
}

fn guarded(alloc: Global) -> Result<Transition, AllocError>
    ensures { IfOk result (λ t. t ≡ guarded) }
{
    Ok(Transition {
        id: Text::from_str(alloc, "t")?,
        head: no_head(alloc),
        condition: Some(plain_label(alloc, truth())?),
        at: 32,
    })
}

fn coloured_arc(alloc: Global) -> Result<Arc, AllocError>
    ensures { IfOk result (λ a. a ≡ coloured_arc) }
{
    Ok(Arc {
        id: Text::from_str(alloc, "u")?,
        head: no_head(alloc),
        source: Text::from_str(alloc, "a")?,
        target: Text::from_str(alloc, "t")?,
        weight: None,
        inscription: Some(plain_label(alloc, x_itself(alloc)?)?),
        at: 33,
    })
}

fn coloured_page(alloc: Global) -> Result<Page, AllocError>
    ensures { IfOk result (λ p. p ≡ coloured_page) }
{
    Ok(Page {
        id: Text::from_str(alloc, "g")?,
        head: no_head(alloc),
        declarations: Items::new(alloc),
        places: one(alloc, coloured_place(alloc)?)?,
        transitions: one(alloc, guarded(alloc)?)?,
        place_refs: Items::new(alloc),
        transition_refs: Items::new(alloc),
        arcs: one(alloc, coloured_arc(alloc)?)?,
        pages: Items::new(alloc),
        at: 34,
    })
}

fn coloured_net(alloc: Global) -> Result<Net, AllocError>
    ensures { IfOk result (λ n. n ≡ coloured_net) }
{
    Ok(Net {
        id: Text::from_str(alloc, "n")?,
        kind: Kind::Symmetric,
        prefixes: Items::new(alloc),
        head: no_head(alloc),
        declarations: one(alloc, coloured_declarations(alloc)?)?,
        pages: one(alloc, coloured_page(alloc)?)?,
        at: 35,
    })
}

#[test]
fn coloured_nets_are_written(rt: HostRuntime) -> Result<(), Fail> {
    let alloc = rt.alloc();
    let net = coloured_net(alloc)?;
    let tree = tree_of(alloc, &net)?;
    is_written(
        &rt,
        alloc,
        &tree,
        "<?xml version=\"1.0\" encoding=\"UTF-8\"?>\n\
         <pnml xmlns=\"http://www.pnml.org/version-2009/grammar/pnml\">\
         <net id=\"n\" type=\"http://www.pnml.org/version-2009/grammar/symmetricnet\">\
         <declaration><text/><structure><declarations>\
         <namedsort id=\"c\" name=\"C\"><cyclicenumeration><feconstant id=\"c1\"/></cyclicenumeration></namedsort>\
         <variabledecl id=\"x\"><usersort declaration=\"c\"/></variabledecl>\
         <partition id=\"q\"><usersort declaration=\"c\"/>\
         <partitionelement id=\"e\" name=\"\"><useroperator declaration=\"c1\"/></partitionelement></partition>\
         </declarations></structure><graphics/></declaration><page id=\"g\">\
         <place id=\"a\"><type><text>C</text><structure><usersort declaration=\"c\"/></structure><graphics/></type>\
         <hlinitialMarking><structure><all><usersort declaration=\"c\"/></all></structure></hlinitialMarking></place>\
         <transition id=\"t\"><condition><structure><booleanconstant value=\"true\"/></structure></condition></transition>\
         <arc id=\"u\" source=\"a\" target=\"t\">\
         <hlinscription><structure><variable refvariable=\"x\"/></structure></hlinscription></arc>\
         </page></net></pnml>\n",
    )
}
