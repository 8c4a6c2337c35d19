//! Terms, node by node.
#![tactic(auto, using(crate::proofs::WritingLemmas::writing))]

ghost use Rattle.std.specs.Prelude.{◌≡◌, ◌∷◌, ◌++◌, [], OnOk, map};
ghost use Rattle.std.specs.Fmt.{decimal};
ghost use Rattle.std.specs.Option.{option_map};
ghost use Rattle.asp_model.specs.Shapes.{sign_shape};
ghost use Rattle.checkpoint_text.specs.Items.{
  joined,
  label_behind,
  list_items,
  number_items,
  option_items,
  sign_number,
  signed_items,
  terms_items,
  text_items,
};
ghost use Rattle.checkpoint_text.specs.Writing.{
  Adds,
  below_items,
  field_piece,
  head_piece,
  method_piece,
  object_items,
  tree_items,
};

use crate::put::{put_labels, put_number, put_service, put_signed, put_text, put_words};
use asp_model::{Label, Method, Place, Sign, Term, Word};
use std::alloc::AllocError;

/// As many levels of a term are written. No run of a program that was read comes near.
pub const MOST_NESTED: u32 = 200;

/// Writes a term. It fails beyond `MOST_NESTED` levels, or without memory.
pub fn put_term(text: &mut String, term: &Term) -> Result<(), AllocError>
    ensures adds { OnOk result (Adds text.old (tree_items term.now) text.new) }
{
    put_level(text, term, MOST_NESTED)
}

// Writes a term of so many levels at most.
#[cycle(write)]
fn put_level(text: &mut String, term: &Term, depth: u32) -> Result<(), AllocError>
    ensures adds { OnOk result (Adds text.old (tree_items term.now) text.new) }
{
    if depth == 0 {
        return Err(AllocError);
    }
    put_node(text, term, depth - 1)
}

// Writes a node, over terms of so many levels at most.
#[cycle(write)]
#[tactic(auto, using(code_table::proofs::TermTrees::trees_are))]
fn put_node(text: &mut String, term: &Term, depth: u32) -> Result<(), AllocError>
    ensures adds { OnOk result (Adds text.old (tree_items term.now) text.new) }
{
    match term {
        Term::Loc(place, _) => put_place(text, *place),
        Term::Hole(_) => put_number(text, 1),
        Term::Var(name, _) => put_word(text, 2, name),
        Term::Number(number, _) => put_constant(text, *number),
        Term::Make {
            fields,
            methods,
            ..
        } => put_make(text, fields, methods, depth),
        Term::Get(object, label, _) => put_get(text, object, label, depth),
        Term::Put(object, label, value, _) => put_named(text, 6, object, label, value, depth),
        Term::Call(receiver, label, arguments, _) => {
            put_call(text, receiver, label, arguments, depth)
        }
        Term::Clone(object, _) => put_one(text, 8, object, depth),
        Term::Active(object, service, _) => put_active(text, object, service, depth),
        Term::Serve(labels, _) => put_asked(text, 10, labels),
        Term::Let(name, binding, body, _) => put_let(text, name, binding, body, depth),
        Term::Steps(steps, _) => put_row(text, 12, steps, depth),
        Term::If(test, first, second, _) => put_if(text, test, first, second, depth),
        Term::Repeat(body, _) => put_one(text, 14, body, depth),
        Term::Operate(sign, first, second, _) => put_operate(text, *sign, first, second, depth),
        Term::Print(printed, _) => put_one(text, 16, printed, depth),
        Term::Echo(echoed, _) => put_word(text, 17, echoed),
        Term::Group(members, _) => put_row(text, 18, members, depth),
        Term::Scatter(first, label, second, _) => put_named(text, 19, first, label, second, depth),
        Term::Size(group, _) => put_one(text, 20, group, depth),
        Term::Member(group, place, _) => put_member(text, group, place, depth),
        Term::WaitAll(group, _) => put_one(text, 22, group, depth),
        Term::Pending(labels, _) => put_asked(text, 23, labels),
    }
}

// Writes a place. No store has as many cells as 64 bits count.
fn put_place(text: &mut String, place: Place) -> Result<(), AllocError>
    ensures adds { OnOk result (Adds text.old (decimal 0 ∷ number_items place) text.new) }
{
    let Ok(place) = u64::try_from(place) else {
        return Err(AllocError);
    };
    put_number(text, 0)?;
    put_number(text, place)
}

fn put_word(text: &mut String, kind: u64, word: &Word) -> Result<(), AllocError>
    ensures adds { OnOk result (Adds text.old (decimal kind ∷ text_items word.now) text.new) }
{
    put_number(text, kind)?;
    put_text(text, word.as_str())
}

fn put_constant(text: &mut String, number: i64) -> Result<(), AllocError>
    ensures adds { OnOk result (Adds text.old (decimal 3 ∷ signed_items number) text.new) }
{
    put_number(text, 3)?;
    put_signed(text, number)
}

fn put_asked(text: &mut String, kind: u64, labels: &[Label]) -> Result<(), AllocError>
    ensures adds { let texts = map (λ l. l.text) labels.now in
        OnOk result (Adds text.old (decimal kind ∷ list_items text_items texts) text.new) }
{
    put_number(text, kind)?;
    put_labels(text, labels)
}

#[cycle(write)]
fn put_one(text: &mut String, kind: u64, only: &Term, depth: u32) -> Result<(), AllocError>
    ensures adds { let below = tree_items only.now ∷ [] in
        OnOk result (Adds text.old (decimal kind ∷ joined below) text.new) }
{
    put_number(text, kind)?;
    put_level(text, only, depth)
}

#[cycle(write)]
fn put_get(text: &mut String, object: &Term, label: &Label, depth: u32) -> Result<(), AllocError>
    ensures adds { let items = label_behind label.now.text (tree_items object.now ∷ []) joined in
        OnOk result (Adds text.old (decimal 5 ∷ items) text.new) }
{
    put_number(text, 5)?;
    put_level(text, object, depth)?;
    put_text(text, label.text.as_str())
}

// Writes two terms with a label between them.
#[cycle(write)]
fn put_named(
    text: &mut String,
    kind: u64,
    first: &Term,
    label: &Label,
    second: &Term,
    depth: u32,
) -> Result<(), AllocError>
    ensures adds { let below = tree_items first.now ∷ tree_items second.now ∷ [] in
        let items = label_behind label.now.text below joined in
        OnOk result (Adds text.old (decimal kind ∷ items) text.new) }
{
    put_number(text, kind)?;
    put_level(text, first, depth)?;
    put_text(text, label.text.as_str())?;
    put_level(text, second, depth)
}

#[cycle(write)]
fn put_call(
    text: &mut String,
    receiver: &Term,
    label: &Label,
    arguments: &[Term],
    depth: u32,
) -> Result<(), AllocError>
    ensures adds { let below = tree_items receiver.now ∷ below_items arguments.now in
        let items = label_behind label.now.text below terms_items in
        OnOk result (Adds text.old (decimal 7 ∷ items) text.new) }
{
    put_number(text, 7)?;
    put_level(text, receiver, depth)?;
    put_text(text, label.text.as_str())?;
    put_terms(text, arguments, depth)
}

#[cycle(write)]
fn put_active(
    text: &mut String,
    object: &Term,
    service: &Option<Label>,
    depth: u32,
) -> Result<(), AllocError>
    ensures adds { let found = option_map (λ l. l.text) service.now in
        let items = joined (tree_items object.now ∷ []) ++ option_items text_items found in
        OnOk result (Adds text.old (decimal 9 ∷ items) text.new) }
{
    put_number(text, 9)?;
    put_level(text, object, depth)?;
    put_service(text, service)
}

#[cycle(write)]
fn put_let(
    text: &mut String,
    name: &Word,
    binding: &Term,
    body: &Term,
    depth: u32,
) -> Result<(), AllocError>
    ensures adds { let below = tree_items binding.now ∷ tree_items body.now ∷ [] in
        OnOk result (Adds text.old (decimal 11 ∷ text_items name.now ++ joined below) text.new) }
{
    put_number(text, 11)?;
    put_text(text, name.as_str())?;
    put_level(text, binding, depth)?;
    put_level(text, body, depth)
}

#[cycle(write)]
fn put_row(text: &mut String, kind: u64, terms: &[Term], depth: u32) -> Result<(), AllocError>
    ensures adds { let below = below_items terms.now in
        OnOk result (Adds text.old (decimal kind ∷ terms_items below) text.new) }
{
    put_number(text, kind)?;
    put_terms(text, terms, depth)
}

#[cycle(write)]
fn put_if(
    text: &mut String,
    test: &Term,
    first: &Term,
    second: &Term,
    depth: u32,
) -> Result<(), AllocError>
    ensures adds { let below = tree_items first.now ∷ tree_items second.now ∷ [] in
        let items = joined (tree_items test.now ∷ below) in
        OnOk result (Adds text.old (decimal 13 ∷ items) text.new) }
{
    put_number(text, 13)?;
    put_level(text, test, depth)?;
    put_level(text, first, depth)?;
    put_level(text, second, depth)
}

#[cycle(write)]
fn put_operate(
    text: &mut String,
    sign: Sign,
    first: &Term,
    second: &Term,
    depth: u32,
) -> Result<(), AllocError>
    ensures adds { let below = tree_items first.now ∷ tree_items second.now ∷ [] in
        let number = number_items (sign_number (sign_shape sign)) in
        OnOk result (Adds text.old (decimal 15 ∷ number ++ joined below) text.new) }
{
    put_number(text, 15)?;
    put_number(text, number_of(sign))?;
    put_level(text, first, depth)?;
    put_level(text, second, depth)
}

fn number_of(sign: Sign) -> u64
    ensures number { result ≡ sign_number (sign_shape sign) }
{
    match sign {
        Sign::Add => 0,
        Sign::Subtract => 1,
        Sign::Multiply => 2,
        Sign::Divide => 3,
        Sign::Remainder => 4,
        Sign::Less => 5,
        Sign::Equal => 6,
    }
}

#[cycle(write)]
fn put_member(text: &mut String, group: &Term, place: &Term, depth: u32) -> Result<(), AllocError>
    ensures adds { let below = tree_items group.now ∷ tree_items place.now ∷ [] in
        OnOk result (Adds text.old (decimal 21 ∷ joined below) text.new) }
{
    put_number(text, 21)?;
    put_level(text, group, depth)?;
    put_level(text, place, depth)
}

#[cycle(write)]
fn put_make(
    text: &mut String,
    fields: &[(Label, Term)],
    methods: &[Method],
    depth: u32,
) -> Result<(), AllocError>
    ensures adds { OnOk result (Adds text.old (object_items fields.now methods.now) text.new) }
{
    put_number(text, 4)?;
    put_fields(text, fields, depth)?;
    put_methods(text, methods, depth)
}

#[cycle(write)]
fn put_fields(text: &mut String, fields: &[(Label, Term)], depth: u32) -> Result<(), AllocError>
    ensures adds { OnOk result (Adds text.old (list_items field_piece fields.now) text.new) }
{
    put_number(text, fields.len() as u64)?;
    for (label, term) in fields {
        put_text(text, label.text.as_str())?;
        put_level(text, term, depth)?;
    }
    Ok(())
}

#[cycle(write)]
fn put_methods(text: &mut String, methods: &[Method], depth: u32) -> Result<(), AllocError>
    ensures adds { OnOk result (Adds text.old (list_items method_piece methods.now) text.new) }
{
    put_number(text, methods.len() as u64)?;
    for method in methods {
        put_head(text, method)?;
        put_level(text, &method.body, depth)?;
    }
    Ok(())
}

// Writes a method's label, the names of self and of the parameters.
fn put_head(text: &mut String, method: &Method) -> Result<(), AllocError>
    ensures adds { OnOk result (Adds text.old (head_piece method.now) text.new) }
{
    put_text(text, method.label.text.as_str())?;
    put_text(text, method.slf.as_str())?;
    put_words(text, &method.parameters)
}

// Writes terms.
#[cycle(write)]
fn put_terms(text: &mut String, terms: &[Term], depth: u32) -> Result<(), AllocError>
    ensures adds { OnOk result (Adds text.old (terms_items (below_items terms.now)) text.new) }
{
    put_number(text, terms.len() as u64)?;
    for term in terms {
        put_level(text, term, depth)?;
    }
    Ok(())
}
