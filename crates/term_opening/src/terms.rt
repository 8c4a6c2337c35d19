//! Terms whose places get names.
#![tactic(auto, using(crate::proofs::NotedLemmas::noted_laws))]

ghost use Rattle.std.specs.Prelude.{◌≡◌, [], map, IfOk, OnOk};
ghost use Rattle.std.specs.Option.{option_map};
ghost use Rattle.asp_model.specs.Shapes.{tree_of};
ghost use Rattle.code_compiler.specs.Parts.{bodies_below, fields_below, terms_below};
ghost use Rattle.code_compiler.specs.Slots.{bound_in};
ghost use Rattle.code_table.specs.Parts.{body_tree, field_label, field_tree, method_head};
ghost use Rattle.code_table.specs.Tables.{text_of};
ghost use Rattle.term_opening.specs.Naming.{noted, noted_below, with_names};
ghost use Rattle.term_opening.specs.Named.{named_body, named_field, named_term};

use crate::naming::Naming;
use asp_model::{Label, Mark, Method, Term, Word};
use std::alloc::{AllocError, Global};

/// The term with variables in its places. Its places and names are noted.
#[cycle(naming)]
pub fn name_term(alloc: Global, naming: &mut Naming, term: &Term) -> Result<Term, AllocError>
    ensures noted { OnOk result (naming.new ≡ noted naming.old (tree_of term.now)) }
    ensures named { IfOk result (λ t. tree_of t ≡ named_term term.now) }
{
    match term {
        Term::Loc(place, _) => naming.variable(*place),
        Term::Hole(_) => Ok(Term::Hole(Mark::blank(alloc))),
        Term::Number(number, _) => Ok(Term::Number(*number, Mark::blank(alloc))),
        Term::Var(name, _) => {
            naming.note(name);
            let word = name.copy(alloc)?;
            Ok(Term::Var(word, Mark::blank(alloc)))
        }
        Term::Echo(text, _) => {
            let word = text.copy(alloc)?;
            Ok(Term::Echo(word, Mark::blank(alloc)))
        }
        Term::Serve(labels, _) => {
            let words = copy_labels(alloc, labels)?;
            Ok(Term::Serve(words, Mark::blank(alloc)))
        }
        Term::Pending(labels, _) => {
            let words = copy_labels(alloc, labels)?;
            Ok(Term::Pending(words, Mark::blank(alloc)))
        }
        Term::Make {
            fields,
            methods,
            ..
        } => {
            let own = name_fields(alloc, naming, fields)?;
            let bodies = name_methods(alloc, naming, methods)?;
            Ok(Term::Make {
                fields: own,
                methods: bodies,
                mark: Mark::blank(alloc),
            })
        }
        Term::Call(receiver, label, arguments, _) => {
            let one = name_boxed(alloc, naming, receiver)?;
            let others = name_all(alloc, naming, arguments)?;
            let word = label.copy(alloc)?;
            Ok(Term::Call(one, word, others, Mark::blank(alloc)))
        }
        Term::Let(name, binding, body, _) => {
            let one = name_boxed(alloc, naming, binding)?;
            naming.note(name);
            let two = name_boxed(alloc, naming, body)?;
            let word = name.copy(alloc)?;
            Ok(Term::Let(word, one, two, Mark::blank(alloc)))
        }
        Term::If(test, first, second, _) => {
            let one = name_boxed(alloc, naming, test)?;
            let two = name_boxed(alloc, naming, first)?;
            let three = name_boxed(alloc, naming, second)?;
            Ok(Term::If(one, two, three, Mark::blank(alloc)))
        }
        Term::Steps(steps, _) => {
            let others = name_all(alloc, naming, steps)?;
            Ok(Term::Steps(others, Mark::blank(alloc)))
        }
        Term::Group(members, _) => {
            let others = name_all(alloc, naming, members)?;
            Ok(Term::Group(others, Mark::blank(alloc)))
        }
        Term::Active(a, label, _) => {
            let one = name_boxed(alloc, naming, a)?;
            let word = copy_service(alloc, label)?;
            Ok(Term::Active(one, word, Mark::blank(alloc)))
        }
        Term::Get(a, label, _) => {
            let one = name_boxed(alloc, naming, a)?;
            let word = label.copy(alloc)?;
            Ok(Term::Get(one, word, Mark::blank(alloc)))
        }
        Term::Clone(a, _) => {
            let one = name_boxed(alloc, naming, a)?;
            Ok(Term::Clone(one, Mark::blank(alloc)))
        }
        Term::Repeat(a, _) => {
            let one = name_boxed(alloc, naming, a)?;
            Ok(Term::Repeat(one, Mark::blank(alloc)))
        }
        Term::Print(a, _) => {
            let one = name_boxed(alloc, naming, a)?;
            Ok(Term::Print(one, Mark::blank(alloc)))
        }
        Term::Size(a, _) => {
            let one = name_boxed(alloc, naming, a)?;
            Ok(Term::Size(one, Mark::blank(alloc)))
        }
        Term::WaitAll(a, _) => {
            let one = name_boxed(alloc, naming, a)?;
            Ok(Term::WaitAll(one, Mark::blank(alloc)))
        }
        Term::Put(a, label, b, _) => {
            let one = name_boxed(alloc, naming, a)?;
            let two = name_boxed(alloc, naming, b)?;
            let word = label.copy(alloc)?;
            Ok(Term::Put(one, word, two, Mark::blank(alloc)))
        }
        Term::Scatter(a, label, b, _) => {
            let one = name_boxed(alloc, naming, a)?;
            let two = name_boxed(alloc, naming, b)?;
            let word = label.copy(alloc)?;
            Ok(Term::Scatter(one, word, two, Mark::blank(alloc)))
        }
        Term::Operate(sign, a, b, _) => {
            let one = name_boxed(alloc, naming, a)?;
            let two = name_boxed(alloc, naming, b)?;
            Ok(Term::Operate(*sign, one, two, Mark::blank(alloc)))
        }
        Term::Member(a, b, _) => {
            let one = name_boxed(alloc, naming, a)?;
            let two = name_boxed(alloc, naming, b)?;
            Ok(Term::Member(one, two, Mark::blank(alloc)))
        }
    }
}

#[cycle(naming)]
fn name_boxed(alloc: Global, naming: &mut Naming, term: &Term) -> Result<Box<Term>, AllocError>
    ensures noted { OnOk result (naming.new ≡ noted naming.old (tree_of term.now)) }
    ensures named { IfOk result (λ b. tree_of b.value ≡ named_term term.now) }
{
    let named = name_term(alloc, naming, term)?;
    let boxed = Box::new(alloc, named)?;
    Ok(boxed)
}

#[cycle(naming)]
fn name_all(alloc: Global, naming: &mut Naming, terms: &[Term]) -> Result<Vec<Term>, AllocError>
    ensures noted { OnOk result (naming.new ≡ noted_below naming.old [] (terms_below terms.now)) }
    ensures named { IfOk result (λ v. map tree_of v.items ≡ map named_term terms.now) }
{
    let mut all = Vec::with_capacity(alloc, terms.len())?;
    for term in terms {
        all.push(name_term(alloc, naming, term)?)?;
    }
    Ok(all)
}

#[cycle(naming)]
fn name_fields(
    alloc: Global,
    naming: &mut Naming,
    fields: &[(Label, Term)],
) -> Result<Vec<(Label, Term)>, AllocError>
    ensures noted { OnOk result (naming.new ≡ noted_below naming.old [] (fields_below fields.now)) }
    ensures named { IfOk result (λ v. map field_tree v.items ≡ map named_field fields.now) }
    ensures labels { IfOk result (λ v. map field_label v.items ≡ map field_label fields.now) }
{
    let mut all = Vec::with_capacity(alloc, fields.len())?;
    for field in fields {
        let term = name_term(alloc, naming, &field.1)?;
        let label = field.0.copy(alloc)?;
        all.push((label, term))?;
    }
    Ok(all)
}

#[cycle(naming)]
fn name_methods(
    alloc: Global,
    naming: &mut Naming,
    methods: &[Method],
) -> Result<Vec<Method>, AllocError>
    ensures noted { let bodies = bodies_below methods.now in OnOk result
        (naming.new ≡ noted_below naming.old (map bound_in methods.now) bodies) }
    ensures named { IfOk result (λ v. map body_tree v.items ≡ map named_body methods.now) }
    ensures heads { IfOk result (λ v. map method_head v.items ≡ map method_head methods.now) }
{
    let mut all = Vec::with_capacity(alloc, methods.len())?;
    for method in methods {
        all.push(name_method(alloc, naming, method)?)?;
    }
    Ok(all)
}

#[cycle(naming)]
fn name_method(alloc: Global, naming: &mut Naming, method: &Method) -> Result<Method, AllocError>
    ensures noted { let inner = with_names (bound_in method.now) naming.old in OnOk result
        (naming.new ≡ noted inner (body_tree method.now)) }
    ensures named { IfOk result (λ m. body_tree m ≡ named_body method.now) }
    ensures heads { IfOk result (λ m. method_head m ≡ method_head method.now) }
{
    naming.note(&method.slf);
    note_all(naming, &method.parameters);
    let body = name_term(alloc, naming, &method.body)?;
    Ok(Method {
        label: method.label.copy(alloc)?,
        slf: method.slf.copy(alloc)?,
        parameters: copy_words(alloc, &method.parameters)?,
        body,
    })
}

fn note_all(naming: &mut Naming, names: &[Word])
    ensures names { naming.new ≡ with_names names.now naming.old }
{
    for name in names {
        naming.note(name);
    }
}

fn copy_words(alloc: Global, words: &[Word]) -> Result<Vec<Word>, AllocError>
    ensures same { IfOk result (λ v. v.items ≡ words.now) }
{
    let mut copies = Vec::with_capacity(alloc, words.len())?;
    for word in words {
        copies.push(word.copy(alloc)?)?;
    }
    Ok(copies)
}

fn copy_labels(alloc: Global, labels: &[Label]) -> Result<Vec<Label>, AllocError>
    ensures same { IfOk result (λ v. map text_of v.items ≡ map text_of labels.now) }
{
    let mut copies = Vec::with_capacity(alloc, labels.len())?;
    for label in labels {
        copies.push(label.copy(alloc)?)?;
    }
    Ok(copies)
}

fn copy_service(alloc: Global, label: &Option<Label>) -> Result<Option<Label>, AllocError>
    ensures same { IfOk result (λ o. option_map text_of o ≡ option_map text_of label.now) }
{
    match label {
        Some(label) => Ok(Some(label.copy(alloc)?)),
        None => Ok(None),
    }
}
