//! The names that a term leaves free.

ghost use Rattle.std.specs.Prelude.{◌≡◌, ◌∷◌, ◌++◌, [], map, OnOk};
ghost use Rattle.asp_model.specs.Term.{has_text};
ghost use Rattle.asp_model.specs.Shapes.{tree_of};
ghost use Rattle.code_compiler.specs.Slots.{bound_in};
ghost use Rattle.code_compiler.specs.Free.{free_below, free_in, with_free};
ghost use Rattle.code_compiler.specs.Parts.{bodies_below, fields_below, terms_below};
ghost use Rattle.code_table.specs.Parts.{body_tree};

use asp_model::{Label, Method, Term, Word};
use std::alloc::{AllocError, Global};

fn is_among(name: &Word, names: &[Word]) -> bool
    ensures among { result ≡ has_text name.now names.now }
{
    for other in names {
        if name == other {
            return true;
        }
    }
    false
}

fn note_free(
    alloc: Global,
    bound: &[Word],
    found: &mut Vec<Word>,
    name: &Word,
) -> Result<(), AllocError>
    ensures found { OnOk result
        (found.new.items ≡ with_free bound.now found.old.items name.now) }
{
    if !is_among(name, bound) && !is_among(name, found) {
        found.push(name.copy(alloc)?)?;
    }
    Ok(())
}

/// Adds the names that a term leaves free, in text order, each once.
#[cycle(free)]
#[tactic(auto, using(crate::proofs::FreeLemmas::free_laws))]
pub fn note_term(
    alloc: Global,
    bound: &mut Vec<Word>,
    found: &mut Vec<Word>,
    term: &Term,
) -> Result<(), AllocError>
    ensures found { OnOk result
        (found.new.items ≡ free_in bound.old.items found.old.items (tree_of term.now)) }
    ensures bound { OnOk result (bound.new.items ≡ bound.old.items) }
{
    match term {
        Term::Loc(_, _)
        | Term::Hole(_)
        | Term::Number(_, _)
        | Term::Serve(_, _)
        | Term::Pending(_, _)
        | Term::Echo(_, _) => Ok(()),
        Term::Var(name, _) => note_free(alloc, bound, found, name),
        Term::Make {
            fields,
            methods,
            ..
        } => {
            note_fields(alloc, bound, found, fields)?;
            note_methods(alloc, bound, found, methods)
        }
        Term::Call(receiver, _, arguments, _) => {
            note_term(alloc, bound, found, receiver)?;
            note_all(alloc, bound, found, arguments)
        }
        Term::Let(name, binding, body, _) => {
            note_term(alloc, bound, found, binding)?;
            note_let(alloc, bound, found, name, body)
        }
        Term::Steps(terms, _) | Term::Group(terms, _) => note_all(alloc, bound, found, terms),
        Term::Get(a, _, _)
        | Term::Clone(a, _)
        | Term::Active(a, _, _)
        | Term::Repeat(a, _)
        | Term::Print(a, _)
        | Term::Size(a, _)
        | Term::WaitAll(a, _) => note_term(alloc, bound, found, a),
        Term::Put(a, _, b, _)
        | Term::Operate(_, a, b, _)
        | Term::Scatter(a, _, b, _)
        | Term::Member(a, b, _) => {
            note_term(alloc, bound, found, a)?;
            note_term(alloc, bound, found, b)
        }
        Term::If(test, first, second, _) => {
            note_term(alloc, bound, found, test)?;
            note_term(alloc, bound, found, first)?;
            note_term(alloc, bound, found, second)
        }
    }
}

#[cycle(free)]
fn note_let(
    alloc: Global,
    bound: &mut Vec<Word>,
    found: &mut Vec<Word>,
    name: &Word,
    body: &Term,
) -> Result<(), AllocError>
    ensures found { let inner = bound.old.items ++ name.now ∷ [] in OnOk result
        (found.new.items ≡ free_in inner found.old.items (tree_of body.now)) }
    ensures bound { OnOk result (bound.new.items ≡ bound.old.items) }
{
    bound.push(name.copy(alloc)?)?;
    note_term(alloc, bound, found, body)?;
    bound.pop();
    Ok(())
}

#[cycle(free)]
fn note_all(
    alloc: Global,
    bound: &mut Vec<Word>,
    found: &mut Vec<Word>,
    terms: &[Term],
) -> Result<(), AllocError>
    ensures found { OnOk result
        (found.new.items ≡ free_below bound.old.items found.old.items [] (terms_below terms.now)) }
    ensures bound { OnOk result (bound.new.items ≡ bound.old.items) }
{
    for term in terms {
        note_term(alloc, bound, found, term)?;
    }
    Ok(())
}

#[cycle(free)]
fn note_fields(
    alloc: Global,
    bound: &mut Vec<Word>,
    found: &mut Vec<Word>,
    fields: &[(Label, Term)],
) -> Result<(), AllocError>
    ensures found { OnOk result
        (found.new.items ≡ free_below bound.old.items found.old.items [] (fields_below fields.now)) }
    ensures bound { OnOk result (bound.new.items ≡ bound.old.items) }
{
    for (_, term) in fields {
        note_term(alloc, bound, found, term)?;
    }
    Ok(())
}

#[cycle(free)]
fn note_methods(
    alloc: Global,
    bound: &mut Vec<Word>,
    found: &mut Vec<Word>,
    methods: &[Method],
) -> Result<(), AllocError>
    ensures found { let bodies = bodies_below methods.now in OnOk result
        (found.new.items ≡ free_below bound.old.items found.old.items (map bound_in methods.now) bodies) }
    ensures bound { OnOk result (bound.new.items ≡ bound.old.items) }
{
    for method in methods {
        note_method(alloc, bound, found, method)?;
    }
    Ok(())
}

#[cycle(free)]
fn note_method(
    alloc: Global,
    bound: &mut Vec<Word>,
    found: &mut Vec<Word>,
    method: &Method,
) -> Result<(), AllocError>
    ensures found { let inner = bound.old.items ++ bound_in method.now in OnOk result
        (found.new.items ≡ free_in inner found.old.items (body_tree method.now)) }
    ensures bound { OnOk result (bound.new.items ≡ bound.old.items) }
{
    let height = bound.len();
    push_head(alloc, bound, method)?;
    note_term(alloc, bound, found, &method.body)?;
    bound.truncate(height);
    Ok(())
}

/// Adds the names that a method binds in its body.
pub fn push_head(alloc: Global, names: &mut Vec<Word>, method: &Method) -> Result<(), AllocError>
    ensures names { OnOk result (names.new.items ≡ names.old.items ++ bound_in method.now) }
{
    names.push(method.slf.copy(alloc)?)?;
    push_words(alloc, names, &method.parameters)
}

pub fn push_words(alloc: Global, names: &mut Vec<Word>, words: &[Word]) -> Result<(), AllocError>
    ensures names { OnOk result (names.new.items ≡ names.old.items ++ words.now) }
{
    for word in words {
        names.push(word.copy(alloc)?)?;
    }
    Ok(())
}
