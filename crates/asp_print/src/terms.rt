//! Terms, node by node. Only levels of the text are nested.

ghost use Rattle.std.specs.Prelude.{◌≡◌, ◌++◌, OnOk, map, string_bytes};
ghost use Rattle.asp_model.specs.Shapes.{mark_shape, marked_of};
ghost use Rattle.syntax_tokens.specs.declared.token.Token.TheVariants as tokens;
ghost use Rattle.asp_print.specs.Tokens.{between, mark_of, method_part, node_tokens, service_tokens, word_tokens};
ghost use Rattle.asp_print.specs.Parts.{Writes, field_piece, label_text, method_piece, point_token, term_tokens, word_bytes};

use crate::names::{
    put_access, put_between, put_echo, put_else, put_equation, put_head, put_if, put_let,
    put_member, put_method, put_pending, put_scatter, put_serve, put_service, put_sign, put_target,
    put_then,
};
use crate::text::{Point, put, put_lead, put_name, put_number, put_point, put_times};
use asp_model::{Label, Mark, Method, Term};
use std::alloc::{AllocError, Global};

/// Writes a term, with the parentheses that its mark counts.
#[cycle(print)]
pub fn print_term(alloc: Global, text: &mut String, term: &Term) -> Result<(), AllocError>
    ensures { OnOk result (Writes text.old (term_tokens term.now) text.new) }
{
    let count = own_mark(term).parentheses;
    put_times(text, Point::Open, count)?;
    print_node(alloc, text, term)?;
    put_times(text, Point::Close, count)
}

fn own_mark(term: &Term) -> &Mark
    ensures { mark_shape result.now ≡ mark_of (marked_of term.now) }
{
    match term {
        Term::Loc(_, mark)
        | Term::Hole(mark)
        | Term::Var(_, mark)
        | Term::Number(_, mark)
        | Term::Make { mark, .. }
        | Term::Get(_, _, mark)
        | Term::Put(_, _, _, mark)
        | Term::Call(_, _, _, mark)
        | Term::Clone(_, mark)
        | Term::Active(_, _, mark)
        | Term::Serve(_, mark)
        | Term::Let(_, _, _, mark)
        | Term::Steps(_, mark)
        | Term::If(_, _, _, mark)
        | Term::Repeat(_, mark)
        | Term::Operate(_, _, _, mark)
        | Term::Print(_, mark)
        | Term::Echo(_, mark)
        | Term::Group(_, mark)
        | Term::Scatter(_, _, _, mark)
        | Term::Size(_, mark)
        | Term::Member(_, _, mark)
        | Term::WaitAll(_, mark)
        | Term::Pending(_, mark) => mark,
    }
}

// Writes a term without the parentheses round it.
#[cycle(print)]
#[tactic(auto, using(crate::proofs::NodeLemmas::nodes_are))]
fn print_node(alloc: Global, text: &mut String, term: &Term) -> Result<(), AllocError>
    ensures { OnOk result (Writes text.old (node_tokens (marked_of term.now)) text.new) }
{
    match term {
        Term::Loc(_, _) | Term::Hole(_) => Ok(()),
        Term::Var(name, _) => put_name(text, name),
        Term::Number(n, _) => put_number(alloc, text, *n),
        Term::Make {
            fields,
            methods,
            ..
        } => {
            put(text, "[")?;
            print_fields(alloc, text, fields)?;
            print_methods(alloc, text, methods)?;
            put(text, "]")
        }
        Term::Get(object, label, _) => {
            print_term(alloc, text, object)?;
            put_access(text, label)
        }
        Term::Put(object, label, value, mark) => {
            put_times(text, Point::Open, mark.left)?;
            print_term(alloc, text, object)?;
            put_target(text, label, mark.left)?;
            print_term(alloc, text, value)
        }
        Term::Call(receiver, label, arguments, _) => {
            print_term(alloc, text, receiver)?;
            put_method(text, label)?;
            print_all(alloc, text, Point::Comma, arguments)?;
            put_point(text, Point::Close)
        }
        Term::Clone(object, _) => print_word(alloc, text, "clone", object),
        Term::Active(object, service, _) => print_active(alloc, text, object, service),
        Term::Serve(labels, _) => put_serve(text, labels),
        Term::Pending(labels, _) => put_pending(text, labels),
        Term::Let(name, binding, body, _) => {
            put_let(text, name)?;
            print_term(alloc, text, binding)?;
            put(text, "in")?;
            print_term(alloc, text, body)
        }
        Term::Steps(steps, _) => print_all(alloc, text, Point::Semicolon, steps),
        Term::If(test, first, second, _) => {
            put_if(text)?;
            print_term(alloc, text, test)?;
            put_then(text)?;
            print_term(alloc, text, first)?;
            put_else(text)?;
            print_term(alloc, text, second)?;
            put(text, "}")
        }
        Term::Repeat(body, _) => print_word(alloc, text, "repeat", body),
        Term::Operate(sign, first, second, _) => {
            print_term(alloc, text, first)?;
            put_sign(text, *sign)?;
            print_term(alloc, text, second)
        }
        Term::Print(printed, _) => print_word(alloc, text, "print", printed),
        Term::Echo(echoed, _) => put_echo(text, echoed),
        Term::Group(members, _) => print_group(alloc, text, members),
        Term::Scatter(first, label, second, _) => {
            put_scatter(text)?;
            print_term(alloc, text, first)?;
            put_between(text, label)?;
            print_term(alloc, text, second)?;
            put_point(text, Point::Close)
        }
        Term::Size(group, _) => print_word(alloc, text, "size", group),
        Term::Member(group, place, _) => {
            put_member(text)?;
            print_term(alloc, text, group)?;
            put_point(text, Point::Comma)?;
            print_term(alloc, text, place)?;
            put_point(text, Point::Close)
        }
        Term::WaitAll(group, _) => print_word(alloc, text, "waitall", group),
    }
}

// Writes a word before a term in parentheses.
#[cycle(print)]
fn print_word(alloc: Global, text: &mut String, word: &str, term: &Term) -> Result<(), AllocError>
    ensures { let more = word_bytes word.now (term_tokens term.now) in
        OnOk result (string_bytes text.new ≡ string_bytes text.old ++ more) }
{
    put(text, word)?;
    put_point(text, Point::Open)?;
    print_term(alloc, text, term)?;
    put_point(text, Point::Close)
}

#[cycle(print)]
fn print_active(
    alloc: Global,
    text: &mut String,
    object: &Term,
    service: &Option<Label>,
) -> Result<(), AllocError>
    ensures { let inside = term_tokens object.now ++ service_tokens (label_text service.now) in
        OnOk result (Writes text.old (word_tokens tokens.Active inside) text.new) }
{
    put(text, "active")?;
    put_point(text, Point::Open)?;
    print_term(alloc, text, object)?;
    put_service(text, service)?;
    put_point(text, Point::Close)
}

#[cycle(print)]
fn print_group(alloc: Global, text: &mut String, members: &[Term]) -> Result<(), AllocError>
    ensures { let inside = between tokens.Comma (map term_tokens members.now) in
        OnOk result (Writes text.old (word_tokens tokens.Group inside) text.new) }
{
    put(text, "group")?;
    put_point(text, Point::Open)?;
    print_all(alloc, text, Point::Comma, members)?;
    put_point(text, Point::Close)
}

#[cycle(print)]
fn print_fields(
    alloc: Global,
    text: &mut String,
    fields: &[(Label, Term)],
) -> Result<(), AllocError>
    ensures { let pieces = between tokens.Comma (map field_piece fields.now) in
        OnOk result (Writes text.old pieces text.new) }
{
    let mut lead = None;
    for (label, term) in fields {
        put_lead(text, lead)?;
        put_equation(text, &label.text)?;
        print_term(alloc, text, term)?;
        lead = Some(Point::Comma);
    }
    Ok(())
}

#[cycle(print)]
fn print_methods(alloc: Global, text: &mut String, methods: &[Method]) -> Result<(), AllocError>
    ensures { OnOk result (Writes text.old (method_part (map method_piece methods.now)) text.new) }
{
    let mut lead = Point::Semicolon;
    for method in methods {
        put_point(text, lead)?;
        put_head(text, method)?;
        print_term(alloc, text, &method.body)?;
        lead = Point::Comma;
    }
    Ok(())
}

// Writes terms, with a point between two.
#[cycle(print)]
fn print_all(
    alloc: Global,
    text: &mut String,
    point: Point,
    terms: &[Term],
) -> Result<(), AllocError>
    ensures { let pieces = between (point_token point) (map term_tokens terms.now) in
        OnOk result (Writes text.old pieces text.new) }
{
    let mut lead = None;
    for term in terms {
        put_lead(text, lead)?;
        print_term(alloc, text, term)?;
        lead = Some(point);
    }
    Ok(())
}
