//! The parts of nodes that hold no term.
#![tactic(auto, using(crate::proofs::WritingLemmas::writing))]

ghost use Rattle.std.specs.Prelude.{◌∷◌, [], ◌++◌, OnOk, map, replicate};
ghost use Rattle.asp_model.specs.Shapes.{sign_shape};
ghost use Rattle.syntax_tokens.specs.declared.token.Token.TheVariants as tokens;
ghost use Rattle.asp_print.specs.Tokens.{access_tokens, between, head_tokens, led_by, service_tokens, sign_of, word_tokens};
ghost use Rattle.asp_print.specs.Parts.{Writes, head_of, label_piece, label_text, name_piece};

use crate::text::{Point, put, put_lead, put_name, put_point, put_quoted, put_times};
use asp_model::{Label, Method, Sign, Word};
use std::alloc::AllocError;

pub fn put_sign(text: &mut String, sign: Sign) -> Result<(), AllocError>
    ensures { OnOk result (Writes text.old (sign_of (sign_shape sign) ∷ []) text.new) }
{
    match sign {
        Sign::Add => put(text, "+"),
        Sign::Subtract => put(text, "-"),
        Sign::Multiply => put(text, "*"),
        Sign::Divide => put(text, "/"),
        Sign::Remainder => put(text, "%"),
        Sign::Less => put(text, "<"),
        Sign::Equal => put(text, "=="),
    }
}

/// Writes a label behind an object.
pub fn put_access(text: &mut String, label: &Label) -> Result<(), AllocError>
    ensures { OnOk result (Writes text.old (access_tokens label.now.text []) text.new) }
{
    put(text, ".")?;
    put_name(text, &label.text)
}

/// Writes the label of a field that gets a value, and its `:=`.
pub fn put_target(text: &mut String, label: &Label, left: u32) -> Result<(), AllocError>
    ensures { let closed = replicate left tokens.Close ++ tokens.Assign ∷ [] in
        OnOk result (Writes text.old (access_tokens label.now.text [] ++ closed) text.new) }
{
    put_access(text, label)?;
    put_times(text, Point::Close, left)?;
    put(text, ":=")
}

/// Writes the label of a method that is called, and opens the arguments.
pub fn put_method(text: &mut String, label: &Label) -> Result<(), AllocError>
    ensures { let opened = access_tokens label.now.text [] ++ tokens.Open ∷ [] in
        OnOk result (Writes text.old opened text.new) }
{
    put_access(text, label)?;
    put_point(text, Point::Open)
}

/// Writes the label of the method that an activity begins with, if one is named.
pub fn put_service(text: &mut String, service: &Option<Label>) -> Result<(), AllocError>
    ensures { OnOk result (Writes text.old (service_tokens (label_text service.now)) text.new) }
{
    match service {
        Some(label) => {
            put_point(text, Point::Comma)?;
            put_name(text, &label.text)
        }
        None => Ok(()),
    }
}

/// Writes what stands before the first term of a `scatter`.
pub fn put_scatter(text: &mut String) -> Result<(), AllocError>
    ensures { OnOk result (Writes text.old (tokens.Scatter ∷ tokens.Open ∷ []) text.new) }
{
    put(text, "scatter")?;
    put_point(text, Point::Open)
}

/// Writes what stands before the group of a `member`.
pub fn put_member(text: &mut String) -> Result<(), AllocError>
    ensures { OnOk result (Writes text.old (tokens.Member ∷ tokens.Open ∷ []) text.new) }
{
    put(text, "member")?;
    put_point(text, Point::Open)
}

/// Writes a label between two terms of a `scatter`.
pub fn put_between(text: &mut String, label: &Label) -> Result<(), AllocError>
    ensures { let between = tokens.Comma ∷ tokens.Name label.now.text ∷ tokens.Comma ∷ [] in
        OnOk result (Writes text.old between text.new) }
{
    put_point(text, Point::Comma)?;
    put_name(text, &label.text)?;
    put_point(text, Point::Comma)
}

/// Writes a `serve` with its labels.
pub fn put_serve(text: &mut String, labels: &[Label]) -> Result<(), AllocError>
    ensures { let inside = between tokens.Comma (map label_piece labels.now) in
        OnOk result (Writes text.old (word_tokens tokens.Serve inside) text.new) }
{
    put(text, "serve")?;
    put_point(text, Point::Open)?;
    put_labels(text, labels)?;
    put_point(text, Point::Close)
}

/// Writes a `pending` with its labels.
pub fn put_pending(text: &mut String, labels: &[Label]) -> Result<(), AllocError>
    ensures { let inside = between tokens.Comma (map label_piece labels.now) in
        OnOk result (Writes text.old (word_tokens tokens.Pending inside) text.new) }
{
    put(text, "pending")?;
    put_point(text, Point::Open)?;
    put_labels(text, labels)?;
    put_point(text, Point::Close)
}

/// Writes an `echo` with its text.
pub fn put_echo(text: &mut String, echoed: &Word) -> Result<(), AllocError>
    ensures { let inside = tokens.Text echoed.now ∷ [] in
        OnOk result (Writes text.old (word_tokens tokens.Echo inside) text.new) }
{
    put(text, "echo")?;
    put_point(text, Point::Open)?;
    put_quoted(text, echoed)?;
    put_point(text, Point::Close)
}

/// Writes what stands before the test of a choice.
pub fn put_if(text: &mut String) -> Result<(), AllocError>
    ensures { OnOk result (Writes text.old (tokens.If ∷ tokens.Open ∷ []) text.new) }
{
    put(text, "if")?;
    put_point(text, Point::Open)
}

/// Writes what stands between the test and the first branch.
pub fn put_then(text: &mut String) -> Result<(), AllocError>
    ensures { OnOk result (Writes text.old (tokens.Close ∷ tokens.BraceOpen ∷ []) text.new) }
{
    put_point(text, Point::Close)?;
    put(text, "{")
}

/// Writes what stands between the branches.
pub fn put_else(text: &mut String) -> Result<(), AllocError>
    ensures { let closed = tokens.BraceClose ∷ tokens.Else ∷ tokens.BraceOpen ∷ [] in
        OnOk result (Writes text.old closed text.new) }
{
    put(text, "}")?;
    put(text, "else")?;
    put(text, "{")
}

// Writes labels, with a comma between two.
fn put_labels(text: &mut String, labels: &[Label]) -> Result<(), AllocError>
    ensures { let pieces = between tokens.Comma (map label_piece labels.now) in
        OnOk result (Writes text.old pieces text.new) }
{
    let mut lead = None;
    for label in labels {
        put_lead(text, lead)?;
        put_name(text, &label.text)?;
        lead = Some(Point::Comma);
    }
    Ok(())
}

/// Writes a name that gets a value, and its `=`.
pub fn put_equation(text: &mut String, name: &Word) -> Result<(), AllocError>
    ensures { OnOk result (Writes text.old (tokens.Name name.now ∷ tokens.Equals ∷ []) text.new) }
{
    put_name(text, name)?;
    put(text, "=")
}

/// Writes what stands before the binding of a `let`.
pub fn put_let(text: &mut String, name: &Word) -> Result<(), AllocError>
    ensures { let named = tokens.Let ∷ tokens.Name name.now ∷ tokens.Equals ∷ [] in
        OnOk result (Writes text.old named text.new) }
{
    put(text, "let")?;
    put_equation(text, name)
}

/// Writes the head of a method, and its `=`.
pub fn put_head(text: &mut String, method: &Method) -> Result<(), AllocError>
    ensures { let head = head_tokens (head_of method.now) ++ tokens.Equals ∷ [] in
        OnOk result (Writes text.old head text.new) }
{
    put_name(text, &method.label.text)?;
    put_point(text, Point::Open)?;
    put_name(text, &method.slf)?;
    put_parameters(text, &method.parameters)?;
    put_point(text, Point::Close)?;
    put(text, "=")
}

// Writes a comma and a name for each parameter.
fn put_parameters(text: &mut String, parameters: &[Word]) -> Result<(), AllocError>
    ensures { let names = map name_piece parameters.now in
        OnOk result (Writes text.old (led_by (tokens.Comma ∷ []) tokens.Comma names) text.new) }
{
    for parameter in parameters {
        put_point(text, Point::Comma)?;
        put_name(text, parameter)?;
    }
    Ok(())
}
