//! One walk over a term, in text order.

ghost use Rattle.std.specs.Prelude.{◌≡◌, OnOk, [], map, nat_lt};
ghost use Rattle.asp_model.specs.Shapes.{tree_of};
ghost use Rattle.asp_check.specs.NameFaults.{no_names, with_name, with_names};
ghost use Rattle.asp_check.specs.Sets.{names_in};
ghost use Rattle.asp_check.specs.Walk.{names_of};
ghost use Rattle.code_table.specs.Parts.{body_tree};
ghost use Rattle.proper_terms.specs.Tests.{Leaves, Tests};
ghost use Rattle.proper_terms.specs.Fits.{bodies_below, fields_below, one_less, terms_below};
ghost use Rattle.proper_terms.specs.Walks.{bound_in, KeepsSize, left_behind, left_inside, left_over, left_steps};

use crate::bound::{bind, bind_head, unbind};
use crate::heads::check_node;
use crate::names::{empty_names, has_name};
use crate::refusal::Refusal;
use asp_model::{Label, Method, Place, Term, Word};
use std::alloc::Global;
use std::collections::BTreeSet;

/// The names that are bound where a walk is, the size that places are below, and how many more
/// holes may stand.
#[derive(Drop)]
pub struct Walk<'a> {
    alloc: Global,
    bound: BTreeSet<&'a str>,
    size: Place,
    holes: u32,
}

impl<'a> Walk<'a> {
    pub fn new(alloc: Global, size: Place, holes: u32) -> Walk<'a>
        ensures bound { bound_in result ≡ no_names }
        ensures size { result.size ≡ size }
        ensures holes { result.holes ≡ holes }
    {
        Walk {
            alloc,
            bound: empty_names(alloc),
            size,
            holes,
        }
    }

    fn visit_place(&self, place: Place) -> Result<(), Refusal>
        ensures below { Tests (nat_lt place self.now.size) result }
    {
        if place < self.size {
            Ok(())
        } else {
            Err(Refusal::Unsound)
        }
    }

    fn visit_variable(&self, name: &'a Word) -> Result<(), Refusal>
        ensures bound { Tests (bound_in self.now name.now) result }
    {
        if has_name(&self.bound, name.as_str()) {
            Ok(())
        } else {
            Err(Refusal::Unsound)
        }
    }

    fn visit_hole(&mut self) -> Result<(), Refusal>
        ensures bound { bound_in self.new ≡ bound_in self.old }
        ensures size { self.new.size ≡ self.old.size }
        ensures left { Leaves (one_less self.old.holes) self.new.holes result }
    {
        match self.holes.checked_sub(1) {
            Some(holes) => {
                self.holes = holes;
                Ok(())
            }
            None => Err(Refusal::Unsound),
        }
    }

    /// Walks over a term.
    #[cycle(walk)]
    #[tactic(auto, using(crate::proofs::WalkLemmas::walk_laws))]
    pub fn visit(&mut self, term: &'a Term) -> Result<(), Refusal>
        ensures bound { OnOk result (bound_in self.new ≡ bound_in self.old) }
        ensures size { OnOk result (KeepsSize self.old self.new) }
        ensures left { let left = left_behind self.old (tree_of term.entry.now) in
            Leaves left self.new.holes result }
    {
        match term {
            Term::Loc(place, _) => self.visit_place(*place),
            Term::Hole(_) => self.visit_hole(),
            Term::Var(name, _) => self.visit_variable(name),
            Term::Number(_, _) | Term::Serve(_, _) | Term::Pending(_, _) | Term::Echo(_, _) => {
                Ok(())
            }
            Term::Make {
                fields,
                methods,
                ..
            } => {
                check_node(self.alloc, fields, methods)?;
                self.visit_fields(fields)?;
                self.visit_methods(methods)
            }
            Term::Call(receiver, _, arguments, _) => {
                self.visit(receiver)?;
                self.visit_all(arguments)
            }
            Term::Let(name, binding, body, _) => {
                self.visit(binding)?;
                self.visit_let(name, body)
            }
            Term::Steps(terms, _) => self.visit_steps(terms),
            Term::Group(terms, _) => self.visit_all(terms),
            Term::Get(a, _, _)
            | Term::Clone(a, _)
            | Term::Active(a, _, _)
            | Term::Repeat(a, _)
            | Term::Print(a, _)
            | Term::Size(a, _)
            | Term::WaitAll(a, _) => self.visit(a),
            Term::Put(a, _, b, _)
            | Term::Operate(_, a, b, _)
            | Term::Scatter(a, _, b, _)
            | Term::Member(a, b, _) => {
                self.visit(a)?;
                self.visit(b)
            }
            Term::If(test, first, second, _) => {
                self.visit(test)?;
                self.visit(first)?;
                self.visit(second)
            }
        }
    }

    // A sequence has two terms or more.
    #[cycle(walk)]
    fn visit_steps(&mut self, terms: &'a [Term]) -> Result<(), Refusal>
        ensures bound { OnOk result (bound_in self.new ≡ bound_in self.old) }
        ensures size { OnOk result (KeepsSize self.old self.new) }
        ensures left { let left = left_steps self.old (terms_below terms.entry.now) in
            Leaves left self.new.holes result }
    {
        if terms.len() < 2 {
            return Err(Refusal::Unsound);
        }
        self.visit_all(terms)
    }

    #[cycle(walk)]
    fn visit_all(&mut self, terms: &'a [Term]) -> Result<(), Refusal>
        ensures bound { OnOk result (bound_in self.new ≡ bound_in self.old) }
        ensures size { OnOk result (KeepsSize self.old self.new) }
        ensures left { let left = left_over self.old [] (terms_below terms.entry.now) in
            Leaves left self.new.holes result }
    {
        for term in terms {
            self.visit(term)?;
        }
        Ok(())
    }

    #[cycle(walk)]
    fn visit_fields(&mut self, fields: &'a [(Label, Term)]) -> Result<(), Refusal>
        ensures bound { OnOk result (bound_in self.new ≡ bound_in self.old) }
        ensures size { OnOk result (KeepsSize self.old self.new) }
        ensures left { let left = left_over self.old [] (fields_below fields.entry.now) in
            Leaves left self.new.holes result }
    {
        for (_, term) in fields {
            self.visit(term)?;
        }
        Ok(())
    }

    #[cycle(walk)]
    fn visit_methods(&mut self, methods: &'a [Method]) -> Result<(), Refusal>
        ensures bound { OnOk result (bound_in self.new ≡ bound_in self.old) }
        ensures size { OnOk result (KeepsSize self.old self.new) }
        ensures left { let bodies = bodies_below methods.entry.now in
            let left = left_over self.old (map names_of methods.entry.now) bodies in
            Leaves left self.new.holes result }
    {
        for method in methods {
            self.visit_method(method)?;
        }
        Ok(())
    }

    // The body of a `let`.
    #[cycle(walk)]
    fn visit_let(&mut self, name: &'a Word, body: &'a Term) -> Result<(), Refusal>
        ensures bound { OnOk result (bound_in self.new ≡ bound_in self.old) }
        ensures size { OnOk result (KeepsSize self.old self.new) }
        ensures left { let inside = with_name name.entry.now (bound_in self.old) in
            let left = left_inside inside self.old (tree_of body.entry.now) in
            Leaves left self.new.holes result }
    {
        let mut added = Vec::new(self.alloc);
        bind(&mut self.bound, &mut added, name.as_str())?;
        self.visit(body)?;
        unbind(&mut self.bound, &added);
        Ok(())
    }

    /// Walks over the body of a method.
    #[cycle(walk)]
    pub fn visit_method(&mut self, method: &'a Method) -> Result<(), Refusal>
        ensures bound { OnOk result (bound_in self.new ≡ bound_in self.old) }
        ensures size { OnOk result (KeepsSize self.old self.new) }
        ensures left { let inside = with_names (names_of method.entry.now) (bound_in self.old) in
            let left = left_inside inside self.old (body_tree method.entry.now) in
            Leaves left self.new.holes result }
    {
        let added = bind_head(self.alloc, &mut self.bound, method)?;
        self.visit(&method.body)?;
        unbind(&mut self.bound, &added);
        Ok(())
    }
}
