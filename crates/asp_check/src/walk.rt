//! One walk over a program, in text order.

ghost use Rattle.std.specs.Prelude.{◌≡◌, OnOk, [], ◌∷◌, ◌++◌, length, map, None};
ghost use Rattle.asp_model.specs.Marked.{all_marked};
ghost use Rattle.asp_model.specs.Shapes.{marked_of};
ghost use Rattle.asp_check.specs.Least.{lesser, least_of};
ghost use Rattle.asp_check.specs.Placed.{place_or, later, behind};
ghost use Rattle.asp_check.specs.NameFaults.{no_names, with_name, with_names, fault_at, unless, name_faults, name_faults_below};
ghost use Rattle.asp_check.specs.ArityFaults.{LabelArity, label_arity, service_arities, arities_in, arities_among, method_arities};
ghost use Rattle.asp_check.specs.Sets.{names_in};
ghost use Rattle.asp_check.specs.Walk.{Sees, Finds, bound_in, service_text, names_of, body_of, field_term, faults_of_all, arities_of_all, faults_of_bodies, arities_of_methods};
ghost use Rattle.asp_check.specs.declared.fault.CheckKind.TheVariants as kind;

use crate::arity::ArityPlace;
use crate::bound::{bind, bind_head, unbind};
use crate::fault::{CheckFault, CheckKind};
use crate::heads::note_object;
use crate::least::note;
use crate::names::{empty_names, has_name};
use crate::places::Places;
use asp_model::{Label, Mark, Method, Term, Word};
use std::alloc::{AllocError, Global};
use std::collections::BTreeSet;

/// What a walk has seen, and the names that are bound where it is.
#[derive(Drop)]
pub struct Walk<'a> {
    pub alloc: Global,
    pub bound: BTreeSet<&'a str>,
    pub arities: Vec<ArityPlace<'a>>,
    pub least: Option<CheckFault>,
}

impl<'a> Walk<'a> {
    pub fn new(alloc: Global) -> Walk<'a>
        ensures bound { names_in result.bound ≡ no_names }
        ensures arities { result.arities.items ≡ [] }
        ensures least { result.least ≡ None }
    {
        Walk {
            alloc,
            bound: empty_names(alloc),
            arities: Vec::new(alloc),
            least: None,
        }
    }

    fn visit_variable(&mut self, name: &'a Word, at: usize)
        ensures bound { bound_in self.new ≡ bound_in self.old }
        ensures arities { self.new.arities.items ≡ self.old.arities.items }
        ensures least { let fault = fault_at at kind.Unbound in
            Finds self.old (unless (bound_in self.old name.entry.now) fault) self.new }
    {
        if !has_name(&self.bound, name.as_str()) {
            let kind = CheckKind::Unbound;
            note(&mut self.least, CheckFault { at, kind });
        }
    }

    fn add_arity(
        &mut self,
        kind: CheckKind,
        label: &'a Label,
        arity: usize,
        at: usize,
    ) -> Result<(), AllocError>
        ensures bound { OnOk result (bound_in self.new ≡ bound_in self.old) }
        ensures arities { let place = label_arity kind label.entry.now.text arity at in
            OnOk result (Sees self.old (place ∷ []) self.new) }
        ensures least { OnOk result (self.new.least ≡ self.old.least) }
    {
        let label = label.text.as_str();
        self.arities.push(ArityPlace {
            label,
            arity,
            at,
            kind,
        })?;
        Ok(())
    }

    /// Adds the label that a `scatter` calls, with one argument each.
    fn add_scatter(&mut self, label: &'a Label, at: usize) -> Result<(), AllocError>
        ensures bound { OnOk result (bound_in self.new ≡ bound_in self.old) }
        ensures arities { let place = label_arity kind.Arity label.entry.now.text 1 at in
            OnOk result (Sees self.old (place ∷ []) self.new) }
        ensures least { OnOk result (self.new.least ≡ self.old.least) }
    {
        self.add_arity(CheckKind::Arity, label, 1, at)
    }

    /// Adds the label of the method that an activity begins with.
    fn add_service(&mut self, service: &'a Option<Label>, at: usize) -> Result<(), AllocError>
        ensures bound { OnOk result (bound_in self.new ≡ bound_in self.old) }
        ensures arities { let places = service_arities (service_text service.entry.now) at in
            OnOk result (Sees self.old places self.new) }
        ensures least { OnOk result (self.new.least ≡ self.old.least) }
    {
        match service {
            Some(label) => self.add_arity(CheckKind::ServiceArity, label, 0, at),
            None => Ok(()),
        }
    }

    /// Adds what a term has.
    #[cycle(walk)]
    #[tactic(auto, using(crate::proofs::Laws::walk_laws))]
    pub fn visit(&mut self, term: &'a Term) -> Result<(), AllocError>
        ensures bound { OnOk result (bound_in self.new ≡ bound_in self.old) }
        ensures arities { let own = arities_in (marked_of term.entry.now) in
            OnOk result (Sees self.old own self.new) }
        ensures least { let faults = name_faults (bound_in self.old) (marked_of term.entry.now) in
            OnOk result (Finds self.old faults self.new) }
    {
        match term {
            Term::Loc(_, _)
            | Term::Hole(_)
            | Term::Number(_, _)
            | Term::Serve(_, _)
            | Term::Pending(_, _)
            | Term::Echo(_, _) => Ok(()),
            Term::Var(name, mark) => {
                self.visit_variable(name, mark.at);
                Ok(())
            }
            Term::Make {
                fields,
                methods,
                mark,
            } => {
                let places = note_object(self.alloc, &mut self.least, fields, methods, mark)?;
                self.visit_fields(fields)?;
                self.visit_methods(methods, places)
            }
            Term::Call(receiver, label, arguments, mark) => {
                self.visit(receiver)?;
                let at = Places::of(mark).next();
                self.add_arity(CheckKind::Arity, label, arguments.len(), at)?;
                self.visit_all(arguments)
            }
            Term::Active(object, service, mark) => {
                self.visit(object)?;
                self.add_service(service, Places::of(mark).next())
            }
            Term::Let(name, binding, body, _) => {
                self.visit(binding)?;
                self.visit_let(name, body)
            }
            Term::Steps(terms, _) | Term::Group(terms, _) => self.visit_all(terms),
            Term::Scatter(a, label, b, mark) => {
                self.visit(a)?;
                let at = Places::of(mark).next();
                self.add_scatter(label, at)?;
                self.visit(b)
            }
            Term::Get(a, _, _)
            | Term::Clone(a, _)
            | Term::Repeat(a, _)
            | Term::Print(a, _)
            | Term::Size(a, _)
            | Term::WaitAll(a, _) => self.visit(a),
            Term::Put(a, _, b, _) | Term::Operate(_, a, b, _) | Term::Member(a, b, _) => {
                self.visit(a)?;
                self.visit(b)
            }
            Term::If(a, b, c, _) => {
                self.visit(a)?;
                self.visit(b)?;
                self.visit(c)
            }
        }
    }

    #[cycle(walk)]
    #[tactic(auto, using(crate::proofs::Laws::walk_laws))]
    fn visit_all(&mut self, terms: &'a [Term]) -> Result<(), AllocError>
        ensures bound { OnOk result (bound_in self.new ≡ bound_in self.old) }
        ensures arities { let own = arities_of_all (map marked_of terms.entry.now) in
            OnOk result (Sees self.old own self.new) }
        ensures least { OnOk result (Finds self.old
            (faults_of_all (bound_in self.old) (map marked_of terms.entry.now)) self.new) }
    {
        for term in terms {
            self.visit(term)?;
        }
        Ok(())
    }

    /// Visits the body of a `let`.
    #[cycle(walk)]
    #[tactic(auto, using(crate::proofs::Laws::walk_laws))]
    fn visit_let(&mut self, name: &'a Word, body: &'a Term) -> Result<(), AllocError>
        ensures bound { OnOk result (bound_in self.new ≡ bound_in self.old) }
        ensures arities { let own = arities_in (marked_of body.entry.now) in
            OnOk result (Sees self.old own self.new) }
        ensures least { let inside = with_name name.entry.now (bound_in self.old) in
            OnOk result (Finds self.old (name_faults inside (marked_of body.entry.now)) self.new) }
    {
        let mut added = Vec::new(self.alloc);
        bind(&mut self.bound, &mut added, name.as_str())?;
        self.visit(body)?;
        unbind(&mut self.bound, &added);
        Ok(())
    }

    #[cycle(walk)]
    #[tactic(auto, using(crate::proofs::Laws::walk_laws))]
    fn visit_fields(&mut self, fields: &'a [(Label, Term)]) -> Result<(), AllocError>
        ensures bound { OnOk result (bound_in self.new ≡ bound_in self.old) }
        ensures arities { let own = arities_of_all (map field_term fields.entry.now) in
            OnOk result (Sees self.old own self.new) }
        ensures least { OnOk result (Finds self.old
            (faults_of_all (bound_in self.old) (map field_term fields.entry.now)) self.new) }
    {
        for (_, term) in fields {
            self.visit(term)?;
        }
        Ok(())
    }

    #[cycle(walk)]
    #[tactic(auto, using(crate::proofs::Laws::walk_laws))]
    fn visit_methods(&mut self, methods: &'a [Method], places: Places<'a>) -> Result<(), AllocError>
        ensures bound { OnOk result (bound_in self.new ≡ bound_in self.old) }
        ensures arities { let own = arities_of_methods places.entry methods.entry.now in
            OnOk result (Sees self.old own self.new) }
        ensures least { let faults = faults_of_bodies (bound_in self.old) methods.entry.now in
            OnOk result (Finds self.old faults self.new) }
    {
        let mut places = places;
        for method in methods {
            let at = places.next();
            self.add_arity(CheckKind::Arity, &method.label, method.parameters.len(), at)?;
            places.skip_head(method);
            self.visit_method(method)?;
        }
        Ok(())
    }

    /// Visits the body of a method.
    #[cycle(walk)]
    #[tactic(auto, using(crate::proofs::Laws::walk_laws))]
    fn visit_method(&mut self, method: &'a Method) -> Result<(), AllocError>
        ensures bound { OnOk result (bound_in self.new ≡ bound_in self.old) }
        ensures arities { let own = arities_in (body_of method.entry.now) in
            OnOk result (Sees self.old own self.new) }
        ensures least { let inside = with_names (names_of method.entry.now) (bound_in self.old) in
            OnOk result (Finds self.old (name_faults inside (body_of method.entry.now)) self.new) }
    {
        let added = bind_head(self.alloc, &mut self.bound, method)?;
        self.visit(&method.body)?;
        unbind(&mut self.bound, &added);
        Ok(())
    }
}
