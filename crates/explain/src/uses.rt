//! Where the labels of a program stand, and what they are there.

use asp_model::{Label, Mark, Method, Term};
use std::alloc::{AllocError, Global};

/// What a label or a name is at its place.
#[derive(Clone, Copy)]
pub enum Role {
    /// The label of a field of an object.
    Field,
    /// The label of a method of an object.
    Method,
    /// The object or a parameter in a method's head.
    Parameter,
    /// The label of a call, of a `scatter`, or of the method that an activity begins with.
    Called,
    /// A label of a `serve`.
    Served,
    /// A label of a `pending`.
    Polled,
}

/// The place of a label or of a name of a method's head.
#[derive(Clone, Copy)]
pub struct LabelUse {
    pub at: usize,
    pub role: Role,
    /// The place of the object of a field or method, and of the method's label for a parameter.
    pub owner: usize,
    /// How many parameters or arguments there are, beside the object.
    pub count: usize,
}

// Those that were met, unless memory ran out.
#[derive(Drop)]
struct Uses {
    met: Vec<LabelUse>,
    is_spent: bool,
}

/// The labels of a term, in text order.
pub fn uses_in(alloc: Global, root: &Term) -> Result<Vec<LabelUse>, AllocError> {
    let mut uses = Uses {
        met: Vec::new(alloc),
        is_spent: false,
    };
    visit(&mut uses, root);
    if uses.is_spent {
        Err(AllocError)
    } else {
        Ok(uses.met)
    }
}

// The place of the label or name with this number among those of a node.
fn place(mark: &Mark, number: usize) -> usize {
    if number < mark.names.len() {
        mark.names[number]
    } else {
        mark.at
    }
}

impl Uses {
    fn add(&mut self, role: Role, at: usize, owner: usize, count: usize) {
        let met = LabelUse {
            at,
            role,
            owner,
            count,
        };
        if self.met.push(met).is_err() {
            self.is_spent = true;
        }
    }

    // The label of a call, or of the method that an activity begins with.
    fn add_called(&mut self, mark: &Mark, count: usize) {
        let at = place(mark, 0);
        self.add(Role::Called, at, at, count);
    }

    // The labels of a `serve` or a `pending`.
    fn add_labels(&mut self, role: Role, mark: &Mark) {
        for at in &mark.names {
            self.add(role, *at, *at, 0);
        }
    }

    // The label, the object and the parameters of a method, from a number on. Answers the next number.
    fn add_head(&mut self, method: &Method, mark: &Mark, first: usize) -> usize {
        let owner = place(mark, first);
        let count = method.parameters.len();
        self.add(Role::Method, owner, mark.at, count);
        let object = first.saturating_add(1);
        self.add(Role::Parameter, place(mark, object), owner, 0);
        let behind = object.saturating_add(1);
        let end = behind.saturating_add(count);
        for number in behind..end {
            self.add(Role::Parameter, place(mark, number), owner, 0);
        }
        end
    }
}

// Adds the labels of a term.
#[cycle(uses)]
fn visit(uses: &mut Uses, term: &Term) {
    match term {
        Term::Loc(_, _) | Term::Hole(_) | Term::Number(_, _) | Term::Echo(_, _) => {}
        Term::Var(_, _) => {}
        Term::Serve(_, mark) => uses.add_labels(Role::Served, mark),
        Term::Pending(_, mark) => uses.add_labels(Role::Polled, mark),
        Term::Make {
            fields,
            methods,
            mark,
        } => {
            visit_fields(uses, fields, mark);
            visit_methods(uses, methods, mark, fields.len());
        }
        Term::Call(receiver, _, arguments, mark) => {
            visit(uses, receiver);
            uses.add_called(mark, arguments.len());
            visit_all(uses, arguments);
        }
        Term::Active(object, service, mark) => {
            visit(uses, object);
            if service.is_some() {
                uses.add_called(mark, 0);
            }
        }
        Term::Scatter(a, _, b, mark) => {
            visit(uses, a);
            uses.add_called(mark, 1);
            visit(uses, b);
        }
        Term::Steps(terms, _) | Term::Group(terms, _) => visit_all(uses, terms),
        Term::Get(a, _, _)
        | Term::Clone(a, _)
        | Term::Repeat(a, _)
        | Term::Print(a, _)
        | Term::Size(a, _)
        | Term::WaitAll(a, _) => visit(uses, a),
        Term::Let(_, a, b, _)
        | Term::Put(a, _, b, _)
        | Term::Operate(_, a, b, _)
        | Term::Member(a, b, _) => {
            visit(uses, a);
            visit(uses, b);
        }
        Term::If(a, b, c, _) => {
            visit(uses, a);
            visit(uses, b);
            visit(uses, c);
        }
    }
}

#[cycle(uses)]
fn visit_all(uses: &mut Uses, terms: &[Term]) {
    for term in terms {
        visit(uses, term);
    }
}

// The labels of the fields have the first numbers of the object's.
#[cycle(uses)]
fn visit_fields(uses: &mut Uses, fields: &[(Label, Term)], mark: &Mark) {
    let mut number: usize = 0;
    for (_, term) in fields {
        uses.add(Role::Field, place(mark, number), mark.at, 0);
        number = number.saturating_add(1);
        visit(uses, term);
    }
}

// Those of the methods go on from a number.
#[cycle(uses)]
fn visit_methods(uses: &mut Uses, methods: &[Method], mark: &Mark, first: usize) {
    let mut number = first;
    for method in methods {
        number = uses.add_head(method, mark, number);
        visit(uses, &method.body);
    }
}
