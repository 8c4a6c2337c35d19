//! What the names of a term weigh. While a term is compiled, each of its names is looked up among
//! those that are bound round it and those that were met before, once for each method that it is
//! in.

use asp_model::{Label, Method, Term};

/// So many names that are looked at weigh 1.
pub const LOOKS_WEIGHT: u64 = 24;

/// A node takes as long as so many names that are looked at, once and for each method round it.
pub const NODE_LOOKS: u64 = 4;

/// So does a name in the head of a method.
pub const HEAD_LOOKS: u64 = 12;

/// So does what is kept of a name that a method captures.
pub const NAME_LOOKS: u64 = 48;

/// So long names weigh twice as much, and so on.
pub const LONG_NAME: u64 = 64;

/// A part of a term may be in at most so many methods for which there is memory.
pub const MOST_METHODS: u64 = 160;

// How many more names may be looked at, and what is round a part of a term.
#[derive(Drop)]
struct Looks {
    left: u64,
    // At most so many places differ.
    cells: u64,
    // The places that were met.
    places: u64,
    // The names that are bound.
    bound: u64,
    // The methods, and one.
    walks: u64,
}

/// What is left of a weight behind the names of a term that runs or waits, over so many cells.
pub fn behind_term(term: &Term, cells: usize, weight: u64) -> Option<u64> {
    let mut looks = Looks::new(cells, weight);
    looks.visit(term)?;
    Some(looks.left / LOOKS_WEIGHT)
}

/// What is left of a weight behind the names of an object's methods, over so many cells.
pub fn behind_methods(methods: &[Method], cells: usize, weight: u64) -> Option<u64> {
    let mut looks = Looks::new(cells, weight);
    looks.visit_methods(methods)?;
    Some(looks.left / LOOKS_WEIGHT)
}

impl Looks {
    fn new(cells: usize, weight: u64) -> Looks {
        Looks {
            left: weight.saturating_mul(LOOKS_WEIGHT),
            cells: cells as u64,
            places: 0,
            bound: 0,
            walks: 1,
        }
    }

    fn take(&mut self, looks: u64) -> Option<()> {
        let all = looks.checked_mul(self.walks)?;
        self.left = self.left.checked_sub(all)?;
        Some(())
    }

    // A name of so many bytes.
    fn meet(&mut self, length: usize) -> Option<()> {
        let met = self.places.min(self.cells);
        let names = self.bound.checked_add(met)?.checked_add(NAME_LOOKS)?;
        let times = (length as u64 / LONG_NAME).checked_add(1)?;
        self.take(names.checked_mul(times)?)
    }

    fn meet_place(&mut self) -> Option<()> {
        self.places = self.places.checked_add(1)?;
        self.meet(0)
    }

    #[cycle(visit)]
    fn visit(&mut self, term: &Term) -> Option<()> {
        self.take(NODE_LOOKS)?;
        match term {
            Term::Loc(_, _) => self.meet_place(),
            Term::Var(name, _) => self.meet(name.as_str().len()),
            Term::Hole(_)
            | Term::Number(_, _)
            | Term::Serve(_, _)
            | Term::Pending(_, _)
            | Term::Echo(_, _) => Some(()),
            Term::Make {
                fields,
                methods,
                ..
            } => {
                self.visit_fields(fields)?;
                self.visit_methods(methods)
            }
            Term::Call(receiver, _, arguments, _) => {
                self.visit(receiver)?;
                self.visit_all(arguments)
            }
            Term::Let(_, binding, body, _) => {
                self.visit(binding)?;
                self.visit_let(body)
            }
            Term::Steps(terms, _) | Term::Group(terms, _) => self.visit_all(terms),
            Term::Get(a, _, _)
            | Term::Clone(a, _)
            | Term::Active(a, _, _)
            | Term::Repeat(a, _)
            | Term::Print(a, _)
            | Term::Size(a, _)
            | Term::WaitAll(a, _) => self.visit(a),
            Term::Put(a, _, b, _)
            | Term::Operate(_, a, b, _)
            | Term::Scatter(a, _, b, _)
            | Term::Member(a, b, _) => {
                self.visit(a)?;
                self.visit(b)
            }
            Term::If(test, first, second, _) => {
                self.visit(test)?;
                self.visit(first)?;
                self.visit(second)
            }
        }
    }

    #[cycle(visit)]
    fn visit_all(&mut self, terms: &[Term]) -> Option<()> {
        for term in terms {
            self.visit(term)?;
        }
        Some(())
    }

    #[cycle(visit)]
    fn visit_fields(&mut self, fields: &[(Label, Term)]) -> Option<()> {
        for (_, term) in fields {
            self.visit(term)?;
        }
        Some(())
    }

    // The body of a `let`. The names that are bound are copied for it.
    #[cycle(visit)]
    fn visit_let(&mut self, body: &Term) -> Option<()> {
        let bound = self.bound;
        self.meet(0)?;
        self.bound = bound.checked_add(1)?;
        self.visit(body)?;
        self.bound = bound;
        Some(())
    }

    #[cycle(visit)]
    fn visit_methods(&mut self, methods: &[Method]) -> Option<()> {
        for method in methods {
            self.visit_method(method)?;
        }
        Some(())
    }

    #[cycle(visit)]
    fn visit_method(&mut self, method: &Method) -> Option<()> {
        let bound = self.bound;
        let walks = self.walks;
        if walks > MOST_METHODS {
            return None;
        }
        let own = (method.parameters.len() as u64).checked_add(1)?;
        self.take(own.checked_mul(HEAD_LOOKS)?)?;
        self.bound = bound.checked_add(own)?;
        self.walks = walks + 1;
        self.visit(&method.body)?;
        self.bound = bound;
        self.walks = walks;
        Some(())
    }
}
