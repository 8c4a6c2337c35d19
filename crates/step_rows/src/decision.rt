//! What a redex comes to.

use asp_model::Fault;
use code_table::Place;

/// What a redex with strict operands comes to.
#[derive(Clone, Copy)]
pub enum Decision {
    /// It becomes this place.
    Stays(Place),
    /// It becomes a new number.
    Number(i64),
    /// It becomes a new cell that equals the one at this place.
    Copies(Place),
    /// The object at a place gets another place in a field, and the redex becomes the object's place.
    Puts {
        object: Place,
        field: usize,
        to: Place,
    },
    /// The number at a place is printed, and the redex becomes the place.
    Prints {
        place: Place,
        number: i64,
    },
    Faults(Fault),
    /// The first strict operand that is a future.
    Needs(Place),
}
