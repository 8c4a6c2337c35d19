//! The code of a program: a table of nodes, and what it stands for. The cells of stores whose
//! objects share their code, and what passes between two activities.
#![tactic(auto)]

mod answer;
mod carried;
mod cells;
mod class;
mod code;
mod columns;
mod future;
mod keys;
mod labels;
mod laws;
mod lookup;
mod moves;
mod numbers;
mod places;
mod roots;
mod table;

pub use answer::{Answer, MOST_SHOWN};
pub use carried::Cells;
pub use cells::{Cell, Object, Parcel, Place, View};
pub use class::Class;
pub use code::{Capture, Child, Kind, Leaf, MethodCode, Node};
pub use columns::Columns;
pub use future::{Future, Sighting};
pub use keys::{KeyedLabel, text_key};
pub use labels::SharedLabel;
pub use laws::locations_are_uses;
pub use moves::{Moves, number_in_few};
pub use places::{Places, Shift};
pub use roots::Roots;
pub use table::{Code, EMPTY_NUMBER, SERVE_NUMBER, SERVICE_NUMBER};
