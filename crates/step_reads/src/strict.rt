//! The strict operands of a redex.

ghost use Rattle.std.specs.Prelude.{◌≡◌};
ghost use Rattle.step_reads.specs.Strict.{strict_in};

use code_table::Place;
use step_rows::Redex;

/// The places of the strict operands, in the order in which they are read.
#[derive(Clone, Copy)]
pub enum Strict {
    Nothing,
    One(Place),
    Two(Place, Place),
    /// A group, and then its members.
    Members(Place),
}

/// The strict operands of a redex.
pub fn strict_of(redex: Redex) -> Strict
    ensures strict { result ≡ strict_in redex.entry }
{
    match redex {
        Redex::Get(place, _)
        | Redex::Put(place, _, _)
        | Redex::Call(place, _, _)
        | Redex::Clone(place)
        | Redex::Active(place, _)
        | Redex::If(place)
        | Redex::Print(place)
        | Redex::Size(place) => Strict::One(place),
        Redex::Operate(_, first, second)
        | Redex::Scatter(first, _, second)
        | Redex::Member(first, second) => Strict::Two(first, second),
        Redex::WaitAll(place) => Strict::Members(place),
        Redex::Goes | Redex::Serve(_) | Redex::Pending(_) => Strict::Nothing,
    }
}
