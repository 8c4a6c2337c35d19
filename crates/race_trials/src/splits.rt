//! The seats that a hub has.

ghost use Rattle.std.specs.Prelude.{◌≡◌, None};
ghost use Rattle.turn_hub.specs.Seats.{IsOf, taken_by};

use crate::tasks::Tasks;
use std::test::Fail;
use turn_hub::{Full, Hub, Seat};

// The number and the parts of a seat that is split off, and is dropped.
fn split_off(hub: &Hub<Tasks>, seat: &mut Seat<Tasks>) -> Result<(u32, u32), Full>
    requires hub { IsOf hub.now seat.old }
    requires no_turn { taken_by seat.old ≡ None }
    ensures hub { IsOf hub.now seat.new }
    ensures no_turn { taken_by seat.new ≡ None }
{
    let other = hub.split(seat)?;
    Ok((other.number(), other.parts()))
}

#[test]
fn a_hub_of_two_seats_splits_once(rt: HostRuntime) -> Result<(), Fail> {
    let alloc = rt.alloc();
    let (hub, mut first) = Hub::new(alloc, Tasks::new(alloc, 2)?, 2)?;
    let before = (first.number(), first.parts());
    let second = split_off(&hub, &mut first);
    let after = (first.number(), first.parts());
    let third = split_off(&hub, &mut first);
    drop(first);
    drop(hub);
    assert_eq!(rt; (before, after), ((0, 2), (0, 1)));
    assert_eq!(rt; (second, third), (Ok((1, 1)), Err(Full)));
    Ok(())
}
