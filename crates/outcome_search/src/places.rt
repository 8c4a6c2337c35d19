//! The places of a log at which it is worth a cut.

ghost use Rattle.std.specs.Prelude.{◌<◌, ℕ, map};
ghost use Rattle.asp_model.specs.Configuration.{ReceptionShape};
ghost use Rattle.asp_model.specs.Shapes.{reception_shape};
ghost use Rattle.law_families.specs.Families.{ComesBehind};

use crate::logs::same_reception;
use asp_model::Reception;

/// How many places have others behind them than the entry that stands there, up to the last of
/// them: the entries from there on are one.
pub fn open_places(log: &[Reception]) -> usize
    ensures places { (k : ℕ) (entry : ReceptionShape) →
        ComesBehind (map reception_shape log.now) k entry → k < result }
{
    let Some(last) = log.last() else {
        return 0;
    };
    for back in 0..log.len() {
        let place = log.len() - 1 - back;
        if !same_reception(last, &log[place]) {
            return place + 1;
        }
    }
    0
}
