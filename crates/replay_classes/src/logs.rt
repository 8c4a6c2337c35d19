//! The places where a log by classes may be cut.

ghost use Rattle.std.specs.Prelude.{IsTrue, map};
ghost use Rattle.asp_model.specs.Configuration.{ReceptionShape};
ghost use Rattle.asp_model.specs.Shapes.{reception_shape};
ghost use Rattle.law_families.specs.Families.{ComesBehind};

use asp_model::Reception;

/// Whether an entry comes behind a place of a log.
pub fn is_before(place: usize, log: &[Reception]) -> bool
    ensures behind { (entry : ReceptionShape) →
        ComesBehind (map reception_shape log.now) place entry → IsTrue result }
{
    if place >= log.len() {
        return false;
    }
    if log.len() - place < 2 {
        return false;
    }
    true
}
