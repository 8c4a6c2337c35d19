//! What is where after an effect.

ghost use Rattle.law_schedules.specs.Effects.{AbsentReceivedNone, MadeIsThere, MadeReceivedNone, NobodyReceives, OthersAreKept, OthersReceiveNone, OwnIsThere, TargetsReceive};

/// Where nothing is sent, nobody receives.
pub fn nobody_receives()
    ensures { NobodyReceives }
{}

/// Who is sent to receives the request, at the end.
pub fn targets_receive()
    ensures { TargetsReceive }
{}

/// Who is not sent to receives nothing.
pub fn others_receive_none()
    ensures { OthersReceiveNone }
{}

/// Who is not there has received nothing.
pub fn absent_received_none()
    ensures { AbsentReceivedNone }
{}

/// Who is made begins with no requests.
pub fn made_received_none()
    ensures { MadeReceivedNone }
{}

/// At the stepper stands what the effect leaves of it.
pub fn own_is_there()
    ensures { OwnIsThere }
{}

/// Who is made stands at its name.
pub fn made_is_there()
    ensures { MadeIsThere }
{}

/// At another name stands what stood there.
pub fn others_are_kept()
    ensures { OthersAreKept }
{}
