//! What wakes an activity that rests.

ghost use Rattle.law_steps.specs.Waking.{AwaitingStays, CyclesStay, DoneStays, FaultStays, NoneRestsRunning, ServingStays, OthersStayNext};

/// No activity rests as one that runs.
pub fn none_rests_running()
    ensures { NoneRestsRunning }
{}

/// Who is done stays so.
pub fn done_stays()
    ensures { DoneStays }
{}

/// Who is faulted stays so.
pub fn fault_stays()
    ensures { FaultStays }
{}

/// Who is at a `serve` stays there, unless it receives a request that it asks for.
pub fn serving_stays()
    ensures { ServingStays }
{}

/// Who awaits an unfilled future awaits it, unless it is filled.
pub fn awaiting_stays()
    ensures { AwaitingStays }
{}

/// Who awaits a filled future, since its futures lead into a cycle, awaits one for good.
pub fn cycles_stay()
    ensures { CyclesStay }
{}

/// Who intends to send or to poll, and is not next in the log where that is noted, is not next until
/// that log grows.
pub fn others_stay_next()
    ensures { OthersStayNext }
{}
