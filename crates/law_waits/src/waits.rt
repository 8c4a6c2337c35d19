//! For whom somebody waits, and where that ends.

ghost use Rattle.law_waits.specs.Laws.{RestsAreCaused, WaitsAreCaused, WaitsAreFound, WaitsAreSo};

/// Whom one waits for received the request of the future that is awaited, and has it pending or in
/// service.
pub fn waits_are_so()
    ensures { WaitsAreSo }
{}

/// Who awaits a future without a value waits for somebody.
pub fn waits_are_found()
    ensures { WaitsAreFound }
{}

/// Where nobody can go on, the cause is told for which an activity rests, and holds.
pub fn rests_are_caused()
    ensures { RestsAreCaused }
{}

/// In a reached configuration in which nobody can go on, every wait has its cause told, and the
/// cause holds.
pub fn waits_are_caused()
    ensures { WaitsAreCaused }
{}
