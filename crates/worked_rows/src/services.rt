//! Activities that ask each other and serve.

ghost use Rattle.worked_rows.specs.Services.{AskingReports, AskingEarlyReports, FaultingReports, ServingReports};

/// One request and its answer.
pub fn answer()
    ensures report { AskingReports }
{}

/// A request is answered before main needs its future.
pub fn early_request()
    ensures report { AskingEarlyReports }
{}

/// Faults in main and in two services.
pub fn service_faults()
    ensures report { FaultingReports }
{}

/// Main serves, and nobody can ask it.
pub fn main_serves()
    ensures report { ServingReports }
{}
