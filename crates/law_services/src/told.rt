//! What services could take, as data.

ghost use Rattle.law_services.specs.Told.{ServicesTell, ServicesTellAt};

/// No service can tell between two replays exactly where none can between the data of both.
pub fn services_tell()
    ensures { ServicesTell }
{}

/// So for each activity.
pub fn services_tell_at()
    ensures { ServicesTellAt }
{}
