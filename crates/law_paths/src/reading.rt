//! What agreement means for a reader.

ghost use Rattle.law_paths.specs.Reading.{AddressesLead, LabelsReadAlike, ReportsAgree};

/// Places and their addresses lead to the same.
pub fn addresses_lead()
    ensures { AddressesLead }
{}

/// Sides that are read alike by numbers of children are read alike by labels.
pub fn labels_read_alike()
    ensures { LabelsReadAlike }
{}

/// Outcomes that agree have equal reports at every depth.
pub fn reports_agree()
    ensures { ReportsAgree }
{}
