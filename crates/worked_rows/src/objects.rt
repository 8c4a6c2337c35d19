//! Objects of main.

ghost use Rattle.worked_rows.specs.Objects.{DoublingReports, CloningReports, SharingReports};

/// A method with a parameter changes a field, and a field is missing.
pub fn doubling_object()
    ensures report { DoublingReports }
{}

/// A clone is changed, and the first object stays.
pub fn clones()
    ensures report { CloningReports }
{}

/// Two fields have one object.
pub fn shared_object()
    ensures report { SharingReports }
{}
