//! The law between writing a trace and reading it, and worked traces.

ghost use Rattle.trace_text.specs.Laws.{TracesAreRead};
ghost use Rattle.trace_text.specs.Rows.{Refused, Written};

/// A trace whose entries have lines is read as its entries.
pub fn traces_are_read()
    ensures read { TracesAreRead }
{}

/// A worked trace, and the one without an entry.
pub fn written_traces()
    ensures written { Written }
{}

/// Texts that are no trace, with their first bad lines.
pub fn refused_traces()
    ensures refused { Refused }
{}
