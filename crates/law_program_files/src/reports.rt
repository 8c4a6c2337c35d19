//! Reports of runs that went on from files.

ghost use Rattle.law_program_files.specs.Reports.{FilesReportReplays};

/// The report of a run that went on from a file of a program is that of the replay of the whole
/// program under the logs and counts in it.
pub fn files_report_replays()
    ensures { FilesReportReplays }
{}
