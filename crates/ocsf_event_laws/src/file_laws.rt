// What holds of every bundle without a fault and every event. The function does nothing: its contract is a law.
ghost use Rattle.ocsf_event_laws.specs.FileLaws.{ReportIsEmptyWhereFilesAllow};

/// Where nothing is wrong with a bundle, the report of an event by its compilation is empty just where the files allow
/// the event.
pub fn a_report_is_empty_where_files_allow_the_event()
    ensures { ReportIsEmptyWhereFilesAllow }
{}
