// What holds of every schema and event. The functions do nothing: each contract is a law.
ghost use Rattle.ocsf_event_rules.specs.EventLaws.{AllowedIsFaultless, FaultlessIsAllowed, ReportIsEmptyWhereAllowed};
ghost use Rattle.ocsf_event_rules.specs.EventLaws.{HasOneReport, HasSomeReport};

/// Nothing is wrong with an event that is allowed.
pub fn an_allowed_event_has_no_violation()
    ensures { AllowedIsFaultless }
{}

/// An event with which nothing is wrong is allowed.
pub fn an_event_without_violations_is_allowed()
    ensures { FaultlessIsAllowed }
{}

/// The report of an event is empty just where the event is allowed.
pub fn a_report_is_empty_where_the_event_is_allowed()
    ensures { ReportIsEmptyWhereAllowed }
{}

/// An event has one report.
pub fn an_event_has_one_report()
    ensures { HasOneReport }
{}

/// Every event has a report.
pub fn an_event_has_some_report()
    ensures { HasSomeReport }
{}
