//! What an event may be, by a compiled schema: the profiles in force, the allowed event, its violations and its report.
//! The definitions stand in `specs/`. The functions do nothing: each contract is a law.
#![tactic(auto)]

mod event_laws;

pub use event_laws::{
    a_report_is_empty_where_the_event_is_allowed, an_allowed_event_has_no_violation,
    an_event_has_one_report, an_event_has_some_report, an_event_without_violations_is_allowed,
};
