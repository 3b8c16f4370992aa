//! The text of a report, and what there is to report on a program before its conditions.
//!
//! A layer above may rely on these calls: `flow_findings` gives exactly the findings on flow, `breach_finding` that on a broken rule,
//! `report_text` and `refusal_text` the text of a report, and `spot_text`, `place_text` and `verdict_text` a part of one. A `FindFault`
//! says which limit is passed first. No call changes what it is lent.
#![tactic(auto)]

mod flow;
pub mod laws;
mod limit;
mod refusals;
mod report;

pub use flow::flow_findings;
pub use limit::{FindFault, LimitName};
pub use refusals::breach_finding;
pub use report::{
    Finding, Findings, SubRow, place_text, refusal_text, report_text, spot_text, verdict_text,
};
