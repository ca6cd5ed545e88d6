//! From what was counted to the report: its general numbers, and the ordered rows of each panel.
//!
//! Start with `rows`, which meets `IsReport` of `specs/Reports.antt`. `rows_from` reads what was counted through `RowSource`, a
//! row at a time, so that a report needs the number of a key's visitors and not their names, and shares the work among threads.
#![tactic(auto)]

mod arranging;
mod buckets;
mod item_name;
mod kept_days;
pub mod laws;
mod of_summary;
mod panel_items;
mod panel_places;
mod percents;
mod report;
mod reporting;
mod row_index;
mod row_source;

pub use kept_days::{LastDays, last_days};
pub use of_summary::rows;
pub use percents::hundredths;
pub use report::{General, Item, Items, PanelList, PanelLists, Report, Row, RowList};
pub use reporting::rows_from;
pub use row_source::{RowRef, RowSource};
