use ga_agents::Rules;
use ga_base::{DateSpec, HourSpec, PanelSet, Statuses, Texts};
use ga_hosts::Ranges;

/// What decides under which keys a record is counted, and whether it is.
#[derive(Debug, Drop)]
pub struct PanelSetup {
    /// The rules by which agents are told apart.
    pub rules: Rules,
    /// The hosts whose records are excluded.
    pub ranges: Ranges,
    /// Endings of static files beside the known ones.
    pub statics: Texts,
    /// Whether a URL with a query can be of a static file.
    pub all_static: bool,
    /// Whether crawlers' records are excluded.
    pub ignore_crawlers: bool,
    /// The statuses whose records are excluded.
    pub ignore_status: Statuses,
    /// The panels that are enabled.
    pub panels: PanelSet,
    /// Whether a record with a status of 400 to 499 is a visit.
    pub count_4xx: bool,
    /// Whether the status 444 says that nothing was found, as 404 does.
    pub as_404: bool,
    /// How finely VISITORS tells days.
    pub date_spec: DateSpec,
    /// How finely VISIT_TIMES tells the time of the day.
    pub hour_spec: HourSpec,
}
