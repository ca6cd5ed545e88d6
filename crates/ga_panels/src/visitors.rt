ghost use Rattle.std.specs.Prelude.{◌≡◌, ◌↔◌, IfOk, IsTrue};
ghost use Rattle.ga_panels.specs.Visitors as visits;

use crate::PanelSetup;
use ga_base::{NoMemory, Record, Visitor};

/// The visitor whose visit a record is. A record with a status of 400 to 499 is nobody's visit, unless the setup counts
/// those, and gives None.
pub fn visitor_of(setup: &PanelSetup, rec: &Record) -> Result<Option<Visitor>, NoMemory>
    ensures { IfOk result (λ visitor. visitor ≡ visits.visitor_in setup.now rec.now) }
{
    if !is_visit(setup, rec.status) {
        return Ok(None);
    }
    Ok(Some(Visitor {
        host: rec.host.clone()?,
        date: rec.date,
        agent: rec.agent.clone()?,
    }))
}

/// Whether a record is excluded: the setup's ranges hold its host, or its status is ignored, or its agent is a crawler and
/// those are ignored. This takes no memory.
pub fn is_excluded(setup: &PanelSetup, rec: &Record) -> bool
    ensures { IsTrue result ↔ visits.IsExcluded setup.now rec.now }
{
    let host = rec.host.as_str();
    is_excluded_where(setup, host, rec.status, false)
        || setup.ignore_crawlers && setup.rules.is_crawler(&rec.agent)
}

/// Whether the setup excludes records with this host and status, whose agent is a crawler or not.
pub(crate) fn is_excluded_where(
    setup: &PanelSetup,
    host: &str,
    status: u32,
    is_crawler: bool,
) -> bool
    ensures { IsTrue result ↔ visits.IsExcludedWhere setup.now host.now status (IsTrue is_crawler) }
{
    setup.ranges.holds(host.as_bytes())
        || setup.ignore_status.items().contains(&status)
        || setup.ignore_crawlers && is_crawler
}

/// Whether a record with this status is somebody's visit.
pub(crate) fn is_visit(setup: &PanelSetup, status: u32) -> bool
    ensures { result ≡ visits.is_visit setup.now status }
{
    setup.count_4xx || !is_client_error(status)
}

/// Whether a status is of the fourth class.
fn is_client_error(status: u32) -> bool
    ensures { result ≡ visits.is_client_error status }
{
    (400..=499).contains(&status)
}
