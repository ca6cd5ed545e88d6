ghost use Rattle.std.specs.Prelude.{◌≡◌};
ghost use Rattle.ga_words.specs.Values.{panel_named as named_panel};

use crate::table_row::{TableRow, lookup};
use ga_base::Panel;

/// The panels by their names, in the report's order.
const PANELS: [TableRow<Panel>; Panel::COUNT] = [
    TableRow("VISITORS", Panel::Visitors),
    TableRow("REQUESTS", Panel::Requests),
    TableRow("REQUESTS_STATIC", Panel::RequestsStatic),
    TableRow("NOT_FOUND", Panel::NotFound),
    TableRow("HOSTS", Panel::Hosts),
    TableRow("OS", Panel::Os),
    TableRow("BROWSERS", Panel::Browsers),
    TableRow("VISIT_TIMES", Panel::VisitTimes),
    TableRow("VIRTUAL_HOSTS", Panel::VirtualHosts),
    TableRow("REFERRERS", Panel::Referrers),
    TableRow("REFERRING_SITES", Panel::ReferringSites),
    TableRow("KEYPHRASES", Panel::Keyphrases),
    TableRow("STATUS_CODES", Panel::StatusCodes),
    TableRow("REMOTE_USER", Panel::RemoteUser),
    TableRow("CACHE_STATUS", Panel::CacheStatus),
    TableRow("MIME_TYPE", Panel::MimeType),
    TableRow("TLS_TYPE", Panel::TlsType),
];

/// The panel of this name, byte for byte.
pub(crate) fn panel_named(name: &str) -> Option<Panel>
    ensures { result ≡ named_panel name.now }
{
    lookup(&PANELS, name)
}
