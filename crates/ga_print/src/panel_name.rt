ghost use Rattle.std.specs.Prelude.{◌≡◌};
ghost use Rattle.ga_print.specs.Names.{panel_name};

use ga_base::Panel;

/// The panel's name, as both texts have it (own profile).
#[tactic(auto, unfolding(crate::specs::Names::panel_name))]
pub(crate) fn panel_name(panel: Panel) -> &'static str
    ensures { result.now ≡ panel_name panel }
{
    match panel {
        Panel::Visitors => "visitors",
        Panel::Requests => "requests",
        Panel::RequestsStatic => "requests_static",
        Panel::NotFound => "not_found",
        Panel::Hosts => "hosts",
        Panel::Os => "os",
        Panel::Browsers => "browsers",
        Panel::VisitTimes => "visit_times",
        Panel::VirtualHosts => "virtual_hosts",
        Panel::Referrers => "referrers",
        Panel::ReferringSites => "referring_sites",
        Panel::Keyphrases => "keyphrases",
        Panel::StatusCodes => "status_codes",
        Panel::RemoteUser => "remote_user",
        Panel::CacheStatus => "cache_status",
        Panel::MimeType => "mime_type",
        Panel::TlsType => "tls_type",
    }
}
