ghost use Rattle.std.specs.Prelude.{◌≡◌, MatchOption};
ghost use Rattle.ga_base.specs.Layers.{has_groups};
ghost use Rattle.ga_base.specs.Panels.{panel_number};
ghost use Rattle.ga_base.specs.declared.panel.Panel.{Panel as ThePanel};

/// A panel of the report, in the report's order.
#[derive(Clone, Copy, Debug, PartialEq, Eq, PartialOrd, Ord, Hash)]
pub enum Panel {
    /// Visitors of a day.
    Visitors,
    /// Requests that are neither static nor missing.
    Requests,
    /// Requests of static files.
    RequestsStatic,
    /// Requests of what wasn't found.
    NotFound,
    /// Client addresses.
    Hosts,
    /// Operating systems.
    Os,
    /// Browsers.
    Browsers,
    /// Hours of the day.
    VisitTimes,
    /// Virtual hosts.
    VirtualHosts,
    /// Referring URLs.
    Referrers,
    /// Referring sites.
    ReferringSites,
    /// Key phrases of a search.
    Keyphrases,
    /// Status codes.
    StatusCodes,
    /// Remote users.
    RemoteUser,
    /// Cache statuses.
    CacheStatus,
    /// MIME types.
    MimeType,
    /// TLS versions and ciphers.
    TlsType,
}

impl Panel {
    /// The number of panels.
    pub const COUNT: usize = 17;

    /// All panels, in the report's order.
    pub const ALL: [Panel; Panel::COUNT] = [
        Panel::Visitors,
        Panel::Requests,
        Panel::RequestsStatic,
        Panel::NotFound,
        Panel::Hosts,
        Panel::Os,
        Panel::Browsers,
        Panel::VisitTimes,
        Panel::VirtualHosts,
        Panel::Referrers,
        Panel::ReferringSites,
        Panel::Keyphrases,
        Panel::StatusCodes,
        Panel::RemoteUser,
        Panel::CacheStatus,
        Panel::MimeType,
        Panel::TlsType,
    ];

    /// The panel at a place of the report's order, from 0; `None` past the last.
    pub fn from_number(number: usize) -> Option<Panel>
        ensures { MatchOption result ((panel : ThePanel) → panel_number panel ≡ number → ⊥) (λ panel. panel_number panel ≡ number) }
    {
        Panel::ALL.get(number).copied()
    }

    /// Whether the panel's entries are in groups, each with a row of its own.
    pub fn has_groups(&self) -> bool
        ensures { result ≡ has_groups self.now }
    {
        matches!(
            self,
            Panel::Os | Panel::Browsers | Panel::StatusCodes | Panel::MimeType
        )
    }

    /// The panel's place in the report's order, from 0.
    pub fn number(&self) -> usize
        ensures { result ≡ panel_number self.now }
    {
        match self {
            Panel::Visitors => 0,
            Panel::Requests => 1,
            Panel::RequestsStatic => 2,
            Panel::NotFound => 3,
            Panel::Hosts => 4,
            Panel::Os => 5,
            Panel::Browsers => 6,
            Panel::VisitTimes => 7,
            Panel::VirtualHosts => 8,
            Panel::Referrers => 9,
            Panel::ReferringSites => 10,
            Panel::Keyphrases => 11,
            Panel::StatusCodes => 12,
            Panel::RemoteUser => 13,
            Panel::CacheStatus => 14,
            Panel::MimeType => 15,
            Panel::TlsType => 16,
        }
    }
}
