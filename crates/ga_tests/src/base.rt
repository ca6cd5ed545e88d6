//! Types that all crates share.

ghost use Rattle.std.specs.Prelude.{◌≡◌, ◌<◌};

use ga_base::{
    BIG, Bytes, Counter, DateSpec, HourSpec, Key, LIMIT, NoMemory, Panel, PanelSet, Steps, Text,
    Texts,
};
use std::alloc::Global;
use std::sync::ledger::{Blank, Ledger};

/// The panels, in their order.
pub const PANELS: [Panel; 17] = [
    Panel::Visitors,
    Panel::Requests,
    Panel::RequestsStatic,
    Panel::NotFound,
    Panel::Hosts,
    Panel::Os,
    Panel::Browsers,
    Panel::VisitTimes,
    Panel::VirtualHosts,
    Panel::Referrers,
    Panel::ReferringSites,
    Panel::Keyphrases,
    Panel::StatusCodes,
    Panel::RemoteUser,
    Panel::CacheStatus,
    Panel::MimeType,
    Panel::TlsType,
];

/// How finely days are told.
pub const DATE_SPECS: [DateSpec; 3] = [DateSpec::Date, DateSpec::Hour, DateSpec::Minute];

/// How finely the time of the day is told.
pub const HOUR_SPECS: [HourSpec; 2] = [HourSpec::Hour, HourSpec::Tens];

/// The counters that can be full.
pub const COUNTERS: [Counter; 4] = [
    Counter::Lines,
    Counter::Bytes,
    Counter::Micros,
    Counter::Generations,
];

/// The limits of counters and of numbers in a line.
pub fn limits() -> (u64, u64) {
    (LIMIT, BIG)
}

/// A text, and its bytes.
pub fn text_of(alloc: Global, text: &str) -> Result<Text, NoMemory> {
    Text::of(alloc, text)
}

/// The bytes of a text.
pub fn bytes_of_text(text: &Text) -> &[u8] {
    text.bytes()
}

/// Bytes.
pub fn bytes_of(alloc: Global, bytes: &[u8]) -> Result<Bytes, NoMemory> {
    Bytes::of(alloc, bytes)
}

/// Bytes, lent.
pub fn lent(bytes: &Bytes) -> &[u8] {
    bytes.bytes()
}

/// An empty list.
pub fn texts(alloc: Global) -> Texts {
    Texts::new(alloc)
}

/// A list with an item more.
pub fn push(texts: &mut Texts, text: Text) -> Result<(), NoMemory> {
    texts.push(text)
}

/// The items of a list.
pub fn items(texts: &Texts) -> &[Text] {
    texts.items()
}

/// Whether a key is a day's.
pub fn is_day(key: &Key) -> bool {
    key.is_day()
}

/// All panels.
pub fn all_panels() -> PanelSet {
    PanelSet::all()
}

/// No panel.
pub fn no_panel() -> PanelSet {
    PanelSet::none()
}

/// A panel more, or one less.
pub fn set(panels: &mut PanelSet, panel: Panel, on: bool) {
    panels.set(panel, on)
}

/// Whether a panel is among these.
pub fn has(panels: &PanelSet, panel: Panel) -> bool {
    panels.has(panel)
}

/// The steps of a ledger.
pub fn open<L: Ledger>(blank: Blank) -> Steps<L>
    requires name { blank.name ≡ L.name }
    requires parts { blank.parts ≡ L.parts }
    requires some { 0 < blank.parts }
{
    Steps::<L>::open(blank)
}

/// A step more.
pub fn tick<L: Ledger>(steps: &mut Steps<L>) {
    steps.tick()
}
