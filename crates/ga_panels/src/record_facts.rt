ghost use Rattle.std.specs.Prelude.{◌≡◌, ◌↔◌, ◌==◌, ◌&&◌, ◌++◌, ◌<◌, [], Some, true, false, IfOk, OnOk, OnErr, IsTrue, is_some, not};
ghost use Rattle.std.specs.Option.{option_map, unwrap_or};
ghost use Rattle.ga_agents.specs.Classes.{HasNames, IsAgent, agent_of};
ghost use Rattle.ga_base.specs.declared.record.Record.{Record as TheRecord};
ghost use Rattle.ga_panels.specs.declared.setup.PanelSetup.{PanelSetup as TheSetup};
ghost use Rattle.ga_base.specs.Days.{HasEightDigits, eight_digits};
ghost use Rattle.ga_base.specs.declared.panel.Panel.TheVariants.{Visitors};
ghost use Rattle.ga_base.specs.Layers.{is_empty};
ghost use Rattle.ga_base.specs.Records.{record_in};
ghost use Rattle.ga_panels.specs.Facts.{CanHaveKeys};
ghost use Rattle.ga_panels.specs.Form.{AreKeysOfDay};
ghost use Rattle.ga_panels.specs.Labels.{part_digits, part_parent, status_group as the_group, text_in, three_digits as the_status};
ghost use Rattle.ga_panels.specs.Refs.{key_of};
ghost use Rattle.ga_panels.specs.Steps as steps;
ghost use Rattle.ga_panels.specs.Table as table;
ghost use Rattle.ga_panels.specs.Visitors as visits;
ghost use Rattle.ga_requests.specs.Referrers.{IsGoogle, KeyphraseIs, SiteIs};

use crate::labels::{
    DAY_LEN, Digits, mime_group, moment, moment_len, status_group, tens, tens_len, three_digits,
};
use crate::visitors::{is_excluded_where, is_visit};
use crate::{KeyRef, PanelSetup};
use ga_agents::Class;
use ga_agents::laws::crawlers_are_told;
use ga_base::{DateSpec, Keys, NoMemory, Panel, PanelSet, RecordRef};
use ga_requests::{Referral, is_static_url, referral_of};
use std::alloc::Global;

/// The status that says that nothing was found.
const NOT_FOUND: u32 = 404;

/// The status of a connection that nginx closed without an answer.
const NO_RESPONSE: u32 = 444;

/// A record with what the panels' table looks at: what its agent is, what its referrer says, whether its URL is of a
/// static file, and its numbers as digits. It tells the record's keys panel by panel, as borrowed texts.
#[derive(Debug, Drop)]
pub struct RecordFacts<'a> {
    /// What decides under which keys the record is counted.
    setup: &'a PanelSetup,
    /// The record's own values.
    rec: RecordRef<'a>,
    /// What its agent is.
    class: Class<'a>,
    /// What its referrer says.
    referral: Referral<'a>,
    /// Whether its URL is of a static file.
    is_static: bool,
    /// The digits of its day, its hour and its minute, of the first minute where it has none.
    moment: Digits<12>,
    /// The tens of minutes of its time of day, 00:00 where it has none.
    tens: Digits<5>,
    /// The digits of its status.
    status: Digits<3>,
    ghost dated: { HasEightDigits rec.date },
    ghost timed: { unwrap_or rec.minute 0 < 1440 },
    ghost named: { HasNames (agent_of class) },
    ghost moment_is: { moment ≡ steps.moment_of rec.date (unwrap_or rec.minute 0) },
    ghost tens_is: { tens ≡ steps.tens_of (unwrap_or rec.minute 0) },
    ghost status_is: { status ≡ the_status rec.status },
}

impl<'a> RecordFacts<'a> {
    ghost use Rattle.ga_panels.specs.Known.{AreFactsOf, facts_of, record_of, setup_of};

    /// A record with its facts. Its agent and its referrer are looked at once; memory is asked for only where the
    /// referrer's site is one of Google's.
    pub fn of(
        alloc: Global,
        setup: &'a PanelSetup,
        rec: RecordRef<'a>,
    ) -> Result<RecordFacts<'a>, NoMemory>
        requires { CanHaveKeys (record_in rec) }
        ensures facts { IfOk result (AreFactsOf setup.now (record_in rec.entry)) }
        ensures no_memory { OnErr result (IsGoogle rec.entry.referrer.now) }
    {
        let class = setup.rules.class_of(rec.agent);
        let referral = referral_of(alloc, rec.referrer)?;
        Ok(RecordFacts::with(setup, rec, class, referral))
    }

    /// A record with its facts, from what its agent is and what its referrer says, where these are known already.
    pub fn with(
        setup: &'a PanelSetup,
        rec: RecordRef<'a>,
        class: Class<'a>,
        referral: Referral<'a>,
    ) -> RecordFacts<'a>
        requires keyed { CanHaveKeys (record_in rec) }
        requires agent { IsAgent setup.now.rules rec.agent.now (agent_of class) }
        requires named { HasNames (agent_of class) }
        requires site { SiteIs rec.referrer.now (option_map (λ site. site.now) referral.site) }
        requires phrase { KeyphraseIs rec.referrer.now referral.phrase }
        ensures { AreFactsOf setup.now (record_in rec.entry) result }
    {
        let minute = rec.minute.unwrap_or(0);
        RecordFacts {
            setup,
            rec,
            class,
            referral,
            is_static: is_static_url(rec.url, setup.statics.items(), setup.all_static),
            moment: moment(rec.date, minute),
            tens: tens(minute),
            status: three_digits(rec.status),
        }
    }

    /// The key of the record's entry in a panel. `None` where it has none there, and where the panel isn't enabled; only
    /// VISITORS counts all the same.
    pub fn key_in(&self, panel: Panel) -> Option<KeyRef<'_>>
        ensures { option_map key_of result
            ≡ table.entry_in (setup_of self.now) (record_of self.now) (facts_of self.now) panel }
    {
        if is_counted(&self.setup.panels, panel) {
            self.row_key(panel)
        } else {
            None
        }
    }

    /// The record's keys in all panels, in rising order, those of groups among them.
    pub fn keys(&self, alloc: Global) -> Result<Keys, NoMemory>
        ensures exact { IfOk result
            (λ keys. keys ≡ table.table_keys (setup_of self.now) (record_of self.now) (facts_of self.now)) }
        ensures form { IfOk result (AreKeysOfDay (record_of self.now).date) }
    {
        let mut keys = Keys::new(alloc);
        for panel in Panel::ALL {
            push_with_group(alloc, self.key_in(panel), &mut keys)?;
        }
        Ok(keys)
    }

    /// Whether the record is excluded, as `is_excluded` answers it.
    pub fn is_excluded(&self) -> bool
        ensures { (setup : TheSetup) (rec : TheRecord) → AreFactsOf setup rec self.now
            → IsTrue result ↔ visits.IsExcluded setup rec }
    {
        crawlers_are_told();
        is_excluded_where(
            self.setup,
            self.rec.host,
            self.rec.status,
            self.class.crawler,
        )
    }

    /// Whether the record is somebody's visit: not where its status is 400 to 499, unless those count.
    pub fn is_visit(&self) -> bool
        ensures { result ≡ visits.is_visit (setup_of self.now) (record_of self.now).status }
    {
        is_visit(self.setup, self.rec.status)
    }

    /// The key that the panel's row gives: the table in code, a row a panel.
    fn row_key(&self, panel: Panel) -> Option<KeyRef<'_>>
        ensures { option_map key_of result
            ≡ table.entry_of (setup_of self.now) (record_of self.now) (facts_of self.now) panel }
    {
        let rec = &self.rec;
        let class = &self.class;
        let date = rec.date;
        let is_missing = is_missing(self.setup.as_404, rec.status);
        let has_agent = !rec.agent.is_empty();
        match panel {
            Panel::Visitors => visit(date, rec.minute, self.setup.date_spec, &self.moment),
            Panel::Requests => request(rec, panel, is_found(is_missing, !self.is_static)),
            Panel::RequestsStatic => request(rec, panel, is_found(is_missing, self.is_static)),
            Panel::NotFound => request(rec, panel, is_missing),
            Panel::Hosts => entry(date, panel, true, rec.host),
            Panel::Os => entry_in_group(date, panel, has_agent, class.system_group, class.system),
            Panel::Browsers => entry_in_group(
                date,
                panel,
                has_agent,
                class.category,
                class.browser,
            ),
            Panel::VisitTimes => {
                let time = self.tens.front(tens_len(self.setup.hour_spec));
                entry(date, panel, rec.minute.is_some(), time)
            }
            Panel::VirtualHosts => text(date, panel, rec.vhost),
            Panel::Referrers => text(date, panel, rec.referrer),
            Panel::ReferringSites => option(date, panel, self.referral.site),
            Panel::Keyphrases => option(date, panel, phrase_in(&self.referral)),
            Panel::StatusCodes => status(date, panel, rec.status, self.status.as_str()),
            Panel::RemoteUser => text(date, panel, rec.user),
            Panel::CacheStatus => text(date, panel, rec.cache),
            Panel::MimeType => {
                entry_in_group(
                    date,
                    panel,
                    !rec.mime.is_empty(),
                    mime_group(rec.mime),
                    rec.mime,
                )
            }
            Panel::TlsType => text(date, panel, rec.tls),
        }
    }
}

/// The key of an entry in a group.
fn entry_in_group<'b>(
    date: u32,
    panel: Panel,
    has_key: bool,
    parent: &'b str,
    label: &'b str,
) -> Option<KeyRef<'b>>
    ensures { option_map key_of result ≡ steps.entry_at date panel has_key parent.now label.now }
{
    if !has_key {
        return None;
    }
    Some(KeyRef {
        panel,
        date,
        parent,
        label,
        method: "",
        protocol: "",
    })
}

/// The key of an entry in a panel without groups.
fn entry(date: u32, panel: Panel, has_key: bool, label: &str) -> Option<KeyRef<'_>>
    ensures { option_map key_of result ≡ steps.entry_at date panel has_key [] label.now }
{
    entry_in_group(date, panel, has_key, "", label)
}

/// The key of a day in VISITORS, or of the part of it that the record is of, of which these are the digits.
fn visit<'b>(
    date: u32,
    minute: Option<u32>,
    spec: DateSpec,
    moment: &'b Digits<12>,
) -> Option<KeyRef<'b>>
    requires { moment.now ≡ steps.moment_of date (unwrap_or minute 0) }
    ensures { option_map key_of result ≡ steps.entry_at date Visitors true (part_parent date (part_digits spec minute))
        (eight_digits date ++ part_digits spec minute) }
{
    let len = moment_len(spec, minute.is_some());
    let parent = if len == DAY_LEN {
        ""
    } else {
        moment.front(DAY_LEN)
    };
    entry_in_group(date, Panel::Visitors, true, parent, moment.front(len))
}

/// The key of a text, where it isn't empty.
fn text(date: u32, panel: Panel, text: &str) -> Option<KeyRef<'_>>
    ensures { option_map key_of result ≡ steps.entry_at date panel (not (is_empty text.now)) [] text.now }
{
    entry(date, panel, !text.is_empty(), text)
}

/// The key of a text, where there is one.
fn option<'b>(date: u32, panel: Panel, text: Option<&'b str>) -> Option<KeyRef<'b>>
    ensures { option_map key_of result
        ≡ steps.entry_at date panel (is_some text.entry) [] (text_in (option_map (λ text. text.now) text.entry)) }
{
    entry(date, panel, text.is_some(), text.unwrap_or(""))
}

/// The key of a status with these digits, where it isn't 0.
fn status<'b>(date: u32, panel: Panel, status: u32, digits: &'b str) -> Option<KeyRef<'b>>
    ensures { option_map key_of result
        ≡ steps.entry_at date panel (not (status == 0)) (the_group status) digits.now }
{
    if status == 0 {
        return None;
    }
    Some(KeyRef {
        panel,
        date,
        parent: status_group(status),
        label: digits,
        method: "",
        protocol: "",
    })
}

/// The key of the URL, with the method and the protocol.
fn request<'b>(rec: &'b RecordRef<'_>, panel: Panel, has_key: bool) -> Option<KeyRef<'b>>
    ensures { option_map key_of result
        ≡ table.row_key (record_in rec.now) (table.row panel has_key [] rec.now.url.now true) }
{
    if !has_key {
        return None;
    }
    Some(KeyRef {
        panel,
        date: rec.date,
        parent: "",
        label: rec.url,
        method: rec.method,
        protocol: rec.protocol,
    })
}

/// What was searched for at the referrer's site.
fn phrase_in<'b>(referral: &'b Referral<'_>) -> Option<&'b str>
    ensures { option_map (λ text. text.now) result ≡ referral.now.phrase }
{
    match &referral.phrase {
        Some(phrase) => Some(phrase.as_str()),
        None => None,
    }
}

/// Whether a panel gives keys: where it is enabled, and VISITORS always.
#[tactic(auto, unfolding(ga_base::specs::Panels::is_same_panel))]
fn is_counted(panels: &PanelSet, panel: Panel) -> bool
    ensures { result ≡ table.is_counted panels.now panel }
{
    panel == Panel::Visitors || panels.has(panel)
}

/// Whether a status says that nothing was found: 404, or 444 where that counts as 404.
fn is_missing(as_404: bool, status: u32) -> bool
    ensures { result ≡ table.is_missing as_404 status }
{
    status == NOT_FOUND || as_404 && status == NO_RESPONSE
}

/// Whether something was found, and it is of the panel's kind.
fn is_found(is_missing: bool, is_of_kind: bool) -> bool
    ensures { result ≡ (not is_missing && is_of_kind) }
{
    !is_missing && is_of_kind
}

/// Adds the key of an entry, if there is one, and before it that of its group, if it has one.
fn push_with_group(
    alloc: Global,
    entry: Option<KeyRef<'_>>,
    keys: &mut Keys,
) -> Result<(), NoMemory>
    ensures { OnOk result (keys.new ≡ keys.old ++ table.with_group (option_map key_of entry.entry)) }
{
    let Some(entry) = entry else {
        return Ok(());
    };
    if let Some(group) = entry.group() {
        keys.push(group.to_key(alloc)?)?;
    }
    keys.push(entry.to_key(alloc)?)
}
