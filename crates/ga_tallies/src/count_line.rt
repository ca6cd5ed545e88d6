ghost use Rattle.std.specs.Prelude.{◌≡◌, ◌++◌, ◌∷◌, [], ◌≤◌, IfOk, List, OnOk, IsErrOf};
ghost use Rattle.std.specs.Option.{option_map};
ghost use Rattle.ga_base.specs.Records.{record_in};
ghost use Rattle.ga_base.specs.declared.record.Line.TheVariants.{Good as SaysRecord};
ghost use Rattle.ga_line.specs.Bounds.{RecordBounds};
ghost use Rattle.ga_numbers.specs.VisitorRefs.{visitor_of};
ghost use Rattle.ga_panels.specs.Known.{AreFactsOf, record_of, setup_of};
ghost use Rattle.ga_panels.specs.Visitors as visits;
ghost use Rattle.ga_base.specs.Totals.{LinesAdd, totals_plus, TotalsFit};
ghost use Rattle.ga_summary.specs.OneLine.{record_sums, record_totals};
ghost use Rattle.ga_summary.specs.Outcomes.{Counted};
ghost use Rattle.ga_tallies.specs.Agents.{AreAgents};
ghost use Rattle.ga_tallies.specs.Steps.OneLine.{Adds, IsTooMuch, OverfillsLine, OverfillsSaid, TakesLine, TakesSaid, hit_told};

use crate::agents::AgentRef;
use crate::{Agents, Tally, TallyFault};
use ga_base::{LIMIT, NoMemory, RecordRef, Sums, Totals};
use ga_line::{LineView, line_pieces, read_view};
use ga_numbers::VisitorRef;
use ga_outcomes::Setup;
use ga_panels::{PanelSetup, RecordFacts};
use ga_requests::referral_of;
use std::alloc::Global;

/// The totals of one failed line.
const FAILED: Totals = Totals {
    lines: 1,
    failed: 1,
    excluded: 0,
    hits: 0,
    bytes: 0,
    micros: 0,
};

/// The totals of one excluded line.
const EXCLUDED: Totals = Totals {
    lines: 1,
    failed: 0,
    excluded: 1,
    hits: 0,
    bytes: 0,
    micros: 0,
};

impl Tally {
    /// Counts one line, as what it says.
    pub(crate) fn count_line(
        &mut self,
        alloc: Global,
        setup: &Setup,
        agents: &mut Agents,
        line: &[u8],
    ) -> Result<(), TallyFault>
        requires known { AreAgents setup.now.panels.rules agents.old }
        ensures counted { OnOk result (TakesLine setup.now line.now self.old self.new) }
        ensures full { IsErrOf result TallyFault.Full → OverfillsLine setup.now line.now self.old }
        ensures known { AreAgents setup.now.panels.rules agents.new }
    {
        let pieces = line_pieces(alloc, &setup.line, line)?;
        match read_view(alloc, &setup.line, line, &pieces)? {
            LineView::Skipped => Ok(()),
            LineView::Failed => self.add_totals(FAILED),
            LineView::Good(view) => self.count_record(alloc, &setup.panels, agents, view.as_ref()),
        }
    }

    /// Counts one record: as an excluded line, or under its keys.
    fn count_record(
        &mut self,
        alloc: Global,
        panels: &PanelSetup,
        agents: &mut Agents,
        rec: RecordRef<'_>,
    ) -> Result<(), TallyFault>
        requires bounds { RecordBounds (record_in rec) }
        requires known { AreAgents panels.now.rules agents.old }
        ensures counted { OnOk result
            (TakesSaid panels.now (SaysRecord (record_in rec.entry)) self.old self.new) }
        ensures full { IsErrOf result TallyFault.Full →
            OverfillsSaid panels.now (SaysRecord (record_in rec.entry)) self.old }
        ensures known { AreAgents panels.now.rules agents.new }
    {
        let agent = AgentRef::of(rec.agent);
        agents.learn(alloc, &panels.rules, agent)?;
        let facts = facts_of(alloc, panels, agents, agent, rec)?;
        if facts.is_excluded() {
            return self.add_totals(EXCLUDED);
        }
        self.count_facts(alloc, &facts, &rec)
    }

    /// Counts a record with these facts under its keys, for its visitor.
    fn count_facts(
        &mut self,
        alloc: Global,
        facts: &RecordFacts<'_>,
        rec: &RecordRef<'_>,
    ) -> Result<(), TallyFault>
        requires bounds { RecordBounds (record_in rec.now) }
        requires values { record_of facts.now ≡ record_in rec.now }
        ensures counted { OnOk result (Adds (Counted (hit_told facts.now) ∷ []) self.old self.new) }
        ensures full { IsErrOf result TallyFault.Full → IsTooMuch (Counted (hit_told facts.now)) self.old }
    {
        self.add_totals(totals_of(rec))?;
        let visit = self.note_visitor(alloc, visitor_in(facts, rec))?;
        self.note_keys(alloc, facts, visit, sums_of(rec))?;
        Ok(())
    }

    /// Adds to what was counted over all lines, unless lines, bytes or micros would pass `LIMIT`.
    fn add_totals(&mut self, more: Totals) -> Result<(), TallyFault>
        requires fit { TotalsFit more }
        requires lines { LinesAdd more }
        ensures ok { OnOk result (self.new ≡ record self.old { totals = totals_plus self.old.totals more }) }
        ensures fit { OnOk result (TotalsFit self.new.totals) }
        ensures full { IsErrOf result TallyFault.Full → ¬ TotalsFit (totals_plus self.old.totals more) }
    {
        let totals = self.totals.plus(&more);
        if totals.lines > LIMIT || totals.bytes > LIMIT || totals.micros > LIMIT {
            return Err(TallyFault::Full);
        }
        self.totals = totals;
        Ok(())
    }
}

/// A record with its facts. What its agent is comes from the agents that are known.
fn facts_of<'a>(
    alloc: Global,
    panels: &'a PanelSetup,
    agents: &'a Agents,
    agent: AgentRef<'a>,
    rec: RecordRef<'a>,
) -> Result<RecordFacts<'a>, NoMemory>
    requires bounds { RecordBounds (record_in rec) }
    requires agent { agent.text.now ≡ rec.agent.now }
    requires known { AreAgents panels.now.rules agents.now }
    ensures { IfOk result (AreFactsOf panels.now (record_in rec.entry)) }
{
    let class = agents.class_of(&panels.rules, agent);
    let referral = referral_of(alloc, rec.referrer)?;
    Ok(RecordFacts::with(panels, rec, class, referral))
}

/// Whose visit a record with these facts is.
fn visitor_in<'a>(facts: &RecordFacts<'_>, rec: &RecordRef<'a>) -> Option<VisitorRef<'a>>
    requires { record_of facts.now ≡ record_in rec.now }
    ensures { option_map visitor_of result
        ≡ visits.visitor_in (setup_of facts.now) (record_in rec.now) }
{
    if !facts.is_visit() {
        return None;
    }
    Some(VisitorRef {
        host: rec.host,
        date: rec.date,
        agent: rec.agent,
    })
}

/// The totals of one counted record.
fn totals_of(rec: &RecordRef<'_>) -> Totals
    ensures { result ≡ record_totals (record_in rec.now) }
{
    Totals {
        lines: 1,
        failed: 0,
        excluded: 0,
        hits: 1,
        bytes: rec.bytes,
        micros: rec.micros.unwrap_or(0),
    }
}

/// The sums of one counted record.
fn sums_of(rec: &RecordRef<'_>) -> Sums
    ensures { result ≡ record_sums (record_in rec.now) }
{
    let micros = rec.micros.unwrap_or(0);
    Sums {
        hits: 1,
        bytes: rec.bytes,
        micros,
        max_micros: micros,
    }
}
