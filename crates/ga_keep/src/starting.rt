ghost use Rattle.std.specs.Prelude.{◌≡◌, None, IfOk, OnOk, true};
ghost use Rattle.ga_base.specs.Totals.{LinesAdd, TotalsFit, totals_plus};
ghost use Rattle.ga_summary.specs.Limits.{passes};
ghost use Rattle.ga_summary.specs.Sums.{IsMerged};
ghost use Rattle.ga_store.specs.Commit.{position_of};
ghost use Rattle.ga_store.specs.Store.{db_value};
ghost use Rattle.ga_keep.specs.RunDatabase.{GrowsBy, IsBaseOf, follow_of, whole_of};
ghost use Rattle.ga_keep.specs.RunDatabase as spec;

use crate::Base;
use ga_base::NoMemory;
use ga_resume::{Follow, Start};
use ga_store::{Db, Position};
use ga_summary::Summary;
use ga_words::Settings;
use std::alloc::Global;
use std::mem::replace;

/// Where a database stands, and what a run counts on from: what is stored, where it restores, and else nothing.
pub fn base_of(alloc: Global, settings: &Settings, stored: Db) -> (Position, Base)
    ensures position { result.0 ≡ position_of (db_value stored) }
    ensures base { IsBaseOf (spec.base_of settings.now (db_value stored)) result.1 }
{
    let position = stored.position();
    if !settings.restore {
        return (position, Base::empty(alloc));
    }
    let Db {
        summary,
        entries,
        ..
    } = stored;
    (position, Base { summary, entries })
}

/// From where a run counts on.
pub fn start(settings: &Settings, base: &Base) -> Start
    ensures start { result ≡ record { follow = follow_of settings.now; totals = base.now.summary.totals } }
    ensures fits { TotalsFit result.totals }
    ensures adds { LinesAdd result.totals }
{
    Start {
        follow: follow(settings),
        totals: base.summary.totals(),
    }
}

/// How a run follows its logs.
fn follow(settings: &Settings) -> Follow
    ensures { result ≡ follow_of settings.now }
{
    if settings.persist {
        Follow::ToLastLine
    } else if settings.restore {
        Follow::ToEnd
    } else {
        Follow::Whole
    }
}

/// Adds what a run counted to what it restored, where it restores, and keeps the last days of both; else it keeps those of the
/// run. After an `Err` the base may have no summary.
pub fn add_run(
    alloc: Global,
    settings: &Settings,
    base: &mut Base,
    run: &mut Summary,
) -> Result<(), NoMemory>
    requires { passes (totals_plus base.old.summary.totals run.old.totals) ≡ None }
    ensures grown { OnOk result (GrowsBy settings.now.restore settings.now.keep base.old.summary run.old base.new.summary run.new) }
    ensures entries { base.new.entries ≡ base.old.entries }
{
    if !settings.restore {
        run.trim(settings.keep);
        return Ok(());
    }
    let more = run.copy()?;
    let none = Summary::empty(alloc);
    let restored = replace(&mut base.summary, none);
    base.summary = last_days_of(restored, more, settings.keep)?;
    Ok(())
}

/// The last days of both together, this many.
fn last_days_of(restored: Summary, more: Summary, keep: u32) -> Result<Summary, NoMemory>
    ensures { IfOk result (λ whole. GrowsBy true keep restored more whole more) }
{
    let mut whole = joined(restored, more)?;
    whole.trim(keep);
    Ok(whole)
}

/// Both together.
fn joined(restored: Summary, more: Summary) -> Result<Summary, NoMemory>
    ensures { IfOk result (IsMerged restored more) }
{
    match restored.join(more) {
        Ok(both) => Ok(both),
        Err(_) => Err(NoMemory),
    }
}

/// What a run shows and keeps: the last days of what it counted, after what it restored. The run was added to its base.
pub fn whole<'a>(settings: &Settings, base: &'a Base, run: &'a Summary) -> &'a Summary
    ensures { result.now ≡ whole_of settings.now base.now.summary run.now }
{
    if settings.restore { &base.summary } else { run }
}
