ghost use Rattle.std.specs.Prelude.{◌≡◌, ◌<◌, [], Some, IfOk, OnErr, length, map, slice_get};
ghost use Rattle.std.specs.List.{IsDistinct};
ghost use Rattle.ga_base.specs.Orders.{is_same_visitor};
ghost use Rattle.ga_numbers.specs.NotedNumbers.{AreNotedInTurn, IsNumbered};
ghost use Rattle.ga_numbers.specs.VisitorRefs.{visitor_of};
ghost use Rattle.ga_numbers.specs.Steps.ShardRows.{AreMade, is_same_row};
ghost use Rattle.ga_numbers.specs.Steps.Three.{AllThree};
ghost use Rattle.ga_numbers.specs.Steps.VisitorRows.{IsAgent, visitors_in};

use crate::extended::Extended;
use crate::noting::note_all;
use crate::shard_row::ShardRowRef;
use crate::sharded_rows::ShardedRows;
use crate::visitor_ref::VisitorRef;
use ga_base::{NoMemory, Visitor};
use ga_shards::{Dictionary, Keyed};
use std::alloc::Global;
use std::marker::Model;
use std::thread::Threads;

/// Different visitors, in the order in which they were first noted. Contracts see the list of them.
#[derive(Drop)]
pub struct VisitorNumbers {
    /// The agents, each a row that shares nothing with others, on day 0.
    agents: ShardedRows,
    /// The visitors but for their agents: what a row shares with others is the agent of this number.
    rows: ShardedRows,
    /// How the dictionaries hash.
    keyed: Keyed,
}

impl Model for VisitorNumbers {
    ghost use Rattle.std.specs.Prelude.{List};
    ghost use Rattle.ga_base.specs.declared.key.Visitor.{Visitor};
    ghost use Rattle.ga_numbers.specs.Steps.VisitorRows.{IsAgent, visitors_in};
    ghost use Rattle.ga_numbers.specs.Steps.ShardRows.{AreRowsOf, is_same_row};

    ghost Value = { List Visitor };

    ghost view = { λ v. visitors_in v.agents v.rows };

    ghost invariant = { λ v. AreRowsOf is_same_row IsAgent v.agents v.rows };
}

impl VisitorNumbers {
    /// No visitors, which take no memory. They are hashed by `keyed`, on which nothing depends but the time it takes.
    pub fn new(alloc: Global, keyed: Keyed) -> VisitorNumbers
        ensures { result ≡ [] }
    {
        VisitorNumbers {
            agents: ShardedRows::new(alloc, keyed),
            rows: ShardedRows::new(alloc, keyed),
            keyed,
        }
    }

    /// Whether all dictionaries are hashed by `keyed`, also those that are yet to be made. No answer depends on it: it is for
    /// tests.
    pub fn is_keyed_by(&self, keyed: &Keyed) -> bool {
        self.keyed.begins_as(keyed)
            && self.agents.is_keyed_by(keyed)
            && self.rows.is_keyed_by(keyed)
    }

    /// How many visitors there are.
    pub fn len(&self) -> u32
        ensures value { result ≡ length self.now }
        ensures distinct { IsDistinct is_same_visitor self.now }
    {
        self.rows.len()
    }

    /// Notes a visitor, and gives its number. After an `Err` the visitors are as they were.
    pub fn number(&mut self, alloc: Global, visitor: &VisitorRef<'_>) -> Result<u32, NoMemory>
        ensures ok { IfOk result (λ number. IsNumbered is_same_visitor (visitor_of visitor.now) number self.old self.new) }
        ensures err { OnErr result (self.new ≡ self.old) }
    {
        let agent = ShardRowRef {
            prefix: 0,
            date: 0,
            text: visitor.agent,
        };
        let row = ShardRowRef {
            prefix: self.agents.number(alloc, agent)?,
            date: visitor.date,
            text: visitor.host,
        };
        self.rows.number(alloc, row)
    }

    /// These visitors after those of others were noted among them, one list after the other. Their agents are noted side by side,
    /// and then their rows.
    pub fn with<R: Threads + Sync>(
        self,
        rt: &R,
        alloc: Global,
        others: Vec<VisitorNumbers>,
    ) -> Result<Extended<VisitorNumbers>, NoMemory>
        ensures { IfOk result (λ extended. AreNotedInTurn is_same_visitor others.items (map (λ l. l.items) extended.numbers.items) self extended.known) }
    {
        let VisitorNumbers {
            agents,
            rows,
            keyed,
        } = self;
        let (more_agents, more_rows) = agents_and_rows(alloc, others)?;
        let (agents, places) = agents.with(rt, alloc, more_agents, &[])?;
        let (rows, numbers) = rows.with(rt, alloc, more_rows, &places)?;
        let known = VisitorNumbers {
            agents,
            rows,
            keyed,
        };
        Ok(Extended { known, numbers })
    }

    /// The visitors in texts of their own, in their order.
    pub fn items(&self, alloc: Global) -> Result<Vec<Visitor>, NoMemory>
        ensures value { IfOk result (λ visitors. visitors.items ≡ self.now) }
        ensures distinct { IfOk result (λ visitors. IsDistinct is_same_visitor visitors.items) }
    {
        let many = self.len();
        let mut visitors = Vec::with_capacity(alloc, many as usize)?;
        for number in 0..many {
            visitors.push(self.get(number)?)?;
        }
        Ok(visitors)
    }

    /// A dictionary of the visitors, in their order.
    pub fn into_dictionary(self, alloc: Global) -> Result<Dictionary<Visitor>, NoMemory>
        ensures { IfOk result (λ visitors. visitors ≡ self) }
    {
        let mut visitors = Dictionary::keyed(alloc, self.keyed);
        note_all(alloc, &mut visitors, self.items(alloc)?)?;
        Ok(visitors)
    }

    /// The visitor of this number.
    fn get(&self, number: u32) -> Result<Visitor, NoMemory>
        requires { number < length self.now }
        ensures { IfOk result (λ visitor. slice_get self.now number ≡ Some visitor) }
    {
        let row = self.rows.row(number);
        Ok(Visitor {
            host: row.text.clone()?,
            date: row.date,
            agent: self.agents.row(row.prefix).text.clone()?,
        })
    }
}

/// The agents of each of these, and the rows.
fn agents_and_rows(
    alloc: Global,
    others: Vec<VisitorNumbers>,
) -> Result<(Vec<ShardedRows>, Vec<ShardedRows>), NoMemory>
    ensures { IfOk result (λ parts. AllThree (AreMade is_same_row IsAgent visitors_in) others.items parts.0.items parts.1.items) }
{
    let mut agents = Vec::with_capacity(alloc, others.len())?;
    let mut rows = Vec::with_capacity(alloc, others.len())?;
    for visitors in others {
        agents.push(visitors.agents)?;
        rows.push(visitors.rows)?;
    }
    Ok((agents, rows))
}
