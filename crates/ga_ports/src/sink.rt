ghost use Rattle.std.specs.Prelude.{◌≡◌, ℕ, length};
ghost use Rattle.ga_ports.specs.Outs as outs;
ghost use Rattle.ga_ports.specs.MemOuts.{TakesFront, empty_sink, sink_state, sink_view};

use crate::{Failed, TargetCounts};
use std::alloc::Global;

/// One target in memory.
#[derive(Debug, Drop)]
pub struct Sink {
    pub bytes: Vec<u8>,
    pub counts: TargetCounts,
    /// How many bytes it still takes, where it has a room.
    pub room: Option<u64>,
}

impl Sink {
    /// A target that holds nothing and has no room set.
    pub fn new(alloc: Global) -> Sink
        ensures { sink_state result ≡ empty_sink }
    {
        Sink {
            bytes: Vec::new(alloc),
            counts: TargetCounts::ZERO,
            room: None,
        }
    }

    /// Takes the front of the piece that fits, where the call isn't due to fail and something of the room is left.
    /// Lack of memory is counted in `starved`.
    pub fn take(&mut self, due: bool, starved: &mut u64, piece: &[u8]) -> Result<usize, Failed>
        ensures { let old = sink_view (sink_state self.old) in let new = sink_view (sink_state self.new) in
            TakesFront due piece.now old new starved.old starved.new result }
    {
        if due || self.room == Some(0) {
            self.counts.fail();
            return Err(Failed);
        }
        let count = fitting_count(self.room, piece.len());
        if self.bytes.extend_from_slice(&piece[..count]).is_err() {
            self.counts.fail();
            *starved = starved.saturating_add(1);
            return Err(Failed);
        }
        self.counts.take(count);
        self.room = self.room.map(|room| room.saturating_sub(count as u64));
        Ok(count)
    }
}

/// How many of this many bytes fit in a room.
fn fitting_count(room: Option<u64>, count: usize) -> usize
    ensures { result ≡ outs.fitting room count }
{
    match room {
        None => count,
        Some(room) if room < count as u64 => room as usize,
        Some(_) => count,
    }
}
