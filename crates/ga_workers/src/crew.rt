use crate::Workers;
use ga_outcomes::Setup;
use std::alloc::Global;

/// What stays the same while a run counts: nothing that is counted depends on more of it than the setup.
#[derive(Drop)]
pub struct Crew<'a, R, G> {
    /// What starts threads.
    pub rt: &'a R,
    /// The gate that each worker passes after its first draw.
    pub gate: &'a G,
    /// Where memory is taken.
    pub alloc: Global,
    /// How lines are read and counted.
    pub setup: &'a Setup,
    /// How many workers there are, and how much each takes at once.
    pub workers: Workers,
}
