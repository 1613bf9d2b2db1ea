//! What messages of shadowing are read and written with, beside their octets: the start from which moments count, and the world's
//! agents, which both ends share (X.525).
ghost use Rattle.std.specs.Prelude.{◌≡◌, IfOk, IfSome, nat_lt, true};
ghost use Rattle.std.specs.Option.{is_some};
ghost use Rattle.x5_know.specs.Moments.{moment_count, moment_text};
ghost use Rattle.x5_model_typed.specs.Leaves.{where_so};
ghost use Rattle.x5_types.specs.FormView.{around};

use std::alloc::Global;
use x5_know::{AgentNames, Start};
use x5_memory::NoMemory;
use x5_ops::Moment;
use x5_syntax::Text;

/// What the types of messages depend on.
#[derive(Clone, Copy)]
pub enum Surroundings<'s> {
    /// Nothing: in messages of users and between agents there are no times, and agents of any name.
    Nowhere,
    /// The start of a world and the names of its agents.
    World(&'s Start, &'s AgentNames),
}

impl<'s> Surroundings<'s> {
    /// The moment whose date and time the octets spell.
    #[tactic(auto, using(crate::proofs::Times::moment_has_time))]
    pub(crate) fn moment(self, alloc: Global, octets: &[u8]) -> Result<Option<Moment>, NoMemory>
        ensures value { IfOk result (λ moment. moment ≡ (around self.entry).moment octets.now) }
        ensures time { IfOk result (λ moment. IfSome moment (λ m. is_some ((around self.entry).time m) ≡ true)) }
    {
        match self {
            Surroundings::Nowhere => Ok(None),
            Surroundings::World(start, _) => start.moment_of(alloc, octets),
        }
    }

    /// The date and time of the moment as a text, if it has one.
    pub fn time(self, alloc: Global, moment: u64) -> Result<Option<Text>, NoMemory>
        ensures { IfOk result (λ text. text ≡ (around self.entry).time moment) }
    {
        match self {
            Surroundings::Nowhere => Ok(None),
            Surroundings::World(start, _) => time_from(alloc, start, moment),
        }
    }

    /// Whether the moment has a date and time. No memory.
    #[tactic(auto, using(crate::proofs::Times::has_time))]
    pub fn has_time(self, moment: u64) -> bool
        ensures { result ≡ is_some ((around self.entry).time moment) }
    {
        match self {
            Surroundings::Nowhere => false,
            Surroundings::World(_, _) => moment < 4_294_967_296,
        }
    }

    /// Whether an agent of the world has the name. No memory.
    pub(crate) fn is_agent(self, name: &str) -> bool
        ensures { result ≡ (around self.entry).is_agent name.now }
    {
        match self {
            Surroundings::Nowhere => false,
            Surroundings::World(_, names) => names.find(name).is_some(),
        }
    }
}

/// The date and time so many seconds after the start, where moments count so many.
#[tactic(auto, using(crate::proofs::Times::counts))]
fn time_from(alloc: Global, start: &Start, moment: u64) -> Result<Option<Text>, NoMemory>
    ensures { IfOk result (λ text. text ≡ where_so (nat_lt moment moment_count) (moment_text start.now moment)) }
{
    match u32::try_from(moment) {
        Ok(moment) => Ok(Some(start.moment_text(alloc, Moment(moment))?)),
        Err(_) => Ok(None),
    }
}
