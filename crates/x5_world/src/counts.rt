//! What says how many messages a request may take: how many contexts are mastered, and how many agents stand in NSSRs.

ghost use Rattle.std.specs.Prelude.{◌≡◌, ◌≤◌};
ghost use Rattle.x5_world.specs.Counts.{contexts_of, pairs_of_nssrs, pairs_of_contexts, pairs_of_agents};

use x5_know::DescribedAgent;
use x5_ops::{ContextSpec, Nssr};

/// How many contexts the agents master, each counted as often as it's described. No memory.
pub(crate) fn contexts(agents: &[DescribedAgent]) -> usize
    requires { contexts_of agents.now ≤ 4096 }
    ensures { result ≡ contexts_of agents.now }
{
    let mut count = 0;
    for agent in agents {
        count += agent.spec.contexts.len();
    }
    count
}

/// How many agents stand in these NSSRs. No memory.
fn in_nssrs(nssrs: &[Nssr]) -> usize
    requires { pairs_of_nssrs nssrs.now ≤ 4096 }
    ensures { result ≡ pairs_of_nssrs nssrs.now }
{
    let mut count = 0;
    for nssr in nssrs {
        count += nssr.agents.len();
    }
    count
}

/// How many agents stand in NSSRs of these contexts. No memory.
fn in_contexts(contexts: &[ContextSpec]) -> usize
    requires { pairs_of_contexts contexts.now ≤ 4096 }
    ensures { result ≡ pairs_of_contexts contexts.now }
{
    let mut count = 0;
    for context in contexts {
        count += in_nssrs(context.nssr.as_slice());
    }
    count
}

/// How many agents stand in the NSSRs of these agents' contexts. No memory.
pub(crate) fn pairs(agents: &[DescribedAgent]) -> usize
    requires { pairs_of_agents agents.now ≤ 4096 }
    ensures { result ≡ pairs_of_agents agents.now }
{
    let mut count = 0;
    for agent in agents {
        count += in_contexts(agent.spec.contexts.as_slice());
    }
    count
}
