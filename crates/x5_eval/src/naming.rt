//! Agents by their names, as answers and references carry them.

ghost use Rattle.std.specs.Prelude.{◌≡◌, ◌<◌, true, length, IfOk};
ghost use Rattle.x5_model.specs.Words.{distinct, same_octets};
ghost use Rattle.x5_ops.specs.AnswerViews.{source_view};

use x5_know::AgentNames;
use x5_memory::NoMemory;
use x5_names::Name;
use x5_ops::{AgentId, Moment, Source};

/// The context of this prefix as a source of an answer, at this agent and as of the moment.
pub(crate) fn source(
    names: &AgentNames,
    me: AgentId,
    prefix: &Name,
    moment: Option<Moment>,
) -> Result<Source, NoMemory>
    requires there { me < length names.now }
    requires apart { distinct same_octets names.now ≡ true }
    ensures { IfOk result (λ source. source_view names.now source ≡ record { context = prefix.now; agent = me; moment = moment }) }
{
    Ok(Source {
        context: prefix.clone()?,
        agent: names.name(me).clone()?,
        moment,
    })
}
