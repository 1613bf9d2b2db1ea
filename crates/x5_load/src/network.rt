//! The network of a world file of format 2.

ghost use Rattle.std.specs.Prelude.{◌≡◌, ◌==◌, [], map, codes, false, option_map, option_and_then, IfOk};
ghost use Rattle.std.specs.List.{list_any};
ghost use Rattle.serde_json.specs.Find.{get, as_array, as_str};
ghost use Rattle.serde_json.specs.View.{view, items_view, members_view};
ghost use Rattle.x5_load.specs.Parts as parts;
ghost use Rattle.x5_load.specs.TextPairs.{texts_of};
ghost use Rattle.x5_model_world.specs.ContextText.{agent_of as place_of};
ghost use Rattle.x5_model_world.specs.NetworkText as model;
ghost use Rattle.x5_world_members.specs.Paths.{path_of};
ghost use Rattle.x5_world_members.specs.Views.{ReadsPart};

use crate::distinct::{Numbers, Pairs, Texts};
use crate::limits::few;
use serde_json::{Map, Value};
use std::alloc::Global;
use x5_know::{AgentNames, NetworkState, NumberList, Pair, PairList};
use x5_memory::NoMemory;
use x5_ops::AgentList;
use x5_world_members::{LoadFault, Place, agent_of, list_if_any, members_at, number_of, only};

/// Cut pairs of a world at most.
const MOST_CUT: u32 = 2016;

/// Lost messages of a world at most.
const MOST_LOST_MESSAGES: u32 = 4096;

/// Lost replies of a world at most.
const MOST_LOST_REPLIES: u32 = 16;

/// A text that is none of those before.
fn text_behind<'a>(
    alloc: Global,
    place: &Place<'_>,
    before: &Texts<'a>,
    value: &'a Value,
) -> Result<&'a str, LoadFault>
    ensures read { ReadsPart (λ t. t.now) result (model.text_behind (path_of place.now) before.now (view value.now)) }
    ensures new { IfOk result (λ t. model.has_text before.now t.now ≡ false) }
{
    let Some(text) = value.as_str() else {
        return Err(place.bad_shape(alloc));
    };
    if before.has(text) {
        return Err(place.bad_shape(alloc));
    }
    Ok(text)
}

/// The texts of a list, each of which stands there once.
fn texts_behind<'a>(
    alloc: Global,
    place: &Place<'_>,
    items: &'a [Value],
) -> Result<Texts<'a>, LoadFault>
    ensures { ReadsPart (λ t. t) result (model.texts_behind (path_of place.now) 0 [] (items_view items.now)) }
{
    let mut texts = Texts::new(alloc);
    for (i, item) in items.iter().enumerate() {
        let text = text_behind(alloc, &Place::Item(&*place, i), &texts, item)?;
        texts.add(text)?;
    }
    Ok(texts)
}

/// The agents of these names.
fn agents_of(alloc: Global, names: &AgentNames, texts: &[&str]) -> Result<AgentList, NoMemory>
    ensures { IfOk result (λ l. l ≡ map (place_of names.now) (map (λ t. t.now) texts.now)) }
{
    let mut agents = AgentList::new(alloc);
    for text in texts {
        agents.push(agent_of(names, text))?;
    }
    Ok(agents)
}

/// The agents that the list at the name lists.
fn agents_at(
    alloc: Global,
    names: &AgentNames,
    name: &'static str,
    value: &Value,
) -> Result<AgentList, LoadFault>
    ensures { ReadsPart (λ l. l) result (model.agents_at names.now name.now (view value.now)) }
{
    let whole = Place::Whole;
    let here = Place::Member(&whole, "network");
    let items = list_if_any(alloc, &here, name, value)?;
    let texts = texts_behind(alloc, &Place::Member(&here, name), items)?;
    let agents = agents_of(alloc, names, texts.as_slice())?;
    Ok(agents)
}

/// The two values, if both are texts.
fn two_texts<'a>(first: &'a Value, second: &'a Value) -> Option<(&'a str, &'a str)>
    ensures { option_map texts_of result ≡ model.two_texts (as_str (view first.now)) (as_str (view second.now)) }
{
    match first.as_str() {
        Some(a) => match second.as_str() {
            Some(b) => Some((a, b)),
            None => None,
        },
        None => None,
    }
}

/// The texts of a list of two.
#[tactic(auto, using(crate::proofs::Texts::pair_is, crate::proofs::Texts::no_pair))]
fn pair_of(items: &[Value]) -> Option<(&str, &str)>
    ensures { option_map texts_of result ≡ model.pair_of (items_view items.now) }
{
    if items.len() == 2 {
        two_texts(&items[0], &items[1])
    } else {
        None
    }
}

/// The texts of the value, if it's a list of two.
fn pair_in(value: &Value) -> Option<(&str, &str)>
    ensures { option_map texts_of result ≡ option_and_then model.pair_of (as_array (view value.now)) }
{
    match value.as_array() {
        Some(items) => pair_of(items.as_slice()),
        None => None,
    }
}

/// Two different texts, which are no pair of those before in either order.
fn pair_behind<'a>(
    alloc: Global,
    place: &Place<'_>,
    before: &Pairs<'a>,
    value: &'a Value,
) -> Result<(&'a str, &'a str), LoadFault>
    ensures read { ReadsPart texts_of result (model.pair_behind (path_of place.now) before.now (view value.now)) }
    ensures new { IfOk result (λ p. list_any (model.same_texts (texts_of p)) before.now ≡ false) }
{
    let Some((a, b)) = pair_in(value) else {
        return Err(place.bad_shape(alloc));
    };
    if a == b || before.has(a, b) || before.has(b, a) {
        return Err(place.bad_shape(alloc));
    }
    Ok((a, b))
}

/// The pairs of a list.
fn pairs_behind<'a>(
    alloc: Global,
    place: &Place<'_>,
    items: &'a [Value],
) -> Result<Pairs<'a>, LoadFault>
    ensures { ReadsPart (λ p. p) result (model.pairs_behind (path_of place.now) 0 [] (items_view items.now)) }
{
    let mut pairs = Pairs::new(alloc);
    for (i, item) in items.iter().enumerate() {
        let (a, b) = pair_behind(alloc, &Place::Item(&*place, i), &pairs, item)?;
        pairs.add(a, b)?;
    }
    Ok(pairs)
}

/// The pairs of the agents of these names.
fn pairs_of(alloc: Global, names: &AgentNames, texts: &[(&str, &str)]) -> Result<PairList, NoMemory>
    ensures { IfOk result (λ l. l ≡ map (model.pair_of_agents names.now) (map texts_of texts.now)) }
{
    let mut pairs = PairList::new(alloc);
    for (a, b) in texts {
        pairs.push(Pair {
            a: agent_of(names, a),
            b: agent_of(names, b),
        })?;
    }
    Ok(pairs)
}

/// The pairs of agents that a list describes, if there aren't too many.
fn cut_behind(
    alloc: Global,
    names: &AgentNames,
    place: &Place<'_>,
    items: &[Value],
) -> Result<PairList, LoadFault>
    ensures { ReadsPart (λ l. l) result (parts.cut_in names.now (path_of place.now) (items_view items.now)) }
{
    few(alloc, place, MOST_CUT, items)?;
    let texts = pairs_behind(alloc, place, items)?;
    let pairs = pairs_of(alloc, names, texts.as_slice())?;
    Ok(pairs)
}

/// The pairs that are cut.
fn cut_at(alloc: Global, names: &AgentNames, value: &Value) -> Result<PairList, LoadFault>
    ensures { ReadsPart (λ l. l) result (model.cut_at names.now (view value.now)) }
{
    let whole = Place::Whole;
    let here = Place::Member(&whole, "network");
    let items = list_if_any(alloc, &here, "cut", value)?;
    cut_behind(alloc, names, &Place::Member(&here, "cut"), items)
}

/// A number that is none of those before.
fn number_behind(
    alloc: Global,
    place: &Place<'_>,
    before: &Numbers,
    value: &Value,
) -> Result<u32, LoadFault>
    ensures read { ReadsPart (λ n. n) result (model.number_behind (path_of place.now) before.now (view value.now)) }
    ensures new { IfOk result (λ n. list_any (λ k. n == k) before.now ≡ false) }
{
    let Some(number) = number_of(value) else {
        return Err(place.bad_shape(alloc));
    };
    if before.has(number) {
        return Err(place.bad_shape(alloc));
    }
    Ok(number)
}

/// The numbers of a list, each of which stands there once.
fn numbers_behind(alloc: Global, place: &Place<'_>, items: &[Value]) -> Result<Numbers, LoadFault>
    ensures { ReadsPart (λ n. n) result (model.numbers_behind (path_of place.now) 0 [] (items_view items.now)) }
{
    let mut numbers = Numbers::new(alloc);
    for (i, item) in items.iter().enumerate() {
        let number = number_behind(alloc, &Place::Item(&*place, i), &numbers, item)?;
        numbers.add(number)?;
    }
    Ok(numbers)
}

/// The numbers that a list lists, if they aren't too many.
fn numbers_in(
    alloc: Global,
    most: u32,
    place: &Place<'_>,
    items: &[Value],
) -> Result<NumberList, LoadFault>
    ensures { ReadsPart (λ l. l) result (parts.numbers_in most (path_of place.now) (items_view items.now)) }
{
    few(alloc, place, most, items)?;
    let numbers = numbers_behind(alloc, place, items)?;
    let list = numbers.as_slice().to_vec(alloc)?;
    Ok(NumberList::from_vec(list))
}

/// The numbers that the list at the name lists.
fn numbers_at(
    alloc: Global,
    most: u32,
    name: &'static str,
    value: &Value,
) -> Result<NumberList, LoadFault>
    ensures { ReadsPart (λ l. l) result (model.numbers_at most name.now (view value.now)) }
{
    let whole = Place::Whole;
    let here = Place::Member(&whole, "network");
    let items = list_if_any(alloc, &here, name, value)?;
    numbers_in(alloc, most, &Place::Member(&here, name), items)
}

/// The numbers of messages and of replies that are lost in a network with these lists, which an object describes.
fn losses_at(
    alloc: Global,
    down: &AgentList,
    refusing: &AgentList,
    cut: &PairList,
    members: &Map<String, Value>,
    value: &Value,
) -> Result<(NumberList, NumberList), LoadFault>
    ensures { ReadsPart (λ r. parts.network_with down.now refusing.now cut.now r.0 r.1) result (parts.losing down.now refusing.now cut.now (members_view members.now.entries) (view value.now)) }
{
    let _ = down;
    let _ = refusing;
    let _ = cut;
    let whole = Place::Whole;
    let here = Place::Member(&whole, "network");
    let messages = numbers_at(alloc, MOST_LOST_MESSAGES, "loseMessages", value)?;
    let replies = numbers_at(alloc, MOST_LOST_REPLIES, "loseReplies", value)?;
    let listed = &["down", "refuse", "cut", "loseMessages", "loseReplies"];
    only(alloc, &here, listed, members)?;
    Ok((messages, replies))
}

/// The network that an object describes.
fn network_in(alloc: Global, names: &AgentNames, value: &Value) -> Result<NetworkState, LoadFault>
    ensures { ReadsPart (λ n. n) result (model.network_in names.now (view value.now)) }
{
    let whole = Place::Whole;
    let here = Place::Member(&whole, "network");
    let members = members_at(alloc, &here, value)?;
    let down = agents_at(alloc, names, "down", value)?;
    let refusing = agents_at(alloc, names, "refuse", value)?;
    let cut = cut_at(alloc, names, value)?;
    let (lost_messages, lost_replies) = losses_at(alloc, &down, &refusing, &cut, members, value)?;
    Ok(NetworkState {
        down,
        refusing,
        cut,
        lost_messages,
        lost_replies,
    })
}

/// The network of a world, in which nothing is down, cut, refusing or lost where none is described.
pub(crate) fn network_if_any(
    alloc: Global,
    names: &AgentNames,
    value: &Value,
) -> Result<NetworkState, LoadFault>
    ensures { ReadsPart (λ n. n) result (model.network_if_any names.now (get (codes "network") (view value.now))) }
{
    match value.get("network") {
        Some(found) => network_in(alloc, names, found),
        None => Ok(quiet(alloc)),
    }
}

/// A network in which nothing is down, cut, refusing or lost. No memory.
pub(crate) fn quiet(alloc: Global) -> NetworkState
    ensures { result ≡ model.quiet }
{
    NetworkState {
        down: AgentList::new(alloc),
        refusing: AgentList::new(alloc),
        cut: PairList::new(alloc),
        lost_messages: NumberList::new(alloc),
        lost_replies: NumberList::new(alloc),
    }
}
