// The nominations of nodes.
ghost use Rattle.std.specs.Prelude.{◌≡◌, ◌++◌, ◌∷◌, [], None, IfOk, IfErr, OnOk};
ghost use Rattle.name_places.specs.ByName.{look};
ghost use Rattle.network.specs.Faults.{Tells};
ghost use Rattle.network.specs.Nodes.{node_word, is_fit, nominated_id, nomination_fault, nominations_fault, nominated, nomination};

use crate::faults::{no_such_node, twice_nominated, wrong_type};
use gas_model::NoMemory;
use name_places::{ByName, NamePlaces, keep_first, no_values, value_of};
use net_reader::{NetNode, NodeWord};
use problem_faults::JoinFault;
use scn_reader::ScnNode;
use std::alloc::Global;

/// The nomination of a node: whether it is an entry, and its bounds.
#[derive(Clone, Copy, Debug, PartialEq, Eq)]
pub struct Nominated {
    pub entry: bool,
    pub f_min: i64,
    pub f_max: i64,
    pub p_min: i64,
    pub p_max: i64,
}

/// What nodes are; of two of one id, the first.
pub fn node_words(alloc: Global, nodes: &[NetNode]) -> Result<ByName<'_, NodeWord>, NoMemory>
    ensures { IfOk result (λ words. look words ≡ node_word nodes.now) }
{
    let mut words = no_values(alloc);
    for node in nodes {
        keep_first(&mut words, node.id.as_str(), node.word)?;
    }
    Ok(words)
}

// Whether gas may enter, or leave, at such a node.
fn is_fit(entry: bool, word: NodeWord) -> bool
    ensures { result ≡ is_fit entry word }
{
    match word {
        NodeWord::Source => entry,
        NodeWord::Sink => !entry,
        NodeWord::Inner => false,
    }
}

// Adds the id of a nomination to those before it.
fn add_nomination<'a>(
    alloc: Global,
    words: &ByName<'_, NodeWord>,
    earlier: &mut NamePlaces<'a>,
    node: &'a ScnNode,
) -> Result<(), JoinFault>
    ensures ok { OnOk result (earlier.new ≡ earlier.old ++ nominated_id node.now ∷ []) }
    ensures clean { OnOk result (nomination_fault (look words.now) earlier.old node.now ≡ None) }
    ensures err { IfErr result (λ e. Tells e (nomination_fault (look words.now) earlier.old node.now)) }
{
    let Some(word) = value_of(words, node.id.as_str()) else {
        return Err(no_such_node(alloc, &node.id));
    };
    if !is_fit(node.entry, word) {
        return Err(wrong_type(alloc, &node.id));
    }
    if !earlier.add(node.id.as_str())? {
        return Err(twice_nominated(alloc, &node.id));
    }
    Ok(())
}

/// That nominations are of different nodes that there are, each of the right type.
pub fn check_nominations(
    alloc: Global,
    words: &ByName<'_, NodeWord>,
    nodes: &[ScnNode],
) -> Result<(), JoinFault>
    ensures clean { OnOk result (nominations_fault (look words.now) nodes.now ≡ None) }
    ensures err { IfErr result (λ e. Tells e (nominations_fault (look words.now) nodes.now)) }
{
    let mut earlier = NamePlaces::new(alloc);
    for node in nodes {
        add_nomination(alloc, words, &mut earlier, node)?;
    }
    Ok(())
}

fn bounds_of(node: &ScnNode) -> Nominated
    ensures { result ≡ nominated node.now }
{
    Nominated {
        entry: node.entry,
        f_min: node.f_min,
        f_max: node.f_max,
        p_min: node.p_min,
        p_max: node.p_max,
    }
}

/// The nominations by the ids of their nodes.
pub fn nominations_of(alloc: Global, nodes: &[ScnNode]) -> Result<ByName<'_, Nominated>, NoMemory>
    ensures { IfOk result (λ nominations. look nominations ≡ nomination nodes.now) }
{
    let mut nominations = no_values(alloc);
    for node in nodes {
        keep_first(&mut nominations, node.id.as_str(), bounds_of(node))?;
    }
    Ok(nominations)
}
