// The one text of a problem, written at the end of some bytes.
ghost use Rattle.std.specs.Prelude.{◌≡◌, ◌<◌, [], ◌∷◌, ◌++◌, length, map, slice_index_or, codes, Ok, IfOk, OnOk};
ghost use Rattle.line_text.specs.Numerals.{signed_numeral};
ghost use Rattle.std.specs.List.{flat_map};
ghost use Rattle.gas_model.specs.Rows.{node_ids, arc_id, text_of, set_text, decision_text, group_text};
ghost use Rattle.gas_model.specs.Rulings.{NameArcs, DecideArcs, GroupsDecideArcs};
ghost use Rattle.line_text.specs.Words.{joined};
ghost use Rattle.flat_text.specs.Text.{flat_of};
ghost use Rattle.flat_text.specs.Writing.{AreBetween};
ghost use Rattle.flat_text.specs.Spelling.{spaced, line, kind_numbers, node_line, arc_line, set_line, decision_lines, group_lines, flat_text};

use crate::kinds::{allow_word, kind_word};
use gas_model::{Allow, ArcKind, ArcRow, Bytes, Decision, Group, NoMemory, NodeRow, Problem};
use line_text::put_number;
use std::alloc::Global;

/// One space, and the text.
fn put_field(out: &mut Bytes, text: &str) -> Result<(), NoMemory>
    ensures { OnOk result (out.new ≡ out.old ++ 32 ∷ text.now) }
{
    out.push(b' ')?;
    out.append(text.as_bytes())
}

/// One space, and the number.
fn put_value(out: &mut Bytes, number: i64) -> Result<(), NoMemory>
    ensures { OnOk result (out.new ≡ out.old ++ 32 ∷ signed_numeral number) }
{
    out.push(b' ')?;
    put_number(out, number)
}

/// Texts, each after one space.
fn put_fields(out: &mut Bytes, fields: &[&str]) -> Result<(), NoMemory>
    ensures { OnOk result (out.new ≡ out.old ++ spaced (map (λ field. field.now) fields.now)) }
{
    for field in fields {
        put_field(out, field)?;
    }
    Ok(())
}

/// Numbers, each after one space.
fn put_values(out: &mut Bytes, numbers: &[i64]) -> Result<(), NoMemory>
    ensures { OnOk result (out.new ≡ out.old ++ spaced (map signed_numeral numbers.now)) }
{
    for number in numbers {
        put_value(out, *number)?;
    }
    Ok(())
}

/// The word of a line, then texts and numbers, each after one space.
fn put_words(out: &mut Bytes, word: &str, texts: &[&str], numbers: &[i64]) -> Result<(), NoMemory>
    ensures { OnOk result (out.new ≡ out.old ++ joined word.now (map (λ text. text.now) texts.now ++ map signed_numeral numbers.now)) }
{
    out.append(word.as_bytes())?;
    put_fields(out, texts)?;
    put_values(out, numbers)
}

/// The same as a whole line.
fn put_line(out: &mut Bytes, word: &str, texts: &[&str], numbers: &[i64]) -> Result<(), NoMemory>
    ensures { OnOk result (out.new ≡ out.old ++ line word.now (map (λ text. text.now) texts.now ++ map signed_numeral numbers.now)) }
{
    put_words(out, word, texts, numbers)?;
    out.push(b'\n')
}

fn put_node(out: &mut Bytes, row: &NodeRow) -> Result<(), NoMemory>
    ensures { OnOk result (out.new ≡ out.old ++ node_line row.now) }
{
    put_line(
        out,
        "node",
        &[row.id.as_str()],
        &[row.p_min, row.p_max, row.b_min, row.b_max],
    )
}

/// The id of a node.
fn node_name(nodes: &[NodeRow], node: u32) -> &str
    requires { node < length nodes.now }
    ensures { result.now ≡ slice_index_or (node_ids nodes.now) node [] }
{
    nodes[node as usize].id.as_str()
}

/// The numbers of a kind.
fn put_kind(out: &mut Bytes, kind: &ArcKind) -> Result<(), NoMemory>
    ensures { OnOk result (out.new ≡ out.old ++ spaced (map signed_numeral (kind_numbers kind.now))) }
{
    match *kind {
        ArcKind::Pipe { law } | ArcKind::Resist { law } => {
            put_values(out, &[law.lo, law.hi, law.den])
        }
        ArcKind::Short | ArcKind::Valve => Ok(()),
        ArcKind::Loss { low, high } => put_values(out, &[low, high]),
        ArcKind::Control {
            in_min,
            out_max,
            red_min,
            red_max,
        } => put_values(out, &[in_min, out_max, red_min, red_max]),
        ArcKind::Station {
            in_min,
            out_max,
            ratio_num,
            ratio_den,
            rise_max,
        } => put_values(out, &[in_min, out_max, ratio_num, ratio_den, rise_max]),
    }
}

fn put_arc(out: &mut Bytes, nodes: &[NodeRow], row: &ArcRow) -> Result<(), NoMemory>
    requires from { row.now.from < length nodes.now }
    requires to { row.now.to < length nodes.now }
    ensures { OnOk result (out.new ≡ out.old ++ arc_line (text_of (node_ids nodes.now) row.now)) }
{
    let from = node_name(nodes, row.from);
    let to = node_name(nodes, row.to);
    let names = [row.id.as_str(), from, to];
    put_words(out, kind_word(&row.kind), &names, &[row.q_min, row.q_max])?;
    put_kind(out, &row.kind)?;
    out.push(b'\n')
}

/// The id of an arc.
fn arc_name(arcs: &[ArcRow], arc: u32) -> &str
    requires { arc < length arcs.now }
    ensures { result.now ≡ slice_index_or (map arc_id arcs.now) arc [] }
{
    arcs[arc as usize].id.as_str()
}

fn put_set<'a>(out: &mut Bytes, arc: &'a str, word: &'a str) -> Result<(), NoMemory>
    ensures { OnOk result (out.new ≡ out.old ++ line (codes "set") (arc.now ∷ word.now ∷ [])) }
{
    put_line(out, "set", &[arc, word], &[])
}

fn put_nodes(out: &mut Bytes, nodes: &[NodeRow]) -> Result<(), NoMemory>
    ensures { OnOk result (out.new ≡ out.old ++ flat_map node_line nodes.now) }
{
    for row in nodes {
        put_node(out, row)?;
    }
    Ok(())
}

fn put_arcs(out: &mut Bytes, nodes: &[NodeRow], arcs: &[ArcRow]) -> Result<(), NoMemory>
    requires { AreBetween (length nodes.now) arcs.now }
    ensures { OnOk result (out.new ≡ out.old ++ flat_map arc_line (map (text_of (node_ids nodes.now)) arcs.now)) }
{
    for row in arcs {
        put_arc(out, nodes, row)?;
    }
    Ok(())
}

fn put_sets(out: &mut Bytes, arcs: &[ArcRow], sets: &[(u32, Allow)]) -> Result<(), NoMemory>
    requires { NameArcs (length arcs.now) sets.now }
    ensures { OnOk result (out.new ≡ out.old ++ flat_map set_line (map (set_text (map arc_id arcs.now)) sets.now)) }
{
    for (arc, allow) in sets {
        put_set(out, arc_name(arcs, *arc), allow_word(*allow))?;
    }
    Ok(())
}

fn put_decision(out: &mut Bytes, arcs: &[ArcRow], decision: &Decision) -> Result<(), NoMemory>
    requires { NameArcs (length arcs.now) decision.now.sets }
    ensures { OnOk result (out.new ≡ out.old ++ decision_lines (decision_text (map arc_id arcs.now) decision.now)) }
{
    put_line(out, "decision", &[decision.id.as_str()], &[])?;
    put_sets(out, arcs, decision.sets.as_slice())
}

fn put_decisions(out: &mut Bytes, arcs: &[ArcRow], decisions: &[Decision]) -> Result<(), NoMemory>
    requires { DecideArcs (length arcs.now) decisions.now }
    ensures { OnOk result (out.new ≡ out.old ++ flat_map decision_lines (map (decision_text (map arc_id arcs.now)) decisions.now)) }
{
    for decision in decisions {
        put_decision(out, arcs, decision)?;
    }
    Ok(())
}

fn put_group(out: &mut Bytes, arcs: &[ArcRow], group: &Group) -> Result<(), NoMemory>
    requires { DecideArcs (length arcs.now) group.now.decisions }
    ensures { OnOk result (out.new ≡ out.old ++ group_lines (group_text (map arc_id arcs.now) group.now)) }
{
    put_line(out, "group", &[group.id.as_str()], &[])?;
    put_decisions(out, arcs, group.decisions.as_slice())
}

fn put_groups(out: &mut Bytes, arcs: &[ArcRow], groups: &[Group]) -> Result<(), NoMemory>
    requires { GroupsDecideArcs (length arcs.now) groups.now }
    ensures { OnOk result (out.new ≡ out.old ++ flat_map group_lines (map (group_text (map arc_id arcs.now)) groups.now)) }
{
    for group in groups {
        put_group(out, arcs, group)?;
    }
    Ok(())
}

/// The one text of the problem, which is read as the problem again.
pub fn write_flat(alloc: Global, p: &Problem) -> Result<Bytes, NoMemory>
    ensures text { IfOk result (λ t. t ≡ flat_text p.now) }
    // What is written is read as the problem.
    ensures back { IfOk result (λ t. flat_of t ≡ Ok p.now) }
{
    let mut out = Bytes::new(alloc);
    out.append(b"gasflat 1\n".as_slice())?;
    put_nodes(&mut out, p.nodes())?;
    put_arcs(&mut out, p.nodes(), p.arcs())?;
    put_groups(&mut out, p.arcs(), p.groups())?;
    out.append(b"end\n".as_slice())?;
    Ok(out)
}
