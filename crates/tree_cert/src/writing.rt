// Lines as they are written.
ghost use Rattle.std.specs.Prelude.{◌≡◌, ◌∷◌, ◌++◌, [], true, IfOk, OnOk, OnErr, map};
ghost use Rattle.line_text.specs.Numerals.{numeral};
ghost use Rattle.std.specs.List.{flat_map, list_all};
ghost use Rattle.line_text.specs.Long.{fits_position};
ghost use Rattle.tree_cert.specs.declared.line.Closing.TheVariants.{Cut};
ghost use Rattle.tree_cert.specs.declared.line.Line.TheVariants as lines;
ghost use Rattle.tree_cert.specs.Spelling.{var_text, fits_var, is_node_list, has_ordered_cut, fits_line, is_spelled, spelling, AreLines};
ghost use Rattle.tree_cert.specs.Writing.{Adds, AddsFront, field_text, fields_text, fits_field};

use crate::line::{Closing, Head, Line, Rule, Step};
use crate::words::{end_word, rule_word};
use base_types::{ArcState, Bytes, NoMemory, Var, state_word};
use line_text::{put_long, put_position};
use std::alloc::Global;

/// A field that is written.
#[derive(Clone, Copy, Debug, PartialEq, Eq)]
enum Field {
    Position(u32),
    Number(i128),
    Variable(Var),
    Named(Rule),
    InState(ArcState),
    AtEnd(bool),
}

#[tactic(auto, using(crate::proofs::Fronts::adds_after, crate::proofs::Fronts::adds_whole))]
fn put_var(out: &mut Bytes, var: Var) -> Result<(), NoMemory>
    ensures text { Adds result out.old out.new (var_text var) }
    ensures fits { OnOk result (fits_var var ≡ true) }
{
    match var {
        Var::Flow(arc) => {
            out.push(b'q')?;
            put_position(out, arc)
        }
        Var::Square(node) => {
            out.push(b's')?;
            put_position(out, node)
        }
    }
}

#[tactic(auto, using(crate::proofs::Fronts::adds_whole))]
fn put_field(out: &mut Bytes, field: Field) -> Result<(), NoMemory>
    ensures text { Adds result out.old out.new (field_text field) }
    ensures fits { OnOk result (fits_field field ≡ true) }
{
    match field {
        Field::Position(n) => put_position(out, n),
        Field::Number(z) => put_long(out, z),
        Field::Variable(var) => put_var(out, var),
        Field::Named(rule) => out.append(rule_word(rule).as_bytes()),
        Field::InState(state) => out.append(state_word(state).as_bytes()),
        Field::AtEnd(low) => out.append(end_word(low).as_bytes()),
    }
}

/// A field after a space.
#[tactic(auto, using(crate::proofs::Fronts::adds_after, crate::proofs::Fronts::adds_whole))]
fn put_spaced(out: &mut Bytes, field: Field) -> Result<(), NoMemory>
    ensures text { Adds result out.old out.new (32 ∷ field_text field) }
    ensures fits { OnOk result (fits_field field ≡ true) }
{
    out.push(b' ')?;
    put_field(out, field)
}

fn put_fields(out: &mut Bytes, fields: &[Field]) -> Result<(), NoMemory>
    ensures text { Adds result out.old out.new (fields_text fields.now) }
    ensures fits { OnOk result (list_all fits_field fields.now ≡ true) }
{
    for field in fields {
        put_spaced(out, *field)?;
    }
    Ok(())
}

fn put_nodes(out: &mut Bytes, nodes: &[u32]) -> Result<(), NoMemory>
    ensures text { Adds result out.old out.new (flat_map (λ n. 32 ∷ numeral n) nodes.now) }
    ensures fits { OnOk result (list_all fits_position nodes.now ≡ true) }
{
    for node in nodes {
        put_spaced(out, Field::Position(*node))?;
    }
    Ok(())
}

/// A word and fields, and a line feed.
fn put_line(out: &mut Bytes, word: &str, fields: &[Field]) -> Result<(), NoMemory>
    ensures text { Adds result out.old out.new (word.now ++ (fields_text fields.now ++ 10 ∷ [])) }
    ensures fits { OnOk result (list_all fits_field fields.now ≡ true) }
{
    out.append(word.as_bytes())?;
    put_fields(out, fields)?;
    out.push(b'\n')
}

/// The line of a cut.
fn put_cut(out: &mut Bytes, nodes: &[u32]) -> Result<(), NoMemory>
    ensures text { Adds result out.old out.new (spelling (lines.Close (Cut nodes.now))) }
    ensures fits { OnOk result (list_all fits_position nodes.now ≡ true) }
{
    out.append(b"close cut")?;
    put_nodes(out, nodes)?;
    out.push(b'\n')
}

fn put_closing(out: &mut Bytes, closing: &Closing) -> Result<(), NoMemory>
    ensures text { Adds result out.old out.new (spelling (lines.Close closing.now)) }
    ensures fits { OnOk result (fits_line (lines.Close closing.now) ≡ true) }
{
    match closing {
        Closing::Empty(var) => put_line(out, "close empty", &[Field::Variable(*var)]),
        Closing::Cut(nodes) => put_cut(out, nodes.as_slice()),
        Closing::At { rule, place } => put_line(
            out,
            "close",
            &[Field::Named(*rule), Field::Position(*place)],
        ),
    }
}

fn put_head(out: &mut Bytes, head: Head) -> Result<(), NoMemory>
    ensures text { Adds result out.old out.new (spelling (lines.Head head)) }
    ensures fits { OnOk result (fits_line (lines.Head head) ≡ true) }
{
    match head {
        Head::Take { group, decision } => put_line(
            out,
            "take",
            &[Field::Position(group), Field::Position(decision)],
        ),
        Head::State { arc, state } => {
            put_line(out, "state", &[Field::Position(arc), Field::InState(state)])
        }
        Head::Half { var, low, value } => put_line(
            out,
            "half",
            &[
                Field::Variable(var),
                Field::AtEnd(low),
                Field::Number(value),
            ],
        ),
    }
}

fn put_step(out: &mut Bytes, step: Step) -> Result<(), NoMemory>
    ensures text { Adds result out.old out.new (spelling (lines.Step step)) }
    ensures fits { OnOk result (fits_line (lines.Step step) ≡ true) }
{
    let fields = [
        Field::Variable(step.var),
        Field::Number(step.value),
        Field::Named(step.rule),
        Field::Position(step.place),
    ];
    put_line(out, end_word(step.low), &fields)
}

fn put_any(out: &mut Bytes, line: &Line) -> Result<(), NoMemory>
    ensures text { Adds result out.old out.new (spelling line.now) }
    ensures fits { OnOk result (fits_line line.now ≡ true) }
{
    match line {
        Line::First => put_line(out, "gastree 1", &[]),
        Line::FirstSixteenths => put_line(out, "gastree 2", &[]),
        Line::Step(step) => put_step(out, *step),
        Line::Close(closing) => put_closing(out, closing),
        Line::LeftOpen => put_line(out, "open", &[]),
        Line::Group(group) => put_line(out, "group", &[Field::Position(*group)]),
        Line::Arc(arc) => put_line(out, "arc", &[Field::Position(*arc)]),
        Line::Halve(var) => put_line(out, "halve", &[Field::Variable(*var)]),
        Line::Head(head) => put_head(out, *head),
        Line::End => put_line(out, "end", &[]),
    }
}

/// Writes the one spelling of a line at the end, its line feed included. The nodes of a cut ascend strictly, and are at
/// least one. After want of memory a front of the line may stand there.
pub fn write_line(line: &Line, out: &mut Bytes) -> Result<(), NoMemory>
    requires { has_ordered_cut line.now ≡ true }
    ensures ok { OnOk result (out.new ≡ out.old ++ spelling line.now) }
    ensures err { OnErr result (AddsFront out.old out.new (spelling line.now)) }
    // What is written is read again.
    ensures spelled { OnOk result (is_spelled line.now ≡ true) }
{
    put_any(out, line)
}

/// The text of lines, each in its one spelling. The nodes of each cut ascend strictly, and are at least one.
pub fn write_tree(alloc: Global, lines: &[Line]) -> Result<Bytes, NoMemory>
    requires { list_all has_ordered_cut lines.now ≡ true }
    ensures { IfOk result (λ bytes. AreLines bytes lines.now) }
{
    let mut out = Bytes::new(alloc);
    for line in lines {
        write_line(line, &mut out)?;
    }
    Ok(out)
}
