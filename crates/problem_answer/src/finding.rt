// What is found for a problem.
ghost use Rattle.std.specs.Prelude.{◌≡◌, ◌≤◌, ℕ, pos, IfOk};
ghost use Rattle.gas_model.specs.Near.{IsNear, SettingFits};
ghost use Rattle.gas_model.specs.Within.{IsWithin};
ghost use Rattle.gas_model.specs.declared.rows.Setting.{Setting};
ghost use Rattle.setting_text.specs.Reading.{StandsFor};
ghost use Rattle.tree_cert.specs.Texts.{PassesWholeText};
ghost use Rattle.tree_rules.specs.Branches.{rules_of};
ghost use Rattle.decide.specs.Decided.{IsDecided};
ghost use Rattle.command_words.specs.Budgets.{most_budget};
ghost use Rattle.command_words.specs.Tolerances.{most_tolerance};
ghost use Rattle.problem_answer.specs.Found.{HaltsWith, IsFound, why_of};
ghost use Rattle.command_core.specs.declared.status.UndecidedBy.{UndecidedBy};

use command_core::UndecidedBy;
use decide::{Found, Why, decide};
use element_laws::first_broken;
use gas_model::{Bytes, NoMemory, Problem, Setting};
use setting_text::{SettingFault, read_setting, write_setting};
use std::alloc::Global;
use tree_verdicts::{check_part, check_whole};

/// What is found for a problem.
#[derive(Debug, Drop)]
pub enum Answer {
    /// The text of a setting that carries it.
    Carried(Bytes),
    /// The text of a tree that refutes it.
    Refuted(Bytes),
    /// The text of a tree with open boxes, and why the one that ends at this line is open.
    Left {
        why: UndecidedBy,
        text: Bytes,
        line: u64,
    },
}

// Reads the text of a near setting back. Only want of memory stops it: the text stands for the setting, which breaks no law.
fn replay_back(alloc: Global, p: &Problem, text: &[u8], tol: u64) -> Result<(), NoMemory>
    requires tol { tol ≤ most_tolerance }
    requires stands { (s : Setting) × StandsFor p.now text.now s × IsNear p.now (pos tol) s }
{
    let setting = match read_setting(alloc, p, text) {
        Ok(setting) => setting,
        Err(SettingFault::NoMemory) => return Err(NoMemory),
        Err(_) => unreachable!(),
    };
    match first_broken(p, &setting, tol as i128) {
        None => Ok(()),
        Some(_) => unreachable!(),
    }
}

// The text of a near setting, once it was read back.
fn carried(alloc: Global, p: &Problem, setting: &Setting, tol: u64) -> Result<Answer, NoMemory>
    requires tol { tol ≤ most_tolerance }
    requires near { IsNear p.now (pos tol) setting.now }
    requires fits { SettingFits p.now setting.now }
    ensures { (boxes : ℕ) → IfOk result (IsFound tol boxes p.now) }
{
    let text = write_setting(alloc, p, setting)?;
    replay_back(alloc, p, text.as_slice(), tol)?;
    Ok(Answer::Carried(text))
}

// The text of a tree that passes, once it was read back.
fn refuted(alloc: Global, p: &Problem, text: Bytes) -> Result<Answer, NoMemory>
    requires { PassesWholeText (rules_of p.now) text }
    ensures { (tol boxes : ℕ) → IfOk result (IsFound tol boxes p.now) }
{
    check_whole(alloc, p, text.as_slice())?;
    Ok(Answer::Refuted(text))
}

// Why the search halted.
fn reason(why: Why) -> UndecidedBy
    ensures { why_of result ≡ why }
{
    match why {
        Why::Budget => UndecidedBy::Budget,
        Why::Grid => UndecidedBy::Grid,
    }
}

// The text of a tree with open boxes, once it was read back.
fn left(
    alloc: Global,
    p: &Problem,
    why: UndecidedBy,
    text: Bytes,
    line: u64,
) -> Result<Answer, NoMemory>
    requires { (tol : ℕ) × (boxes : ℕ) × HaltsWith why tol boxes p.now text line }
    ensures { (tol boxes : ℕ) → HaltsWith why tol boxes p.now text line → IfOk result (IsFound tol boxes p.now) }
{
    check_part(alloc, p, text.as_slice())?;
    Ok(Answer::Left { why, text, line })
}

// What is decided of it.
fn decided(alloc: Global, p: &Problem, tol: u64, boxes: u64) -> Result<Found, NoMemory>
    requires tol { tol ≤ most_tolerance }
    requires boxes { boxes ≤ most_budget }
    ensures within { IsWithin p.now }
    ensures found { IfOk result (IsDecided p.now tol boxes) }
{
    let _nodes = p.nodes();
    decide(alloc, p, tol, boxes)
}

/// Looks for a setting that carries the problem within the tolerance `tol`, in Pa^2, or for a tree that refutes it; a
/// search may split `boxes` boxes. What is found is read back, an open tree too.
pub fn answer_of(alloc: Global, p: &Problem, tol: u64, boxes: u64) -> Result<Answer, NoMemory>
    requires tol { tol ≤ most_tolerance }
    requires boxes { boxes ≤ most_budget }
    ensures { IfOk result (IsFound tol boxes p.now) }
{
    match decided(alloc, p, tol, boxes)? {
        Found::Carried(setting) => carried(alloc, p, &setting, tol),
        Found::Refuted(text) => refuted(alloc, p, text),
        Found::Left { why, tree, line } => left(alloc, p, reason(why), tree, line),
    }
}
