// The command: a problem and a setting in, and whether the setting carries it.
ghost use Rattle.std.specs.Prelude.{◌≡◌, ◌≤◌, [], ◌∷◌, IfOk};
ghost use Rattle.std.specs.Result.{result_map_both};
ghost use Rattle.command_words.specs.Words.{texts};
ghost use Rattle.command_core.specs.Gates.{IsParsed, Reads, file_is, gate_of, stands, text_limit};
ghost use Rattle.command_core.specs.Stops.{stop_in};
ghost use Rattle.command_core.specs.declared.status.InputFile.TheVariants.{SettingFile};
ghost use Rattle.gas_model.specs.Near.{SettingFits};
ghost use Rattle.replay_command.specs.BrokenIds.{arc_id_at, node_id_at, id_of};
ghost use Rattle.replay_command.specs.Meaning.{replay_meaning, replay_says, setting_for};
ghost use Rattle.replay_command.specs.Words.{replay_flat_asks, replay_asks, words_of};
ghost use Rattle.command_words.specs.Tolerances.{most_tolerance};

use command_core::{
    Command, Done, InputFault, InputFile, Status, Stop, TEXT_LIMIT, read_input, refuse,
};
use command_words::{Form, Offer, Part, Tolerance, read_form};
use element_laws::{Broken, first_broken};
use gas_desk::Desk;
use gas_model::{Bytes, NoMemory, Problem, Setting};
use problem_files::Source;
use setting_text::read_setting;
use std::alloc::Global;

/// The command, with its words.
#[derive(Clone, Copy, Debug)]
pub struct Replay<'a> {
    pub source: Source<'a>,
    pub setting: &'a str,
    pub tol: Tolerance,
}

// PROBLEM SETTING [--tol n]
const FLAT_FORM: Form = Form {
    parts: &[Part::File, Part::File],
    options: Offer::TolAlone,
};

// NET SCN CDF RES SETTING [--tol n]
const JOINED_FORM: Form = Form {
    parts: &[Part::File, Part::File, Part::File, Part::File, Part::File],
    options: Offer::TolAlone,
};

impl<'a> Replay<'a> {
    /// By the words after `replay-flat`, or the place where they leave its form.
    pub fn flat(words: &[&'a str]) -> Result<Replay<'a>, u64>
        ensures { result_map_both words_of (λ at. at) result ≡ replay_flat_asks (texts words.entry.now) }
    {
        let asked = read_form(FLAT_FORM, words)?;
        Ok(Replay {
            source: Source::flat(asked),
            setting: asked.word(1),
            tol: asked.tolerance(),
        })
    }

    /// By the words after `replay`.
    pub fn joined(words: &[&'a str]) -> Result<Replay<'a>, u64>
        ensures { result_map_both words_of (λ at. at) result ≡ replay_asks (texts words.entry.now) }
    {
        let asked = read_form(JOINED_FORM, words)?;
        Ok(Replay {
            source: Source::joined(asked),
            setting: asked.word(4),
            tol: asked.tolerance(),
        })
    }
}

// The setting of the problem that the bytes stand for.
fn setting_in(alloc: Global, p: &Problem, bytes: &[u8]) -> Result<Setting, Stop>
    ensures parsed { IsParsed SettingFile (setting_for p.now bytes.now) result }
    ensures fits { IfOk result (λ s. SettingFits p.now s) }
{
    match read_setting(alloc, p, bytes) {
        Ok(setting) => Ok(setting),
        Err(fault) => Err(refuse(InputFile::SettingFile, InputFault::OfSetting(fault))),
    }
}

// The setting of the problem that the named file stands for.
fn read_setting_file<D: Desk>(
    alloc: Global,
    desk: &mut D,
    p: &Problem,
    name: &str,
) -> Result<Setting, Stop>
    ensures stands { D.tells → IfOk result (λ s. file_is text_limit (setting_for p.now) ((D.outside desk.old).files name.now) ≡ stands s) }
    ensures fits { IfOk result (λ s. SettingFits p.now s) }
    ensures reads { Reads D.tells D.counts_exactly (gate_of SettingFile text_limit (setting_for p.now) name.now ∷ []) (D.outside desk.old) (D.outside desk.new) (stop_in result) }
{
    let bytes = read_input(alloc, desk, name, InputFile::SettingFile, TEXT_LIMIT)?;
    setting_in(alloc, p, bytes.as_slice())
}

fn arc_id(p: &Problem, arc: u32) -> &str
    ensures { result.now ≡ arc_id_at p.now arc }
{
    match p.arcs().get(arc as usize) {
        Some(row) => row.id.as_str(),
        None => "",
    }
}

fn node_id(p: &Problem, node: u32) -> &str
    ensures { result.now ≡ node_id_at p.now node }
{
    match p.nodes().get(node as usize) {
        Some(row) => row.id.as_str(),
        None => "",
    }
}

// The id of the arc or node whose law is broken.
fn id_of(p: &Problem, law: Broken) -> &str
    ensures { result.now ≡ id_of p.now law }
{
    match law {
        Broken::Choice { arc } | Broken::FlowBound { arc } | Broken::Law { arc } => arc_id(p, arc),
        Broken::PressureBound { node } | Broken::Balance { node } => node_id(p, node),
    }
}

// The setting breaks this law, which is named by its arc's or node's id.
fn broken(alloc: Global, p: &Problem, law: Broken) -> Result<Done, NoMemory>
    ensures status { IfOk result (λ done. done.status ≡ Status.Broken law) }
    ensures note { IfOk result (λ done. done.note ≡ id_of p.now law) }
    ensures texts { IfOk result (λ done. done.texts ≡ []) }
{
    let mut note = Bytes::new(alloc);
    note.append(id_of(p, law).as_bytes())?;
    Ok(Done::said(alloc, Status::Broken(law), note))
}

// Whether the setting carries the problem, or the first law that it breaks.
fn judge(alloc: Global, p: &Problem, setting: &Setting, tol: u64) -> Result<Done, NoMemory>
    requires fits { SettingFits p.now setting.now }
    requires limit { tol ≤ most_tolerance }
    ensures { IfOk result (λ done. replay_says tol p.now setting.now done.status done.note done.texts) }
{
    match first_broken(p, setting, tol as i128) {
        None => Ok(Done::said(alloc, Status::Kept, Bytes::new(alloc))),
        Some(law) => broken(alloc, p, law),
    }
}

impl<'a> Command for Replay<'a> {
    ghost meaning = { λ replay. replay_meaning (words_of replay) };

    fn outs(&self) -> &[&str] {
        &[]
    }

    fn work<D: Desk>(&self, alloc: Global, desk: &mut D) -> Result<Done, Stop> {
        let problem = self.source.read(alloc, desk)?;
        let setting = read_setting_file(alloc, desk, &problem, self.setting)?;
        let done = judge(alloc, &problem, &setting, self.tol.get())?;
        Ok(done)
    }
}
