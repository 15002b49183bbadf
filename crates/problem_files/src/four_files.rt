// A problem of four files.
ghost use Rattle.std.specs.Prelude.{◌≡◌, [], ◌∷◌, IfOk, option_map};
ghost use Rattle.command_core.specs.Gates.{IsParsed, Reads, file_is, gate_of, stands, text_limit, with_fault};
ghost use Rattle.command_core.specs.Stops.{stop_in};
ghost use Rattle.command_core.specs.declared.status.InputFault.TheVariants.{OfJoin};
ghost use Rattle.command_core.specs.declared.status.InputFile.TheVariants.{Cdf, Join, Net, Res, Scn};
ghost use Rattle.network.specs.Joined.{joined_problem};
ghost use Rattle.problem_files.specs.Sources.{cdf_gates, cdf_is, cdf_rows, four_gates, four_is, names_of, net_rows, res_rows, scn_rows};

use cdf_reader::{CdfRows, read_cdf};
use command_core::{InputFault, InputFile, Stop, TEXT_LIMIT, read_input, refuse};
use gas_desk::Desk;
use gas_model::{List, Problem};
use net_reader::{NetRows, read_net};
use network::assemble;
use res_table::{ResRows, read_res};
use scn_reader::{ScnRows, read_scn};
use std::alloc::Global;

/// The names of a network file, a scenario file, a decision file, if there is one, and a table of resistances.
#[derive(Clone, Copy, Debug)]
pub struct FourFiles<'a> {
    pub net: &'a str,
    pub scn: &'a str,
    pub cdf: Option<&'a str>,
    pub res: &'a str,
}

fn net_in(alloc: Global, bytes: &[u8]) -> Result<NetRows, Stop>
    ensures { IsParsed Net (net_rows bytes.now) result }
{
    match read_net(alloc, bytes) {
        Ok(rows) => Ok(rows),
        Err(fault) => Err(refuse(InputFile::Net, InputFault::OfFile(fault))),
    }
}

fn scn_in(alloc: Global, bytes: &[u8]) -> Result<ScnRows, Stop>
    ensures { IsParsed Scn (scn_rows bytes.now) result }
{
    match read_scn(alloc, bytes) {
        Ok(rows) => Ok(rows),
        Err(fault) => Err(refuse(InputFile::Scn, InputFault::OfFile(fault))),
    }
}

fn cdf_in(alloc: Global, bytes: &[u8]) -> Result<CdfRows, Stop>
    ensures { IsParsed Cdf (cdf_rows bytes.now) result }
{
    match read_cdf(alloc, bytes) {
        Ok(rows) => Ok(rows),
        Err(fault) => Err(refuse(InputFile::Cdf, InputFault::OfFile(fault))),
    }
}

fn res_in(alloc: Global, bytes: &[u8]) -> Result<ResRows, Stop>
    ensures { IsParsed Res (res_rows bytes.now) result }
{
    match read_res(alloc, bytes) {
        Ok(rows) => Ok(rows),
        Err(fault) => Err(refuse(InputFile::Res, InputFault::OfRes(fault))),
    }
}

// The problem that rows make together.
fn join(
    alloc: Global,
    net: NetRows,
    scn: ScnRows,
    cdf: CdfRows,
    res: ResRows,
) -> Result<Problem, Stop>
    ensures { IsParsed Join (with_fault OfJoin (joined_problem net scn cdf res)) result }
{
    match assemble(alloc, net, scn, cdf, res) {
        Ok(problem) => Ok(problem),
        Err(fault) => Err(refuse(InputFile::Join, InputFault::OfJoin(fault))),
    }
}

fn read_net_file<D: Desk>(alloc: Global, desk: &mut D, name: &str) -> Result<NetRows, Stop>
    ensures stands { D.tells → IfOk result (λ rows. file_is text_limit net_rows ((D.outside desk.old).files name.now) ≡ stands rows) }
    ensures reads { Reads D.tells D.counts_exactly (gate_of Net text_limit net_rows name.now ∷ []) (D.outside desk.old) (D.outside desk.new) (stop_in result) }
{
    let bytes = read_input(alloc, desk, name, InputFile::Net, TEXT_LIMIT)?;
    net_in(alloc, bytes.as_slice())
}

fn read_scn_file<D: Desk>(alloc: Global, desk: &mut D, name: &str) -> Result<ScnRows, Stop>
    ensures stands { D.tells → IfOk result (λ rows. file_is text_limit scn_rows ((D.outside desk.old).files name.now) ≡ stands rows) }
    ensures reads { Reads D.tells D.counts_exactly (gate_of Scn text_limit scn_rows name.now ∷ []) (D.outside desk.old) (D.outside desk.new) (stop_in result) }
{
    let bytes = read_input(alloc, desk, name, InputFile::Scn, TEXT_LIMIT)?;
    scn_in(alloc, bytes.as_slice())
}

fn read_cdf_file<D: Desk>(alloc: Global, desk: &mut D, name: &str) -> Result<CdfRows, Stop>
    ensures stands { D.tells → IfOk result (λ rows. file_is text_limit cdf_rows ((D.outside desk.old).files name.now) ≡ stands rows) }
    ensures reads { Reads D.tells D.counts_exactly (gate_of Cdf text_limit cdf_rows name.now ∷ []) (D.outside desk.old) (D.outside desk.new) (stop_in result) }
{
    let bytes = read_input(alloc, desk, name, InputFile::Cdf, TEXT_LIMIT)?;
    cdf_in(alloc, bytes.as_slice())
}

fn read_res_file<D: Desk>(alloc: Global, desk: &mut D, name: &str) -> Result<ResRows, Stop>
    ensures stands { D.tells → IfOk result (λ rows. file_is text_limit res_rows ((D.outside desk.old).files name.now) ≡ stands rows) }
    ensures reads { Reads D.tells D.counts_exactly (gate_of Res text_limit res_rows name.now ∷ []) (D.outside desk.old) (D.outside desk.new) (stop_in result) }
{
    let bytes = read_input(alloc, desk, name, InputFile::Res, TEXT_LIMIT)?;
    res_in(alloc, bytes.as_slice())
}

// The groups of the decision file; without one there are none.
fn read_groups<D: Desk>(alloc: Global, desk: &mut D, name: Option<&str>) -> Result<CdfRows, Stop>
    ensures stands { D.tells → IfOk result (λ rows. cdf_is (option_map (λ name. name.now) name.entry) (D.outside desk.old).files ≡ stands rows) }
    ensures reads { Reads D.tells D.counts_exactly (cdf_gates (option_map (λ name. name.now) name.entry)) (D.outside desk.old) (D.outside desk.new) (stop_in result) }
{
    match name {
        Some(name) => read_cdf_file(alloc, desk, name),
        None => Ok(CdfRows {
            groups: List::new(alloc),
        }),
    }
}

impl<'a> FourFiles<'a> {
    /// The problem that the four files make together.
    pub fn read<D: Desk>(self, alloc: Global, desk: &mut D) -> Result<Problem, Stop>
        ensures stands { D.tells → IfOk result (λ p. four_is (names_of self.entry) (D.outside desk.old).files ≡ stands p) }
        ensures reads { Reads D.tells D.counts_exactly (four_gates (names_of self.entry)) (D.outside desk.old) (D.outside desk.new) (stop_in result) }
    {
        let net = read_net_file(alloc, desk, self.net)?;
        let scn = read_scn_file(alloc, desk, self.scn)?;
        let cdf = read_groups(alloc, desk, self.cdf)?;
        let res = read_res_file(alloc, desk, self.res)?;
        join(alloc, net, scn, cdf, res)
    }
}
