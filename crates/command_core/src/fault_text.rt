// What is wrong with an input file, as the program says it.
ghost use Rattle.std.specs.Prelude.{◌≡◌, ◌++◌, OnOk};
ghost use Rattle.command_core.specs.FaultTexts.{element_text, fault_text, file_fault, flat_text_fault, join_text, key_word, many_word, model_text, outline_text, setting_text_fault, table_fault};

use crate::InputFault;
use crate::words::{put_both, put_numbered};
use file_faults::{FileFault, Key, OutlineFault, ResFault, SettingFault};
use gas_model::{Bytes, Many, ModelFault, Name, NoMemory};
use problem_faults::{FlatFault, JoinFault};

fn many_word(what: Many) -> &'static [u8]
    ensures { result.now ≡ many_word what }
{
    match what {
        Many::Nodes => b"nodes",
        Many::Arcs => b"arcs",
        Many::Groups => b"groups",
        Many::Decisions => b"decisions",
    }
}

fn key_word(key: Key) -> &'static [u8]
    ensures { result.now ≡ key_word key }
{
    match key {
        Key::Arcs => b"arcs",
        Key::Decisions => b"decisions",
        Key::Nodes => b"nodes",
        Key::Whole => b"whole",
    }
}

// Words and then an id.
fn put_named(line: &mut Bytes, words: &[u8], id: &Name) -> Result<(), NoMemory>
    ensures { OnOk result (line.new ≡ line.old ++ (words.now ++ id.now)) }
{
    put_both(line, words, id.as_str().as_bytes())
}

// What is wrong with rows.
fn put_model(line: &mut Bytes, fault: &ModelFault) -> Result<(), NoMemory>
    ensures { OnOk result (line.new ≡ line.old ++ model_text fault.now) }
{
    match fault {
        ModelFault::TooMany { what } => put_both(line, b"too many ", many_word(*what)),
        ModelFault::TwiceNamed { id } => put_named(line, b"twice named ", id),
        ModelFault::OverLimit { id } => put_named(line, b"over limit ", id),
        ModelFault::NoSuchNode { id, .. } => put_named(line, b"no such node ", id),
        ModelFault::SameEnds { arc } => put_named(line, b"same ends ", arc),
        ModelFault::EmptyGroup { group } => put_named(line, b"empty group ", group),
        ModelFault::NoSuchArc { id, .. } => put_named(line, b"no such arc ", id),
        ModelFault::NotActive { arc, .. } => put_named(line, b"not active ", arc),
        ModelFault::TwiceDecided { arc } => put_named(line, b"twice decided ", arc),
        ModelFault::NoMemory => Ok(()),
    }
}

// What is wrong with a flat text.
fn put_flat(line: &mut Bytes, fault: &FlatFault) -> Result<(), NoMemory>
    ensures { OnOk result (line.new ≡ line.old ++ flat_text_fault fault.now) }
{
    match fault {
        FlatFault::NotFlat { line: number } => put_numbered(line, b"line ", *number),
        FlatFault::OverLimit { line: number } => put_numbered(line, b"over limit line ", *number),
        FlatFault::Model(fault) => put_model(line, fault),
        FlatFault::NoMemory => Ok(()),
    }
}

// What is wrong with the text of a setting.
fn put_setting(line: &mut Bytes, fault: &SettingFault) -> Result<(), NoMemory>
    ensures { OnOk result (line.new ≡ line.old ++ setting_text_fault fault.now) }
{
    match fault {
        SettingFault::NotJson => line.append(b"not json"),
        SettingFault::NotSetting { key } => put_both(line, b"not setting ", key_word(*key)),
        SettingFault::WideNumber { key } => put_both(line, b"wide number ", key_word(*key)),
        SettingFault::NoMemory => Ok(()),
    }
}

// Why a text is no outline.
fn put_outline(line: &mut Bytes, fault: &OutlineFault) -> Result<(), NoMemory>
    ensures { OnOk result (line.new ≡ line.old ++ outline_text fault.now) }
{
    match fault {
        OutlineFault::NotUtf8 { at } => put_numbered(line, b"not utf8 at ", *at),
        OutlineFault::NotOutline { at } => put_numbered(line, b"not outline at ", *at),
        OutlineFault::Doctype { at } => put_numbered(line, b"doctype at ", *at),
        OutlineFault::Cdata { at } => put_numbered(line, b"cdata at ", *at),
        OutlineFault::TooDeep { at } => put_numbered(line, b"too deep at ", *at),
        OutlineFault::NoMemory => Ok(()),
    }
}

// Words, then the element, then what of it is at fault.
fn put_element(line: &mut Bytes, words: &[u8], element: &Name, name: &Name) -> Result<(), NoMemory>
    ensures { OnOk result (line.new ≡ line.old ++ element_text words.now element.now name.now) }
{
    put_named(line, words, element)?;
    put_named(line, b" ", name)
}

// What is wrong with a file of elements.
fn put_file(line: &mut Bytes, fault: &FileFault) -> Result<(), NoMemory>
    ensures { OnOk result (line.new ≡ line.old ++ file_fault fault.now) }
{
    match fault {
        FileFault::Outline(fault) => put_outline(line, fault),
        FileFault::WrongRoot => line.append(b"wrong root"),
        FileFault::Missing { element, name } => put_element(line, b"missing ", element, name),
        FileFault::BadValue { element, name } => put_element(line, b"bad value ", element, name),
        FileFault::BadUnit { element, name } => put_element(line, b"bad unit ", element, name),
        FileFault::TooLarge { element, name } => put_element(line, b"too large ", element, name),
        FileFault::BadWord { element, name } => put_element(line, b"bad word ", element, name),
        FileFault::UnknownAttribute { element, name } => {
            put_element(line, b"unknown attribute ", element, name)
        }
        FileFault::NoMemory => Ok(()),
    }
}

// What is wrong with a table of resistances.
fn put_table(line: &mut Bytes, fault: &ResFault) -> Result<(), NoMemory>
    ensures { OnOk result (line.new ≡ line.old ++ table_fault fault.now) }
{
    match fault {
        ResFault::BadRow { row } => put_numbered(line, b"row ", *row),
        ResFault::NoMemory => Ok(()),
    }
}

// What is wrong with four files together.
fn put_join(line: &mut Bytes, fault: &JoinFault) -> Result<(), NoMemory>
    ensures { OnOk result (line.new ≡ line.old ++ join_text fault.now) }
{
    match fault {
        JoinFault::NoSuchNode { id } => put_named(line, b"no such node ", id),
        JoinFault::WrongType { id } => put_named(line, b"wrong type ", id),
        JoinFault::TwiceNominated { id } => put_named(line, b"twice nominated ", id),
        JoinFault::NoResistance { arc } => put_named(line, b"no resistance ", arc),
        JoinFault::NoStation { arc } => put_named(line, b"no station ", arc),
        JoinFault::TwiceRow { row } => put_numbered(line, b"twice row ", *row),
        JoinFault::UnusedRow { row } => put_numbered(line, b"unused row ", *row),
        JoinFault::Model(fault) => put_model(line, fault),
        JoinFault::NoMemory => Ok(()),
    }
}

pub fn put_fault(line: &mut Bytes, fault: &InputFault) -> Result<(), NoMemory>
    ensures { OnOk result (line.new ≡ line.old ++ fault_text fault.now) }
{
    match fault {
        InputFault::OfFile(fault) => put_file(line, fault),
        InputFault::OfRes(fault) => put_table(line, fault),
        InputFault::OfJoin(fault) => put_join(line, fault),
        InputFault::OfFlat(fault) => put_flat(line, fault),
        InputFault::OfSetting(fault) => put_setting(line, fault),
    }
}
