ghost use Rattle.std.specs.Prelude.{◌≡◌, ◌==◌, ◌&&◌, ◌≤◌, ◌<◌, ◌^◌, not, [], ℕ, List, length, IfOk, IfErr, Option, Some, None, Ok, Err, MatchResult, position};
ghost use Rattle.std.specs.List.{position_or_len};
ghost use Rattle.tag_outline.specs.Item.{seen};
ghost use Rattle.tag_outline.specs.declared.outline.Element.{Element};
ghost use Rattle.tag_outline.specs.Grammar.{IsOutline};
ghost use Rattle.tag_outline.specs.Offences.{IsOutlineFault, MayFail};
ghost use Rattle.file_faults.specs.declared.outline.OutlineFault.{OutlineFault};
ghost use Rattle.tag_outline.specs.Outline.{Gives, Fails, StepsTo, local_name, begin, step, located, from_tag, to_item, placed, finish, run, items, outline_in, after_order_mark, outline_of};

use crate::fault::ItemFault;
use crate::item::{Item, item_at};
use crate::open::OpenNames;
use crate::scan::{after_spaces, mark_at};
use crate::tag::cut_at;
use base_types::{List, Name};
use file_faults::OutlineFault;
use std::alloc::Global;

const MAX_DEPTH: usize = 64;

/// An element, by its start tag.
#[derive(Drop)]
pub struct Element {
    pub depth: u32,
    pub name: Name,
    pub attributes: List<(Name, Name)>,
    pub at: u64,
}

pub type Outline = List<Element>;

/// What was read so far.
#[derive(Drop)]
pub struct Reading<'a> {
    pub elements: List<Element>,
    pub opened: OpenNames<'a>,
}

/// A name without its prefix.
fn local_name(name: &str) -> &str
    ensures { result.now ≡ local_name name.now }
{
    let mut local = name;
    while let Some((_, rest)) = cut_at(':', local) {
        local = rest;
    }
    local
}

fn start<'a>(
    alloc: Global,
    s: &mut Reading<'a>,
    at: u64,
    name: &'a str,
    attributes: List<(Name, Name)>,
    is_whole: bool,
) -> Result<(), OutlineFault>
    ensures { StepsTo result s.new (begin at s.old name.now attributes is_whole) }
{
    let depth = s.opened.len();
    if depth == 0 && !s.elements.as_slice().is_empty() {
        return Err(OutlineFault::NotOutline { at });
    }
    if depth >= MAX_DEPTH {
        return Err(OutlineFault::TooDeep { at });
    }
    let local = Name::of(alloc, local_name(name))?;
    let depth = depth as u32 + 1;
    s.elements.push(Element {
        depth,
        name: local,
        attributes,
        at,
    })?;
    if !is_whole {
        s.opened.push(name)?;
    }
    Ok(())
}

fn step<'a>(alloc: Global, s: &mut Reading<'a>, at: u64, item: Item<'a>) -> Result<(), OutlineFault>
    ensures { StepsTo result s.new (step at s.old (seen item.entry)) }
{
    match item {
        Item::Passed => Ok(()),
        Item::Start {
            name,
            attributes,
            is_whole,
        } => { start(alloc, s, at, name, attributes, is_whole) }
        Item::End { name } => {
            if s.opened.is_last(name) {
                s.opened.pop();
                Ok(())
            } else {
                Err(OutlineFault::NotOutline { at })
            }
        }
    }
}

/// The place of the first `<`, or the length.
fn text_len(bytes: &[u8]) -> usize
    ensures len { result ≡ position_or_len (λ b. b == 60) bytes.now }
    ensures within { result ≤ length bytes.now }
{
    first_tag(bytes).unwrap_or(bytes.len())
}

fn first_tag(bytes: &[u8]) -> Option<usize>
    ensures { result ≡ position (λ b. b == 60) bytes.now }
{
    bytes.iter().position(|b| *b == b'<')
}

/// What begins with the first `<`.
fn from_tag(text: &str) -> &str
    ensures { result.now ≡ from_tag text.now }
{
    let len = text_len(text.as_bytes());
    &text[len..]
}

/// What may be passed over before an item: text within the root, white space outside it.
fn to_item(is_outside: bool, text: &str) -> &str
    ensures { result.now ≡ to_item is_outside text.now }
{
    if is_outside {
        after_spaces(text)
    } else {
        from_tag(text)
    }
}

/// The item of a text that begins with `<`, at its place.
fn placed<'a>(alloc: Global, at: u64, text: &'a str) -> Result<(Item<'a>, &'a str), OutlineFault>
    ensures exact { Gives (λ x. (seen x.0, x.1.now)) result (placed at text.now) }
    ensures shorter { IfOk result (λ x. length x.1.now < length text.now) }
{
    match item_at(alloc, text) {
        Ok(x) => Ok(x),
        Err(ItemFault::NotOutline) => Err(OutlineFault::NotOutline { at }),
        Err(ItemFault::Doctype) => Err(OutlineFault::Doctype { at }),
        Err(ItemFault::Cdata) => Err(OutlineFault::Cdata { at }),
        Err(ItemFault::NoMemory) => Err(OutlineFault::NoMemory),
    }
}

fn finish(end: u64, s: Reading<'_>) -> Result<Outline, OutlineFault>
    ensures { Gives (λ x. x) result (finish end s.entry) }
{
    if s.opened.len() != 0 || s.elements.as_slice().is_empty() {
        return Err(OutlineFault::NotOutline { at: end });
    }
    Ok(s.elements)
}

/// The outline of a text that ends at a place.
fn outline_in(alloc: Global, end: usize, text: &str) -> Result<Outline, OutlineFault>
    requires { length text.now ≤ end }
    ensures { Gives (λ x. x) result (outline_in end text.now) }
{
    let mut s = Reading {
        elements: List::new(alloc),
        opened: OpenNames::new(alloc),
    };
    let mut rest = text;
    while !rest.is_empty() {
        let tagged = to_item(s.opened.len() == 0, rest);
        if tagged.is_empty() {
            return finish(end as u64, s);
        }
        let at = (end - tagged.len()) as u64;
        let (item, after) = placed(alloc, at, tagged)?;
        step(alloc, &mut s, at, item)?;
        rest = after;
    }
    finish(end as u64, s)
}

fn after_order_mark(text: &str) -> &str
    ensures exact { result.now ≡ after_order_mark text.now }
    ensures within { length result.now ≤ length text.now }
{
    match mark_at("\u{feff}", text) {
        Some(rest) => rest,
        None => text,
    }
}

/// What reading the bytes from the front gives.
#[tactic(auto, unfolding(crate::specs::Outline::outline_of))]
fn outline_from(alloc: Global, bytes: &[u8]) -> Result<Outline, OutlineFault>
    ensures { Gives (λ x. x) result (outline_of bytes.now) }
{
    match str::from_utf8(bytes) {
        Ok(text) => outline_in(alloc, bytes.len(), after_order_mark(text)),
        Err(e) => Err(OutlineFault::NotUtf8 {
            at: e.valid_up_to() as u64,
        }),
    }
}

/// The outline of the bytes, or their first offence.
pub fn read_outline(alloc: Global, bytes: &[u8]) -> Result<Outline, OutlineFault>
    // What is read is an outline of the bytes.
    ensures found { IfOk result (λ x. IsOutline bytes.now x) }
    // An outline of the bytes is read, unless memory runs out.
    ensures only { (es : List Element) → IsOutline bytes.now es → Gives (λ x. x) result (Ok es) }
    // A fault is that of the first item that may not stand where it does.
    ensures fails { IfErr result (λ e. MayFail bytes.now e) }
    // Such a fault is answered, unless memory runs out.
    ensures only_fault { (f : OutlineFault) → IsOutlineFault bytes.now f → Gives (λ x. x) result (Err f) }
    ensures exact { Gives (λ x. x) result (outline_of bytes.now) }
{
    outline_from(alloc, bytes)
}
