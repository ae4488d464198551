//! Texts that list values.
ghost use Rattle.std.specs.Prelude.{◌≡◌, IfOk, [], map, option_map};
ghost use Rattle.hq_model.specs.SessionLists.{element_value, element_values, elements_from, elements_of, is_null_word, list_want, listed_values, may_end, step, step_behind, step_plain};
ghost use Rattle.hq_model.specs.declared.bexp.Operand.TheVariants as operand;
ghost use Rattle.hq_model.specs.declared.session_list.ListState.TheVariants as place;

use hq_base::{Bytes, List, Memory, Txt, TxtRefusal, Ty, Val};
use hq_model::{ListState, Operand, OperandList, Step, Test, Want, read_operand};
use std::alloc::Global;

// What the byte behind an element does.
fn step_behind(otherwise: Step, byte: u8) -> Step
    ensures { result ≡ step_behind otherwise byte }
{
    match byte {
        b',' => Step::Comma,
        b'}' => Step::Close,
        _ => otherwise,
    }
}

fn step_plain(byte: u8) -> Step
    ensures { result ≡ step_plain byte }
{
    if byte == b'{' || byte == b'"' || byte == b'\\' {
        Step::Wrong
    } else {
        Step::Own(ListState::Plain)
    }
}

fn step_before(byte: u8) -> Step
    ensures { result ≡ step place.Before byte }
{
    match byte {
        b' ' => Step::Pass(ListState::Before),
        b'"' => Step::Pass(ListState::Quoted),
        b',' | b'}' => Step::Wrong,
        _ => step_plain(byte),
    }
}

fn step_quoted(byte: u8) -> Step
    ensures { result ≡ step place.Quoted byte }
{
    match byte {
        b'"' => Step::Pass(ListState::Behind),
        b'\\' => Step::Pass(ListState::Escaped),
        _ => Step::Own(ListState::Quoted),
    }
}

// What a byte does at a place.
fn step_at(place: ListState, byte: u8) -> Step
    ensures { result ≡ step place byte }
{
    match place {
        ListState::Before => step_before(byte),
        ListState::Plain if byte == b' ' => Step::Gap,
        ListState::Plain => step_behind(step_plain(byte), byte),
        ListState::Quoted => step_quoted(byte),
        ListState::Escaped => Step::Own(ListState::Quoted),
        ListState::Behind if byte == b' ' => Step::Pass(ListState::Behind),
        ListState::Behind => step_behind(Step::Wrong, byte),
    }
}

// A session list as far as it was read: where the next byte stands, the element at hand, the spaces behind it, and the
// elements that are over.
#[derive(Drop)]
struct Reader {
    place: ListState,
    element: Bytes,
    gap: Bytes,
    elements: List<Bytes>,
}

// How a reader goes on behind a byte.
#[derive(Drop)]
enum Next {
    On(Reader),
    /// The list is over here, and has these elements.
    Over(List<Bytes>),
    /// This is no list.
    Wrong,
}

// Whether an element without quotes is the word for NULL.
fn is_null_word(element: &[u8]) -> bool
    ensures { result ≡ is_null_word element.now }
{
    element.eq_ignore_ascii_case(b"NULL")
}

// Whether the element at hand may end at this place.
fn may_end(place: ListState, element: &[u8]) -> bool
    ensures { result ≡ may_end place element.now }
{
    match place {
        ListState::Plain => !is_null_word(element),
        ListState::Before | ListState::Quoted | ListState::Escaped | ListState::Behind => true,
    }
}

// A reader at the beginning of an element.
fn at_element(alloc: Global, elements: List<Bytes>) -> Reader
    ensures { result ≡ record { place = place.Before; element = []; gap = []; elements = elements } }
{
    Reader {
        place: ListState::Before,
        element: Bytes::new(alloc),
        gap: Bytes::new(alloc),
        elements,
    }
}

impl Reader {
    ghost use Rattle.std.specs.Prelude.{◌≡◌, ◌++◌, ◌∷◌, [], IfOk};
    ghost use Rattle.hq_model_binding.specs.SessionReading.{Follows};

    // Behind a byte of the element.
    fn own(self, alloc: Global, next: ListState, byte: u8) -> Result<Reader, Memory>
        ensures { IfOk result (λ r. r ≡ record self { place = next; element = self.element ++ self.gap ++ byte ∷ []; gap = [] }) }
    {
        let Reader {
            place: _,
            element,
            gap,
            elements,
        } = self;
        let mut element = element;
        element.append(gap.as_slice())?;
        element.push(byte)?;
        Ok(Reader {
            place: next,
            element,
            gap: Bytes::new(alloc),
            elements,
        })
    }

    // Behind a space that is the element's where more of it follows.
    fn paused(self, byte: u8) -> Result<Reader, Memory>
        ensures { IfOk result (λ r. r ≡ record self { gap = self.gap ++ byte ∷ [] }) }
    {
        let mut reader = self;
        reader.gap.push(byte)?;
        Ok(reader)
    }

    // The elements with the one at hand.
    fn with_element(self) -> Result<List<Bytes>, Memory>
        ensures { IfOk result (λ es. es ≡ self.elements ++ self.element ∷ []) }
    {
        let Reader {
            place: _,
            element,
            gap: _,
            elements,
        } = self;
        let mut elements = elements;
        elements.push(element)?;
        Ok(elements)
    }

    // How it goes on behind a byte.
    fn next(self, alloc: Global, byte: u8) -> Result<Next, Memory>
        ensures { IfOk result (λ next. Follows self byte next) }
    {
        match step_at(self.place, byte) {
            Step::Own(next) => Ok(Next::On(self.own(alloc, next, byte)?)),
            Step::Gap => Ok(Next::On(self.paused(byte)?)),
            Step::Pass(next) => {
                let mut reader = self;
                reader.place = next;
                Ok(Next::On(reader))
            }
            Step::Comma if may_end(self.place, self.element.as_slice()) => {
                Ok(Next::On(at_element(alloc, self.with_element()?)))
            }
            Step::Close if may_end(self.place, self.element.as_slice()) => {
                Ok(Next::Over(self.with_element()?))
            }
            Step::Comma | Step::Close | Step::Wrong => Ok(Next::Wrong),
        }
    }
}

// The elements behind the first bracket.
fn elements_behind(alloc: Global, bytes: &[u8]) -> Result<Option<List<Bytes>>, Memory>
    ensures { IfOk result (λ o. o ≡ elements_from place.Before [] [] bytes.now) }
{
    let mut reader = at_element(alloc, List::new(alloc));
    for (at, byte) in bytes.iter().enumerate() {
        match reader.next(alloc, *byte)? {
            Next::On(next) => reader = next,
            Next::Over(elements) => {
                return Ok(if at + 1 == bytes.len() {
                    Some(elements)
                } else {
                    None
                });
            }
            Next::Wrong => return Ok(None),
        }
    }
    Ok(None)
}

// The elements of a session list.
fn elements_of(alloc: Global, text: &[u8]) -> Result<Option<List<Bytes>>, Memory>
    ensures { IfOk result (λ o. o ≡ elements_of text.now) }
{
    match text {
        b"{}" => Ok(Some(List::new(alloc))),
        [b'{', rest @ ..] => elements_behind(alloc, rest),
        _ => Ok(None),
    }
}

// An element as an operand of a test of a column of a type.
fn element_value(alloc: Global, test: Test, ty: Ty, element: &[u8]) -> Result<Option<Val>, Memory>
    ensures { IfOk result (λ o. o ≡ element_value test ty element.now) }
{
    match Txt::of(alloc, element) {
        Ok(text) => Ok(read_operand(alloc, test, ty, &text)?.ok()),
        Err(TxtRefusal::Memory) => Err(Memory),
        Err(TxtRefusal::NotUtf8 | TxtRefusal::ZeroByte) => Ok(None),
    }
}

// All elements so, where each is one.
fn element_values(
    alloc: Global,
    test: Test,
    ty: Ty,
    elements: &List<Bytes>,
) -> Result<Option<OperandList>, Memory>
    ensures { IfOk result (λ o. o ≡ option_map (map operand.Const) (element_values test ty elements.now)) }
{
    let mut values = List::new(alloc);
    for element in elements.as_slice() {
        let Some(value) = element_value(alloc, test, ty, element.as_slice())? else {
            return Ok(None);
        };
        values.push(Operand::Const(value))?;
    }
    Ok(Some(values))
}

/// The constants that a text lists for a test of a column of a type; None where it is no such list.
pub fn listed_values(
    alloc: Global,
    test: Test,
    ty: Ty,
    text: &Txt,
) -> Result<Option<OperandList>, Memory>
    ensures { IfOk result (λ o. o ≡ option_map (map operand.Const) (listed_values test ty text.now)) }
{
    match elements_of(alloc, text.as_bytes())? {
        Some(elements) => element_values(alloc, test, ty, &elements),
        None => Ok(None),
    }
}

/// What a text that is no list of values of a type is not.
pub fn list_want(ty: Ty) -> Want
    ensures { result ≡ list_want ty }
{
    match ty {
        Ty::Integer => Want::IntegerList,
        Ty::Bigint => Want::BigintList,
        Ty::Text | Ty::Opaque => Want::TextList,
        Ty::Boolean => Want::BooleanList,
        Ty::Uuid => Want::UuidList,
    }
}
