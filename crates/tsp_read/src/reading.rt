//! `Reading`, the state between two lines: the draft so far, and the open section. It decides what
//! a line or a word from `items.rt` means at its place, and at the end whether the fields make a
//! valid file. `Holds` and `Finishes` in `specs/states/Holds.antt` pin both. Also `ReadError`,
//! which can say that memory ran out only after a refusal.

ghost use Rattle.tsp_read.specs.Prelude.{[], List, Some, IfErr, OnOk, is_some, true, ℕ, Bool, IfOk, None, Err, shape_of, fields_in_order, spatial, fields_of, AreCut, Item, NumberWord, same_field, place_in, wants_more};
ghost use Rattle.std.specs.Prelude.{◌≡◌};
ghost use Rattle.tsp_file.specs.Rules.{standing_of, end_fault, fault_of};
ghost use Rattle.tsp_text.specs.declared.fault.ReadFault.TheVariants.{OutOfMemory, Line, End, TooLong, Device};
ghost use Rattle.tsp_read.specs.Reads.{Completes};
ghost use Rattle.tsp_read.specs.states.Holds.{seen, FileOf, LineAnswers, Holds, IsReadFrom, is_either, first_of, HoldsSection, with_section};

use crate::line::{
    CutLine, add_comment, add_other, may_open, number_of, says_space, set_name, set_named,
};
use crate::section_builder::SectionBuilder;
use crate::step_fault::StepFault;
use std::alloc::Global;
use std::marker::Model;
use tsp_file::{Draft, EndFault, File, end_fault};
use tsp_format::{Field, Keyword, MOST_LINE_BYTES, Shape, ValueShape};
use tsp_io::Refused;
use tsp_text::{LineFault, ReadFault};

/// The open section, and the list that takes its words.
#[derive(Drop)]
pub(crate) struct OpenSection {
    pub(crate) field: Field,
    pub(crate) part: SectionBuilder,
}

/// What was read so far: the fields from lines and closed sections, the first of these sections in
/// canonical order that is incomplete, and the open section.
pub(crate) struct Reading {
    pub(crate) draft: Draft,
    pub(crate) incomplete: Option<Field>,
    pub(crate) opened: Option<OpenSection>,
}

/// Drops each field, as a derive would. Functions that drop a reading call this function, because
/// that makes their proofs faster.
impl Drop for Reading {
    fn drop(self) {
        let Reading {
            draft: _,
            incomplete: _,
            opened: _,
        } = self;
    }
}

/// Whichever of two sections comes first in canonical order, if there are two.
fn first_of(section: Field, other: Option<Field>) -> Option<Field>
    ensures { result ≡ first_of section other fields_in_order }
{
    first_among(&Field::ALL, section, other)
}

/// The first among some fields that is one of these two.
fn first_among(fields: &[Field], section: Field, other: Option<Field>) -> Option<Field>
    ensures { result ≡ first_of section other fields.now }
{
    for field in fields {
        if is_either(*field, section, other) {
            return Some(*field);
        }
    }
    None
}

/// Whether a field is one of these two sections.
fn is_either(field: Field, section: Field, other: Option<Field>) -> bool
    ensures { result ≡ is_either section other field }
{
    match other {
        Some(other) => is_same(field, section) || is_same(field, other),
        None => is_same(field, section),
    }
}

/// Whether two fields are the same. They are compared by their words, which are all different.
fn is_same(field: Field, other: Field) -> bool
    ensures { result ≡ same_field field other }
{
    field == other
}

impl Reading {
    ghost use Rattle.tsp_read.specs.states.Holds.{Holds, Closed, AnswersItem};

    /// The state before the first line.
    pub(crate) fn new(alloc: Global) -> Reading
        ensures { Holds result [] }
    {
        Reading {
            draft: Draft::new(alloc),
            incomplete: None,
            opened: None,
        }
    }

    /// The fields that were read, and the first closed section that is incomplete.
    pub(crate) fn into_draft(self) -> (Draft, Option<Field>)
        ensures { result ≡ (self.draft, self.incomplete) }
    {
        let Reading {
            draft,
            incomplete,
            opened: _,
        } = self;
        (draft, incomplete)
    }

    /// Opens a section. The one before it was closed.
    pub(crate) fn begin(&mut self, section: OpenSection)
        ensures draft { self.new.draft ≡ self.old.draft }
        ensures incomplete { self.new.incomplete ≡ self.old.incomplete }
        ensures begun { self.new.opened ≡ Some section }
    {
        let before = self.opened.replace(section);
        drop(before);
    }

    /// Takes a word of a number line.
    pub(crate) fn word(&mut self, alloc: Global, word: &[u8]) -> Result<(), StepFault>
        ensures { (earlier : List Item) → Holds self.old earlier
            → AnswersItem earlier (NumberWord word.now) self.new result }
    {
        match &mut self.opened {
            None => Err(StepFault::Fault(LineFault::StrayNumber)),
            Some(section) => section.part.push(alloc, word),
        }
    }

    /// Closes the open section, if there is one, and puts its list into the draft.
    pub(crate) fn close(&mut self, alloc: Global) -> Result<(), Refused>
        ensures closed { OnOk result ((earlier : List Item) → Holds self.old earlier
            → Closed self.new earlier) }
        ensures stood { IfErr result (λ _. is_some self.old.opened ≡ true) }
    {
        let Some(section) = self.opened.take() else {
            return Ok(());
        };
        let field = section.field;
        if store(&mut self.draft, alloc, section)? {
            self.incomplete = first_of(field, self.incomplete);
        }
        Ok(())
    }
}

// ---- what a word line does to the state of the reader

impl Reading {
    ghost use Rattle.tsp_read.specs.Prelude.{not, is_some, Some, None, List, shape_of, value_shape_of, fields_of, spatial, first_word, says_space, Item};
    ghost use Rattle.std.specs.Prelude.{◌≡◌, ◌&&◌};
    ghost use Rattle.tsp_format.specs.declared.keyword.ValueShape.TheVariants.{Number};
    ghost use Rattle.tsp_read.specs.states.Holds.{seen, cut_item};
    ghost use Rattle.tsp_read.specs.states.Holds.{Holds, AnswersItem, LineAnswers};

    /// Takes a word line.
    pub(crate) fn line(&mut self, alloc: Global, line: &CutLine<'_>) -> Result<(), StepFault>
        ensures { (earlier : List Item) → Holds self.old earlier
            → AnswersItem earlier (cut_item line.now) self.new result }
    {
        if line.size > MOST_LINE_BYTES {
            return Err(StepFault::Fault(LineFault::LongLine));
        }
        if let Err(refused) = self.close(alloc) {
            return Err(StepFault::Memory(refused));
        }
        match line.key {
            Keyword::Known(field) => match field.shape(self.draft.is_spatial()) {
                Some(shape) => self.open(alloc, field, shape, line),
                None => self.known(alloc, field, line),
            },
            Keyword::EdgeDataFormat => Err(StepFault::Fault(LineFault::Outside)),
            Keyword::EdgeDataSection => Err(StepFault::Fault(LineFault::Outside)),
            Keyword::Eof => Ok(()),
            Keyword::Unknown => add_other(alloc, &mut self.draft.others, line),
        }
    }

    /// Whether a line says that the nodes have three coordinates, after a NODE_COORD_SECTION with
    /// two for each.
    fn is_late(&self, field: Field, value: &[u8]) -> bool
        ensures { result ≡ (says_space field (first_word value.now) && is_some
            (fields_of self.now.draft).coords && not (spatial (fields_of self.now.draft))) }
    {
        says_space(field, value) && self.draft.coords.is_some() && !self.draft.is_spatial()
    }

    /// Takes the line of a keyword, with no section open. Numbers are read by their range, other
    /// values by the field.
    fn known(&mut self, alloc: Global, field: Field, line: &CutLine<'_>) -> Result<(), StepFault>
        requires { shape_of (spatial (fields_of self.old.draft)) field ≡ None }
        ensures { LineAnswers self.old field (seen line.now) self.new result }
    {
        let value = line.value;
        let late = self.is_late(field, value);
        let draft = &mut self.draft;
        match field {
            Field::NameKey => set_name(alloc, &mut draft.name, line),
            Field::TypeKey => set_named(&mut draft.kind, field, value, late),
            Field::CommentKey => add_comment(alloc, &mut draft.comments, line),
            Field::EdgeWeightTypeKey => set_named(&mut draft.weight_kind, field, value, late),
            Field::EdgeWeightFormatKey => set_named(&mut draft.weight_format, field, value, late),
            Field::NodeCoordTypeKey => set_named(&mut draft.coord_kind, field, value, late),
            Field::DisplayDataTypeKey => set_named(&mut draft.display_kind, field, value, late),
            _ => match field.value_shape() {
                Some(ValueShape::Number { low, high }) => self.number(field, low, high, line),
                _ => Ok(()),
            },
        }
    }

    /// Takes the line of a keyword with a number from `low` to `high`, with no section open.
    fn number(
        &mut self,
        field: Field,
        low: i64,
        high: i64,
        line: &CutLine<'_>,
    ) -> Result<(), StepFault>
        requires { value_shape_of field ≡ Some (Number low high) }
        ensures { LineAnswers self.old field (seen line.now) self.new result }
    {
        match number_of(self.draft.stands(field), line.value, low, high) {
            Ok(number) => {
                self.draft.set_number(field, number);
                Ok(())
            }
            Err(fault) => Err(StepFault::Fault(fault)),
        }
    }
}

// ---- what a line that opens a section does to the state of the reader

impl Reading {
    /// Opens the section of a field, which has this shape, with no section open.
    pub(crate) fn open(
        &mut self,
        alloc: Global,
        field: Field,
        shape: Shape,
        line: &CutLine<'_>,
    ) -> Result<(), StepFault>
        requires { shape_of (spatial (fields_of self.old.draft)) field ≡ Some shape }
        ensures { LineAnswers self.old field (seen line.now) self.new result }
    {
        let stands = self.draft.stands(field);
        match may_open(shape, stands, line.value, self.draft.dimension) {
            Ok(n) => match SectionBuilder::open(alloc, shape, n) {
                Ok(part) => {
                    self.begin(OpenSection { field, part });
                    Ok(())
                }
                Err(refused) => Err(StepFault::Memory(refused)),
            },
            Err(fault) => Err(StepFault::Fault(fault)),
        }
    }
}

// ---- put the words of a section into its field of the draft

/// Puts the list of a section into its field. Returns whether the section is incomplete.
fn store(draft: &mut Draft, alloc: Global, section: OpenSection) -> Result<bool, Refused>
    ensures { IfOk result (λ more. (in_space : Bool) (n : ℕ) (words : List (List ℕ))
        → HoldsSection in_space section n words
        → (fields_of draft.new ≡ with_section in_space section.field n words (fields_of draft.old))
        × (more ≡ wants_more (place_in in_space section.field n words))) }
{
    let OpenSection { field, part } = section;
    match part {
        SectionBuilder::Numbers(part) => {
            let (numbers, wants_more) = part.finish();
            draft.set_numbers(field, numbers);
            Ok(wants_more)
        }
        SectionBuilder::Points(part) => {
            let (points, wants_more) = part.finish();
            draft.set_points(field, points);
            Ok(wants_more)
        }
        SectionBuilder::Depots(part) => {
            draft.depots = Some(part.finish());
            Ok(false)
        }
        SectionBuilder::Pairs(part) => {
            let (pairs, wants_more) = part.finish();
            draft.fixed = Some(pairs);
            Ok(wants_more)
        }
        SectionBuilder::Weights(part) => {
            draft.weights = Some(part.finish());
            Ok(false)
        }
        SectionBuilder::Tours(part) => {
            draft.tours = Some(part.finish(alloc)?);
            Ok(false)
        }
        SectionBuilder::Triples(part) => {
            let (triples, wants_more) = part.finish();
            draft.fixed_potentials = Some(triples);
            Ok(wants_more)
        }
        SectionBuilder::Families(part) => {
            let (families, wants_more) = part.finish();
            draft.families = Some(families);
            Ok(wants_more)
        }
        SectionBuilder::Memories(part) => {
            let (lists, wants_more) = part.finish();
            draft.memories = Some(lists);
            Ok(wants_more)
        }
        SectionBuilder::SubsetRows(part) => {
            let (rows, wants_more) = part.finish();
            draft.subset_rows = Some(rows);
            Ok(wants_more)
        }
        SectionBuilder::Steps(part) => {
            let (steps, wants_more) = part.finish();
            draft.branches = Some(steps);
            Ok(wants_more)
        }
    }
}

// ---- the end of a text

/// Why the fields that were read make no valid file.
#[derive(Clone, Copy)]
pub(crate) enum FinishFault {
    /// Out of memory.
    Memory(Refused),
    /// The lines have no fault, but together they have this one.
    End(EndFault),
}

/// The file with the fields that were read, or the first fault by the end table.
fn file_of(draft: Draft, incomplete: Option<Field>) -> Result<File, EndFault>
    requires { end_fault (standing_of (fields_of draft)) incomplete ≡ None
        → fault_of (fields_of draft) ≡ None }
    ensures { FileOf (fields_of draft) incomplete result }
{
    match end_fault(&draft, incomplete) {
        Some(fault) => {
            drop(draft);
            Err(fault)
        }
        None => Ok(File::of_valid(draft)),
    }
}

impl Reading {
    ghost use Rattle.tsp_read.specs.declared.reading.FinishFault.TheVariants.{Memory};
    ghost use Rattle.tsp_read.specs.states.Holds.{Finishes};

    /// The file that was read, or the fault of its end.
    ///
    /// # Requires
    ///
    /// Fields that were read from lines and words. Their values are valid, so they aren't judged
    /// again.
    pub(crate) fn finish(mut self, alloc: Global) -> Result<File, FinishFault>
        requires { IsReadFrom self }
        ensures file { (earlier : List Item) → Holds self earlier → AreCut earlier
            → Finishes earlier result }
        ensures stood { (refused : Refused) → result ≡ Err (Memory refused)
            → is_some self.opened ≡ true }
    {
        match self.close(alloc) {
            Ok(()) => {}
            Err(refused) => {
                drop(self);
                return Err(FinishFault::Memory(refused));
            }
        }
        let (draft, incomplete) = self.into_draft();
        match file_of(draft, incomplete) {
            Ok(file) => Ok(file),
            Err(fault) => Err(FinishFault::End(fault)),
        }
    }
}

/// The file that the whole text parses to.
///
/// # Errors
///
/// The fault of its end, or that memory was refused.
pub(crate) fn completed(reading: Reading, alloc: Global) -> Result<File, ReadError>
    requires { IsReadFrom reading }
    ensures file { (earlier : List Item) → Holds reading earlier → AreCut earlier
        → Completes earlier result }
    ensures stood { result ≡ Err OutOfMemory → is_some reading.opened ≡ true }
{
    match reading.finish(alloc) {
        Ok(file) => Ok(file),
        Err(FinishFault::Memory(refused)) => Err(ReadError::refused(refused)),
        Err(FinishFault::End(fault)) => Err(ReadError::at_end(fault)),
    }
}

// ---- why a file was not read

/// Why a file wasn't read. Contracts see the fault.
///
/// Only this file makes one, and one that says that memory ran out only from the token of a
/// refusal. So no function can return it unless memory was really refused.
#[derive(Clone, Copy, Debug, Drop)]
pub struct ReadError {
    found: ReadFault,
}

impl Model for ReadError {
    ghost use Rattle.tsp_text.specs.declared.fault.ReadFault.{ReadFault};

    ghost Value = { ReadFault };

    ghost view = { λ error. error.found };

    ghost inverse = { λ fault. record { found = fault } };
}

impl ReadError {
    /// The fault alone, without the token of a refusal.
    pub fn fault(self) -> ReadFault
        ensures { result ≡ self }
    {
        self.found
    }

    /// Out of memory, which the token of a refusal proves.
    pub(crate) fn refused(_refused: Refused) -> ReadError
        ensures { result ≡ OutOfMemory }
    {
        ReadError {
            found: ReadFault::OutOfMemory,
        }
    }

    /// A line has this fault, at the word with this number, or 0 for the line itself.
    pub(crate) fn at(line: u32, word: u32, fault: LineFault) -> ReadError
        ensures { result ≡ Line line word fault }
    {
        ReadError {
            found: ReadFault::Line { line, word, fault },
        }
    }

    /// The lines have no fault, but together they have this one.
    pub(crate) fn at_end(fault: EndFault) -> ReadError
        ensures { result ≡ End fault }
    {
        ReadError {
            found: ReadFault::End(fault),
        }
    }

    /// There are more bytes than a file may have.
    pub(crate) fn too_long() -> ReadError
        ensures { result ≡ TooLong }
    {
        ReadError {
            found: ReadFault::TooLong,
        }
    }

    /// A read failed.
    pub(crate) fn by_device() -> ReadError
        ensures { result ≡ Device }
    {
        ReadError {
            found: ReadFault::Device,
        }
    }
}

impl From<ReadError> for ReadFault {
    ghost from_gives = { λ error fault. fault ≡ error };

    fn from(error: ReadError) -> ReadFault {
        error.fault()
    }
}
