//! Reads the only list in a JSON text: nodes, or routes as lists of nodes. `by_form.rt` calls it;
//! its answers are tested, not proved.

use crate::fault::{FormFault, SolutionFault};
use crate::json_tokens::{JsonToken, JsonTokens};
use crate::number_groups::NumberGroups;
use crate::word_place::{Place, number_of};
use arrayvec::ArrayVec;
use std::alloc::Global;
use tsp_io::copied;

/// How deep values are nested at most.
const MOST_DEPTH: usize = 64;

/// What the list of a text has.
#[derive(Drop)]
pub(crate) struct JsonList {
    /// A group for each route, or the nodes of a tour in one group.
    pub(crate) groups: NumberGroups,
    /// Whether the list has lists, which are routes.
    pub(crate) has_lists: bool,
    /// The number under `cost`, or else under `length` or `distance`, as it is written.
    pub(crate) cost: Option<Vec<u8>>,
}

/// A value that contains others.
#[derive(Clone, Copy, PartialEq, Eq, Default)]
enum Container {
    #[default]
    List,
    Object,
}

/// What may come next.
#[derive(Clone, Copy, PartialEq, Eq)]
enum Wanted {
    /// A value.
    Value,
    /// A value, or the end of the list that was opened.
    ValueOrEnd,
    /// A key.
    Key,
    /// A key, or the end of the object that was opened.
    KeyOrEnd,
    /// The colon behind a key.
    Colon,
    /// A comma, or the end of what is open.
    CommaOrEnd,
    /// Nothing: the value is whole.
    Nothing,
}

/// The names under which an object has the length of its list, in the order in which they count.
#[derive(Clone, Copy, PartialEq, Eq, PartialOrd, Ord)]
enum CostKey {
    Cost,
    Length,
    Distance,
}

/// A text in JSON as far as it is read.
#[derive(Drop)]
struct JsonReading<'a> {
    wanted: Wanted,
    /// What is open, the outermost first.
    open: ArrayVec<Container, MOST_DEPTH>,
    /// How much was open with the list, once it has begun; and whether it has ended.
    list: Option<usize>,
    has_ended: bool,
    /// How much was open with the open route, if one is.
    route: Option<usize>,
    has_lists: bool,
    groups: NumberGroups,
    /// The last key.
    key: Option<CostKey>,
    cost: Option<(CostKey, &'a [u8])>,
}

/// Reads the one list of a text in JSON, alone or in objects. It has nodes, or lists of nodes, or
/// objects of which each has one list of nodes.
///
/// # Errors
///
/// `BadJson` and `TooDeep` if the text isn't JSON; `NoList` and `SeveralLists` if it hasn't one
/// list; `NotANode` and `OutOfRange` at a part of the list that isn't a node.
pub(crate) fn read_json(alloc: Global, text: &[u8]) -> Result<JsonList, SolutionFault> {
    let mut reading = JsonReading::new(alloc);
    let mut tokens = JsonTokens::of(text);
    'tokens: for _ in 0..text.len() {
        let Some((token, place)) = tokens.take() else {
            break;
        };
        reading.take(alloc, token, place)?;
    }
    reading.finish(alloc, tokens.place)
}

impl<'a> JsonReading<'a> {
    /// Nothing is read so far.
    fn new(alloc: Global) -> JsonReading<'a> {
        JsonReading {
            wanted: Wanted::Value,
            open: ArrayVec::new(),
            list: None,
            has_ended: false,
            route: None,
            has_lists: false,
            groups: NumberGroups::new(alloc),
            key: None,
            cost: None,
        }
    }

    /// Takes the next token, which stands at this place.
    fn take(
        &mut self,
        alloc: Global,
        token: JsonToken<'a>,
        place: Place,
    ) -> Result<(), SolutionFault> {
        match token {
            JsonToken::OpenList if self.wants_value() => self.open_list(alloc, place),
            JsonToken::OpenObject if self.wants_value() => self.open_object(place),
            JsonToken::CloseList if self.may_end_list() => {
                self.close();
                Ok(())
            }
            JsonToken::CloseObject if self.may_end_object() => {
                self.close();
                Ok(())
            }
            JsonToken::Comma if self.wanted == Wanted::CommaOrEnd => {
                self.wanted = match self.open.last() {
                    Some(Container::Object) => Wanted::Key,
                    _ => Wanted::Value,
                };
                Ok(())
            }
            JsonToken::Colon if self.wanted == Wanted::Colon => {
                self.wanted = Wanted::Value;
                Ok(())
            }
            JsonToken::Text(key) if self.wants_key() => {
                self.key = cost_key(key);
                self.wanted = Wanted::Colon;
                Ok(())
            }
            JsonToken::Text(_) if self.wants_value() => self.take_other(place),
            JsonToken::Plain(word) if self.wants_value() => self.take_plain(alloc, word, place),
            _ => Err(place.fault(FormFault::BadJson)),
        }
    }

    /// Whether a value may come next.
    fn wants_value(&self) -> bool {
        self.wanted == Wanted::Value || self.wanted == Wanted::ValueOrEnd
    }

    /// Whether a key may come next.
    fn wants_key(&self) -> bool {
        self.wanted == Wanted::Key || self.wanted == Wanted::KeyOrEnd
    }

    /// Whether the open list may end here.
    fn may_end_list(&self) -> bool {
        let is_between = self.wanted == Wanted::CommaOrEnd || self.wanted == Wanted::ValueOrEnd;
        is_between && matches!(self.open.last(), Some(Container::List))
    }

    /// Whether the open object may end here.
    fn may_end_object(&self) -> bool {
        let is_between = self.wanted == Wanted::CommaOrEnd || self.wanted == Wanted::KeyOrEnd;
        is_between && matches!(self.open.last(), Some(Container::Object))
    }

    /// Opens an object.
    fn open_object(&mut self, place: Place) -> Result<(), SolutionFault> {
        if self.is_in_route() {
            return Err(place.fault(FormFault::NotANode));
        }
        self.push(Container::Object, place)?;
        self.wanted = Wanted::KeyOrEnd;
        Ok(())
    }

    /// Opens a list: the one that is read, or a route of it.
    fn open_list(&mut self, alloc: Global, place: Place) -> Result<(), SolutionFault> {
        if self.route.is_some() {
            return Err(place.fault(FormFault::NotANode));
        }
        self.push(Container::List, place)?;
        self.wanted = Wanted::ValueOrEnd;
        if self.has_ended {
            return Err(place.fault(FormFault::SeveralLists));
        }
        if self.list.is_none() {
            self.list = Some(self.open.len());
            return Ok(());
        }
        if !self.has_lists && !self.groups.groups.is_empty() {
            return Err(place.fault(FormFault::NotANode));
        }
        self.has_lists = true;
        self.route = Some(self.open.len());
        self.groups.open(alloc)
    }

    /// Adds a container to those that are open.
    fn push(&mut self, container: Container, place: Place) -> Result<(), SolutionFault> {
        match self.open.try_push(container) {
            Ok(()) => Ok(()),
            Err(_) => Err(place.fault(FormFault::TooDeep)),
        }
    }

    /// Ends the innermost container.
    fn close(&mut self) {
        let depth = Some(self.open.len());
        if self.route == depth {
            self.route = None;
        }
        if self.list == depth {
            self.has_ended = true;
        }
        let _ = self.open.pop();
        self.end_value();
    }

    /// A value has ended.
    fn end_value(&mut self) {
        self.wanted = if self.open.is_empty() {
            Wanted::Nothing
        } else {
            Wanted::CommaOrEnd
        };
        self.key = None;
    }

    /// Whether a value stands right in the open route.
    fn is_in_route(&self) -> bool {
        self.route.is_some() && self.route == Some(self.open.len())
    }

    /// Whether a value stands right in the list.
    fn is_in_list(&self) -> bool {
        !self.has_ended && self.list.is_some() && self.list == Some(self.open.len())
    }

    /// Takes a text, or another value that is no node.
    fn take_other(&mut self, place: Place) -> Result<(), SolutionFault> {
        if self.is_in_route() || self.is_in_list() {
            return Err(place.fault(FormFault::NotANode));
        }
        self.end_value();
        Ok(())
    }

    /// Takes a number, or `true`, `false` or `null`.
    fn take_plain(
        &mut self,
        alloc: Global,
        word: &'a [u8],
        place: Place,
    ) -> Result<(), SolutionFault> {
        if !is_number(word) {
            return if is_literal(word) {
                self.take_other(place)
            } else {
                Err(place.fault(FormFault::BadJson))
            };
        }
        if self.is_in_list() {
            self.begin_tour(alloc, place)?;
        }
        if self.is_in_route() || self.is_in_list() {
            self.groups.push(number_of(word, place)?, place)?;
        } else if self.list.is_none() || self.has_ended {
            self.take_cost(word);
        }
        self.end_value();
        Ok(())
    }

    /// Begins the tour that the list is, before its first node.
    fn begin_tour(&mut self, alloc: Global, place: Place) -> Result<(), SolutionFault> {
        if self.has_lists {
            return Err(place.fault(FormFault::NotANode));
        }
        if self.groups.groups.is_empty() {
            self.groups.open(alloc)?;
        }
        Ok(())
    }

    /// Keeps a number as the cost, if its key says so and no other that counts before it has come.
    fn take_cost(&mut self, word: &'a [u8]) {
        let Some(key) = self.key else {
            return;
        };
        match self.cost {
            Some((other, _)) if rank(other) <= rank(key) => {}
            _ => self.cost = Some((key, word)),
        }
    }

    /// The list, once the text has ended.
    fn finish(self, alloc: Global, end: Place) -> Result<JsonList, SolutionFault> {
        if self.wanted != Wanted::Nothing {
            return Err(end.fault(FormFault::BadJson));
        }
        if !self.has_ended {
            return Err(Place::first().fault(FormFault::NoList));
        }
        let cost = match self.cost {
            Some((_, word)) => Some(copied(alloc, word)?),
            None => None,
        };
        Ok(JsonList {
            groups: self.groups,
            has_lists: self.has_lists,
            cost,
        })
    }
}

/// The name of a length that a key is, if it is one.
fn cost_key(key: &[u8]) -> Option<CostKey> {
    match key {
        b"cost" => Some(CostKey::Cost),
        b"length" => Some(CostKey::Length),
        b"distance" => Some(CostKey::Distance),
        _ => None,
    }
}

/// The place of a name among those of lengths.
fn rank(key: CostKey) -> u8 {
    match key {
        CostKey::Cost => 0,
        CostKey::Length => 1,
        CostKey::Distance => 2,
    }
}

/// Whether a word is a number: it begins with a digit, or with a minus sign.
fn is_number(word: &[u8]) -> bool {
    match word.first() {
        Some(byte) => byte.is_ascii_digit() || *byte == b'-',
        None => false,
    }
}

/// Whether a word is one of the three that are values.
fn is_literal(word: &[u8]) -> bool {
    word == b"true".as_slice() || word == b"false".as_slice() || word == b"null".as_slice()
}
