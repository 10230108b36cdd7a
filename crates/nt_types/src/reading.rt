//! Types, read from left to right with a stack of what is open, so that no text makes the reader recurse.

ghost use Rattle.std.specs.Prelude.{◌≡◌, [], ◌∷◌, None, option_map, OnOk, MatchOption};
ghost use Rattle.nt_types.specs.Views.{shape_view};
ghost use Rattle.nt_types.specs.Reading.{place, begin, named, ended_here, delimited, text_ended, start, kind_kept};
ghost use Rattle.nt_lists.specs.Answering.{Answers};
ghost use Rattle.nt_types.specs.ConstructViews.{open_view, stack_view};
ghost use Rattle.nt_types.specs.FaultViews.{type_fault, or_malformed};

use crate::construct::{Open, Placed, put, started, within_after, within_inside};
use crate::fault::TypeError;
use crate::name::Name;
use crate::shape::{Shape, Shapes};
use crate::word::{is_name, leaf};
use std::alloc::{AllocError, Global};

fn kind_kept(alloc: Global, keep: bool, shape: Shape) -> Shape
    ensures { shape_view result ≡ kind_kept keep (shape_view shape) }
{
    if keep {
        shape
    } else if shape.takes_nothing() {
        Shape::Choice(Shapes::from_vec(Vec::new(alloc)))
    } else {
        Shape::Bool
    }
}

/// The part that ends here: one that has ended already, or a leaf.
fn settled(alloc: Global, keep: bool, done: Option<Shape>, word: &[u8]) -> Option<Shape>
    ensures { option_map shape_view result ≡ ended_here keep (option_map shape_view done) word.now }
{
    match done {
        None => match leaf(word) {
            Some(shape) => Some(kind_kept(alloc, keep, shape)),
            None => None,
        },
        Some(shape) => match word {
            [] => Some(shape),
            [..] => None,
        },
    }
}

#[tactic(auto, using(crate::proofs::Stack::stack_pushed))]
fn pushed(stack: &mut Vec<Open>, inner: Open) -> Result<(), AllocError>
    ensures { OnOk result
        (stack_view stack.new.items ≡ open_view inner ∷ stack_view stack.old.items) }
{
    stack.push(inner)?;
    Ok(())
}

#[tactic(auto, using(crate::proofs::Stack::stack_popped))]
fn popped(stack: &mut Vec<Open>) -> Option<Open>
    ensures { MatchOption result (stack_view stack.old.items ≡ [])
        (λ o. stack_view stack.old.items ≡ open_view o ∷ stack_view stack.new.items) }
{
    stack.pop()
}

/// What is read so far.
#[derive(Drop)]
pub(crate) struct Reading {
    /// Whether shapes are kept. Where they aren't, all that is read is whether there is one, and whether it takes nothing.
    keep: bool,
    stack: Vec<Open>,
    /// Whether a choice or an optional is open.
    within: bool,
    /// The part that has just ended.
    done: Option<Shape>,
}

impl Reading {
    ghost use Rattle.nt_types.specs.ReadingViews.{state_view};

    /// Nothing is read.
    pub(crate) fn new(alloc: Global, keep: bool) -> Self
        ensures state { state_view result ≡ start }
        ensures keep { result.keep ≡ keep }
    {
        Reading {
            keep,
            stack: Vec::new(alloc),
            within: false,
            done: None,
        }
    }

    /// A part has ended, and this byte follows it.
    fn place(&mut self, alloc: Global, part: Shape, after: u8) -> Result<(), TypeError>
        requires { self.old.done ≡ None }
        ensures state { Answers (λ _. state_view self.new) type_fault result
            (or_malformed (place self.old.keep (state_view self.old) (shape_view part) after)) }
        ensures keep { self.new.keep ≡ self.old.keep }
    {
        let Some(outer) = popped(&mut self.stack) else {
            return Err(TypeError::Malformed);
        };
        let within = within_after(&outer, self.within);
        match put(alloc, outer, part, after)? {
            Placed::Goes(outer) => pushed(&mut self.stack, outer)?,
            Placed::Ends(shape) => {
                self.within = within;
                self.done = Some(kind_kept(alloc, self.keep, shape));
            }
        }
        Ok(())
    }

    /// A construct begins.
    fn begin(&mut self, alloc: Global, word: &[u8], after: u8) -> Result<(), TypeError>
        ensures state { Answers (λ _. state_view self.new) type_fault result
            (or_malformed (begin (state_view self.old) word.now after)) }
        ensures keep { self.new.keep ≡ self.old.keep }
    {
        if self.done.is_some() {
            return Err(TypeError::Malformed);
        }
        let Some(inner) = started(alloc, self.within, word, after) else {
            return Err(TypeError::Malformed);
        };
        self.within = within_inside(&inner, self.within);
        pushed(&mut self.stack, inner)?;
        Ok(())
    }

    /// The name of a member stands before its type.
    fn name(&mut self, alloc: Global, word: &[u8]) -> Result<(), TypeError>
        ensures state { Answers (λ _. state_view self.new) type_fault result
            (or_malformed (named (state_view self.old) word.now)) }
        ensures keep { self.new.keep ≡ self.old.keep }
    {
        if self.done.is_some() {
            return Err(TypeError::Malformed);
        }
        match popped(&mut self.stack) {
            Some(Open::Name(members)) => {
                if !is_name(word) {
                    return Err(TypeError::Malformed);
                }
                let name = Name::from_vec(word.to_vec(alloc)?);
                pushed(&mut self.stack, Open::Member(members, name))?;
                Ok(())
            }
            _ => Err(TypeError::Malformed),
        }
    }

    /// A word has ended, and this byte of no word follows it.
    pub(crate) fn delimit(&mut self, alloc: Global, word: &[u8], after: u8) -> Result<(), TypeError>
        ensures state { Answers (λ _. state_view self.new) type_fault result
            (or_malformed (delimited self.old.keep (state_view self.old) word.now after)) }
        ensures keep { self.new.keep ≡ self.old.keep }
    {
        match after {
            b'<' | b'{' => self.begin(alloc, word, after),
            b':' => self.name(alloc, word),
            _ => match settled(alloc, self.keep, self.done.take(), word) {
                Some(part) => self.place(alloc, part, after),
                None => Err(TypeError::Malformed),
            },
        }
    }

    /// The text ends after this word.
    pub(crate) fn end(mut self, alloc: Global, word: &[u8]) -> Option<Shape>
        ensures { option_map shape_view result ≡ text_ended self.keep (state_view self) word.now }
    {
        let Some(part) = settled(alloc, self.keep, self.done.take(), word) else {
            return None;
        };
        match popped(&mut self.stack) {
            None => Some(part),
            Some(_) => None,
        }
    }
}
