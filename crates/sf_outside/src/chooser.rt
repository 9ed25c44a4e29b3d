//! Who chooses, among several, which is next; and a choice by a list.

ghost use Rattle.std.specs.Prelude.{◌≡◌, ◌≤◌, ◌+◌, ◌++◌, true, [], ◌∷◌, None, Some, IfOk};
ghost use Rattle.std.specs.declared.option.Option.{Option};
ghost use Rattle.sf_outside.specs.Choices.{Choices, Begins, Picks, told_by, pick_at};

use std::alloc::{AllocError, Global};
use std::marker::Model;

/// Who chooses which of several is next. A call of it can't fail.
pub trait Chooser {
    /// The starts and picks that it had, as long as its counters hold.
    ghost choices: { Self → Option Choices };

    /// Begins anew from a number.
    fn start(&mut self, number: u64)
        ensures { Begins (choices self.old) number (choices self.new) };

    /// A number for one of `n`. It may be any number: who asks takes it modulo `n`.
    fn pick(&mut self, n: u32) -> u32
        requires { 1 ≤ n }
        ensures { Picks (choices self.old) n result (choices self.new) };
}

/// A chooser that answers the numbers of a list, and then 0. Each start begins the list anew. It tells what it was asked as long as there is memory to note it.
#[derive(Drop)]
pub struct ListChooser {
    list: Vec<u32>,
    starts: u64,
    number: Option<u64>,
    asked: Vec<u32>,
    taken: u64,
    exact: bool,
}

impl Model for ListChooser {
    ghost use Rattle.sf_outside.specs.Choices.{ListState};

    ghost Value = { ListState };

    ghost view = { λ chooser. record {
      list = chooser.list.items;
      starts = chooser.starts;
      number = chooser.number;
      asked = chooser.asked.items;
      taken = chooser.taken;
      exact = chooser.exact;
    } };
}

impl ListChooser {
    /// A chooser that wasn't started yet, and answers these picks.
    pub fn new(alloc: Global, picks: &[u32]) -> Result<ListChooser, AllocError>
        ensures { IfOk result (λ made. made ≡ record { list = picks.now; starts = 0; number = None; asked = []; taken = 0; exact = true }) }
    {
        Ok(ListChooser {
            list: Vec::from_slice(alloc, picks)?,
            starts: 0,
            number: None,
            asked: Vec::new(alloc),
            taken: 0,
            exact: true,
        })
    }

    /// Notes of how many one is asked for. Where there is no memory for it, it tells nothing from now on.
    fn note(&mut self, n: u32)
        ensures noted { self.new.exact ≡ true → (self.old.exact ≡ true) × (self.new.asked ≡ self.old.asked ++ n ∷ []) }
        ensures rest { self.new ≡ record self.old { asked = self.new.asked; exact = self.new.exact } }
    {
        if self.asked.push(n).is_err() {
            self.exact = false;
        }
    }

    /// Goes on in the list. Where the picks can't be counted any more, it tells nothing from now on.
    fn advance(&mut self)
        ensures counted { self.new.exact ≡ true → (self.old.exact ≡ true) × (self.new.taken ≡ self.old.taken + 1) }
        ensures rest { self.new ≡ record self.old { taken = self.new.taken; exact = self.new.exact } }
    {
        match self.taken.checked_add(1) {
            Some(taken) => self.taken = taken,
            None => self.exact = false,
        }
    }

    /// The pick at hand.
    fn current(&self) -> u32
        ensures { result ≡ pick_at self.now.list self.now.taken }
    {
        match self.list.as_slice().get(self.taken as usize) {
            Some(pick) => *pick,
            None => 0,
        }
    }
}

impl Chooser for ListChooser {
    ghost choices = { λ chooser. told_by chooser };

    fn start(&mut self, number: u64)
        ensures told { Begins (told_by self.old) number (told_by self.new) }
        ensures list { self.new.list ≡ self.old.list }
        ensures anew { self.new.taken ≡ 0 }
    {
        self.number = Some(number);
        self.asked.clear();
        self.taken = 0;
        match self.starts.checked_add(1) {
            Some(starts) => self.starts = starts,
            None => self.exact = false,
        }
    }

    fn pick(&mut self, n: u32) -> u32
        ensures told { Picks (told_by self.old) n result (told_by self.new) }
        ensures answer { result ≡ pick_at self.old.list self.old.taken }
        ensures list { self.new.list ≡ self.old.list }
    {
        let pick = self.current();
        self.note(n);
        self.advance();
        pick
    }
}
