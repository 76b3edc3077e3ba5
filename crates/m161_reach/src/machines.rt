//! What is explored.

ghost use Rattle.std.specs.Prelude.{◌≡◌, ◌+◌, ◌<◌, ◌++◌, IfOk, None, OnOk, length, true};
ghost use Rattle.m161_explore.specs.Rules.{Advances};
ghost use Rattle.m161_alike.specs.Addresses.{Cover};
ghost use Rattle.m161_states.specs.Question.{booted, processors_of};
ghost use Rattle.m161_states.specs.System.{Explored, agreed_at_boot, event_of, next, start, stored_of};
ghost use Rattle.m161_states.specs.Verdicts.{is_end, stop};
ghost use Rattle.m161_states.specs.Views.{view};
ghost use Rattle.m161_judge.specs.Judge.{bytes_of};
ghost use Rattle.m161_reach.specs.Reach.{CanBeAsked, IsMet, question_of, rules_of};
ghost use Rattle.m161_reach.specs.Hand.{IsReady};
ghost use Rattle.m161_reach.specs.helpers.Handling.{IsHandled, stored_at};

use crate::advance::{advance_done, advance_key, advance_step, has_no_key, refuses_done};
use crate::encode::{push_beside, push_board, push_processors};
use crate::hand::{Hand, are_kept, forget, keep_words, note_store};
use crate::judge::is_end_of;
use crate::kept::keep_watches;
use crate::place::Place;
use crate::restore::{read_beside, remake, split, split_counted};
use m161_alike::{read_addresses, scan_memory, write_memory};
use m161_bus::Console;
use m161_explore::Advanced;
use m161_judge::Goal;
use m161_machine::Core;
use m161_states::{EventVerdict, Known, Unknown};
use m161_tlb::Tlb;
use std::alloc::{AllocError, Global};
use std::marker::Model;

/// A machine at boot, and what is asked of it. Contracts see the question.
#[derive(Drop)]
pub struct Machines<'a, T: Tlb, D: Console> {
    alloc: Global,
    pub(crate) boot: &'a Core<T, D>,
    pub(crate) goal: &'a Goal<'a>,
    pub(crate) known: Known,
}

impl<'a, T: Tlb, D: Console> Model for Machines<'a, T, D> {
    ghost use Rattle.m161_states.specs.Question.{Question};
    ghost use Rattle.m161_reach.specs.Reach.{CanBeAsked, question_of};

    ghost Value = { Question };

    ghost view = { λ m. question_of m.boot.now.state m.goal.now m.known };

    ghost invariant = { λ m. CanBeAsked m.boot.now.state m.goal.now };
}

// Before any byte is sent.
fn agreed_at_boot(output: Option<&[u8]>) -> Option<u32>
    ensures { result ≡ agreed_at_boot (bytes_of output.entry) }
{
    match output {
        Some(_bytes) => Some(0),
        None => None,
    }
}

/// How many bytes RAM has.
pub(crate) fn ram_size<T: Tlb, D: Console>(place: &Place<T, D>) -> usize
    ensures { result ≡ length place.now.state.memory }
{
    place.core.memory().len()
}

impl<'a, T: Tlb + Drop, D: Console + Drop> Machines<'a, T, D> {
    /// The machine that is at boot, and what is asked of it, with this known of time.
    pub fn new(
        alloc: Global,
        boot: &'a Core<T, D>,
        goal: &'a Goal<'a>,
        known: Known,
    ) -> Machines<'a, T, D>
        requires { CanBeAsked boot.now.state goal.now }
        ensures { result ≡ question_of boot.now.state goal.now known }
    {
        Machines {
            alloc,
            boot,
            goal,
            known,
        }
    }

    /// How many events there are.
    pub fn width(&self) -> u32
        ensures { result ≡ processors_of self.now + 2 }
    {
        self.boot.law();
        self.boot.processors() + 2
    }

    /// The first state. Allocates a machine.
    ///
    /// # Errors
    /// Memory is refused.
    pub fn first(&self, alloc: Global) -> Result<Place<T, D>, AllocError>
        ensures { IfOk result (λ place. place ≡ start self.now) }
    {
        let goal = self.goal;
        Ok(Place {
            core: self.boot.copy(alloc)?,
            typed: 0,
            kept: keep_watches(alloc, goal.watches)?,
            agreed: agreed_at_boot(goal.output),
        })
    }

    /// Whether a state is an end.
    pub fn ends_at(&self, place: &Place<T, D>) -> bool
        ensures { result ≡ is_end self.now place.now }
    {
        is_end_of(self.goal, place)
    }

    /// The first state, in hand. Allocates a machine.
    ///
    /// # Errors
    /// Memory is refused.
    pub fn first_in_hand(&self, alloc: Global) -> Result<Hand<T, D>, AllocError>
        ensures start { IfOk result (λ hand. hand.place ≡ start self.now) }
        ensures ready { IfOk result (IsReady self.now) }
    {
        Ok(Hand {
            place: self.first(alloc)?,
            words: Vec::new(alloc),
            changed: Vec::new(alloc),
        })
    }

    /// A state that is met, in hand. All of memory is looked at.
    ///
    /// # Errors
    /// Memory is refused.
    pub(crate) fn in_hand(
        &self,
        alloc: Global,
        place: Place<T, D>,
    ) -> Result<Hand<T, D>, AllocError>
        requires { IsMet self.now place }
        ensures same { IfOk result (λ hand. hand.place ≡ place) }
        ensures ready { IfOk result (IsReady self.now) }
    {
        let mut words = Vec::new(alloc);
        scan_memory(&place.core, self.boot.memory(), &mut words)?;
        let mut changed = Vec::new(alloc);
        read_addresses(&words, &mut changed)?;
        Ok(Hand {
            place,
            words: Vec::new(alloc),
            changed,
        })
    }

    /// The word that an event stores to, if it is a Step.
    pub(crate) fn stored_at(&self, place: &Place<T, D>, event: u32) -> Option<u32>
        requires { IsMet self.now place.now }
        ensures { result ≡ stored_at self.now place.now event }
    {
        self.boot.law();
        if event < self.boot.processors() {
            place.core.uses(event).stored
        } else {
            None
        }
    }

    /// The word of RAM that an event stores to, if it is a Step that does. Whether it is accepted isn't
    /// looked at.
    pub fn stores_to(&self, hand: &Hand<T, D>, event: u32) -> Option<u32>
        requires { IsMet self.now hand.now.place }
        ensures { result ≡ stored_of (event_of self.now hand.now.place event) hand.now.place.state }
    {
        self.stored_at(&hand.place, event)
    }

    /// Whether an input is refused: the console has nothing to send, or no key is left. Of a Step nothing is
    /// said before it is made.
    pub fn refuses(&self, place: &Place<T, D>, event: u32) -> bool
        requires { IsMet self.now place.now }
        ensures { result ≡ true → (stop self.now place.now event ≡ None) × (next self.now place.now event ≡ None) }
    {
        self.boot.law();
        let processors = self.boot.processors();
        if event < processors {
            false
        } else if event == processors {
            refuses_done(place)
        } else {
            has_no_key(self.goal, place)
        }
    }

    /// Makes an event, and says what it came to.
    ///
    /// # Errors
    /// Memory is refused, or the machine has accepted all events that it counts.
    pub fn advance(
        &self,
        hand: &mut Hand<T, D>,
        event: u32,
    ) -> Result<Advanced<EventVerdict, Unknown>, AllocError>
        requires ready { IsReady self.now hand.old }
        requires event { event < processors_of self.now + 2 }
        ensures advances { IfOk result
            (Advances (rules_of self.now) (IsMet self.now) hand.old.place event hand.new.place) }
        ensures ready { OnOk result (IsReady self.now hand.new) }
    {
        let stored = self.stored_at(&hand.place, event);
        let came = self.advance_place(&mut hand.place, event)?;
        note_store(&mut hand.changed, stored, ram_size(&hand.place))?;
        forget(&mut hand.words, &came);
        Ok(came)
    }

    // Makes an event of the state alone.
    fn advance_place(
        &self,
        place: &mut Place<T, D>,
        event: u32,
    ) -> Result<Advanced<EventVerdict, Unknown>, AllocError>
        requires met { IsMet self.now place.old }
        requires event { event < processors_of self.now + 2 }
        ensures advances { IfOk result (Advances (rules_of self.now) (IsMet self.now) place.old event place.new) }
        ensures handled { IfOk result (IsHandled self.now place.old event place.new) }
    {
        self.boot.law();
        let processors = self.boot.processors();
        if event < processors {
            advance_step(self.goal, &self.known, place, event)
        } else if event == processors {
            advance_done(self.goal, place)
        } else {
            advance_key(self.goal, place)
        }
    }

    /// Writes the words of a state's view behind the words that are there, and keeps them.
    ///
    /// # Errors
    /// Memory is refused.
    pub fn write(&self, hand: &mut Hand<T, D>, words: &mut Vec<u32>) -> Result<(), AllocError>
        requires { IsReady self.now hand.old }
        ensures words { OnOk result (words.new.items ≡ words.old.items ++ view self.now hand.old.place) }
        ensures same { OnOk result (hand.new.place ≡ hand.old.place) }
        ensures ready { OnOk result (IsReady self.now hand.new) }
    {
        let before = words.len();
        self.write_place(&hand.place, &hand.changed, words)?;
        keep_words(&mut hand.words, &words[before..])
    }

    // Writes them for the state alone.
    fn write_place(
        &self,
        place: &Place<T, D>,
        changed: &[u32],
        words: &mut Vec<u32>,
    ) -> Result<(), AllocError>
        requires met { IsMet self.now place.now }
        requires cover { Cover (booted self.now).bytes place.now.state.memory changed.now }
        ensures { OnOk result (words.new.items ≡ words.old.items ++ view self.now place.now) }
    {
        push_processors(&place.core, &self.known, words)?;
        push_beside(place, words)?;
        push_board(&place.core, words)?;
        write_memory(&place.core, self.boot.memory(), changed, words)
    }

    /// Makes a state one with this view: where it is known to have it, nothing is done. Does not allocate a
    /// machine.
    ///
    /// # Errors
    /// Memory is refused; or the words are those of a state that no machine can hold, such as one in
    /// which Random has another row than 8 to 63. The definition of a Step has no bounds, so it is
    /// known by reading alone that no such state is met.
    pub fn restore(&self, hand: &mut Hand<T, D>, words: &[u32]) -> Result<(), AllocError>
        requires ready { IsReady self.now hand.old }
        requires view { (x : Explored) × IsMet self.now x × (view self.now x ≡ words.now) }
        ensures view { OnOk result (IsMet self.now hand.new.place × (view self.now hand.new.place ≡ words.now)) }
        ensures ready { OnOk result (IsReady self.now hand.new) }
    {
        if are_kept(&hand.words, words) {
            return Ok(());
        }
        self.restore_place(&mut hand.place, &hand.words, &mut hand.changed, words)?;
        keep_words(&mut hand.words, words)
    }

    // Makes the state alone one with this view, and says where its memory may differ from boot's.
    fn restore_place(
        &self,
        place: &mut Place<T, D>,
        before: &[u32],
        changed: &mut Vec<u32>,
        words: &[u32],
    ) -> Result<(), AllocError>
        requires met { IsMet self.now place.old }
        requires before { 0 < length before.now → before.now ≡ view self.now place.old }
        requires cover { Cover (booted self.now).bytes place.old.state.memory changed.old.items }
        requires view { (x : Explored) × IsMet self.now x × (view self.now x ≡ words.now) }
        ensures view { OnOk result (IsMet self.now place.new × (view self.now place.new ≡ words.now)) }
        ensures cover { OnOk result (Cover (booted self.now).bytes place.new.state.memory changed.new.items) }
    {
        self.boot.law();
        let goal = self.goal;
        let number = self.boot.processors() as usize;
        let first = split(words, 245 * number);
        let second = split(first.1, 4 + 2 * goal.watches.len());
        let third = split_counted(second.1);
        let (typed, agreed, kept) = read_beside(self.alloc, second.0)?;
        remake(
            &mut place.core,
            self.boot.memory(),
            changed,
            before,
            first.0,
            third.0,
            third.1,
        )?;
        place.typed = typed;
        place.agreed = agreed;
        place.kept = kept;
        read_addresses(third.1, changed)
    }
}
