//! The views of a session's machine, and its log's text.

ghost use Rattle.std.specs.Prelude.{◌≡◌, ◌<◌, None, Some, IfOk, length, map, string_bytes};
ghost use Rattle.m161_judge.specs.Judge.{bytes_of};
ghost use Rattle.m161_c.specs.Explored.{criteria_of, watch_of};
ghost use Rattle.m161_c.specs.Explores.{ExploresAs};
ghost use Rattle.m161_c.specs.Judged.{AuditsAs, JudgesAs};
ghost use Rattle.m161_c.specs.Runs.{HoldsOf, outcome_numbers};
ghost use Rattle.m161_c.specs.Search.{SearchesOf};
ghost use Rattle.m161_c.specs.Shown.{board_of, board_with, conflict_in, conflict_of, control_of, cop_of, entries_of, entry_of, entry_with, link_of, log_of, row_of, words_of};

use crate::answer::{
    Board, ConflictView, EntryView, Exploration, Goal, Judgement, OrderNumbers, RowWords,
    WatchNumbers,
};
use crate::explored::explore;
use crate::judged::{audit, judge};
use crate::search::search;
use crate::session::Session;
use crate::shown::outcome_numbers;
use crate::{NO_MEMORY, NOTHING};
use m161::{BoardWord, Conflict, Entry, Event, Machine, Reg, Register};
use m161_steplog::{Mode, write_log, write_tail};
use std::alloc::{AllocError, Global};

// What a register of this number of coprocessor 0 reads as.
fn control_of(machine: &Machine, p: u32, number: u8) -> Option<u32>
    requires processor { p < length machine.now.state.processors }
    requires number { number < 32 }
    ensures { result ≡ cop_of (Some machine.now) p number }
{
    match Register::from_number(Reg::new(number)) {
        Some(register) => Some(machine.cop(p, register)),
        None => None,
    }
}

fn words_of(machine: &Machine, p: u32, i: u8) -> RowWords
    requires processor { p < length machine.now.state.processors }
    requires row { i < 64 }
    ensures { row_of (Some machine.now) p i ≡ Some result }
{
    let row = machine.row(p, i);
    RowWords {
        high: row.entry_hi(),
        low: row.entry_lo(),
    }
}

fn board_with(off: bool, latch: Option<u8>, waiting: u32, started: u32) -> Board
    ensures { result ≡ board_with off latch waiting started }
{
    match latch {
        None => Board {
            off,
            sending: false,
            latch: 0,
            waiting,
            started,
        },
        Some(byte) => Board {
            off,
            sending: true,
            latch: byte,
            waiting,
            started,
        },
    }
}

fn conflict_in(conflict: Option<Conflict>) -> Option<ConflictView>
    ensures { result ≡ conflict_in conflict }
{
    match conflict {
        Some(conflict) => Some(ConflictView {
            processor: conflict.processor,
            row: u32::from(conflict.row),
            other: u32::from(conflict.other),
        }),
        None => None,
    }
}

// An entry of a log as numbers.
fn entry_view(entry: Entry) -> EntryView
    ensures { result ≡ entry_with entry.event (outcome_numbers entry.outcome) }
{
    let outcome = outcome_numbers(entry.outcome);
    match entry.event {
        Event::Step(p) => EntryView {
            kind: 0,
            value: p,
            outcome,
        },
        Event::Key(byte) => EntryView {
            kind: 1,
            value: u32::from(byte),
            outcome,
        },
        Event::Done => EntryView {
            kind: 2,
            value: 0,
            outcome,
        },
    }
}

// The text of a machine's log: of its end, where entries were dropped.
fn log_of(alloc: Global, machine: &Machine) -> Result<String, AllocError>
    ensures { IfOk result (λ text. string_bytes text ≡ log_of machine.now) }
{
    machine.replay();
    let conf = machine.conf();
    let mode = Mode {
        link: conf.link,
        strict: conf.strict,
    };
    let entries = machine.copy_log(alloc)?;
    match machine.made() - machine.log_len() as u64 {
        0 => write_log(alloc, mode, &entries),
        dropped => write_tail(alloc, mode, dropped, &entries),
    }
}

impl Session {
    pub(crate) fn cop(&self, p: u32, number: u32) -> Option<u32>
        ensures { result ≡ cop_of self.now.machine p number }
    {
        let Some(machine) = &self.machine else {
            return None;
        };
        if p < machine.processors() && number < 32 {
            control_of(machine, p, number as u8)
        } else {
            None
        }
    }

    pub(crate) fn row(&self, p: u32, i: u32) -> Option<RowWords>
        ensures { result ≡ row_of self.now.machine p i }
    {
        let Some(machine) = &self.machine else {
            return None;
        };
        if p < machine.processors() && i < 64 {
            Some(words_of(machine, p, i as u8))
        } else {
            None
        }
    }

    pub(crate) fn board(&self) -> Option<Board>
        ensures { result ≡ board_of self.now.machine }
    {
        match &self.machine {
            Some(machine) => {
                let started = machine.board_word(BoardWord::Cpue);
                Some(board_with(
                    machine.is_off(),
                    machine.latch(),
                    machine.waiting(),
                    started,
                ))
            }
            None => None,
        }
    }

    pub(crate) fn search(
        &self,
        alloc: Global,
        order: &OrderNumbers,
        keys: &[u8],
        n: u64,
        count: u64,
        goal: &Goal,
    ) -> (u64, u8)
        ensures { SearchesOf self.now.machine order.now keys.now n count goal.now result.0 result.1 }
    {
        match &self.machine {
            Some(machine) => search(alloc, machine.core(), order, keys, n, count, goal),
            None => (0, NOTHING),
        }
    }

    pub(crate) fn explore(
        &mut self,
        alloc: Global,
        limit: u32,
        keys: &[u8],
        watches: &[WatchNumbers],
        never: &[u32],
        output: Option<&[u8]>,
        found: &mut Exploration,
    ) -> u8
        ensures does { ExploresAs limit (criteria_of keys.now watches.now never.now (bytes_of output.entry))
            result found.old found.new self.old self.new }
        ensures kept { self.new.exploring ≡ self.old.exploring }
    {
        let Some(machine) = &self.machine else {
            return NOTHING;
        };
        match explore(alloc, machine, limit, keys, watches, never, output) {
            Ok((what, events)) => {
                *found = what;
                self.bytes = events;
                0
            }
            Err(answer) => answer,
        }
    }

    pub(crate) fn audit(
        &self,
        alloc: Global,
        watches: &[WatchNumbers],
        judgement: &mut Judgement,
    ) -> u8
        ensures { AuditsAs self.now.machine (map watch_of watches.now) result judgement.old judgement.new }
    {
        match &self.machine {
            Some(machine) => audit(alloc, machine, watches, judgement),
            None => NOTHING,
        }
    }

    pub(crate) fn judge(
        &self,
        alloc: Global,
        file: &[u8],
        keys: &[u8],
        watches: &[WatchNumbers],
        never: &[u32],
        output: Option<&[u8]>,
        judgement: &mut Judgement,
    ) -> u8
        ensures { JudgesAs self.now.machine file.now (criteria_of keys.now watches.now never.now (bytes_of output.entry))
            result judgement.old judgement.new }
    {
        match &self.machine {
            Some(machine) => judge(
                alloc, machine, file, keys, watches, never, output, judgement,
            ),
            None => NOTHING,
        }
    }

    pub(crate) fn link(&self, p: u32) -> Option<u32>
        ensures { result ≡ link_of self.now.machine p }
    {
        let Some(machine) = &self.machine else {
            return None;
        };
        if p < machine.processors() {
            machine.link(p)
        } else {
            None
        }
    }

    pub(crate) fn conflict(&self) -> Option<ConflictView>
        ensures { result ≡ conflict_of self.now.machine }
    {
        match &self.machine {
            Some(machine) => conflict_in(machine.conflict()),
            None => None,
        }
    }

    pub(crate) fn entries(&self) -> usize
        ensures { result ≡ entries_of self.now.machine }
    {
        match &self.machine {
            Some(machine) => machine.log_len(),
            None => 0,
        }
    }

    pub(crate) fn entry(&self, i: usize) -> Option<EntryView>
        ensures { result ≡ entry_of self.now.machine i }
    {
        let Some(machine) = &self.machine else {
            return None;
        };
        if i < machine.log_len() {
            Some(entry_view(machine.log_at(i)))
        } else {
            None
        }
    }

    pub(crate) fn keep_log(&mut self, alloc: Global) -> u8
        ensures does { HoldsOf self.old.machine log_of result self.old self.new }
        ensures kept { self.new.exploring ≡ self.old.exploring }
    {
        let text = match &self.machine {
            Some(machine) => log_of(alloc, machine),
            None => return NOTHING,
        };
        match text {
            Ok(text) => {
                self.bytes = text.into_bytes();
                0
            }
            Err(_) => NO_MEMORY,
        }
    }
}
