//! What a search prints.

ghost use Rattle.std.specs.Prelude.{◌≡◌, ◌++◌, ℕ, List, codes, decimal, IfOk, OnOk, Some, string_bytes};
ghost use Rattle.m161_text.specs.Lines.{with_line_end};
ghost use Rattle.m161_text.specs.Parts.{◌␣◌};
ghost use Rattle.s161_search.specs.Texts.{clean_text, delays_text, found_text, numbers_text, seed_text, told_text, verdict_text};

use crate::audit::ShownFinding;
use m161_audit::Finding;
use m161_judge::Verdict;
use m161_machine::{Conf, Event};
use m161_reach::SearchVerdict;
use m161_steplog::write_schedule;
use m161_text::Word;
use s161_base::sizes::line_of_machine;
use s161_run::events::ShownConflict;
use std::alloc::{AllocError, Global};
use std::fmt;

// A verdict, as text.
#[derive(Drop)]
struct ShownVerdict(Verdict);

impl fmt::Display for ShownVerdict {
    ghost output = { λ verdict. Some (verdict_text verdict.0) };

    fn fmt<W: fmt::Write>(&self, f: &mut fmt::Formatter<W>) -> fmt::Result {
        match self.0 {
            Verdict::Stale {
                place,
                processor,
                address,
                row,
            } => {
                let stale = ShownFinding(Finding::Stale {
                    place,
                    processor,
                    address,
                    row,
                });
                write!(f, "{stale}")
            }
            Verdict::Reached {
                place,
                processor,
                address,
            } => {
                let address = Word(address);
                write!(f, "reached {place} {processor} {address}")
            }
            Verdict::Conflict(conflict) => {
                let shown = ShownConflict(conflict);
                write!(f, "{shown}")
            }
            Verdict::Stuck => write!(f, "stuck"),
            Verdict::Output => write!(f, "output"),
            Verdict::End => write!(f, "end"),
        }
    }
}

// How many runs are cut, as text.
#[derive(Drop)]
struct ShownCut(u64);

impl fmt::Display for ShownCut {
    ghost output = { λ cut. Some (codes "cut" ␣ decimal cut.0) };

    fn fmt<W: fmt::Write>(&self, f: &mut fmt::Formatter<W>) -> fmt::Result {
        let cut = self.0;
        write!(f, "cut {cut}")
    }
}

// Runs of which none goes wrong and some are cut, as text.
#[derive(Drop)]
struct ShownClean {
    runs: u64,
    cut: u64,
}

impl fmt::Display for ShownClean {
    ghost output = { λ clean. Some (codes "clean" ␣ decimal clean.runs ␣ codes "cut" ␣ decimal clean.cut) };

    fn fmt<W: fmt::Write>(&self, f: &mut fmt::Formatter<W>) -> fmt::Result {
        let runs = self.runs;
        let cut = ShownCut(self.cut);
        write!(f, "clean {runs} {cut}")
    }
}

// The line where no run goes wrong, and some are cut.
fn cut_line(alloc: Global, runs: u64, cut: u64) -> Result<String, AllocError>
    ensures { IfOk result (λ line. string_bytes line
        ≡ with_line_end (codes "clean" ␣ decimal runs ␣ codes "cut" ␣ decimal cut)) }
{
    let shown = ShownClean { runs, cut };
    format!(in alloc; "{shown}\n")
}

/// The line where no run goes wrong: how many there are, and how many are cut, if any.
///
/// # Errors
/// Memory was refused.
pub(crate) fn clean_line(alloc: Global, runs: u64, cut: u64) -> Result<String, AllocError>
    ensures { IfOk result (λ line. string_bytes line ≡ with_line_end (clean_text runs cut)) }
{
    if cut == 0 {
        return format!(in alloc; "clean {runs}\n");
    }
    cut_line(alloc, runs, cut)
}

/// The line of a seed.
///
/// # Errors
/// Memory was refused.
pub(crate) fn seed_line(alloc: Global, seed: u64) -> Result<String, AllocError>
    ensures { IfOk result (λ line. string_bytes line ≡ with_line_end (seed_text seed)) }
{
    format!(in alloc; "# seed {seed}\n")
}

// A number, behind a space.
fn number_word(alloc: Global, number: u32) -> Result<String, AllocError>
    ensures { IfOk result (λ word. string_bytes word ≡ codes " " ++ decimal number) }
{
    format!(in alloc; " {number}")
}

// Appends the numbers, a space before each.
fn put_numbers(alloc: Global, text: &mut String, numbers: &[u32]) -> Result<(), AllocError>
    ensures { OnOk result (string_bytes text.new ≡ string_bytes text.old ++ numbers_text numbers.now) }
{
    for number in numbers {
        let word = number_word(alloc, *number)?;
        text.push_str(word.as_str())?;
    }
    Ok(())
}

/// The line of a list of delays.
///
/// # Errors
/// Memory was refused.
pub(crate) fn delays_line(alloc: Global, numbers: &[u32]) -> Result<String, AllocError>
    ensures { IfOk result (λ line. string_bytes line ≡ with_line_end (delays_text numbers.now)) }
{
    let mut line = format!(in alloc; "# delays")?;
    put_numbers(alloc, &mut line, numbers)?;
    line.push_str("\n")?;
    Ok(line)
}

// A verdict of a search, as text.
#[derive(Drop)]
struct ShownTold(SearchVerdict);

impl fmt::Display for ShownTold {
    ghost output = { λ told. Some (told_text told.0) };

    fn fmt<W: fmt::Write>(&self, f: &mut fmt::Formatter<W>) -> fmt::Result {
        match self.0 {
            SearchVerdict::Run(verdict) => {
                let shown = ShownVerdict(verdict);
                write!(f, "{shown}")
            }
            SearchVerdict::Hung => write!(f, "hung"),
        }
    }
}

// The line of a verdict.
fn verdict_line(alloc: Global, verdict: SearchVerdict) -> Result<String, AllocError>
    ensures { IfOk result (λ line. string_bytes line ≡ with_line_end (codes "#" ␣ told_text verdict)) }
{
    let shown = ShownTold(verdict);
    format!(in alloc; "# {shown}\n")
}

/// The schedule of a run that goes wrong, of this machine, behind the machine line, the line that
/// tells the run, and that of its verdict.
///
/// # Errors
/// Memory was refused.
pub(crate) fn found_lines(
    alloc: Global,
    conf: Conf,
    line: String,
    verdict: SearchVerdict,
    events: &[Event],
) -> Result<String, AllocError>
    ensures { IfOk result (λ lines. (run : List ℕ) → string_bytes line ≡ with_line_end run
        → string_bytes lines ≡ found_text conf run verdict events.now) }
{
    let mut text = line_of_machine(alloc, conf)?;
    let verdict = verdict_line(alloc, verdict)?;
    let schedule = write_schedule(alloc, events)?;
    text.push_str(line.as_str())?;
    text.push_str(verdict.as_str())?;
    text.push_str(schedule.as_str())?;
    Ok(text)
}
