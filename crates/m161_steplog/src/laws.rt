//! Laws of the definitions. The functions do nothing: their contracts are the laws.

ghost use Rattle.std.specs.Prelude.{◌≡◌, ◌++◌, ◌≤◌, ℕ, List, length};
ghost use Rattle.std.specs.List.{AllByRecursion};
ghost use Rattle.m161_machine.specs.declared.event.Event.{Event};
ghost use Rattle.m161_machine.specs.declared.event.Entry.{Entry};
ghost use Rattle.m161_text.specs.Lines.{lines_of, with_line_end};
ghost use Rattle.m161_steplog.specs.declared.mode.Mode.{Mode};
ghost use Rattle.m161_steplog.specs.Text.{IsEvent};
ghost use Rattle.m161_steplog.specs.Schedule.{IsSchedule};
ghost use Rattle.m161_steplog.specs.Written.{schedule_text};
ghost use Rattle.m161_steplog.specs.Log.{log_text, IsEntryOf, IsLog};
ghost use Rattle.m161_steplog.specs.Comments.{IsLogFile};
ghost use Rattle.m161_steplog.specs.declared.machine.MachineLine.{MachineLine};
ghost use Rattle.m161_steplog.specs.declared.size.MachineSize.{MachineSize};
ghost use Rattle.m161_steplog.specs.Size.{IsMachineSize, size_text};
ghost use Rattle.m161_steplog.specs.Machine.{machine_text, first_line, IsMachineLine};

/// The law of written schedules: the text of at most 16,777,216 events whose numbers fit their
/// types is the text of a schedule with these events, and so `read_schedule` gives them back.
pub fn written_schedule_is_read()
    ensures { (es : List Event) → AllByRecursion IsEvent es → length es ≤ 16_777_216
        → IsSchedule (lines_of (schedule_text es)) es }
{}

/// The law of written logs: the text of entries whose numbers fit their types, and whose outcomes
/// are those of their events and fit the mode, is the text of a log with this mode and these
/// entries, and so `read_log` gives them back.
pub fn written_log_is_read()
    ensures { (mode : Mode) (es : List Entry) → AllByRecursion (IsEntryOf mode) es
        → IsLogFile (log_text mode es) mode es }
{}

/// The law of a log's text without comments: `read_log` reads it.
pub fn log_without_comments()
    ensures { (text : List ℕ) (mode : Mode) (es : List Entry) → IsLog text mode es
        → IsLogFile text mode es }
{}

/// The law of a text behind a machine line: `read_machine` reads that line, and `read_log` the text,
/// if it is a log's.
pub fn log_behind_machine_line()
    ensures machine { (m : MachineLine) (text : List ℕ) → IsMachineLine m
        → first_line (with_line_end (machine_text m) ++ text) ≡ machine_text m }
    ensures log { (m : MachineLine) (text : List ℕ) (mode : Mode) (es : List Entry) → IsMachineLine m
        → IsLog text mode es → IsLogFile (with_line_end (machine_text m) ++ text) mode es }
{}

/// The law of a schedule's text behind a machine line: `read_size` reads that line, and
/// `read_schedule` the events of the text.
pub fn schedule_behind_size_line()
    ensures size { (m : MachineSize) (text : List ℕ) → IsMachineSize m
        → first_line (with_line_end (size_text m) ++ text) ≡ size_text m }
    ensures schedule { (m : MachineSize) (text : List ℕ) (es : List Event) → IsMachineSize m
        → IsSchedule (lines_of text) es
        → IsSchedule (lines_of (with_line_end (size_text m) ++ text)) es }
{}
