//! Laws of the definitions. The functions do nothing: their contracts are the laws.

ghost use Rattle.std.specs.Prelude.{ℕ, List, Option};
ghost use Rattle.s161_command.specs.declared.task.ScheduleTask.{ScheduleTask};
ghost use Rattle.s161_run.specs.Schedules.{IsScheduled, RunsAsDriven};

/// The law of `run` over what `schedule` printed: of the text's events, `run` makes those that the
/// policy chose, all of them, with the entries of the driven run, up to the state in which that ended.
pub fn schedule_runs_as_driven()
    ensures { (task : ScheduleTask) (files : List ℕ → Option (List ℕ)) (known : Option (List ℕ))
        (text : List ℕ) (scheduled : IsScheduled task files known text)
        → RunsAsDriven scheduled.booted scheduled.events scheduled.chose.entries
        scheduled.chose.state }
{}
