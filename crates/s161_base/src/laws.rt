//! The law of the lines of faults.

ghost use Rattle.std.specs.Prelude.{IfSome};
ghost use Rattle.s161_base.specs.declared.fault.Fault.{Fault};
ghost use Rattle.s161_base.specs.Explained.{explanation_of};
ghost use Rattle.s161_base.specs.FaultLines.{detail_of, fault_head, IsPlain};

/// The law: a fault's line is one line, and has no opening bracket but that of its explanation.
pub fn faults_stay_on_a_line()
    ensures head { (fault : Fault) → IsPlain (fault_head fault) }
    ensures explanation { (fault : Fault) → IfSome (explanation_of fault) IsPlain }
    ensures detail { (fault : Fault) → IsPlain (detail_of fault) }
{}
