//! What the bytes that came decide. Each law is a function without a body whose contract states it.

ghost use Rattle.std.specs.Prelude.{ℕ, List, Result};
ghost use Rattle.vfm_types.specs.declared.desc.Desc.{Desc};
ghost use Rattle.vfm_dest.specs.StagedCores.{StagedState};
ghost use Rattle.vfm_dest.specs.declared.judging.StageFault.{StageFault};
ghost use Rattle.vfm_dest.specs.Staging.{AllTell, AreWhole, HaveBrought, IsStagedOrShort, IsVerdictOn, Judges, Links, NamesFailed, NoneFailed};

/// Where every link tells what comes, the answer is the verdict on the bytes that came in the call, want of memory aside.
pub fn brought_bytes_decide()
    ensures { (D : Desc) (links : Links) (came : List (List ℕ)) (result : Result StagedState StageFault)
        → Judges D links result → AllTell links → HaveBrought links came → IsVerdictOn D came result }
{}

/// Where no link failed, and the bytes that came load a machine, it is staged, want of memory aside.
pub fn whole_machines_are_staged()
    ensures { (D : Desc) (links : Links) (came : List (List ℕ)) (result : Result StagedState StageFault)
        → Judges D links result → NamesFailed links result → AllTell links → HaveBrought links came → NoneFailed links
        → AreWhole D came → IsStagedOrShort result }
{}
