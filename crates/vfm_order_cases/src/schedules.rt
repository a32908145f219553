//! The order along journals of machines whose devices work while they are moved. The journals were made by a program that
//! keeps states, counters and marks, written from the lines of the order by itself.

ghost use Rattle.vfm_cases.specs.Solo.{solo, solo_ordered, solo_scattered};
ghost use Rattle.vfm_cases.specs.Mono.{mono, mono_ordered, mono_scattered};
ghost use Rattle.vfm_cases.specs.Duo.{duo, duo_ordered, duo_scattered};
ghost use Rattle.vfm_cases.specs.Three.{three, three_ordered, three_scattered};
ghost use Rattle.vfm_cases.specs.DuoFailing.{duo_failing, duo_failing_run};
ghost use Rattle.vfm_cases.specs.ThreeFailing.{three_failing, three_failing_run};
ghost use Rattle.vfm_order_cases.specs.Along.{IsOrdered};

/// One device, which has PRE_COPY and no peer-to-peer states.
pub fn solo_runs_are_ordered()
    ensures ordered { IsOrdered solo solo_ordered }
    ensures scattered { IsOrdered solo solo_scattered }
{}

/// One device, which has the peer-to-peer states and no PRE_COPY.
pub fn mono_runs_are_ordered()
    ensures ordered { IsOrdered mono mono_ordered }
    ensures scattered { IsOrdered mono mono_scattered }
{}

/// Two devices that write into each other and ring a doorbell.
pub fn duo_runs_are_ordered()
    ensures ordered { IsOrdered duo duo_ordered }
    ensures scattered { IsOrdered duo duo_scattered }
{}

/// Three devices, one of which lacks PRE_COPY and cannot tell peer-to-peer DMA from other DMA.
pub fn three_runs_are_ordered()
    ensures ordered { IsOrdered three three_ordered }
    ensures scattered { IsOrdered three three_scattered }
{}

/// Two devices, the second of which fails its third arc.
pub fn duo_failing_is_ordered()
    ensures { IsOrdered duo_failing duo_failing_run }
{}

/// Three devices, the first of which fails to enter PRE_COPY.
pub fn three_failing_is_ordered()
    ensures { IsOrdered three_failing three_failing_run }
{}
