//! The order home of a machine with two devices, given up in every phase of its move.

ghost use Rattle.vfm_cases.specs.Duo.{duo};
ghost use Rattle.vfm_cases.specs.GivenUp.{given_up_before_begin, given_up_entering, given_up_copying, given_up_reading, given_up_reported, given_up_second_pass, given_up_held, given_up_quiet, given_up_one_stopped, given_up_stopped, given_up_joint, given_up_last_pass, given_up_last_ended};
ghost use Rattle.vfm_cases.specs.Three.{three, three_given_up};
ghost use Rattle.vfm_order_cases.specs.Along.{IsOrderedFrom};

/// After Abort, wherever it comes.
pub fn given_up_is_ordered()
    ensures before_begin { IsOrderedFrom duo 3 given_up_before_begin }
    ensures entering { IsOrderedFrom duo 11 given_up_entering }
    ensures copying { IsOrderedFrom duo 22 given_up_copying }
    ensures reading { IsOrderedFrom duo 30 given_up_reading }
    ensures reported { IsOrderedFrom duo 38 given_up_reported }
    ensures second_pass { IsOrderedFrom duo 44 given_up_second_pass }
    ensures held { IsOrderedFrom duo 49 given_up_held }
    ensures quiet { IsOrderedFrom duo 51 given_up_quiet }
    ensures one_stopped { IsOrderedFrom duo 54 given_up_one_stopped }
    ensures stopped { IsOrderedFrom duo 55 given_up_stopped }
    ensures joint { IsOrderedFrom duo 56 given_up_joint }
    ensures last_pass { IsOrderedFrom duo 59 given_up_last_pass }
    ensures last_ended { IsOrderedFrom duo 62 given_up_last_ended }
{}

/// Three devices, of which two are in peer-to-peer states and one is on its way there.
pub fn three_given_up_is_ordered()
    ensures { IsOrderedFrom three 22 three_given_up }
{}
