//! What an intake gives is what a core is staged from.

ghost use Rattle.std.specs.Prelude.{◌≡◌, List};
ghost use Rattle.vfm_types.specs.declared.desc.Desc.{Desc};
ghost use Rattle.vfm_plain.specs.declared.part.Part.{Part};
ghost use Rattle.vfm_intake.specs.Parts.{AreParts, machine_in};
ghost use Rattle.vfm_core.specs.Loaded.{AreLoaded, loaded};

/// The parts of a machine that came out of an intake are those that a core may be staged from, and their machine is the same.
pub fn parts_are_loaded()
    ensures machine { (parts : List Part) → machine_in parts ≡ loaded parts }
    ensures parts { (D : Desc) (parts : List Part) → AreParts D parts → AreLoaded D parts }
{}
