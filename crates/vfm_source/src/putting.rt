//! What an entry puts into the channels before it is made.

ghost use Rattle.std.specs.Prelude.{◌≡◌, ◌<◌, OnOk, OnErr, IsTrue};
ghost use Rattle.vfm_types.specs.declared.entry.Entry.TheVariants as entries;
ghost use Rattle.vfm_types.specs.Desc.{block_count, device_count, shape_at};
ghost use Rattle.vfm_plain.specs.Legal.{is_entry_of};
ghost use Rattle.vfm_outlets.specs.Carrying.{all_failed, links_of};
ghost use Rattle.vfm_source.specs.Moving.{CarriesNext, Conveys, Course, IsConveying, then_made};

use vfm_core::Core;
use vfm_outlets::Outlets;
use vfm_outside::Link;
use vfm_record::Rec;
use vfm_types::{DeviceId, Entry, NoMemory};

// puts page p as it stands
fn put_page<L: Link>(core: &Core, outlets: &mut Outlets<L>, p: u32) -> Result<(), NoMemory>
    requires page { p < core.now.desc.pages }
    requires conveying { IsConveying L.sent core.now outlets.old }
    ensures put { (course : Course) → Conveys L.sent course core.now outlets.old
        → OnOk result (CarriesNext L.sent (then_made (entries.Copy p) course) core.now outlets.new) }
    ensures unchanged { (course : Course) → Conveys L.sent course core.now outlets.old
        → OnErr result (Conveys L.sent course core.now outlets.new) }
    ensures links { links_of outlets.new ≡ links_of outlets.old }
    ensures failed { all_failed outlets.new ≡ all_failed outlets.old }
{
    core.desc();
    let record = Rec::Page {
        p,
        bytes: core.page(p),
    };
    outlets.put(0, &record)
}

// puts block b of device d as it stands
fn put_block<L: Link>(
    core: &Core,
    outlets: &mut Outlets<L>,
    d: DeviceId,
    b: u32,
) -> Result<(), NoMemory>
    requires device { d < device_count core.now.desc }
    requires block { b < block_count (shape_at core.now.desc d) }
    requires conveying { IsConveying L.sent core.now outlets.old }
    ensures put { (course : Course) → Conveys L.sent course core.now outlets.old
        → OnOk result (CarriesNext L.sent (then_made (entries.Block d b) course) core.now outlets.new) }
    ensures unchanged { (course : Course) → Conveys L.sent course core.now outlets.old
        → OnErr result (Conveys L.sent course core.now outlets.new) }
    ensures links { links_of outlets.new ≡ links_of outlets.old }
    ensures failed { all_failed outlets.new ≡ all_failed outlets.old }
{
    core.desc();
    let record = Rec::Block {
        b,
        bytes: core.block(d, b),
    };
    outlets.put(u32::from(d.0) + 1, &record)
}

/// Puts what an entry sends, before it is made: at Copy the page, at Block the block, with the bytes as they stand. Any other
/// entry sends nothing. When memory runs out nothing is put.
pub fn put_entry<L: Link>(
    core: &Core,
    outlets: &mut Outlets<L>,
    entry: &Entry,
) -> Result<(), NoMemory>
    requires named { IsTrue (is_entry_of core.now.desc entry.now) }
    requires conveying { IsConveying L.sent core.now outlets.old }
    ensures put { (course : Course) → Conveys L.sent course core.now outlets.old
        → OnOk result (CarriesNext L.sent (then_made entry.now course) core.now outlets.new) }
    ensures unchanged { (course : Course) → Conveys L.sent course core.now outlets.old
        → OnErr result (Conveys L.sent course core.now outlets.new) }
    ensures links { links_of outlets.new ≡ links_of outlets.old }
    ensures failed { all_failed outlets.new ≡ all_failed outlets.old }
{
    match *entry {
        Entry::Copy { p } => put_page(core, outlets, p),
        Entry::Block { d, b } => put_block(core, outlets, d, b),
        _ => Ok(()),
    }
}
