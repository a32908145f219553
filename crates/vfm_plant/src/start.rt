//! A plant's start.

ghost use Rattle.std.specs.Prelude.{◌≡◌, ◌<◌, ◌≤◌, map, All, IfErr, IfOk};
ghost use Rattle.std.specs.List.{range_with_len};
ghost use Rattle.vfm_turn.specs.Words.{seats_of};
ghost use Rattle.vfm_plant.specs.Seat.{IsSeatOf, count_of, seat_number};
ghost use Rattle.vfm_plant.specs.Started.{IsPlant, started_core};

use crate::cells::{collect, spread};
use crate::rooms::{Rooms, deal, take_rooms};
use crate::{Plant, PlantSeat};
use std::alloc::Global;
use std::snapshot::Snapshot;
use vfm_core::{Core, Split};
use vfm_turn::Board;
use vfm_types::NoMemory;

impl Plant {
    /// A plant of this core, with 1 to 64 seats, in the order of their numbers. All memory that the plant and its seats ever
    /// need is taken here; where there is too little, the core comes back. So it does where its journal has 2^63 entries.
    pub fn start(
        alloc: Global,
        core: Core,
        seats: u32,
    ) -> Result<(Plant, Vec<PlantSeat>), (Core, NoMemory)>
        requires { (0 < seats) × (seats ≤ 64) }
        ensures refused { IfErr result (λ r. r.0 ≡ core) }
        ensures plant { IfOk result (λ r. IsPlant r.0) }
        ensures core { IfOk result (λ r. started_core r.0 ≡ core) }
        ensures count { IfOk result (λ r. seats_of r.0.board ≡ seats) }
        ensures seats { IfOk result (λ r. All (λ s. IsSeatOf r.0 s × (count_of s ≡ 0)) r.1.items) }
        ensures numbers { IfOk result (λ r. map seat_number r.1.items ≡ range_with_len 0 seats) }
    {
        let split = core.split();
        if split.journal.len() >= 1 << 63 {
            return Err((split.join(), NoMemory));
        }
        let devices = split.desc.devices.len() as usize;
        let count = split.desc.pages as usize + devices + 1;
        let rooms = match take_rooms(alloc, count, devices, seats as usize) {
            Ok(rooms) => rooms,
            Err(no_memory) => return Err((split.join(), no_memory)),
        };
        let Rooms {
            mut cells,
            seats: list,
            each,
        } = rooms;
        let began = Snapshot::of(&split);
        let Split {
            desc,
            journal,
            lead,
            mut devices,
            mut pages,
        } = split;
        spread(lead, &mut devices, &mut pages, &mut cells);
        match Board::start(alloc, &desc, cells, seats) {
            Ok((board, tickets)) => {
                let plant = Plant {
                    board,
                    desc,
                    journal,
                    began,
                    devices,
                    pages,
                };
                let seats = deal(&plant, tickets, each, list);
                Ok((plant, seats))
            }
            Err((cells, no_memory)) => {
                let lead = collect(&desc, cells, &mut devices, &mut pages);
                let split = Split {
                    desc,
                    journal,
                    lead,
                    devices,
                    pages,
                };
                Err((split.join(), no_memory))
            }
        }
    }
}
