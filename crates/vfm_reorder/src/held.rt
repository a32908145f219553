//! Packets that wait for one before them, by their indexes.

ghost use Rattle.std.specs.Prelude.{◌≡◌, ◌<◌, ℕ, None, Some, IfSome, IfNone, IsTrue, true, false, if◌then◌else◌, nat_lt, ◌==◌, is_some, OnOk, OnErr};
ghost use Rattle.std.specs.Ordering.{nat_cmp};
ghost use Rattle.std.specs.BTreeMap.{get, btree_map_len};
ghost use Rattle.vfm_reorder.specs.Waiting.{is_config_held};

use std::collections::BTreeMap;
use vfm_mesh::Payload;
use vfm_types::NoMemory;

/// What is kept of a packet beside its index.
#[derive(Debug, Drop)]
pub struct Held {
    /// Whether it is a config packet.
    pub config: bool,
    pub payload: Payload,
}

/// The least index of these packets, if there are any.
pub fn first_index(held: &BTreeMap<u32, Held>) -> Option<u32>
    ensures some { IfSome result (λ k. (is_some (get nat_cmp held.now k) ≡ true) × ((i : ℕ) → i < k → get nat_cmp held.now i ≡ None)) }
    ensures none { IfNone result ((i : ℕ) → get nat_cmp held.now i ≡ None) }
{
    match held.first_key_value() {
        Some((index, _)) => Some(*index),
        None => None,
    }
}

/// Puts a packet in.
pub fn insert(held: &mut BTreeMap<u32, Held>, index: u32, packet: Held) -> Result<(), NoMemory>
    ensures put { OnOk result ((i : ℕ) → get nat_cmp held.new i ≡ (if index == i then Some packet else get nat_cmp held.old i)) }
    ensures unchanged { OnErr result ((i : ℕ) → get nat_cmp held.new i ≡ get nat_cmp held.old i) }
{
    match held.insert(index, packet) {
        Ok(_) => Ok(()),
        Err(_) => Err(NoMemory),
    }
}

/// Takes the packet with this index out.
pub fn remove(held: &mut BTreeMap<u32, Held>, index: u32) -> Option<Held>
    ensures value { result ≡ get nat_cmp held.old index }
    ensures left { (i : ℕ) → get nat_cmp held.new i ≡ (if index == i then None else get nat_cmp held.old i) }
{
    held.remove(&index)
}

// Takes the packet with the least index out.
fn pop_first(held: &mut BTreeMap<u32, Held>) -> Option<(u32, Held)>
    ensures value { IfSome result (λ first. get nat_cmp held.old first.0 ≡ Some first.1) }
    ensures left { IfSome result (λ first. (i : ℕ) → get nat_cmp held.new i ≡ (if first.0 == i then None else get nat_cmp held.old i)) }
    ensures least { IfSome result (λ first. (i : ℕ) → i < first.0 → get nat_cmp held.old i ≡ None) }
    ensures none { IfNone result ((i : ℕ) → get nat_cmp held.old i ≡ None) }
    ensures fewer { IfSome result (λ _. btree_map_len held.new < btree_map_len held.old) }
{
    held.pop_first()
}

/// Takes the packets out in order, up to the first config packet, and says what index that one has. Where there is none,
/// all are taken.
pub fn take_config(held: &mut BTreeMap<u32, Held>) -> Option<u32>
    ensures config { IfSome result (λ k. is_config_held (get nat_cmp held.old k) ≡ true) }
    ensures first { IfSome result (λ k. (i : ℕ) → i < k → is_config_held (get nat_cmp held.old i) ≡ false) }
    ensures left { IfSome result (λ k. (i : ℕ) → get nat_cmp held.new i ≡ (if nat_lt k i then get nat_cmp held.old i else None)) }
    ensures none { IfNone result ((i : ℕ) → is_config_held (get nat_cmp held.old i) ≡ false) }
{
    while let Some((index, packet)) = pop_first(held) {
        if packet.config {
            return Some(index);
        }
    }
    None
}
