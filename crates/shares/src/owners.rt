ghost use Rattle.std.specs.Prelude.{◌≡◌, ◌<◌, ◌≤◌, ◌^◌, ◌==◌, ◌+◌, ℕ, All, length, map, filter, IfOk, true, if◌then◌else◌, ◌++◌, ◌∷◌, [], slice_index_or};
ghost use Rattle.std.specs.List.{range_with_len};
ghost use Rattle.hash_rows.specs.Limits.{most_records};
ghost use Rattle.hash_rows.specs.declared.options.Share.TheVariants.{Key};
ghost use Rattle.push_history.specs.Share.{share_of_worker, worker_of};
ghost use Rattle.shares.specs.Owners.{AreOwners};
ghost use Rattle.shares.specs.Positions.{AreRising};

use crate::positions::Positions;
use flow_base::NoMemory;
use hash_rows::{Options, Packet, Share, share_of};
use listed::Listed;
use std::alloc::Global;

/// Who owns each packet.
#[derive(Drop)]
pub enum Owners {
    /// The workers in turn.
    InTurn,
    /// The worker of each packet.
    Listed(Listed<u32>),
}

/// Who owns each packet. Only the owners by key are listed.
pub fn owners_of(alloc: Global, packets: &[Packet], options: &Options) -> Result<Owners, NoMemory>
    requires workers { 0 < options.now.workers }
    requires few { length packets.now ≤ most_records }
    ensures { IfOk result (λ owners. AreOwners options.now packets.now owners) }
{
    match options.share {
        Share::Turn => Ok(Owners::InTurn),
        Share::Key => Ok(Owners::Listed(owners_by_key(alloc, packets, options.workers)?)),
    }
}

// The worker of each packet by its key.
fn owners_by_key(alloc: Global, packets: &[Packet], workers: u32) -> Result<Listed<u32>, NoMemory>
    requires some { 0 < workers }
    requires few { length packets.now ≤ most_records }
    ensures { IfOk result (λ owners. owners.items ≡ map (worker_of Key workers packets.now) (range_with_len 0 (length packets.now))) }
{
    let count = packets.len() as u32;
    let mut owners = Listed::new(alloc, count)?;
    for position in 0..count {
        let packet = &packets[position as usize];
        owners.push(share_of(&packet.key, workers));
    }
    Ok(owners)
}

/// The positions of the worker's packets.
pub fn positions_of(
    alloc: Global,
    owners: &Owners,
    worker: u32,
    packets: &[Packet],
    options: &Options,
) -> Result<Positions, NoMemory>
    requires worker { worker < options.now.workers }
    requires workers { options.now.workers ≤ 16 }
    requires few { length packets.now ≤ most_records }
    requires owners { AreOwners options.now packets.now owners.now }
    ensures share { IfOk result (λ share. share ≡ share_of_worker options.now.share options.now.workers packets.now worker) }
    ensures rising { IfOk result (λ share. AreRising (length packets.now) share) }
{
    let workers = options.workers;
    match owners {
        Owners::InTurn => Ok(Positions::of_turn(worker, workers, packets.len() as u32)),
        Owners::Listed(list) => Ok(Positions::of_list(share_of_owner(alloc, list, worker)?)),
    }
}

/// Each amount fits in 32 bits. Only the proof needs the loop, and the compiler drops it.
pub fn amounts_fit(packets: &[Packet])
    ensures { All (λ p. p.amount < 2 ^ 32) packets.now }
{
    for packet in packets {
        amount_fits(packet);
    }
}

fn amount_fits(packet: &Packet)
    ensures { packet.now.amount < 2 ^ 32 }
{
    let _amount = packet.amount;
}

// The positions of the packets that the worker owns.
fn share_of_owner(alloc: Global, owners: &Listed<u32>, worker: u32) -> Result<Listed<u32>, NoMemory>
    ensures { IfOk result (λ share. share.items ≡ filter (λ i. slice_index_or owners.now.items i 0 == worker)
        (range_with_len 0 (length owners.now.items))) }
{
    let mut share = Listed::new(alloc, count_owned(owners, worker))?;
    for position in 0..owners.len() {
        let owner = *owners.get(position);
        add_if_owned(&mut share, owner, position, worker);
    }
    Ok(share)
}

fn add_if_owned(share: &mut Listed<u32>, owner: u32, position: u32, worker: u32)
    requires { (owner == worker) ≡ true → length share.old.items < share.old.room }
    ensures items { share.new.items ≡ (if owner == worker then share.old.items ++ position ∷ [] else share.old.items) }
    ensures room { share.new.room ≡ share.old.room }
{
    if owner == worker {
        share.push(position);
    }
}

// How many packets the worker owns.
fn count_owned(owners: &Listed<u32>, worker: u32) -> u32
    ensures { result ≡ length (filter (λ i. slice_index_or owners.now.items i 0 == worker) (range_with_len 0 (length owners.now.items))) }
{
    let mut count = 0;
    for position in 0..owners.len() {
        let owner = *owners.get(position);
        count += owned(owner, worker);
    }
    count
}

fn owned(owner: u32, worker: u32) -> u32
    ensures { result ≡ (if owner == worker then 1 else 0) }
{
    u32::from(owner == worker)
}
