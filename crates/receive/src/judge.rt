// The judging of an arriving frame: the seven lines in their order (paper 01, An arriving frame). Nothing is written here.
ghost use Rattle.std.specs.Prelude.{◌≡◌, not, ◌&&◌, take};
ghost use Rattle.paper.specs.Words.{bit};
ghost use Rattle.paper.specs.Registers.{RXALL};
ghost use Rattle.paper.specs.Filter.{passes};
ghost use Rattle.paper.specs.Arrivals.{refuses_length, discards, room};
ghost use Rattle.receive.specs.Judging.{seen, free, judged, verdict_of};

use crate::Wire;
use entry::Sound;
use paper::{Arrival, Fifo, Refusal, Registers, Room};
use words::fields::{bit_is_set, good_flags};

// 01, line 1: "L is 0 or above 2,048".
fn refuses_length(len: usize) -> bool
    ensures { result ≡ refuses_length len }
{
    (len == 0) | (2048 < len)
}

// 01, line 4: "L below 14 (ours); or, with PASSBAD clear, L below 64 or collision seen"
fn discards(r: Registers, w: Wire) -> bool
    ensures { result ≡ discards r (seen w.entry) }
{
    let passbad = bit_is_set(Registers::PASSBAD, r.maccr);
    (w.frame.len() < 14) | (!passbad & ((w.frame.len() < 64) | bit_is_set(6, w.flags)))
}

// 01, line 5: "Filter says no and RXALL is clear".
fn filters(r: Registers, frame: &[u8]) -> bool
    ensures { result ≡ (not (passes r (take 14 frame.now)) && not (bit RXALL r.maccr)) }
{
    !filter::passes(r, frame) & !bit_is_set(Registers::RXALL, r.maccr)
}

// 01, line 6: a frame of len bytes finds its data words and one status free, or not.
#[tactic(auto, unfolding(paper::specs::Arrivals::room))]
fn has_room(len: usize, words: u32, statuses: u32) -> Room
    ensures { result ≡ room len words statuses }
{
    if (words as usize) < len.div_ceil(4) || statuses == 0 {
        Room::Short
    } else {
        Room::Fits
    }
}

// The words that are free in a FIFO.
#[tactic(auto, using(entry::proofs::Parts::in_ring))]
fn free(x: Sound, f: Fifo) -> u32
    ensures { result ≡ free f x.state }
{
    x.part(f).size - x.state.ring(f).count
}

// Lines 4 to 7, with so many data words and statuses free.
fn judge(r: Registers, words: u32, statuses: u32, w: Wire) -> Arrival
    ensures { result ≡ judged r words statuses (seen w.entry) }
{
    if discards(r, w) {
        return Arrival::Discarded;
    }
    if filters(r, w.frame) {
        return Arrival::Filtered;
    }
    match has_room(w.frame.len(), words, statuses) {
        Room::Short => Arrival::Dropped,
        Room::Fits => Arrival::Stored,
    }
}

// The first line that applies (01: "The first line that applies answers").
#[tactic(auto, unfolding(paper::specs::Arrivals::arrival))]
pub fn verdict(x: Sound, w: Wire) -> Result<Arrival, Refusal>
    ensures { result ≡ verdict_of x.state (seen w.entry) }
{
    if refuses_length(w.frame.len()) {
        return Err(Refusal::ArrivingLength);
    }
    if !good_flags(w.flags) {
        return Err(Refusal::OtherBits);
    }
    let r = x.state.control.registers;
    if !bit_is_set(Registers::RXEN, r.maccr) {
        return Ok(Arrival::Ignored);
    }
    Ok(judge(r, free(x, Fifo::RxData), free(x, Fifo::RxStatus), w))
}
