// The RX status of a frame that is stored (paper 01, An arriving frame, "RX status").
ghost use Rattle.std.specs.Prelude.{◌≡◌, ◌+◌, ◌*◌, ◌^◌, ◌≤◌, not, length, slice_index, take};
ghost use Rattle.paper.specs.Filter.{passes};
ghost use Rattle.paper.specs.Status.{wrong_length, longest, status};
ghost use Rattle.receive.specs.Judging.{seen, Sized};
ghost use Rattle.receive.specs.Marks.{kind_of, marks_of};

use crate::Wire;
use paper::Registers;
use words::fields::bit_is_set;
use words::status::{Marks, rx_status};

// What the destination says of a frame: the filter said no; broadcast; group and no broadcast.
#[derive(Clone, Copy)]
pub struct Kind {
    pub miss: bool,
    pub broadcast: bool,
    pub group: bool,
}

// V, the length or type: the number in the first two bytes of the frame's part from offset 12 on, high byte first.
fn length_or_type(part: &[u8]) -> u32
    requires { 2 ≤ length part.now }
    ensures { result ≡ slice_index part.now 0 * 2 ^ 8 + slice_index part.now 1 }
{
    u32::from(u16::from_be_bytes([part[0], part[1]]))
}

// 01: "12: V is at most 1,500 and either V + 18 > L, or L > 64 and V + 18 is not L (ours)."
fn wrong_length(v: u32, len: u32) -> bool
    ensures { result ≡ wrong_length v len }
{
    if 1500 < v {
        return false;
    }
    let full = v + 18;
    (len < full) | ((64 < len) & (full != len))
}

// What the destination says.
fn kind_of(r: Registers, frame: &[u8]) -> Kind
    ensures { result ≡ kind_of r (take 14 frame.now) }
{
    let broadcast = filter::is_broadcast(frame);
    Kind {
        miss: !filter::passes(r, frame),
        broadcast,
        group: filter::is_group(frame) & !broadcast,
    }
}

// The marks of a frame of len bytes.
fn marks(k: Kind, v: u32, len: u32, flags: u32, badfcs: bool) -> Marks
    ensures { result ≡ marks_of k v len flags badfcs }
{
    Marks {
        miss: k.miss,
        broadcast: k.broadcast,
        wronglength: wrong_length(v, len),
        runt: len < 64,
        group: k.group,
        long: 1518 < len,
        collision: bit_is_set(6, flags),
        typed: 1500 < v,
        mii: bit_is_set(3, flags),
        dribble: bit_is_set(2, flags),
        badfcs,
    }
}

// The RX status of a frame.
#[tactic(auto, unfolding(paper::specs::Status::status, words::specs::Status::status_of), using(crate::proofs::TypePart::type_part))]
pub fn status_of(r: Registers, w: Wire) -> u32
    requires { Sized (length w.frame.now) }
    ensures { result ≡ status longest (not (passes r (seen w.entry).head)) (seen w.entry) }
{
    // by `as`: a usize has no From to u32, and try_from would have a case that cannot be
    let len = w.frame.len() as u32;
    let v = length_or_type(&w.frame[12..]);
    let fits = checksum::fcs_fits(w.frame);
    let m = marks(kind_of(r, w.frame), v, len, w.flags, !fits);
    rx_status(len, m)
}
