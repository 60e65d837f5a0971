// What the transmit port holds, in its range (01: "an A and first B held are ones the port accepts, sizes so far at most p, payload words left from 1 to
// what that A asks").
ghost use Rattle.std.specs.Prelude.{◌≡◌};
ghost use Rattle.paper.specs.Refusals.{a_in_range, known_in_range, packet_in_range, awaits_b, is_known, expect_in_range};

use paper::{Expect, Packet};
use words::fields;

// A first B held, with the sizes so far.
fn known_in_range(b: u32, sizes: u32) -> bool
    ensures { result ≡ known_in_range b sizes }
{
    fields::good_length(b) & (sizes <= fields::packet_length(b))
}

// An open packet's first B and sizes; a packet with no B yet holds nothing to judge.
fn packet_in_range(p: Packet) -> bool
    ensures { result ≡ packet_in_range p }
{
    match p {
        Packet::Closed | Packet::Opened => true,
        Packet::Known { b, sizes } => known_in_range(b, sizes),
    }
}

// The packet is open, with its first B to come.
fn awaits_b(p: Packet) -> bool
    ensures { result ≡ awaits_b p }
{
    matches!(p, Packet::Opened)
}

// The packet's first B is known.
fn is_known(p: Packet) -> bool
    ensures { result ≡ is_known p }
{
    matches!(p, Packet::Known { .. })
}

// The A of a buffer whose B is to come: the first of its packet, or a later one.
fn a_in_range(p: Packet, a: u32) -> bool
    ensures { result ≡ a_in_range p a }
{
    match p {
        Packet::Closed => false,
        Packet::Opened => fields::good_a(false, a),
        Packet::Known { .. } => fields::good_a(true, a),
    }
}

// A buffer whose payload is counted: its A, the words left, its packet.
#[tactic(auto, unfolding(paper::specs::Refusals::expect_in_range))]
fn payload_in_range(a: u32, left: u32, packet: Packet) -> bool
    ensures { result ≡ expect_in_range (Expect.Payload a left packet) }
{
    let open = is_known(packet) & packet_in_range(packet);
    let good = fields::good_a(!fields::is_first(a), a);
    open & good & (1..=fields::host_words(a)).contains(&left)
}

// What the port expects next is in its range.
#[tactic(auto, unfolding(paper::specs::Refusals::expect_in_range))]
pub fn expect_in_range(e: Expect) -> bool
    ensures { result ≡ expect_in_range e }
{
    match e {
        Expect::CommandA(packet) => packet_in_range(packet) & !awaits_b(packet),
        Expect::CommandB { a, packet } => a_in_range(packet, a) & packet_in_range(packet),
        Expect::Payload { a, left, packet } => payload_in_range(a, left, packet),
    }
}
