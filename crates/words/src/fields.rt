// The fields of command words, what they ask of a buffer, and words of which only some bits may be set (01, Words for transmission and Registers).
// Each bit and field has its function, by the paper's name, over bit_is_set and bits.
ghost use Rattle.std.specs.Prelude.{if◌then◌else◌, ◌≡◌, ◌≤◌, ◌<◌};
ghost use Rattle.paper.specs.Words.{digit, bit, bits, only_bits};
ghost use Rattle.paper.specs.Registers.{carried, setting_number};
ghost use Rattle.paper.specs.Arrivals.{good_flags};
ghost use Rattle.paper.specs.Sending.{good_outcome};
ghost use Rattle.paper.specs.Transmission.{
  alignment_field,
  alignment,
  offset,
  buffer_size,
  is_first,
  is_last,
  tag,
  no_crc,
  no_padding,
  packet_length,
  host_words,
  front_words,
  stored_words,
  is_stored,
  good_a,
  good_length,
  repeats,
  sizes_agree,
};
ghost use Rattle.words.specs.Masks.{bits_below};

// Bit i of v, as 0 or 1. That i is below 32 is asked where a bit is named: a type for its number would be built from a constant at every call.
fn digit(i: u32, v: u32) -> u32
    requires { i < 32 }
    ensures { result ≡ digit i v }
{
    v >> i & 1
}

// Bit i of v is set.
pub fn bit_is_set(i: u32, v: u32) -> bool
    requires { i < 32 }
    ensures { result ≡ bit i v }
{
    digit(i, v) == 1
}

// The number in bits high to low of v.
fn bits(high: u32, low: u32, v: u32) -> u32
    requires { (low ≤ high) × (high < 32) }
    ensures { result ≡ bits high low v }
{
    v >> low & u32::MAX >> (31 - (high - low))
}

// The end alignment of an A, as written: 0 to 3 (01: "25-24 end alignment").
pub fn alignment_field(a: u32) -> u32
    ensures { result ≡ alignment_field a }
{
    bits(25, 24, a)
}

// The end alignment of an A in bytes (01: "0, 1, 2 mean 4, 16, 32 bytes"); for field 3, which good_a shuts out, 32.
pub fn alignment(a: u32) -> u32
    ensures { result ≡ alignment a }
{
    match alignment_field(a) {
        0 => 4,
        1 => 16,
        _ => 32,
    }
}

// The start offset o of an A (01: "20-16 start offset o").
pub fn offset(a: u32) -> u32
    ensures { result ≡ offset a }
{
    bits(20, 16, a)
}

// The size s of an A's buffer (01: "10-0 size s").
pub fn buffer_size(a: u32) -> u32
    ensures { result ≡ buffer_size a }
{
    bits(10, 0, a)
}

// An A's buffer is its packet's first (01: "13 first").
pub fn is_first(a: u32) -> bool
    ensures { result ≡ is_first a }
{
    bit_is_set(13, a)
}

// An A's buffer is its packet's last (01: "12 last").
pub fn is_last(a: u32) -> bool
    ensures { result ≡ is_last a }
{
    bit_is_set(12, a)
}

// The tag of a B (01: "31-16 tag").
pub fn tag(b: u32) -> u32
    ensures { result ≡ tag b }
{
    bits(31, 16, b)
}

// A first B asks for no FCS (01: "13 no CRC").
pub fn no_crc(b: u32) -> bool
    ensures { result ≡ no_crc b }
{
    bit_is_set(13, b)
}

// A first B asks for no padding (01: "12 no padding").
pub fn no_padding(b: u32) -> bool
    ensures { result ≡ no_padding b }
{
    bit_is_set(12, b)
}

// The packet length p of a B (01: "10-0 packet length p").
pub fn packet_length(b: u32) -> u32
    ensures { result ≡ packet_length b }
{
    bits(10, 0, b)
}

// The payload words that the host writes for an A (01: "(o + s) rounded up to the alignment, over 4").
#[tactic(auto, unfolding(paper::specs::Transmission::host_words))]
pub fn host_words(a: u32) -> u32
    ensures { result ≡ host_words a }
{
    let o = offset(a);
    let s = buffer_size(a);
    let k = alignment(a);
    (o + s).next_multiple_of(k) / 4
}

// The payload words thrown away in front (01: "the first o/4 (rounded down) words").
pub fn front_words(a: u32) -> u32
    ensures { result ≡ front_words a }
{
    offset(a) / 4
}

// The payload words stored (01: "((o mod 4) + s)/4 rounded up").
pub fn stored_words(a: u32) -> u32
    ensures { result ≡ stored_words a }
{
    let o = offset(a);
    let s = buffer_size(a);
    (o % 4 + s).div_ceil(4)
}

// Payload word i of an A's buffer, counting from 0, is stored (01: "the rest are thrown away and need no room").
pub fn is_stored(a: u32, i: u32) -> bool
    ensures { result ≡ is_stored a i }
{
    let front = front_words(a);
    let stored = stored_words(a);
    (front..front + stored).contains(&i)
}

// An A is not bad, with a packet opened or not (01: "3 bad", "0 bad", "First is bad with a packet open, and missing First is bad with none open").
#[tactic(auto, unfolding(paper::specs::Transmission::good_a))]
pub fn good_a(opened: bool, a: u32) -> bool
    ensures { result ≡ good_a opened a }
{
    alignment_field(a) != 3 && buffer_size(a) != 0 && is_first(a) != opened
}

// The longest p of a first B: the frame without its FCS, or with it where bit 13 says so (01: "1,514, or to 1,518 with bit 13 set").
fn longest_packet(b: u32) -> u32
    ensures { result ≡ (if no_crc b then 1518 else 1514) }
{
    if no_crc(b) { 1518 } else { 1514 }
}

// The p of a first B is in its range (01: "1 to 1,514, or to 1,518 with bit 13 set").
#[tactic(auto, unfolding(paper::specs::Transmission::good_length))]
pub fn good_length(b: u32) -> bool
    ensures { result ≡ good_length b }
{
    (1..=longest_packet(b)).contains(&packet_length(b))
}

// A later B repeats those of the first, b (01: "Later B words repeat tag and p.").
#[tactic(auto, unfolding(paper::specs::Transmission::repeats))]
pub fn repeats(b: u32, later: u32) -> bool
    ensures { result ≡ repeats b later }
{
    tag(later) == tag(b) && packet_length(later) == packet_length(b)
}

// The buffer of a keeps to the p of b after sizes bytes, and reaches it at Last (01: "Sizes so far must not pass p, and equal p at Last").
#[tactic(auto, unfolding(paper::specs::Transmission::sizes_agree))]
pub fn sizes_agree(a: u32, b: u32, sizes: u32) -> bool
    requires { sizes ≤ 4096 }
    ensures { result ≡ sizes_agree a b sizes }
{
    let sum = sizes + buffer_size(a);
    let p = packet_length(b);
    if is_last(a) { sum == p } else { sum <= p }
}

// good_flags, good_outcome and only_carried are each a test by the paper's name, over has_only; each has a mask of its own.

// Bits 6, 3 and 2: collision seen, MII error, dribble.
const FLAGS: u32 = 0x4C;

// Bits 11 to 8, 6 to 2, and 0.
const OUTCOME: u32 = 0xF7D;

// Bits 31, 20 to 15, 13, 11, 3 and 2.
const CARRIED: u32 = 0x801F_A80C;

// No bit of v is set but those of mask.
#[tactic(auto, using(crate::proofs::Masks::mask_only))]
fn has_only(mask: u32, v: u32) -> bool
    ensures { result ≡ only_bits (bits_below 32 mask) v }
{
    v == v & mask
}

// The flags of an arriving frame are good (01: "only bits 6 (collision seen), 3 (MII error) and 2 (dribble) may be set").
#[tactic(auto, unfolding(crate::specs::Masks::bits_below))]
pub fn good_flags(flags: u32) -> bool
    ensures { result ≡ good_flags flags }
{
    has_only(FLAGS, flags)
}

// The outcome of a sending has no other bit set (01: "an outcome (bits 11, 10, 9, 8, 6-3, 2, 0 of the status)").
#[tactic(auto, unfolding(crate::specs::Masks::bits_below))]
pub fn good_outcome(o: u32) -> bool
    ensures { result ≡ good_outcome o }
{
    has_only(OUTCOME, o)
}

// A value for MAC_CR has carried bits only (01: "Any other bit set is a bad value").
#[tactic(auto, unfolding(crate::specs::Masks::bits_below))]
pub fn only_carried(v: u32) -> bool
    ensures { result ≡ only_bits carried v }
{
    has_only(CARRIED, v)
}

// The number of a MAC_CR's setting, 0 to 31 (01: "by (MCPAS, PRMS, INVFILT, HO, HPFILT)"): MCPAS, PRMS and INVFILT are bits 19 to 17, HO is 15, HPFILT 13.
pub fn setting_number(maccr: u32) -> u32
    ensures { result ≡ setting_number maccr }
{
    let hash = digit(15, maccr) << 1 | digit(13, maccr);
    bits(19, 17, maccr) << 2 | hash
}
