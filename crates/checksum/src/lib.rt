// The checksum of IEEE 802.3 over bytes: the FCS, "the FCS fits", and the hash (01, An arriving frame). Each is proved equal to its
// bitwise definition in specs/Checksum of `paper`. Eight bytes a turn, by a table of 1 KB; it is a static, which lies on no function's
// stack, and only `register_of` names it.
#![tactic(auto)]

mod rows;

ghost use Rattle.std.specs.Prelude.{◌≡◌, reverse, ◌+◌, ◌*◌, ◌<◌, ◌%◌};
ghost use Rattle.paper.specs.Checksum.{bits_of, number_of, crc32, fcs, fcs_fits, hash};
ghost use Rattle.checksum.specs.Register.{steps, run, reflected};
ghost use Rattle.checksum.specs.Table.{nibbles};

// The table `nibbles` of specs/Table, lent, and the steps of the register that are read from it.
#[derive(Clone, Copy)]
struct Table<'a> {
    entries: &'a [u32; 256],
    ghost is: { entries.now ≡ nibbles reflected },
}

impl Table<'_> {
    // The four low bits of x, stepped out with e times four bits behind them: an entry of row e.
    #[tactic(auto, using(crate::proofs::Entries::nibbles_at))]
    fn look(self, e: usize, x: u32) -> u32
        requires { e < 16 }
        ensures { result ≡ steps reflected ((e + 1) * 4) (x % 16) }
    {
        self.entries[e * 16 + (x % 16) as usize]
    }

    // The eight low bits of x, stepped out with e times four bits behind them.
    #[tactic(auto, using(crate::proofs::Entries::two_nibbles))]
    fn pair(self, e: usize, x: u32) -> u32
        requires { e < 15 }
        ensures { result ≡ steps reflected ((e + 2) * 4) (x % 256) }
    {
        self.look(e + 1, x) ^ self.look(e, x >> 4)
    }

    // The register x, eight bits on.
    #[tactic(auto, using(crate::proofs::Entries::one_byte))]
    fn byte(self, x: u32) -> u32
        ensures { result ≡ steps reflected 8 x }
    {
        self.pair(0, x) ^ (x >> 8)
    }

    // The register x, 32 bits and e times four bits on.
    #[tactic(auto, using(crate::proofs::Entries::four_bytes))]
    fn word(self, e: usize, x: u32) -> u32
        requires { e < 9 }
        ensures { result ≡ steps reflected ((e + 8) * 4) x }
    {
        self.pair(e + 6, x)
            ^ self.pair(e + 4, x >> 8)
            ^ self.pair(e + 2, x >> 16)
            ^ self.pair(e, x >> 24)
    }

    // A turn: the register r after eight bytes. Only the first four wait for r.
    #[tactic(auto, using(crate::proofs::Bytes::run_turn))]
    fn turn(self, r: u32, eight: &[u8; 8]) -> u32
        ensures { result ≡ run reflected r eight.now }
    {
        let [a, b, c, d, e, f, g, h] = *eight;
        self.word(8, u32::from_le_bytes([a, b, c, d]) ^ r)
            ^ self.word(0, u32::from_le_bytes([e, f, g, h]))
    }

    // The register after the bytes of s, from any start: eight bytes a turn, then the rest.
    #[tactic(auto, using(crate::proofs::Bytes::run_more, std::proofs::lemmas::List::Sums::fold_more), unfolding(crate::specs::Register::run))]
    fn update(self, start: u32, s: &[u8]) -> u32
        ensures { result ≡ run reflected start s.now }
    {
        let (turns, rest) = s.as_chunks::<8>();
        let mut r = start;
        for eight in turns {
            r = self.turn(r, eight);
        }
        for b in rest {
            r = self.byte(r ^ u32::from(*b));
        }
        r
    }
}

// The register of 802.3 after the bytes of s, x^31 in the lowest bit.
#[tactic(auto, using(crate::proofs::Register::crc32_run), unfolding(crate::specs::Table::nibbles, crate::specs::Table::entry, crate::specs::Register::steps, crate::specs::Register::step, paper::specs::Words::series))]
fn register_of(s: &[u8]) -> u32
    ensures { result ≡ number_of (crc32 s.now) }
{
    let table = Table {
        entries: &rows::NIBBLES,
    };
    table.update(u32::MAX, s)
}

// The FCS of s, its first byte on the wire lowest.
#[tactic(auto, using(crate::proofs::Register::fcs_register))]
pub fn fcs_of(s: &[u8]) -> u32
    ensures { result ≡ fcs s.now }
{
    !register_of(s)
}

// The last four bytes of s are the FCS of those before; fewer than four bytes never fit.
// 01: "the FCS does not fit the bytes before it (ours)".
#[tactic(auto, using(crate::proofs::Bytes::word_of_last), unfolding(paper::specs::Checksum::fcs_fits))]
pub fn fcs_fits(s: &[u8]) -> bool
    ensures { result ≡ fcs_fits s.now }
{
    match s.split_last_chunk() {
        Some((front, last)) => u32::from_le_bytes(*last) == fcs_of(front),
        None => false,
    }
}

// The six low bits of x, turned round.
#[tactic(auto, using(crate::proofs::Numbers::number_of_six))]
fn turned(x: u32) -> u32
    ensures { result ≡ number_of (reverse (bits_of 6 x)) }
{
    x.reverse_bits() >> 26
}

// The hash of s, 0 to 63: the register's top six bits, x^31 the highest.
// 01: "of the register's top six bits, x^31 down, the highest chooses HASHH (1) or HASHL (0)".
#[tactic(auto, using(crate::proofs::Register::hash_register))]
pub fn hash_of(s: &[u8]) -> u32
    ensures { result ≡ hash s.now }
{
    turned(register_of(s))
}
