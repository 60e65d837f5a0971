// One FIFO in the lent memory, as a ring: its part of the memory, and of that the place of the oldest word and how many words wait. Paper 01, Memory.
// A ring goes in by value, and the ring after the change comes back.
//   split     the parts of the four FIFOs, for TX_FIF_SZ
#![tactic(auto)]

ghost use Rattle.std.specs.Prelude.{◌≡◌, [], ◌∷◌, ◌+◌, ◌<◌, ◌≤◌, length, get_or};
ghost use Rattle.paper.specs.Memory.{place, puts, takes, ring_after};
ghost use Rattle.paper.specs.Arrivals.{words_for, data_words};
ghost use Rattle.rings.specs.Rings.{Placed, InReach, HasRoom, Waits, Changed};

use paper::Ring;

pub mod split;

// A part of the lent memory that is a FIFO's: its first word, and its words. Numbers up to 4,096 keep sums within 32 bits; that the part lies in the memory is
// asked where the memory is lent. A ring lies in the state by value, without its part, which follows from the split: so the two are not one struct.
#[derive(Clone, Copy)]
pub struct Part {
    pub base: u32,
    pub size: u32,
    pub ghost some: { 0 < size },
    pub ghost low: { base ≤ 4096 },
    pub ghost small: { size ≤ 4096 },
}

impl Part {
    // The word of memory for word k of a ring (01: "goes to place k mod size of that FIFO").
    fn place_of(self, k: u32) -> u32
        requires { k ≤ 8192 }
        ensures { Placed self.base self.size k result }
    {
        self.base + k % self.size
    }

    // The oldest word, where one waits.
    pub fn read(self, mem: &[u32], r: Ring) -> u32
        requires { self.base + r.at < length mem.now }
        ensures { result ≡ get_or mem.now (self.base + r.at) 0 }
    {
        mem[self.base as usize + r.at as usize]
    }

    // Waiting word i, the oldest being word 0.
    pub fn word_at(self, mem: &[u32], r: Ring, i: u32) -> u32
        requires { InReach self.base self.size r.at i (length mem.now) }
        ensures { result ≡ get_or mem.now (place self.base self.size (r.at + i)) 0 }
    {
        mem[self.place_of(r.at + i) as usize]
    }

    // Puts w behind the words that wait (01: "A put writes that word only").
    #[tactic(auto, unfolding(paper::specs::Memory::ring_after, paper::specs::Memory::memory_after, paper::specs::Memory::put_all))]
    pub fn put(self, mem: &mut [u32], r: Ring, w: u32) -> Ring
        requires { HasRoom self.base self.size r.at r.count 1 (length mem.old) }
        ensures { Changed self.base self.size (puts (w ∷ [])) r result mem.old mem.new }
    {
        mem[self.place_of(r.at + r.count) as usize] = w;
        Ring {
            count: r.count + 1,
            ..r
        }
    }

    // Takes the k oldest words (01: "Room freed by a read is used again"). Writes no memory.
    #[tactic(auto, unfolding(paper::specs::Memory::ring_after))]
    pub fn take(self, r: Ring, k: u32) -> Ring
        requires { Waits self.size r.at r.count k }
        ensures { result ≡ ring_after self.size (takes k) r }
    {
        Ring {
            at: (r.at + k) % self.size,
            count: r.count - k,
        }
    }

    // Puts the data words of a frame, each built from the lent frame (01, line 7: "first byte in bits 7 to 0, unused bytes of the last
    // word zero (ours)"); no word for no bytes.
    pub fn put_frame(self, mem: &mut [u32], r: Ring, frame: &[u8]) -> Ring
        requires { HasRoom self.base self.size r.at r.count (words_for (length frame.now)) (length mem.old) }
        ensures { Changed self.base self.size (puts (data_words frame.now)) r result mem.old mem.new }
    {
        let mut q = r;
        // by the word's number, as the definition reads a frame; over chunks the last word would be filled up by hand
        for k in 0..frame.len().div_ceil(4) {
            q = self.put(mem, q, words::bytes::word_at(frame, 4 * k));
        }
        q
    }
}
