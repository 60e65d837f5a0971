// Words from bytes (01: "A word's first byte is in bits 7 to 0.").
ghost use Rattle.std.specs.Prelude.{◌≡◌, ◌+◌, ◌*◌, ◌^◌, ◌≤◌, get_or};
ghost use Rattle.paper.specs.Words.{word_at};

// The word of four bytes, the first lowest.
pub fn word_of(b0: u8, b1: u8, b2: u8, b3: u8) -> u32
    ensures { result ≡ b0 + b1 * 2 ^ 8 + b2 * 2 ^ 16 + b3 * 2 ^ 24 }
{
    u32::from_le_bytes([b0, b1, b2, b3])
}

// Byte i of s; 0 past its end.
pub fn byte_at(s: &[u8], i: usize) -> u8
    ensures { result ≡ get_or s.now i 0 }
{
    s.get(i).copied().unwrap_or(0)
}

// The word of the four bytes from byte i of s on; past the end of s bytes are 0.
pub fn word_at(s: &[u8], i: usize) -> u32
    requires { i ≤ 65536 }
    ensures { result ≡ word_at s.now i }
{
    word_of(
        byte_at(s, i),
        byte_at(s, i + 1),
        byte_at(s, i + 2),
        byte_at(s, i + 3),
    )
}
