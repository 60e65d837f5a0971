// The frames that arrive: frame(L, V, k, D) of docs/REHEARSAL.md.

// Room for a frame that is longer than any that is taken.
pub type Space = [u8; 2049];

// A length or type that is a type.
pub const TYPE: u16 = 0x0800;

// The destination of a frame: our address, another station's, ours with the group bit, two group addresses, or broadcast.
#[derive(Clone, Copy)]
pub enum To {
    Ours,
    Other,
    Near,
    Group,
    Six,
    All,
}

impl To {
    fn address(self) -> [u8; 6] {
        match self {
            To::Ours => [0x02, 0x11, 0x22, 0x33, 0x44, 0x55],
            To::Other => [0x02, 0x11, 0x22, 0x33, 0x44, 0x56],
            To::Near => [0x03, 0x11, 0x22, 0x33, 0x44, 0x55],
            To::Group => [0x01, 0x00, 0x5E, 0x00, 0x00, 0x01],
            To::Six => [0x33, 0x33, 0x00, 0x00, 0x00, 0x01],
            To::All => [0xFF; 6],
        }
    }
}

// What a frame is made from: its length L, its length or type V, the number k of its take, and its destination D.
#[derive(Clone, Copy)]
pub struct Frame {
    pub length: u16,
    pub kind: u16,
    pub take: usize,
    pub to: To,
}

impl Frame {
    // frame(L, 0800h, L, ours).
    pub fn long(length: u16) -> Self {
        Self {
            length,
            kind: TYPE,
            take: usize::from(length),
            to: To::Ours,
        }
    }

    // frame(64, 0800h, 1, D).
    pub fn short(to: To) -> Self {
        Self {
            length: 64,
            kind: TYPE,
            take: 1,
            to,
        }
    }

    // The 14 bytes before the others: the destination, the source 02-00-00-00-00-01, and the length or type, its high byte first.
    fn header(self) -> [u8; 14] {
        let [a, b, c, d, e, f] = self.to.address();
        let [high, low] = self.kind.to_be_bytes();
        [a, b, c, d, e, f, 0x02, 0, 0, 0, 0, 0x01, high, low]
    }

    // Its bytes, but for the FCS.
    fn fill(self, frame: &mut [u8]) {
        for (i, b) in frame.iter_mut().enumerate() {
            // by `as`, as the page defines a byte: its number modulo 256
            *b = (self.take.wrapping_mul(7).wrapping_add(i) % 256) as u8;
        }
        for (b, h) in frame.iter_mut().zip(self.header()) {
            *b = h;
        }
    }

    // Makes it at the front of the space; no longer than the space.
    pub fn make(self, space: &mut Space) -> &mut [u8] {
        let end = usize::from(self.length).min(space.len());
        let frame = &mut space[..end];
        self.fill(frame);
        put_fcs(frame);
        frame
    }
}

// Puts the FCS of the bytes before it, its lowest byte first; of fewer than four bytes none.
fn put_fcs(frame: &mut [u8]) {
    if let Some((before, fcs)) = frame.split_last_chunk_mut::<4>() {
        *fcs = checksum::fcs_of(before).to_le_bytes();
    }
}
