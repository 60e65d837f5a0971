// Parts `lengths`, `flags`, `types` and `fcs`: frames at the edges of what 01 says of an arriving frame (docs/REHEARSAL.md).
use crate::frames::{Frame, To};
use crate::trials;
use crate::trials::Bench;
use std::io;

const LENGTHS: [u16; 13] = [0, 1, 13, 14, 59, 60, 63, 64, 65, 1518, 1519, 2048, 2049];

// Frames of these lengths, with this MAC_CR.
fn lengths_with(bench: &mut Bench<impl Print>, maccr: u32) -> io::Result<()> {
    let s = bench.base(5, maccr);
    for length in LENGTHS {
        let label = format_args!("maccr {maccr:08x} length {length}");
        bench.arrives(label, s, Frame::long(length), 0)?;
    }
    Ok(())
}

pub fn lengths(bench: &mut Bench<impl Print>) -> io::Result<()> {
    bench.begin("lengths")?;
    for maccr in [trials::RXEN, trials::PASSBAD, 0] {
        lengths_with(bench, maccr)?;
    }
    Ok(())
}

// Each flag bit alone, with this MAC_CR.
fn flags_with(bench: &mut Bench<impl Print>, maccr: u32) -> io::Result<()> {
    let s = bench.base(5, maccr);
    for i in 0..32u32 {
        let flags: u32 = 1 << i;
        let label = format_args!("maccr {maccr:08x} flags {flags:08x}");
        bench.arrives(label, s, Frame::short(To::Ours), flags)?;
    }
    Ok(())
}

pub fn flags(bench: &mut Bench<impl Print>) -> io::Result<()> {
    bench.begin("flags")?;
    for maccr in [trials::RXEN, trials::PASSBAD] {
        flags_with(bench, maccr)?;
    }
    Ok(())
}

// Lengths, each with the length or type in bytes 12 and 13.
const TYPES: [(u16, u16); 10] = [
    (1518, 1500),
    (1518, 1501),
    (64, 1500),
    (64, 1501),
    (64, 45),
    (64, 46),
    (64, 47),
    (65, 46),
    (65, 47),
    (65, 48),
];

pub fn types(bench: &mut Bench<impl Print>) -> io::Result<()> {
    bench.begin("types")?;
    let s = bench.base(5, trials::RXEN);
    for (length, kind) in TYPES {
        let frame = Frame {
            length,
            kind,
            take: 1,
            to: To::Ours,
        };
        let label = format_args!("length {length} type {kind}");
        bench.arrives(label, s, frame, 0)?;
    }
    Ok(())
}

// The bytes of the FCS, each with what changes it by exclusive or; last, nothing does.
const CHANGES: [(usize, u8); 9] = [
    (60, 1),
    (60, 128),
    (61, 1),
    (61, 128),
    (62, 1),
    (62, 128),
    (63, 1),
    (63, 128),
    (60, 0),
];

pub fn fcs(bench: &mut Bench<impl Print>) -> io::Result<()> {
    bench.begin("fcs")?;
    let s = bench.base(5, trials::RXEN);
    for (i, by) in CHANGES {
        let mut space = [0; 2049];
        let frame = Frame::short(To::Ours).make(&mut space);
        if let Some(b) = frame.get_mut(i) {
            *b ^= by;
        }
        let a = model::arrive(s, bench.mem, frame, 0);
        bench.arrived(format_args!("byte {i} with {by}"), a)?;
    }
    Ok(())
}
