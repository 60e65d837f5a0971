// The words of each FIFO, and its part of the lent memory, for TX_FIF_SZ n, 2 to 14. Paper 01, Memory, the table of words.
ghost use Rattle.std.specs.Prelude.{◌≡◌, ◌≤◌};

use crate::Part;
use paper::Fifo;

// TX_FIF_SZ.
#[derive(Clone, Copy)]
pub struct Split {
    pub n: u32,
    pub ghost least: { 2 ≤ n },
    pub ghost most: { n ≤ 14 },
}

impl Split {
    ghost use Rattle.paper.specs.Memory.{size, base};
    ghost use Rattle.rings.specs.Parts.{PartOf};

    // 01: "TX data | 256n - 128", "TX status | 128", "RX data | 240(16 - n)", "RX status | 16(16 - n)".
    pub fn size(self, f: Fifo) -> u32
        ensures { result ≡ size f self.n }
    {
        match f {
            Fifo::TxData => 256 * self.n - 128,
            Fifo::TxStatus => 128,
            Fifo::RxData => 240 * (16 - self.n),
            Fifo::RxStatus => 16 * (16 - self.n),
        }
    }

    // 01: "In words, in this order from word 0": each FIFO begins behind the one before it.
    pub fn base(self, f: Fifo) -> u32
        ensures { result ≡ base f self.n }
    {
        let tx_status = self.size(Fifo::TxData);
        let rx_data = tx_status + self.size(Fifo::TxStatus);
        match f {
            Fifo::TxData => 0,
            Fifo::TxStatus => tx_status,
            Fifo::RxData => rx_data,
            Fifo::RxStatus => rx_data + self.size(Fifo::RxData),
        }
    }

    // The part of the lent memory that is a FIFO's.
    pub fn part(self, f: Fifo) -> Part
        ensures { PartOf f self.n result }
    {
        Part {
            base: self.base(f),
            size: self.size(f),
        }
    }
}
