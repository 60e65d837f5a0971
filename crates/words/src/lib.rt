// Command words taken apart and status words put together, by shifts and masks (paper 01, List of forms by place: "The packet length in bits 29 to 16").
// What each function answers is said in plain arithmetic in paper's specs/.
//   fields    the fields of commands A and B, the words of a buffer, the tests of both, the words with few bits, the five mode bits
//   status    the RX and TX status words, RX_FIFO_INF and TX_FIFO_INF
//   bytes     words from bytes
#![tactic(auto)]

pub mod bytes;
pub mod fields;
pub mod status;
