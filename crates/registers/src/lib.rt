// The work of the register calls: MAC registers, split, levels, RX_DROP, dumps and reset (01, Registers and Memory). A state goes in by value, and the reply
// holds the state after the call. None of these calls reads or writes the lent memory. Each but reset is for a state that passed the test of `entry`.
//   mac       the MAC registers by number
//   allowed   whether setting n, or a dump, is allowed now; its tests are joined by &, since stopping early saves nothing and the one result is proved at once
#![tactic(auto)]

ghost use Rattle.paper.specs.Calls.{Reset, MacWrite, MacRead, SetSplit, Split, RxFifoInf, TxFifoInf, RxDrop, DumpTxData, DumpTxStatus, DumpRx};
ghost use Rattle.registers.specs.Tells.{Tells};

use entry::Sound;
use paper::{Port, Refusal, Reply, Ring, State};

mod allowed;
mod mac;

// Resets the model: the fresh state, whatever the state was. Value 0.
#[tactic(auto, using(crate::proofs::Calls::reset_anew))]
pub fn reset(s: State) -> Reply<u32>
    ensures { Tells Reset s result }
{
    Reply::done(0, State::fresh())
}

// Writes a MAC register. Refuses 3 (no such register), 4 (bad value). Value 0.
#[tactic(auto, using(crate::proofs::Calls::written, crate::proofs::Calls::write_refused))]
pub fn mac_write(s: Sound, register: u32, value: u32) -> Reply<u32>
    ensures { Tells (MacWrite register value) s.state result }
{
    let mut s = s.state;
    match mac::written(register, value, s.control.registers) {
        Ok(registers) => {
            s.control.registers = registers;
            Reply::done(0, s)
        }
        Err(k) => Reply::refused(k, s),
    }
}

// Reads a MAC register. Refuses 3 (no such register). The value is the stored one.
#[tactic(auto, using(crate::proofs::Calls::read))]
pub fn mac_read(s: Sound, register: u32) -> Reply<u32>
    ensures { Tells (MacRead register) s.state result }
{
    let state = s.state;
    Reply {
        answer: mac::read(register, state.control.registers),
        state,
    }
}

// Sets n, TX_FIF_SZ, and restarts all FIFOs. Refuses 4 (n outside 2 to 14), 5 (not allowed now). Value 0.
#[tactic(auto, using(crate::proofs::Calls::split_set, crate::proofs::Calls::split_bad_value, crate::proofs::Calls::split_not_now))]
pub fn set_split(s: Sound, n: u32) -> Reply<u32>
    ensures { Tells (SetSplit n) s.state result }
{
    let s = s.state;
    if !entry::values::good_n(n) {
        return Reply::refused(Refusal::BadValue, s);
    }
    if !allowed::may_resize(s) {
        return Reply::refused(Refusal::NotNow, s);
    }
    let mut t = State {
        control: s.control,
        ..State::fresh()
    };
    t.control.registers.n = n;
    Reply::done(0, t)
}

// The value is n.
#[tactic(auto, using(crate::proofs::Calls::split_read))]
pub fn split(s: Sound) -> Reply<u32>
    ensures { Tells Split s.state result }
{
    Reply::done(s.state.control.registers.n, s.state)
}

// The value is RX_FIFO_INF: the statuses and data bytes that wait.
#[tactic(auto, using(crate::proofs::Calls::rx_levels, crate::proofs::Calls::rx_within))]
pub fn rx_fifo_inf(s: Sound) -> Reply<u32>
    ensures { Tells RxFifoInf s.state result }
{
    let s = s.state;
    let level = words::status::rx_fifo_inf(s.rxstatus.count, s.rxdata.count);
    Reply::done(level, s)
}

// The value is TX_FIFO_INF: the statuses that wait, and the data bytes that are free.
#[tactic(auto, using(crate::proofs::Calls::tx_levels, crate::proofs::Calls::tx_within))]
pub fn tx_fifo_inf(s: Sound) -> Reply<u32>
    ensures { Tells TxFifoInf s.state result }
{
    let s = s.state;
    let level = words::status::tx_fifo_inf(s.control.registers.n, s.txstatus.count, s.txdata.count);
    Reply::done(level, s)
}

// The value is RX_DROP, which is 0 afterwards (01: "reads and then clears").
#[tactic(auto, using(crate::proofs::Calls::drops_read))]
pub fn rx_drop(s: Sound) -> Reply<u32>
    ensures { Tells RxDrop s.state result }
{
    let mut s = s.state;
    let drops = s.control.registers.drops;
    s.control.registers.drops = 0;
    Reply::done(drops, s)
}

// Dumps TX data: restarts it, and the port is as it was fresh. Refuses 5 (TXEN is set). Value 0.
#[tactic(auto, using(crate::proofs::Calls::tx_data_dumped, crate::proofs::Calls::tx_data_not_now))]
pub fn dump_tx_data(s: Sound) -> Reply<u32>
    ensures { Tells DumpTxData s.state result }
{
    let mut s = s.state;
    if !allowed::may_dump_tx_data(s.control.registers) {
        return Reply::refused(Refusal::NotNow, s);
    }
    s.control.port = Port::fresh();
    s.txdata = Ring::empty();
    Reply::done(0, s)
}

// Dumps TX status: restarts it. Value 0.
#[tactic(auto, using(crate::proofs::Calls::tx_status_dumped))]
pub fn dump_tx_status(s: Sound) -> Reply<u32>
    ensures { Tells DumpTxStatus s.state result }
{
    let mut s = s.state;
    s.txstatus = Ring::empty();
    Reply::done(0, s)
}

// Dumps RX: restarts RX data and RX status. Refuses 5 (RXEN is set). Value 0.
#[tactic(auto, using(crate::proofs::Calls::rx_dumped, crate::proofs::Calls::rx_not_now))]
pub fn dump_rx(s: Sound) -> Reply<u32>
    ensures { Tells DumpRx s.state result }
{
    let mut s = s.state;
    if !allowed::may_dump_rx(s.control.registers) {
        return Reply::refused(Refusal::NotNow, s);
    }
    s.rxdata = Ring::empty();
    s.rxstatus = Ring::empty();
    Reply::done(0, s)
}
