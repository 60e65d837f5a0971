// Shows the fresh state and the receive filter's 32 settings, as the proved code gives them.
#![tactic(auto)]

use paper::{Registers, Setting, State};
use std::io;

// The registers in hexadecimal.
fn registers(rt: &impl Print, r: Registers) -> io::Result<()> {
    println!(rt; "TX_FIF_SZ {:08x}", r.n)?;
    println!(rt; "MAC_CR    {:08x}", r.maccr)?;
    println!(rt; "ADDRH     {:08x}", r.addrh)?;
    println!(rt; "ADDRL     {:08x}", r.addrl)?;
    println!(rt; "HASHH     {:08x}", r.hashh)?;
    println!(rt; "HASHL     {:08x}", r.hashl)?;
    println!(rt; "RX_DROP   {:08x}", r.drops)
}

// A setting: its number, and its rules for group and individual addresses.
fn line(rt: &impl Print, number: usize, s: Setting) -> io::Result<()> {
    match s {
        Some(rules) => println!(rt; "setting {number} {} {}", rules.group, rules.individual),
        None => println!(rt; "setting {number} undefined"),
    }
}

fn main(rt: HostRuntime) -> io::Result<()> {
    registers(&rt, State::fresh().control.registers)?;
    for k in 0..32 {
        line(&rt, k, filter::setting_at(k))?;
    }
    Ok(())
}
