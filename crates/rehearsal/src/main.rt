// A rehearsal's takes arrive until receive memory is full and are read back; then bad input is tried, and a long run by drawn numbers. What is tried and how it is printed is said in
// docs/REHEARSAL.md, which also says where the expected lines come from.
//   lines      answers as they are printed
//   digests    digests of words, states and memory
//   frames     the frames that arrive
//   trials     the states that trials begin with, and the lines of a trial
//   takes      parts `takes 5` and `takes 14`
//   calls      part `memory`, and the seventeen calls
//   forged     part `state`
//   held       part `held`
//   arrivals   parts `lengths`, `flags`, `types` and `fcs`
//   settings   parts `registers` and `restarts`
//   filters    part `filter`
//   room       part `room`
//   long       part `long`
#![tactic(auto)]

mod arrivals;
mod calls;
mod digests;
mod filters;
mod forged;
mod frames;
mod held;
mod lines;
mod long;
mod room;
mod settings;
mod takes;
mod trials;

use std::io;
use trials::Bench;

fn main(rt: HostRuntime) -> io::Result<()> {
    let mut words = [0; 4096];
    let bench = &mut Bench {
        rt: &rt,
        mem: &mut words,
    };
    takes::part(bench, 5)?;
    takes::part(bench, 14)?;
    calls::part(&rt)?;
    forged::part(bench)?;
    held::part(bench)?;
    arrivals::lengths(bench)?;
    arrivals::flags(bench)?;
    settings::registers(bench)?;
    settings::restarts(bench)?;
    arrivals::types(bench)?;
    arrivals::fcs(bench)?;
    filters::part(bench)?;
    room::part(bench)?;
    long::part(bench)
}
