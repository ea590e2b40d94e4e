//! `nftrun run [--explain] [--trace] RULES BOX IN OUT`: shows what each packet of a capture would
//! meet. `nftrun check [--explain] RULES BOX`: checks a ruleset before it is loaded.
//! `nftrun explain CODE`: prints what a code means.
//!
//! The program on the operating system: its files, its clock, standard output and standard error.
#![tactic(auto)]

mod analysis;
mod closed_pipe;
mod comparison;
mod destination;
mod diagnosis;
mod system;

use std::process::ExitCode;

fn main(rt: HostRuntime) -> ExitCode {
    ExitCode::from(system::start(&rt, &rt.stdout(), &rt.stderr()))
}
