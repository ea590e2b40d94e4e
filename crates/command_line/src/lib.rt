//! Parses the command line (`nftrun run [--explain | --no-explain] [--trace] [--report FILE] RULES BOX
//! IN OUT`, `nftrun check [--explain | --no-explain] [--all] [--nft] RULES BOX`, `nftrun reach [--explain |
//! --no-explain] [--sets] RULES BOX`, `nftrun diff [--explain | --no-explain] [--assume FILTER] OLD NEW
//! BOX`, `nftrun explain CODE`).
#![tactic(auto)]

mod parsing;
mod program;
mod tasks;

pub use parsing::task;
pub use tasks::{
    CheckPaths, CheckTask, DiffPaths, DiffTask, Explaining, ReachTask, ReplayPaths, ReplayTask,
    Task,
};
