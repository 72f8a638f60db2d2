//! The command-line program: [`answer`](answer::answer), and the parser of its arguments. Each
//! command is in `cli_streams`, `cli_scripts` or `cli_plans`.
#![tactic(auto)]

pub mod answer;
pub mod args;
mod causes;
mod live;
mod mistakes;
mod products;
mod remarks;
mod same_files;
