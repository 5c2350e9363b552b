// The grammar of commands: what a form expects, and what each token does to that.
#![tactic(auto)]

pub mod items;
pub mod machine;
pub mod signs;
