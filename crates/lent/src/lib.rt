// Calls that run nothing: what is lent is judged (`judging`) and prepared (`preparing`), pages are counted (`counting`), and what is stored is
// loaded and told (`loading`). `m95` hands them on as its own.

#![tactic(auto)]

pub mod counting;
pub mod judging;
pub mod loading;
pub mod preparing;
