// One device: whether its state is sound (`sound`), and what each event does to it (`event`).

#![tactic(auto)]

pub mod event;
pub mod sound;
