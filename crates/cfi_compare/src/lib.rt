//! A program's run and the undisturbed run of its image, compared by their system calls and their ends. The call is `compare`.
#![tactic(auto)]

pub use answer::Compared;
pub use comparing::compare;
pub use item::SideItem;

mod answer;
mod call_text;
mod comparing;
mod follow;
mod item;
mod source;
