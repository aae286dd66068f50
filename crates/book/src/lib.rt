// The connection book: at most 1,024 live connections, found from either side, and kept exactly.
#![tactic(auto)]

mod advance;
mod answer;
mod book;
mod edit;
mod entry;
mod fit;
mod flow;
mod hash;
mod index;
mod label;
mod lifetime;
mod lookup;
mod making;
mod passage;
mod room;
mod step;
mod sweep;

pub use answer::Answer;
pub use book::Book;
pub use flow::End;
pub use passage::{Kind, Passage};
