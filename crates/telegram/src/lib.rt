// Checking, reading, writing, labelling and normalising telegrams, by one machine.
#![tactic(auto)]

mod answer;
mod driver;
mod earlier;
mod head;
mod labels;
mod machine;
mod normaliser;
mod reader;
mod rows;
mod state;
mod swift;
mod todo;
mod verdict;
mod writer;

pub use labels::label;
pub use normaliser::normalise;
pub use reader::{check, read};
pub use writer::write;
