// What deliver answers: the counts, or why it refuses.
pub use deliver_accepting::Counts;
pub use refusals::Refusal;
