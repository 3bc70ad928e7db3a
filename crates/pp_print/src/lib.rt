//! Terms, domains, rows and stores as text.
#![tactic(auto)]

mod atoms;
mod changes;
mod domains;
mod numbers;
mod occurring;
mod rows;
mod stores;
mod terms;

pub use changes::write_change_line;
pub use domains::domain_text;
pub use rows::row_text;
pub use stores::store_text;
pub use terms::term_text;
