//! One HTML page about all queries of a script: the query with the greatest distance with its timeline, picture and prose,
//! a histogram and charts, a table of all queries, further queries in detail, and the serial order.
//!
//! The page is one file without external resources, so it can be mailed and archived. A name contains only lowercase
//! letters, digits and `_`, because no other name can be declared, so it needs no escape and is also an id. The name of the
//! file and the lines with errors are the only foreign text: `push_sanitized` replaces their markup. No clause specifies the
//! content, except that it is one document in which every element is closed.
#![tactic(auto)]

mod audits;
mod chart;
mod details;
mod histogram;
mod page;
mod rows;
mod style;
mod table;
mod updates;

pub use page::{Page, PageMetadata};
