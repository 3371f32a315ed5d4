//! Texts of headers: lists of headers, decimal numbers, dates, ranges, entity tags, conditions, properties, and the hex
//! digits of numbers in replies.
//!
//! A caller may rely on each reader accepting exactly the texts of its grammar with their values, on each fault coming
//! exactly where it is said, on what a writer prints being read back as what was written, and on `conditions_hold`
//! telling the first condition that fails. Where a call takes memory, want of it is an error of its own.
//!
//! The definitions stand in `specs/`: `Headers` (headers as pairs of bytes), `Decimal`, `Hex`, `DateText` (the text of
//! a date as a function of its second), `Ranges`, `Tags` and `ETags` (lists of entity tags and their texts), `TagTexts`
//! (the text of one entity tag), `Trims` (what it is to trim a text), `Conditions` (when each condition holds) and
//! `ConditionsOf` (the first that fails), `Properties` and `PropertyTexts` (which texts are of which properties, when
//! each fault comes, and what is written), and `PropertyStops` (how an answer yields to want of memory). The laws of
//! `laws` say in plain words what the readers and writers keep, by the words of `ConditionWords` and `TagLists` too.
#![tactic(auto)]

mod blanks;
mod conditions;
mod date;
mod decimal;
mod etag_list;
mod header_list;
mod header_name;
mod hex;
mod judge;
pub mod laws;
mod props;
mod props_fault;
mod props_reader;
mod props_writer;
mod range;
mod read_tags;

pub use blanks::trimmed;
pub use conditions::{Conditions, Unmet};
pub use date::{date_text, read_date};
pub use decimal::read_dec;
pub use etag_list::ETagList;
pub use header_list::HeaderList;
pub use header_name::is_same_name;
pub use hex::write_hex16;
pub use judge::conditions_hold;
pub use props::Props;
pub use props_fault::{PropsFault, PropsStop};
pub use props_reader::read_props;
pub use props_writer::write_props;
pub use range::{Range, read_range};
pub use read_tags::read_etags;
