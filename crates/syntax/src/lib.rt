// Kinds, scopes, limits and refusals: the numbers of 01 as enums, or as constants where they come in a lent table; the conversion of a token's kind,
// the stop table, and the tables that are lent.
#![tactic(auto)]

mod limits;
mod parse_scope;
mod refusal;
mod rows;
mod shape;
mod syntax_kind;
mod tables;
mod token;

pub use limits::Limits;
pub use parse_scope::ParseScope;
pub use refusal::{Refusal, Refused};
pub use rows::{Reason, Tag};
pub use shape::{Class, Form};
pub use syntax_kind::SyntaxKind;
pub use tables::Tables;
pub use token::Token;
