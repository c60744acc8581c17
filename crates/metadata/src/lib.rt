//! The model of a root or a file (ECMA-335 II.22 to II.25): what it is, and the rules that the bytes
//! must follow, in order.
//!
//! Apart from [`row_number`] and [`MemberList`] there is no code here, only the definitions in `specs/` in which
//! reading and writing meet, and their laws. `Model.antt` says which model a root and a file have, by the relations of the layers below;
//! `Rules.antt` lists the rules, each with its code and its offset. All rules hold if and only if
//! there is a model, and there is at most one: [`roots_have_models`], [`files_have_models`].
//!
//! ```text
//! IsModel root model    -- the bytes of a root have this model
//! IsModelOfFile file header model    -- the bytes of a file have this CLI header and this model
//! ```
#![tactic(auto)]

pub mod laws;
mod member_lists;
mod refusal;
mod row_numbers;

pub use member_lists::MemberList;
pub use packed::FaultCode;
pub use refusal::Refusal;
pub use row_numbers::row_number;
