//! The forms by which a module names other modules and is named by them: which of them begins at a token.
//!
//! A form is a row of a table of parts, and its reading is a fold over the row, so no form has a matcher of its own. All
//! that a part asks of a token is a sign: its class, and where it is a word or a punctuator its bytes. The row that ends
//! last is taken. [`Source`] answers what stands at a token by the tokens alone; whether a form stands there depends on
//! no other form. What is known of a declaration of variables ([`Declaration`]) saves reading its tokens again where the
//! next one runs into it, and changes no answer. [`laws`] has what holds of the definitions.
#![tactic(auto)]

mod declaration;
mod form;
pub mod laws;
mod names;
mod part;
mod reading;
mod shape;
mod sign;
mod source;
mod standing;
mod text;
mod variables;

pub use declaration::Declaration;
pub use form::Form;
pub use part::{Part, Side};
pub use shape::Shape;
pub use sign::Sign;
pub use source::{Source, part_between, rest_from, text_of};
pub use standing::Standing;
pub use text::{as_text, owned, unquoted};
