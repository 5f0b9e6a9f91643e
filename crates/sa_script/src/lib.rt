//! A script: the tables that it sets up, its sessions with their statements, and how they take turns.
//!
//! The reader of scripts makes one, or tells the first fault of the text at its byte.
#![tactic(auto)]

mod create;
mod direct;
mod fault;
mod insert;
mod kind;
mod layout;
mod limits;
mod load;
mod named;
mod piece;
mod reading;
mod reads;
mod said;
mod says;
mod script;
mod source;
mod statement;
mod unique;

pub use fault::{ScriptFault, ScriptKind};
pub use limits::scripts_keep_limits;
pub use reading::read_script;
pub use script::{Schedule, Script, SessionScript, SessionScripts};
pub use unique::text_has_one_answer;
