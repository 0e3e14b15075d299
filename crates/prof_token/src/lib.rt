//! The tokens of a JSON text, read through a window over the bytes of a lent source: white space, words, numbers and strings.
//!
//! Each call says what the machine of the grammar makes of the bytes that it read, from the parts that were still to come to
//! those that are now. What may come where, a caller knows.
#![tactic(auto)]

mod buffer;
mod escape;
mod fault;
mod input;
mod number;
mod scan;
mod string;
mod token;

pub use buffer::Buffer;
pub use fault::JsonFault;
pub use input::Input;
pub use number::read_number;
pub use scan::{digit_len, is_blank, is_digit};
pub use string::{read_plain_string, read_string};
pub use token::{need_behind_blank, pass_mark, pass_word, skip_blank};
