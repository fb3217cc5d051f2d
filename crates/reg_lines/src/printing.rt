//! Which bytes print a value?
//!
//! - `print_json`: a value that has one JSON text, which it puts piece by piece; `text`: a text as a JSON string.
//! - `names`, `book_rows`: the rows of a book; `marks`: the entries of a read set.
//! - `replies`, `borrowed_replies`, `events`, `refusal`, `seats`: the lines of the output.
//! - `batches`, `records`: the batch of a call, as its record has it.
//! - `values`: which JSON values these lines are.

pub(crate) mod batches;
pub(crate) mod book_rows;
pub(crate) mod borrowed_replies;
pub(crate) mod events;
pub(crate) mod marks;
pub(crate) mod names;
pub(crate) mod print_json;
pub(crate) mod records;
pub(crate) mod refusal;
pub(crate) mod replies;
pub(crate) mod seats;
pub(crate) mod text;
pub(crate) mod values;

pub use borrowed_replies::BorrowedCallReply;
pub use events::{CallOrder, EventRefused};
pub use print_json::{PrintJson, print_line, print_list, print_number};
pub use records::CallRecord;
pub use replies::{AnsweredCall, CallReply};
pub use seats::{SeatRefusal, SeatRefused};
pub use text::print_text;
pub use values::{printed_events_law, printed_law, printed_records_law, printed_seats_law};
