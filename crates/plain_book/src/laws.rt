//! Does the state of a plain book agree with the list of all books?
//!
//! The function does nothing at run time. Its contract consists of theorems, stated in `specs/Laws.antt`; a call makes them
//! available to the caller's proof.

ghost use Rattle.plain_book.specs.Laws.{BooksAgree, RepliesAgree};

/// A state gives each batch the same reply as every list of books that it represents. After a batch made for its trust domain, it
/// represents the books after that batch.
pub fn kept_state()
    ensures replies { RepliesAgree }
    ensures books { BooksAgree }
{}
