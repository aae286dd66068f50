// Making a book.
ghost use Rattle.std.specs.Prelude.{◌≡◌, [], IfOk};
ghost use Rattle.book.specs.Books.{stored};

use crate::book::{Book, CAPACITY};
use crate::index::Index;
use std::alloc::{AllocError, Global};

impl Book {
    // An empty book, with all the memory that it will ever need. The seed decides which connections share a walk: draw it by
    // chance and keep it secret, so that strangers cannot choose connections that all share one.
    pub fn new(heap: Global, seed: u64) -> Result<Book, AllocError>
        ensures result { IfOk result (λ b. stored b ≡ []) }
    {
        Ok(Book {
            entries: Vec::with_capacity(heap, CAPACITY)?,
            index: Index::new(seed),
            earliest: u64::MAX,
        })
    }
}
