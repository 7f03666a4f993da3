//! Tests of `budget_book`.
use budget_book::{Ask, Book, Short};
use std::test::Fail;

#[test]
fn asked_sources_are_charged_or_the_first_short_one_is_named(rt: HostRuntime) -> Result<(), Fail> {
    let mut book = Book::new(rt.alloc());
    book.add_source(300_000)?;
    book.add_source(0)?;
    book.add_source(5)?;
    let asks = [
        Ask {
            source: 0,
            amount: 200_000,
        },
        Ask {
            source: 2,
            amount: 5,
        },
    ];
    match book.can(&asks) {
        None => book.charge(&asks),
        Some(_) => return Err(Fail::from("a source is short")),
    }
    let short = Short {
        source: 0,
        left: 100_000,
        asked: 200_000,
    };
    assert_eq!(rt; book.can(&asks), Some(short));
    assert_eq!(rt; (book.total(0), book.spent(0)), (300_000, 200_000));
    assert_eq!(rt; (book.total(2), book.spent(2)), (5, 5));
    assert_eq!(rt; book.len(), 3);
    Ok(())
}
