//! Sessions with the replies that they are to have.

use std::alloc::Global;
use std::process::Abort;
use std::test::Fail;

/// Wants the replies of these rows.
pub fn converse(
    rt: &impl Abort,
    alloc: Global,
    words: &[&str],
    rows: &[(&str, &str)],
) -> Result<(), Fail> {
    let (told, wanted) = trial_runs::converse(alloc, words, rows)?;
    assert_eq!(rt; told.1.as_str(), wanted.1.as_str());
    assert_eq!(rt; told.0, wanted.0);
    Ok(())
}
