use std::fmt::{Debug, Display};
use std::process::Abort;

/// Ends the test, and shows both values, where they differ. With an `assert_eq!` on the spot a test
/// goes on in two ways, and what is proved of it takes a second or two longer for each.
pub(crate) fn same<R: Abort, T: PartialEq + Debug + Drop>(rt: &R, got: T, wanted: T) {
    assert_eq!(rt; got, wanted);
}

/// The same for a row of a table, which is named too.
pub(crate) fn same_at<R: Abort, N: Display + Drop, T: PartialEq + Debug + Drop>(
    rt: &R,
    row: N,
    got: T,
    wanted: T,
) {
    assert_eq!(rt; got, wanted, "at {row}");
}
