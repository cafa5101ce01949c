use std::fmt::Debug;
use std::process::Abort;

/// Ends the test, and shows both values, where they differ. With an `assert_eq!` on the spot a test
/// goes on in two ways, and what is proved of it takes a second or two longer for each.
pub(crate) fn same<R: Abort, T: PartialEq + Debug + Drop>(rt: &R, got: T, wanted: T) {
    assert_eq!(rt; got, wanted);
}
