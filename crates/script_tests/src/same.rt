//! Comparisons in functions of their own: a call makes much less of a test's proof than an `assert_eq!`.
ghost use Rattle.std.specs.Prelude.{IsTrue};

use std::fmt::Debug;
use std::process::Abort;

/// Compares what was got with what was wanted.
pub fn expect_same<R: Abort, T: PartialEq + Debug + Copy>(rt: &R, got: T, wanted: T) {
    assert_eq!(rt; got, wanted);
}

/// Stops the test, unless this is so.
pub fn expect_that<R: Abort>(rt: &R, is_so: bool)
    ensures { IsTrue is_so }
{
    assert!(rt; is_so);
}
