use std::alloc::Global;
use std::process::Abort;
use std::str::Split;
use worked_scenes::field;

/// Stops a test whose row gave something other than wanted.
pub fn same(rt: &impl Abort, row: &str, found: &str, wanted: &str) {
    assert!(rt; found == wanted, "{row}: {found}");
}

/// Stops a test at a row of which something does not hold.
pub fn holds(rt: &impl Abort, row: &str, good: bool) {
    assert!(rt; good, "{row}");
}

/// A text with the second of the next two fields of a case in the place of the first.
pub fn changed(rt: &impl Abort, alloc: Global, text: &str, fields: &mut Split<'_, char>) -> String {
    let (old, new) = (field(fields), field(fields));
    text.replace(alloc, old, new).expect(rt, "memory")
}
