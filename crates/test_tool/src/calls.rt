//! Tables of command lines, each with its status and its text.

use crate::files::add_files;
use sample_calls::first_wrong;
use std::alloc::Global;
use std::process::Abort;
use tool_io::MemFiles;

/// Checks that a table has so many rows, and that each is answered over the files of the tests.
pub(crate) fn check(rt: &impl Abort, alloc: Global, table: &[u8], count: usize) {
    let mut files = MemFiles::new(alloc, Vec::new(alloc));
    assert!(rt; add_files(alloc, &mut files).is_ok());
    assert_eq!(rt; first_wrong(alloc, &mut files, table, count), None);
}
