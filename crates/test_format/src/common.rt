/// Puts bytes in place of others at `at`. It is false where they do not lie in the file, or stand there
/// already.
pub(crate) fn put(file: &mut [u8], at: usize, bytes: &[u8]) -> bool {
    let Some(place) = file.get_mut(at..at.saturating_add(bytes.len())) else {
        return false;
    };
    let differs = &*place != bytes;
    place.copy_from_slice(bytes);
    differs
}
