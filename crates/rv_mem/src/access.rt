//! Which addresses may be read and written.

ghost use Rattle.std.specs.Prelude.{◌≡◌, ◌≤◌, ◌+◌, ◌<◌, ◌^◌};
ghost use Rattle.rv_image.specs.MemoryMap.{can_load, can_store, lies_within, profile_of, region_of};
ghost use Rattle.rv_mem.specs.Cells.{is_paged};

use rv_image::memory_map::{CODE_SIZE, CODE_START, CODE_TAIL, DATA_END, SHADOW_START};
use rv_image::{ImageVersion, Region};

/// Whether the `n` bytes from `addr` on lie whole in the `size` bytes from `start` on.
pub(crate) fn is_within(start: u64, size: u64, addr: u64, n: u64) -> bool
    requires fits { n ≤ size }
    requires bits { start + size < 2 ^ 64 }
    ensures { result ≡ lies_within start size addr n }
{
    start <= addr && addr - start <= size - n
}

/// Whether a load may read the `n` bytes from `addr` on.
pub(crate) fn is_loadable(version: ImageVersion, addr: u64, n: u8) -> bool
    requires { n ≤ 8 }
    ensures { result ≡ can_load (profile_of version) addr n }
{
    let n = u64::from(n);
    is_within(0, DATA_END, addr, n)
        || is_within(CODE_START, CODE_SIZE + CODE_TAIL, addr, n)
        || is_within(SHADOW_START, version.shadow_size(), addr, n)
}

pub(crate) fn is_storable(version: ImageVersion, addr: u64, n: u8) -> bool
    requires { n ≤ 8 }
    ensures { result ≡ can_store (profile_of version) addr n }
{
    let n = u64::from(n);
    is_within(0, DATA_END, addr, n) || is_within(SHADOW_START, version.shadow_size(), addr, n)
}

/// Whether an address is one of data or shadow, which are kept in pages.
pub(crate) fn is_paged(version: ImageVersion, addr: u64) -> bool
    ensures { result ≡ is_paged version addr }
{
    is_within(0, DATA_END, addr, 1) || is_within(SHADOW_START, version.shadow_size(), addr, 1)
}

/// The region of an address in the machine of images of a version, if it is in one.
pub fn region(addr: u64, version: ImageVersion) -> Option<Region>
    ensures { result ≡ region_of (profile_of version) addr }
{
    if is_within(0, DATA_END, addr, 1) {
        Some(Region::Data)
    } else if is_within(CODE_START, CODE_SIZE, addr, 1) {
        Some(Region::Code)
    } else if is_within(SHADOW_START, version.shadow_size(), addr, 1) {
        Some(Region::Shadow)
    } else {
        None
    }
}
