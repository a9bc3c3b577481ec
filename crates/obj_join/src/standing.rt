/// Where a symbol stands.
#[derive(Clone, Copy, PartialEq, Eq)]
pub enum Standing {
    /// It is no symbol: the number 0 of its object.
    IsNone,
    /// It is undefined, or stands in a section that is not kept.
    Nowhere,
    /// It is a number (`SHN_ABS`).
    AsNumber,
    /// It is a common block (`SHN_COMMON`).
    AsCommon,
    /// It stands in the section with this index, which is kept.
    InSection(u32),
}
