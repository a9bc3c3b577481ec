//! Rows of tables: a program with what is asked of it and what is to be told.

/// A row as its texts.
#[derive(Clone, Copy)]
pub(crate) struct Row<'a> {
    /// The words of section 1, and behind a `/` those of section 3, if there is one.
    pub(crate) code: &'a str,
    /// The symbols, each as `NAME,TYPE,SECTION,VALUE,SIZE`.
    pub(crate) symbols: &'a str,
    /// The relocations, each as `SECTION,OFFSET,TYPE,SYMBOL,ADDEND`.
    pub(crate) relocations: &'a str,
    /// What is asked: the flow under `none` or under the lines of a policy, `enter NAME`, `labels`, or `leads NAME`, which may have
    /// the lines of a policy behind a `;`.
    pub(crate) asked: &'a str,
    /// What is to be told.
    pub(crate) told: &'a str,
}

/// The texts of a row behind its name.
pub(crate) fn row_of(text: &str) -> Option<Row<'_>> {
    let mut fields = text.split('|');
    let _name = fields.next()?;
    Some(Row {
        code: fields.next()?,
        symbols: fields.next()?,
        relocations: fields.next()?,
        asked: fields.next()?,
        told: fields.next()?,
    })
}

/// The field at a place of a symbol or a relocation, from 0.
pub(crate) fn field(text: &str, at: usize) -> Option<&str> {
    text.split(',').nth(at)
}

/// The number at a place of a symbol or a relocation.
pub(crate) fn number(text: &str, at: usize) -> Option<u64> {
    field(text, at)?.parse().ok()
}
