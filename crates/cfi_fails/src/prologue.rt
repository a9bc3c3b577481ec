//! The words of the prologue, by versions.

ghost use Rattle.std.specs.Prelude.{◌≡◌, ◌<◌, length};
ghost use Rattle.std.specs.Option.{option_copied};
ghost use Rattle.rv_image.specs.MemoryMap.{lean_profile_of, profile_of, profile_with};
ghost use Rattle.cfi_scan.specs.Pieces.{prologue_count};
ghost use Rattle.cfi_rules.specs.Rules.{fits_table, is_link, prologue_word_fits};

use rv_code::decode;
use rv_image::{GraphVersion, ImageVersion, Versions};
use rv_instr::Instr;

/// The words in version 1. Word 13 is the opening's `jal x1` to the entry, which may lead anywhere.
const PROLOGUE: [u32; 16] = [
    0x0010_0073,
    0x0010_0073,
    0x0010_0073,
    0x1000_0137,
    0x6000_01b7,
    0x0081_8193,
    0x0301_9f13,
    0x000f_1463,
    0xfe9f_f06f,
    0x0000_0f17,
    0x014f_0f13,
    0x01e1_b023,
    0x0081_8193,
    0x00c0_00ef,
    0x05d0_0893,
    0x0000_0073,
];

/// Those in version 2, for several harts. Here it is word 17.
const PROLOGUE_OF_HARTS: [u32; 20] = [
    0x0010_0073,
    0x0010_0073,
    0x0010_0073,
    0x1000_0137,
    0x0145_1f93,
    0x41f1_0133,
    0x6000_01b7,
    0x0105_1f93,
    0x01f1_81b3,
    0x0081_8193,
    0x0301_9f13,
    0x000f_1463,
    0xfd9f_f06f,
    0x0000_0f17,
    0x014f_0f13,
    0x01e1_b023,
    0x0081_8193,
    0x00c0_00ef,
    0x05d0_0893,
    0x0000_0073,
];

/// Those in lean images for one hart. Here it is word 8.
const LEAN_PROLOGUE: [u32; 11] = [
    0x0010_0073,
    0x0010_0073,
    0x0010_0073,
    0x1000_0137,
    0x1000_0237,
    0xfff2_0213,
    0x6000_01b7,
    0x0081_8193,
    0x00c0_00ef,
    0x05d0_0893,
    0x0000_0073,
];

/// Those in lean images for several harts. Here it is word 12.
const LEAN_PROLOGUE_OF_HARTS: [u32; 15] = [
    0x0010_0073,
    0x0010_0073,
    0x0010_0073,
    0x1000_0137,
    0x1000_0237,
    0xfff2_0213,
    0x0145_1f93,
    0x41f1_0133,
    0x6000_01b7,
    0x0105_1f93,
    0x01f1_81b3,
    0x0081_8193,
    0x00c0_00ef,
    0x05d0_0893,
    0x0000_0073,
];

/// Whether a word may be the word with this index of the prologue of a pair of versions.
pub(crate) fn is_prologue_word(versions: Versions, index: usize, word: Option<u32>) -> bool
    requires { index < prologue_count (profile_with versions) }
    ensures { result ≡ prologue_word_fits (profile_with versions) index word }
{
    match versions.graph {
        GraphVersion::OneLabel | GraphVersion::TwoLabels => {
            is_full_word(versions.image, index, word)
        }
        GraphVersion::CalleeSaves => is_lean_word(versions.image, index, word),
    }
}

/// The same where callers save the sites of calls.
fn is_full_word(version: ImageVersion, index: usize, word: Option<u32>) -> bool
    requires { index < prologue_count (profile_of version) }
    ensures { result ≡ prologue_word_fits (profile_of version) index word }
{
    match version {
        ImageVersion::OneHart => fits_table(&PROLOGUE, 13, index, word),
        ImageVersion::EightHarts => fits_table(&PROLOGUE_OF_HARTS, 17, index, word),
    }
}

/// And where callees do.
fn is_lean_word(version: ImageVersion, index: usize, word: Option<u32>) -> bool
    requires { index < prologue_count (lean_profile_of version) }
    ensures { result ≡ prologue_word_fits (lean_profile_of version) index word }
{
    match version {
        ImageVersion::OneHart => fits_table(&LEAN_PROLOGUE, 8, index, word),
        ImageVersion::EightHarts => fits_table(&LEAN_PROLOGUE_OF_HARTS, 12, index, word),
    }
}

/// Whether a word is the one with this index of some words, or any `jal x1` where the call stands.
fn fits_table(table: &[u32], call: usize, index: usize, word: Option<u32>) -> bool
    requires { index < length table.now }
    ensures { result ≡ fits_table table.now call index word }
{
    let Some(word) = word else { return false };
    if index == call {
        is_link(decode(word).as_ref())
    } else {
        word == table[index]
    }
}

/// Whether an instruction is `jal x1`.
fn is_link(instr: Option<&Instr>) -> bool
    ensures { result ≡ is_link (option_copied instr.entry) }
{
    match instr {
        Some(Instr::Jal(rd, _)) => rd.number() == 1,
        _ => false,
    }
}
