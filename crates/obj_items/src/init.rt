//! Initialised data before relocation.

ghost use Rattle.std.specs.Prelude.{◌≡◌, ◌<◌, ◌^◌, IfOk, OnOk};
ghost use Rattle.obj_input.specs.Input.{section_count};
ghost use Rattle.obj_input.specs.DataLayout.{data_layout_of, section_address};
ghost use Rattle.obj_items.specs.InitialData.{init_below, placed};

use obj_input::{DataLayout, Input, Section};
use obj_program::InitialData;
use rv_image::memory_map::DATA_START;
use rv_word::NoMemory;
use std::alloc::Global;

/// The address of the section with this index, 0 of one that is no data.
pub(crate) fn section_address(input: &Input, layout: &DataLayout, k: u32) -> u128
    requires { layout.now ≡ data_layout_of input.now }
    ensures value { result ≡ section_address input.now k }
    ensures small { result < 2 ^ 126 }
{
    layout.section(k)
}

/// Puts bytes behind others, so that they begin at this address; the first of all stands at `DATA_START`.
fn put_at<'a>(init: &mut InitialData<'a>, address: u128, bytes: &'a [u8]) -> Result<(), NoMemory>
    ensures { OnOk result (init.new ≡ placed init.old address bytes.now) }
{
    init.put_at(address.saturating_sub(u128::from(DATA_START)), bytes)
}

/// Puts the bytes of a section behind others, so that they begin at this address.
fn put_section<'a>(
    init: &mut InitialData<'a>,
    address: u128,
    section: &Section<'a>,
) -> Result<(), NoMemory>
    ensures { OnOk result (init.new ≡ placed init.old address section.now.content) }
{
    let (bytes, zeros) = section.bytes();
    put_at(init, address, bytes)?;
    if zeros != 0 {
        init.put_zeros(zeros)?;
    }
    Ok(())
}

/// The initialised data before relocations, from `DATA_START` on. No byte of them is copied.
pub(crate) fn init<'a>(
    alloc: Global,
    input: &Input<'a>,
    layout: &DataLayout,
) -> Result<InitialData<'a>, NoMemory>
    requires { layout.now ≡ data_layout_of input.now }
    ensures { IfOk result (λ v. v ≡ init_below input.now (section_count input.now)) }
{
    let mut init = InitialData::new(alloc);
    for k in 0..input.section_count() {
        let section = input.section(k);
        if section.is_data() {
            let address = section_address(input, layout, k);
            put_section(&mut init, address, section)?;
        }
    }
    Ok(init)
}
