ghost use Rattle.std.specs.Prelude.{◌≡◌, Some, None, IfOk, IfErr};
ghost use Rattle.elf_image.specs.Fault.{fault_of};
ghost use Rattle.rv_image.specs.MemoryMap.{profile_of};
ghost use Rattle.rvcfi_c.specs.Plan.{IsPlanOf};

use elf_image::{ImageRefusal, read_image};
use rv_image::ImageVersion;
use rv_image::memory_map::{CODE_SIZE, CODE_START, DATA_END, DATA_START, SHADOW_START};
use rv_image::profile::{MOST_HARTS, START};

/// Where the code begins in each file of an image.
const CODE_OFFSET: u64 = 0x1000;

/// What a loader maps of an image: where its parts stand in the file and in memory.
#[repr(C)]
#[derive(Clone, Copy)]
pub struct RvcfiPlan {
    /// 1, for one hart, or 2, for up to eight.
    pub version: u32,
    /// How many harts it may have.
    pub harts: u32,
    /// Where each hart starts.
    pub entry: u64,
    /// Where the code begins in the file.
    pub code_offset: u64,
    /// How many bytes of code the file has.
    pub code_length: u64,
    /// Code in memory: readable and executable, zeros past the file's part.
    pub code_address: u64,
    /// How many bytes that is.
    pub code_size: u64,
    /// Initialised data in the file.
    pub data_offset: u64,
    /// How many bytes of initialised data the file has.
    pub data_length: u64,
    /// Where they go.
    pub data_address: u64,
    /// Data in memory are the bytes from 0 up to here: readable and writable, zeros but for the file's part.
    pub data_end: u64,
    /// The shadow stack in memory: readable and writable, zeros.
    pub shadow_address: u64,
    /// How many bytes it has.
    pub shadow_size: u64,
}

/// How many harts an image of a version may have.
fn most_harts(version: ImageVersion) -> u32
    ensures { result ≡ (profile_of version).harts }
{
    match version {
        ImageVersion::OneHart => 1,
        ImageVersion::EightHarts => MOST_HARTS as u32,
    }
}

/// What a loader maps of the image that a file is.
pub(crate) fn plan_of(bytes: &[u8]) -> Result<RvcfiPlan, ImageRefusal>
    ensures plan { IfOk result (IsPlanOf bytes.now) }
    ensures refused { IfErr result (λ refusal. fault_of bytes.now ≡ Some refusal) }
{
    let image = read_image(bytes)?;
    let version = image.version();
    let code = image.code().len() as u64;
    let init = image.init().len();
    Ok(RvcfiPlan {
        version: u32::from(version.number()),
        harts: most_harts(version),
        entry: START,
        code_offset: CODE_OFFSET,
        code_length: code,
        code_address: CODE_START,
        code_size: CODE_SIZE,
        data_offset: (bytes.len() - init) as u64,
        data_length: init as u64,
        data_address: DATA_START,
        data_end: DATA_END,
        shadow_address: SHADOW_START,
        shadow_size: version.shadow_size(),
    })
}
