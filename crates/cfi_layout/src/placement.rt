ghost use Rattle.std.specs.Prelude.{◌≡◌, ◌<◌, ◌≤◌, [], IfOk, IfErr, Err, length, slice_index};
ghost use Rattle.rv_image.specs.Form.{profile_for};
ghost use Rattle.rv_image.specs.MemoryMap.{CODE_SIZE};
ghost use Rattle.cfi_layout.specs.Starts.{code_size, flag, starts_from};
ghost use Rattle.rv_word.specs.declared.end.End.TheVariants.{Fault, NoMemory as NoPlaceMemory};

use crate::code_too_large::CodeTooLarge;
use crate::starts::{code_size, starts_of};
use rv_image::Form;
use rv_image::memory_map::CODE_SIZE;
use rv_word::End;
use std::alloc::Global;
use std::marker::Model;

/// Where parts stand, by their number from 0: a part is the words of a lead, if there are any, and a unit.
#[derive(Drop)]
pub struct Placement {
    pub(crate) starts: Vec<u64>,
    pub(crate) long: Vec<bool>,
}

impl Model for Placement {
    ghost use Rattle.cfi_layout.specs.Starts.{Placed};

    ghost Value = { Placed };

    ghost view = { λ p. record { starts = p.starts.items; long = p.long.items } };
}

impl Placement {
    /// The address at which a part starts; of the number of parts, where the last ends.
    pub fn start(&self, part: usize) -> u64
        requires { part < length self.now.starts }
        ensures { result ≡ slice_index self.now.starts part }
    {
        self.starts[part]
    }

    /// All these addresses, and at last where the last part ends.
    pub fn starts(&self) -> &[u64]
        ensures { result.now ≡ self.now.starts }
    {
        self.starts.as_slice()
    }

    /// Whether a part has its whole size: a branch's that is written as one word has not.
    pub fn is_long(&self, part: usize) -> bool
        ensures { result ≡ flag self.now.long part }
    {
        match self.long.get(part) {
            Some(long) => *long,
            None => true,
        }
    }
}

/// Places parts of these sizes, in bytes, one after another from the address after the prologue of a form's
/// images; each part is long. Code that is too large is told whether there is memory or not.
pub fn place(alloc: Global, form: Form, sizes: &[u32]) -> Result<Placement, End<CodeTooLarge>>
    ensures starts { IfOk result (λ p. p.starts ≡ starts_from (profile_for form).units_from sizes.now) }
    ensures long { IfOk result (λ p. p.long ≡ []) }
    ensures fits { IfOk result (λ _. code_size (profile_for form).units_from sizes.now ≤ CODE_SIZE) }
    ensures too_large { CODE_SIZE < code_size (profile_for form).units_from sizes.now →
        result ≡ Err (Fault (record { bytes = code_size (profile_for form).units_from sizes.now })) }
    ensures refused { IfErr result (λ end. code_size (profile_for form).units_from sizes.now ≤ CODE_SIZE → end ≡ NoPlaceMemory) }
{
    let bytes = code_size(form, sizes);
    if bytes > u128::from(CODE_SIZE) {
        return Err(End::Fault(CodeTooLarge { bytes }));
    }
    let starts = starts_of(alloc, form, sizes)?;
    Ok(Placement {
        starts,
        long: Vec::new(alloc),
    })
}
