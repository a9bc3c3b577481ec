ghost use Rattle.std.specs.Prelude.{◌≡◌, ◌*◌, ◌<◌, ◌≤◌, ◌^◌, ℕ, true, IfOk, OnOk, Some, is_some, length, slice_index};
ghost use Rattle.rv_image.specs.Form.{profile_for};
ghost use Rattle.rv_image.specs.Image.{IsImageSize};
ghost use Rattle.rv_image.specs.MemoryMap.{CODE_SIZE};
ghost use Rattle.cfi_map_text.specs.Map.{IsMap};
ghost use Rattle.cfi_map.specs.GraphAtMap.{graph_lines};
ghost use Rattle.cfi_rules.specs.Split.{code_words};
ghost use Rattle.obj_program.specs.DataAtMap.{data_at, init_size};
ghost use Rattle.cfi_writer.specs.Hardened.{chosen};
ghost use Rattle.cfi_writer.specs.Laws.{written_code};
ghost use Rattle.cfi_writer.specs.MapLines.{map_lines};
ghost use Rattle.cfi_writer.specs.Writing.{IsCoded, IsDescribed, IsImageWith, IsWrittenAs, IsWritable};

use crate::chosen::Chosen;
use cfi_code::code_bytes;
use cfi_graph::Graph;
use cfi_map::{Mapped, Spacing};
use cfi_map_text::Map;
use elf_image::write_image_as;
use rv_image::Form;
use rv_word::{Bytes, NoMemory};
use std::alloc::Global;
use std::marker::Model;

/// A hardened program.
#[derive(Drop)]
pub struct Hardened {
    /// The bytes of its image.
    pub image: Bytes,
    /// Its graph.
    pub graph: Graph,
    /// Its map: of each place its gate.
    pub map: Map,
}

impl Model for Hardened {
    ghost use Rattle.cfi_writer.specs.Hardened.{HardenedParts};

    ghost Value = { HardenedParts };

    ghost view = { λ h. record { image = h.image; graph = h.graph; map = h.map } };
}

impl<'c, 'a, 'b> Chosen<'c, 'a, 'b> {
    /// The bytes of the code.
    #[tactic(auto, using(crate::proofs::WholeImage::reaches, crate::proofs::WholeImage::all_fit, crate::proofs::WholeImage::code_of_versions, crate::proofs::WholeImage::in_room))]
    fn code(&self, alloc: Global) -> Result<Vec<u8>, NoMemory>
        ensures words { IfOk result (λ v. code_words v.items ≡ written_code self.now) }
        ensures size { IfOk result (λ v. length v.items ≡ 4 * length (written_code self.now)) }
        ensures room { OnOk result (4 * length (written_code self.now) ≤ CODE_SIZE) }
    {
        let units = self.units(alloc)?;
        code_bytes(
            alloc,
            self.versions(),
            self.entry_arrival(),
            units.as_slice(),
        )
    }

    /// The graph of this code.
    #[tactic(auto, using(crate::proofs::WholeImage::is_graph))]
    fn graph_of(&self, alloc: Global, code: &[u8]) -> Result<Graph, NoMemory>
        requires size { length code.now ≡ 4 * length (written_code self.now) }
        requires room { 4 * length (written_code self.now) ≤ CODE_SIZE }
        ensures { IfOk result (λ graph. graph ≡ record { version = self.now.layout.closed.version; code = length code.now; lines = graph_lines self.now.layout self.now.labels }) }
    {
        let _count = self.count();
        self.graph(alloc, code.len() as u32)
    }

    /// The bytes of the code, with their graph.
    fn coded(&self, alloc: Global) -> Result<(Vec<u8>, Graph), NoMemory>
        ensures { IfOk result (λ c. IsCoded self.now c.0.items c.1) }
    {
        let code = self.code(alloc)?;
        let graph = self.graph_of(alloc, code.as_slice())?;
        Ok((code, graph))
    }

    /// The bytes of the code, with their graph, and the map of the form.
    fn described(&self, alloc: Global, form: Form) -> Result<(Vec<u8>, Graph, Map), NoMemory>
        requires form { self.now.layout.profile ≡ profile_for form }
        requires fits { IsMap (record { form = form; lines = map_lines self.now.layout }) }
        ensures { IfOk result (λ d. IsDescribed form self.now d.0.items d.1 d.2) }
    {
        let (code, graph) = self.coded(alloc)?;
        let map = self.map(alloc, form)?;
        Ok((code, graph, map))
    }
}

/// What is written in a form of a program at a placement with these labels, but for its data.
fn described_of(
    alloc: Global,
    form: Form,
    spacing: &Spacing,
    labels: &[u32],
) -> Result<(Vec<u8>, Graph, Map), NoMemory>
    requires { IsWritable form spacing.now labels.now }
    ensures { IfOk result (λ d. IsDescribed form (chosen spacing.now labels.now) d.0.items d.1 d.2) }
{
    let chosen = Chosen::of(alloc, spacing, labels)?;
    let described = chosen.described(alloc, form)?;
    Ok(described)
}

/// These are bytes.
fn are_small(bytes: &[u8])
    ensures { (k : ℕ) → slice_index bytes.now k < 2 ^ 8 }
{
    // Tells the proof the range of each byte.
    let _len = bytes.len();
}

/// The image of a form of this code with the data of a program at a map.
fn image_of(alloc: Global, form: Form, mapped: &Mapped, code: &[u8]) -> Result<Bytes, NoMemory>
    requires there { is_some (data_at mapped.now.program mapped.now.gates) ≡ true }
    requires size { IsImageSize (length code.now) (init_size mapped.now.program) }
    ensures { IfOk result (IsImageWith form mapped.now code.now) }
{
    let init = mapped.data(alloc)?;
    let data = init.as_slice();
    are_small(code);
    are_small(data);
    let image = write_image_as(alloc, form.image_version(), code, data)?;
    Ok(Bytes::of(image))
}

/// Writes a program in a form at a placement with these labels.
pub fn written(
    alloc: Global,
    form: Form,
    spacing: &Spacing,
    labels: &[u32],
) -> Result<Hardened, NoMemory>
    requires { IsWritable form spacing.now labels.now }
    ensures { IfOk result (λ h. IsWrittenAs form spacing.now labels.now h) }
{
    let mapped = spacing.mapped();
    let _count = mapped.count();
    let (code, graph, map) = described_of(alloc, form, spacing, labels)?;
    let image = image_of(alloc, form, mapped, code.as_slice())?;
    Ok(Hardened { image, graph, map })
}
