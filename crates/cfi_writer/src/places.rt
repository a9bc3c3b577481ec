//! The lines of the map that is written.

ghost use Rattle.std.specs.Prelude.{◌≡◌, IfOk};
ghost use Rattle.rv_image.specs.Form.{profile_for};
ghost use Rattle.cfi_map_text.specs.Map.{IsMap};
ghost use Rattle.cfi_map.specs.LegalMap.{IsLegalMap};
ghost use Rattle.cfi_writer.specs.MapLines.{map_lines};

use crate::chosen::Chosen;
use cfi_map_text::{Map, MapLine, MapLines};
use rv_image::Form;
use rv_word::NoMemory;
use std::alloc::Global;

impl<'c, 'a, 'b> Chosen<'c, 'a, 'b> {
    /// The lines of the map: each place's section and offset with its gate.
    #[tactic(auto, using(crate::proofs::PlaceLines::next_places, crate::proofs::PlaceLines::all_places))]
    pub fn map_lines(&self, alloc: Global) -> Result<MapLines, NoMemory>
        ensures { IfOk result (λ lines. lines ≡ map_lines self.now.layout) }
    {
        let mut lines = Vec::new(alloc);
        for k in 0..self.count() {
            let item = self.item(k);
            lines.push(MapLine {
                gate: self.gate(k),
                section: item.section,
                offset: item.offset,
            })?;
        }
        Ok(MapLines::of(lines))
    }

    /// The map of its form, where that may have these lines. It is a legal one.
    pub fn map(&self, alloc: Global, form: Form) -> Result<Map, NoMemory>
        requires form { self.now.layout.profile ≡ profile_for form }
        requires fits { IsMap (record { form = form; lines = map_lines self.now.layout }) }
        ensures lines { IfOk result (λ map. map ≡ record { form = form; lines = map_lines self.now.layout }) }
        ensures legal { IfOk result (λ map. IsLegalMap self.now.layout.program self.now.layout.closed self.now.layout.entry map) }
    {
        let _count = self.count();
        let lines = self.map_lines(alloc)?;
        Map::of(alloc, form, lines)
    }
}
