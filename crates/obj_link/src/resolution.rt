ghost use Rattle.std.specs.Prelude.{◌≡◌, ◌+◌, ◌≤◌, ◌<◌, ℕ, IfOk, length, map};
ghost use Rattle.elf_tables.specs.Header.{e_shnum};
ghost use Rattle.elf_tables.specs.Symbol.{symbol_count};
ghost use Rattle.obj_input.specs.declared.parts.Definition.{Definition};
ghost use Rattle.obj_input.specs.Listed.{listed};
ghost use Rattle.obj_join.specs.Said.{use_behind};
ghost use Rattle.obj_join.specs.Stands.{definition};
ghost use Rattle.obj_join.specs.SaidInput.{use_of, used_definition};
ghost use Rattle.obj_join.specs.Numbers.{by};
ghost use Rattle.obj_join.specs.Table as table;
ghost use Rattle.obj_link.specs.Sections.{use_said, uses_said};
ghost use Rattle.obj_link.specs.Resolution.{slot_definition};
ghost use Rattle.obj_link.specs.SaidOf.{said_by};

use crate::slots::{is_table_use, symbol_of};
use elf_object::{Object, Reloc};
use indexmap::IndexSet;
use obj_input::{Definition, Relocation};
use obj_join::{slot_of, slot_offset};
use rv_word::NoMemory;
use std::alloc::Global;
use std::marker::Model;

/// What uses of the symbol with this number stand for.
fn definition_at(definitions: &[Definition], number: u64) -> Definition
    requires { number < length definitions.now }
    ensures { (given : ℕ → Definition) (count : ℕ) → definitions.now ≡ listed given count → result ≡ given number }
{
    definitions[number as usize]
}

/// What all sections of several objects ask: which symbol each one is, what uses of symbols stand for, which symbols have
/// slots, and how many sections there are.
#[derive(Drop)]
pub(crate) struct Resolution<'r, 'o> {
    objects: &'r [Object<'o>],
    numbers: &'r [u64],
    definitions: &'r [Definition],
    slots: &'r IndexSet<u64>,
    sections: u32,
}

impl<'r, 'o> Model for Resolution<'r, 'o> {
    ghost use Rattle.obj_link.specs.Resolution.{IsResolved, ResolutionParts};

    ghost Value = { ResolutionParts };

    ghost view = { λ r. record { objects = r.objects.now; numbers = r.numbers.now } };

    ghost invariant = { λ r. IsResolved r.objects.now r.numbers.now r.definitions.now r.slots.now.keys r.sections };
}

impl<'r, 'o> Resolution<'r, 'o> {
    /// That of these objects.
    pub(crate) fn of(
        objects: &'r [Object<'o>],
        numbers: &'r [u64],
        definitions: &'r [Definition],
        slots: &'r IndexSet<u64>,
        sections: u32,
    ) -> Resolution<'r, 'o>
        requires count { length numbers.now ≡ length (said_by objects.now).symbols }
        requires stands { definitions.now ≡ listed (definition (by numbers.now) (said_by objects.now).symbols) (length (said_by objects.now).symbols) }
        requires slots { slots.now.keys ≡ table.slots (by numbers.now) (said_by objects.now).sections }
        requires sections { sections ≡ length (said_by objects.now).sections }
        ensures { result ≡ record { objects = objects.now; numbers = numbers.now } }
    {
        Resolution {
            objects,
            numbers,
            definitions,
            slots,
            sections,
        }
    }

    /// The objects.
    pub(crate) fn objects(&self) -> &'r [Object<'o>]
        ensures { result.now ≡ self.now.objects }
    {
        self.objects
    }

    /// How many symbols there are.
    pub(crate) fn count(&self) -> u64
        ensures { result ≡ length (said_by self.now.objects).symbols }
    {
        self.numbers.len() as u64
    }

    /// The slot that a use of the table is one of, behind so many symbols.
    fn slot(&self, symbols: u64, reloc: &Reloc) -> Result<Definition, NoMemory>
        requires { symbols ≤ length (said_by self.now.objects).symbols }
        ensures { IfOk result (λ d. d ≡ slot_definition (by self.now.numbers) (said_by self.now.objects) (symbols + reloc.now.symbol)) }
    {
        let slot = slot_of(self.slots, symbol_of(self.numbers, symbols, reloc)).unwrap_or(0);
        let offset = slot_offset(slot)?;
        Ok(Definition::Within(self.sections, offset))
    }

    /// What the symbol of a relocation stands for, behind so many symbols.
    fn definition(&self, symbols: u64, reloc: &Reloc) -> Definition
        requires { symbols + reloc.now.symbol < length (said_by self.now.objects).symbols }
        ensures { result ≡ definition (by self.now.numbers) (said_by self.now.objects).symbols (symbols + reloc.now.symbol) }
    {
        let _count = self.count();
        let number = symbols + u64::from(reloc.symbol);
        definition_at(self.definitions, number)
    }

    /// What a relocation stands for, behind so many symbols.
    fn used_definition(&self, symbols: u64, reloc: &Reloc) -> Result<Definition, NoMemory>
        requires { symbols + reloc.now.symbol < length (said_by self.now.objects).symbols }
        ensures { IfOk result (λ d. d ≡ used_definition (by self.now.numbers) (said_by self.now.objects) (use_behind symbols (use_said reloc.now))) }
    {
        if is_table_use(reloc) {
            let slot = self.slot(symbols, reloc)?;
            Ok(slot)
        } else {
            Ok(self.definition(symbols, reloc))
        }
    }

    /// A relocation of an object, behind so many symbols.
    fn use_of(&self, symbols: u64, reloc: &Reloc) -> Result<Relocation, NoMemory>
        requires { symbols + reloc.now.symbol < length (said_by self.now.objects).symbols }
        ensures { IfOk result (λ u. u ≡ use_of (by self.now.numbers) (said_by self.now.objects) (use_behind symbols (use_said reloc.now))) }
    {
        let definition = self.used_definition(symbols, reloc)?;
        Ok(Relocation {
            offset: reloc.offset,
            number: reloc.kind,
            addend: reloc.addend,
            definition,
        })
    }

    /// The relocations of the section with this index of an object, behind so many symbols.
    pub(crate) fn uses(
        &self,
        alloc: Global,
        object: &Object,
        symbols: u64,
        k: u32,
    ) -> Result<Vec<Relocation>, NoMemory>
        requires there { k < e_shnum object.now }
        requires symbols { symbols + symbol_count object.now ≤ length (said_by self.now.objects).symbols }
        ensures { IfOk result (λ v. v.items ≡ map (use_of (by self.now.numbers) (said_by self.now.objects)) (map (use_behind symbols) (uses_said object.now k))) }
    {
        let _count = object.sections();
        let relocs = object.relocs(k);
        let mut uses = Vec::new(alloc);
        for j in 0..relocs.count() {
            let reloc = relocs.get(j);
            uses.push(self.use_of(symbols, &reloc)?)?;
        }
        Ok(uses)
    }
}
