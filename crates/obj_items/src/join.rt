ghost use Rattle.std.specs.Prelude.{◌≡◌, ◌∷◌, [], ℕ, List};
ghost use Rattle.obj_items.specs.FromObject.{input_of};
ghost use Rattle.obj_join.specs.Laws.{HasOwnNames};
ghost use Rattle.obj_link.specs.SaidOf.{said_of};
ghost use Rattle.obj_items.specs.Added.{IsAdded};
ghost use Rattle.obj_items.specs.Finished.{IsFinished, Tells};

use crate::finish::finished;
use elf_object::Object;
use obj_program::Items;
use refusals::Refusal;
use rv_word::End;
use std::alloc::Global;
use std::marker::Model;

/// How many sections objects may have in all.
const MAX_SECTIONS: u64 = 1 << 16;

/// Objects that are to be one program, in their order. It borrows the bytes of their files.
#[derive(Drop)]
pub struct Join<'a> {
    alloc: Global,
    objects: Vec<Object<'a>>,
    sections: u64,
}

impl<'a> Model for Join<'a> {
    ghost use Rattle.std.specs.Prelude.{◌≡◌, ◌≤◌, ◌^◌, List, ℕ};
    ghost use Rattle.obj_items.specs.Added.{section_total};

    ghost Value = { List (List ℕ) };

    ghost view = { λ j. j.objects.items };

    ghost invariant = { λ j. (j.sections ≡ section_total j.objects.items) × (j.sections ≤ 2 ^ 16) };
}

impl<'a> Join<'a> {
    /// No objects. It takes no memory.
    pub fn new(alloc: Global) -> Join<'a>
        ensures { result ≡ [] }
    {
        Join {
            alloc,
            objects: Vec::new(alloc),
            sections: 0,
        }
    }

    /// Puts the object that a file is behind the others. After an error the objects are those that they were, and a fault of the
    /// file is told with the number, from 1, that the object would have had.
    pub fn add(&mut self, object: &'a [u8]) -> Result<(), End<Refusal>>
        ensures { IsAdded self.old object.now result self.new }
    {
        let object = match Object::read(self.alloc, object) {
            Ok(object) => object,
            Err(End::Fault(fault)) => {
                let number = self.objects.len() as u64 + 1;
                return Err(End::Fault(Refusal::ObjectIn(fault, number)));
            }
            Err(End::NoMemory) => return Err(End::NoMemory),
        };
        let sections = self.sections + u64::from(object.sections());
        if sections > MAX_SECTIONS {
            return Err(End::Fault(Refusal::TooManySections(sections)));
        }
        self.objects.push(object)?;
        self.sections = sections;
        Ok(())
    }

    /// The program that the objects are, where no name is defined twice and nothing is wrong with their instructions and
    /// relocations.
    pub fn finish(self) -> Result<Items<'a>, End<Refusal>>
        ensures finished { IsFinished self.entry result }
        // One object whose names all differ is the program that it is by itself.
        ensures alone { (object : List ℕ) → self.entry ≡ object ∷ [] → HasOwnNames (said_of object).symbols → Tells (object ∷ []) (input_of object) result }
    {
        finished(self.alloc, &self.objects)
    }
}
